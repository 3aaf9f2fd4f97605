//! Words whose bits are put into another order.
ghost use Rattle.std.specs.Prelude.{◌≡◌, ℕ, ◌+◌, ◌-◌, ◌*◌, ◌<◌, ◌^◌};
ghost use Rattle.life_lanes.specs.Words.{bit_at, bit_and, place_in_leaf, exchanged};

/// A word with each bit of a mask exchanged with the one so many places above it.
#[inline(always)]
pub fn exchange(word: u64, mask: u64, distance: u32) -> u64
    requires near { distance < 64 }
    requires within { mask * 2 ^ distance < 2 ^ 64 }
    requires apart { bit_and mask (mask * 2 ^ distance) ≡ 0 }
    ensures { (i : ℕ) → bit_at result i ≡ bit_at word (exchanged mask distance i) }
{
    let different = (word ^ (word >> distance)) & mask;
    word ^ different ^ (different << distance)
}

/// The cells of four squares of level 2, two by two, from their eight rows of eight cells. The north-western cell is the highest bit of both
/// words; in the result the cells of each square are together, and those of each quarter of it.
#[inline(always)]
pub fn by_quarters(rows: u64) -> u64
    ensures { (r i : ℕ) → r < 8 → i < 8
        → bit_at result (63 - place_in_leaf r i) ≡ bit_at rows (63 - (8 * r + i)) }
{
    let halves = exchange(rows, 0x0000_F0F0_0000_F0F0, 12);
    let pairs = exchange(halves, 0x00F0_00F0_00F0_00F0, 4);
    exchange(pairs, 0x0C0C_0C0C_0C0C_0C0C, 2)
}

/// The eight rows of eight cells of four squares of level 2, two by two, from their cells as [`by_quarters`] gives them.
#[inline(always)]
pub fn by_rows(quarters: u64) -> u64
    ensures { (r i : ℕ) → r < 8 → i < 8
        → bit_at result (63 - (8 * r + i)) ≡ bit_at quarters (63 - place_in_leaf r i) }
{
    let pairs = exchange(quarters, 0x0C0C_0C0C_0C0C_0C0C, 2);
    let halves = exchange(pairs, 0x00F0_00F0_00F0_00F0, 4);
    exchange(halves, 0x0000_F0F0_0000_F0F0, 12)
}
