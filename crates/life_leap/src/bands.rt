//! Sixteen rows of sixteen cells as four words of 64 bits, and their next generations. Each word has four rows, and its highest bit is the north-western cell.
ghost use Rattle.std.specs.Prelude.{◌≡◌, ℕ, ℤ, ◌+◌, ◌-◌, ◌*◌, ◌/◌, ◌%◌, ◌^◌, ◌<◌, ◌≤◌, IfOk, IfErr};
ghost use Rattle.life_leap.specs.Words.{after, bit_at, eight, four, place_in, next_life, HasSquareBits, HasBandWithin, AreBandsWithin, AreFourSquares, IsMiddleAfter, InRow, IsBinary, IsOfLevel, IsPiece, leap_length, quad, KeepsStore, IsShortageIn, step_ahead};

use crate::grid::{Row, sixteenths};
use life_base::{Kind, LifeRule};
use life_lanes::exchange;
use life_next::{NineWords, next_word};
use life_pieces::{Three, cells_of_small};
use life_quad::{Id, Squares};

/// Four rows of sixteen cells, from the cells of four squares of level 2 side by side. The squares are in the order of `Squares::small_cells`, and the western
/// one has the highest sixteen bits.
fn rows_of_squares(squares: u64) -> u64
    ensures { (r q i : ℕ) → r < 4 → q < 4 → i < 4
        → bit_at result (63 - (16 * r + 4 * q + i))
        ≡ bit_at squares (63 - (16 * q + place_in r i)) }
{
    let pairs = exchange(squares, 0x0C0C_0C0C_0C0C_0C0C, 2);
    let halves = exchange(pairs, 0x0000_0000_FF00_FF00, 24);
    exchange(halves, 0x0000_F0F0_0000_F0F0, 12)
}

/// The reverse of `rows_of_squares`: the cells of four squares side by side, from their four rows.
fn squares_of_rows(rows: u64) -> u64
    ensures { (r q i : ℕ) → r < 4 → q < 4 → i < 4
        → bit_at result (63 - (16 * q + place_in r i)) ≡ bit_at rows (63 - (16 * r + 4 * q + i)) }
{
    let halves = exchange(rows, 0x0000_F0F0_0000_F0F0, 12);
    let pairs = exchange(halves, 0x0000_0000_FF00_FF00, 24);
    exchange(pairs, 0x0C0C_0C0C_0C0C_0C0C, 2)
}

/// Sixteen rows of sixteen cells.
#[derive(Clone, Copy)]
pub(crate) struct Bands {
    pub(crate) first: u64,
    pub(crate) second: u64,
    pub(crate) third: u64,
    pub(crate) fourth: u64,
}

/// The four rows of sixteen cells of four squares of level 2 side by side.
fn band_of<S: Squares>(squares: &S, row: &Row<Id>) -> u64
    requires { InRow (IsOfLevel (S.knows squares.now) (S.content squares.now) 2) row.now }
    ensures { (cells : ℤ → ℤ → ℕ) (x y : ℤ) → IsBinary cells
        → AreFourSquares (S.content squares.now) cells 4 x y row.now
        → (r i : ℕ) → r < 4 → i < 16
        → bit_at result (63 - (16 * r + i)) ≡ cells (step_ahead x i) (step_ahead y r) }
{
    let a = cells_of_small(squares, row.first);
    let b = cells_of_small(squares, row.second);
    let c = cells_of_small(squares, row.third);
    let d = cells_of_small(squares, row.fourth);
    rows_of_squares(((a * 65_536 + b) * 65_536 + c) * 65_536 + d)
}

/// The sixteen rows of a square of level 4. Their numbers go from 4 to 19, so that a row above the first band has a number too.
fn bands_of<S: Squares>(squares: &S, id: Id) -> Bands
    requires { IsOfLevel (S.knows squares.now) (S.content squares.now) 4 id }
    ensures { (cells : ℤ → ℤ → ℕ) (x y : ℤ) → IsBinary cells
        → IsPiece cells x (step_ahead y 4) (S.content squares.now id)
        → AreBandsWithin 0 cells x y result }
{
    let sixteen = sixteenths(squares, 2, id);
    Bands {
        first: band_of(squares, &sixteen.first),
        second: band_of(squares, &sixteen.second),
        third: band_of(squares, &sixteen.third),
        fourth: band_of(squares, &sixteen.fourth),
    }
}

/// The cells of four rows, with their western and eastern neighbours. A bit that comes from another row is never read: each generation loses a column
/// on each side.
#[inline(always)]
fn columns_of(row: u64) -> Three<u64>
    ensures { result ≡ record { before = row / 2 ^ 1; here = row; after = row * 2 ^ 1 % 2 ^ 64 } }
{
    Three {
        before: row >> 1,
        here: row,
        after: row << 1,
    }
}

/// The next generation of four rows, from the rows above and below. Where the given rows are known but for m columns and rows at the sides, the answer is
/// known but for m + 1.
#[inline(always)]
fn next_band(above: u64, here: u64, below: u64, rule: &LifeRule) -> u64
    ensures { (cells : ℤ → ℤ → ℕ) (x y : ℤ) (m t : ℕ) → HasBandWithin m cells x y t above
        → HasBandWithin m cells x y (t + 4) here → HasBandWithin m cells x y (t + 8) below
        → HasBandWithin (m + 1) (next_life rule.now cells) x y (t + 4) result }
{
    let north = above % 0x1_0000 * 0x1_0000_0000_0000 + here / 0x1_0000;
    let south = here % 0x1_0000_0000_0000 * 0x1_0000 + below / 0x1_0000_0000_0000;
    let words: NineWords = Three {
        before: columns_of(north),
        here: columns_of(here),
        after: columns_of(south),
    };
    next_word(&words, rule)
}

/// The next generation of sixteen rows, which is known but for one more column and row at each side.
#[inline(always)]
fn next_bands(bands: &Bands, rule: &LifeRule) -> Bands
    ensures { (cells : ℤ → ℤ → ℕ) (x y : ℤ) (m : ℕ) → AreBandsWithin m cells x y bands.now
        → AreBandsWithin (m + 1) (next_life rule.now cells) x y result }
{
    Bands {
        first: next_band(0, bands.first, bands.second, rule),
        second: next_band(bands.first, bands.second, bands.third, rule),
        third: next_band(bands.second, bands.third, bands.fourth, rule),
        fourth: next_band(bands.third, bands.fourth, 0, rule),
    }
}

/// The cells of the two squares of level 2 in the middle of four rows: the western one, and the eastern one.
fn middle_squares(band: u64) -> (u16, u16)
    ensures west { (cells : ℤ → ℤ → ℕ) (x y : ℤ) (m t : ℕ) → m ≤ 4 → 8 ≤ t → t ≤ 12
        → HasBandWithin m cells x y t band
        → HasSquareBits cells (step_ahead x 4) (step_ahead y t) result.0 }
    ensures east { (cells : ℤ → ℤ → ℕ) (x y : ℤ) (m t : ℕ) → m ≤ 4 → 8 ≤ t → t ≤ 12
        → HasBandWithin m cells x y t band
        → HasSquareBits cells (step_ahead x 8) (step_ahead y t) result.1 }
{
    let squares = squares_of_rows(band);
    (
        ((squares >> 32) % 0x1_0000) as u16,
        ((squares >> 16) % 0x1_0000) as u16,
    )
}

/// The cells of four squares of level 2, in the order of `Squares::leaf`.
fn leaf_of_four(nw: u16, ne: u16, sw: u16, se: u16) -> u64
    ensures { eight result ≡ quad (four nw) (four ne) (four sw) (four se) }
{
    let north = u64::from(nw) * 0x1_0000 + u64::from(ne);
    let south = u64::from(sw) * 0x1_0000 + u64::from(se);
    north * 0x1_0000_0000 + south
}

/// The 64 cells in the middle of sixteen rows, in the order of `Squares::leaf`.
fn middle_cells(bands: &Bands) -> u64
    ensures { (cells : ℤ → ℤ → ℕ) (x y : ℤ) (m : ℕ) → m ≤ 4 → AreBandsWithin m cells x y bands.now
        → IsPiece cells (step_ahead x 4) (step_ahead y 8) (eight result) }
{
    let (nw, ne) = middle_squares(bands.second);
    let (sw, se) = middle_squares(bands.third);
    leaf_of_four(nw, ne, sw, se)
}

/// Sixteen rows 2^pace generations later, or 4 generations later if the pace is greater than 2. As many columns and rows are unknown at each side.
fn bands_later(bands: Bands, rule: &LifeRule, pace: u8) -> Bands
    ensures { (cells : ℤ → ℤ → ℕ) (x y : ℤ) → AreBandsWithin 0 cells x y bands
        → AreBandsWithin (leap_length pace 4) (after rule.now (leap_length pace 4) cells) x y
        result }
{
    let one = next_bands(&bands, rule);
    if pace == 0 {
        return one;
    }
    let two = next_bands(&one, rule);
    if pace == 1 {
        return two;
    }
    next_bands(&next_bands(&two, rule), rule)
}

/// The square of level 3 in the middle of a square of level 4, 2^pace generations later, or 4 generations later if the pace is greater than 2.
pub(crate) fn leaf_after<S: Squares>(
    squares: &mut S,
    rule: &LifeRule,
    pace: u8,
    id: Id,
) -> Result<Id, Kind>
    requires { IsOfLevel (S.knows squares.old) (S.content squares.old) 4 id }
    ensures at { IfOk result (IsOfLevel (S.knows squares.new) (S.content squares.new) 3) }
    ensures later { IfOk result (λ r. IsMiddleAfter rule.now (leap_length pace 4) 4
        (S.content squares.old id) (S.content squares.new r)) }
    ensures keeps { KeepsStore S.Squares squares.old squares.new }
    ensures refusals { IfErr result (IsShortageIn S.Squares squares.new) }
{
    let bands = bands_of(squares, id);
    let later = bands_later(bands, rule, pace);
    squares.leaf(middle_cells(&later))
}
