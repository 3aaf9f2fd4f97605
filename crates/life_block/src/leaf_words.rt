//! Words of eight rows of eight cells, and their next states. The highest bit is the north-western cell, then come the cells east of it, and then
//! the rows south of it.
ghost use Rattle.std.specs.Prelude.{◌≡◌, ℕ, ℤ, ◌<◌, ◌==◌, if◌then◌else◌};
ghost use Rattle.life_block.specs.Words.{bit_at, one_before, one_after, next_life, HasRows, AreThreeRows, AreNineRows, AreSixteenRows, leaf_of_cells, square_of_leaves, square_from, step_back, step_ahead, four, eight, next_square};

use life_base::LifeRule;
use life_lanes::{by_quarters, by_rows};
use life_next::{NineWords, next_word};
use life_pieces::{Four, Three};

// The bits of one word where a mask has 1, and those of another where it has 0.
#[inline(always)]
fn blend(mask: u64, ones: u64, zeros: u64) -> u64
    ensures { (i : ℕ) → i < 64
        → bit_at result i ≡ (if bit_at mask i == 1 then bit_at ones i else bit_at zeros i) }
{
    (ones & mask) | (zeros & !mask)
}

// The eight rows that begin one row north of a word's, by the word of the eight rows above.
#[inline(always)]
fn one_row_north(above: u64, here: u64) -> u64
    ensures { (cells : ℤ → ℤ → ℕ) (x y : ℤ) → HasRows cells x (step_back y 8) above
        → HasRows cells x y here → HasRows cells x (one_before y) result }
{
    above % 0x100 * 0x100_0000_0000_0000 + here / 0x100
}

// Those that begin one row south, by the word of the eight rows below.
#[inline(always)]
fn one_row_south(here: u64, below: u64) -> u64
    ensures { (cells : ℤ → ℤ → ℕ) (x y : ℤ) → HasRows cells x y here
        → HasRows cells x (step_ahead y 8) below → HasRows cells x (one_after y) result }
{
    here % 0x100_0000_0000_0000 * 0x100 + below / 0x100_0000_0000_0000
}

// The eight columns that begin one column west of a word's, by the word of the eight columns west of it.
#[inline(always)]
fn one_column_west(west: u64, here: u64) -> u64
    ensures { (cells : ℤ → ℤ → ℕ) (x y : ℤ) → HasRows cells (step_back x 8) y west
        → HasRows cells x y here → HasRows cells (one_before x) y result }
{
    blend(0x7F7F_7F7F_7F7F_7F7F, here >> 1, west << 7)
}

// Those that begin one column east, by the word of the eight columns east of it.
#[inline(always)]
fn one_column_east(here: u64, east: u64) -> u64
    ensures { (cells : ℤ → ℤ → ℕ) (x y : ℤ) → HasRows cells x y here
        → HasRows cells (step_ahead x 8) y east → HasRows cells (one_after x) y result }
{
    blend(0xFEFE_FEFE_FEFE_FEFE, here << 1, east >> 7)
}

// The words that begin one column west of the middle one of three, where it begins, and one column east.
#[inline(always)]
fn columns_around(three: &Three<u64>) -> Three<u64>
    ensures { (cells : ℤ → ℤ → ℕ) (x y : ℤ) → AreThreeRows cells 8 x y three.now
        → AreThreeRows cells 1 x y result }
{
    Three::of(
        one_column_west(three.before, three.here),
        three.here,
        one_column_east(three.here, three.after),
    )
}

// The word in the middle of nine squares side by side, and those that begin one row or column further.
#[inline(always)]
fn words_around(nine: &NineWords) -> NineWords
    ensures { (cells : ℤ → ℤ → ℕ) (x y : ℤ) → AreNineRows cells 8 x y nine.now
        → AreNineRows cells 1 x y result }
{
    let north = Three::of(
        one_row_north(nine.before.before, nine.here.before),
        one_row_north(nine.before.here, nine.here.here),
        one_row_north(nine.before.after, nine.here.after),
    );
    let south = Three::of(
        one_row_south(nine.here.before, nine.after.before),
        one_row_south(nine.here.here, nine.after.here),
        one_row_south(nine.here.after, nine.after.after),
    );
    Three::of(
        columns_around(&north),
        columns_around(&nine.here),
        columns_around(&south),
    )
}

// The cells of the four squares of level 2 that eight rows of next states are, from the rows and those around them.
fn next_cells(nine: &NineWords, rule: &LifeRule) -> Four<u16>
    ensures { (cells : ℤ → ℤ → ℕ) (x y : ℤ) → AreNineRows cells 8 x y nine.now
        → leaf_of_cells result ≡ square_from (next_life rule.now cells) 3 x y }
{
    let cells = by_quarters(next_word(&words_around(nine), rule));
    Four::of(
        (cells >> 48) as u16,
        ((cells >> 32) % 0x1_0000) as u16,
        ((cells >> 16) % 0x1_0000) as u16,
        (cells % 0x1_0000) as u16,
    )
}

/// The same of the four words in the middle of sixteen.
pub(crate) fn next_leaves(sixteen: &Four<Four<u64>>, rule: &LifeRule) -> Four<Four<u16>>
    ensures { (cells : ℤ → ℤ → ℕ) (x y : ℤ) → AreSixteenRows cells x y sixteen.now
        → square_of_leaves result ≡ square_from (next_life rule.now cells) 4 x y }
{
    Four::of(
        next_cells(&sixteen.north().western(), rule),
        next_cells(&sixteen.north().eastern(), rule),
        next_cells(&sixteen.rear().western(), rule),
        next_cells(&sixteen.rear().eastern(), rule),
    )
}

/// The cells of the next states of a square of level 2 about the middle of the plane and of the cells around it, from its cells as
/// `Squares::small_cells` takes them.
pub(crate) fn next_of_four(cells: u64, rule: &LifeRule) -> Four<u16>
    requires { cells < 65536 }
    ensures { leaf_of_cells result ≡ next_square rule.now (four cells) }
{
    // They begin in row 2 and column 2 of eight rows of eight.
    let rows = by_rows(cells << 48) >> 18;
    let none = Three::of(0, 0, 0);
    next_cells(&Three::of(none, Three::of(0, rows, 0), none), rule)
}

/// The same of a square of level 3, from its cells as `Squares::leaf_cells` takes them.
pub(crate) fn next_of_eight(cells: u64, rule: &LifeRule) -> Four<Four<u16>>
    ensures { square_of_leaves result ≡ next_square rule.now (eight cells) }
{
    // Each quarter is in a corner of one of the four squares in the middle of sixteen.
    let none = Four::of(0, 0, 0, 0);
    let north_east = by_rows((cells >> 32) % 0x1_0000 << 16);
    let south_west = by_rows((cells >> 16) % 0x1_0000 << 32);
    let north = Four::of(0, by_rows(cells >> 48), north_east, 0);
    let south = Four::of(0, south_west, by_rows(cells << 48), 0);
    next_leaves(&Four::of(none, north, south, none), rule)
}
