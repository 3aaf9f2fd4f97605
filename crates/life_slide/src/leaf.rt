//! Squares of level 2 and 3 that begin at another place, by words of cells.
ghost use Rattle.std.specs.Prelude.{◌≡◌, ℕ, ℤ, ◌+◌, ◌-◌, ◌*◌, ◌%◌, ◌<◌, min, IfSome};
ghost use Rattle.life_slide.specs.Words.{bit_at, place_in, square_from, HasSquareBits, HasRows, IsBlock, InBlock, IsOfLevel, IsPiece, step_ahead, four, eight};

use crate::slide::Offset;
use life_lanes::{by_quarters, by_rows};
use life_quad::{Id, Quarters, Squares};

// The cells of the north-western square of level 2 of eight rows.
fn first_square(rows: u64) -> u16
    ensures { (r i : ℕ) → r < 4 → i < 4
        → bit_at result (15 - place_in r i) ≡ bit_at rows (63 - (8 * r + i)) }
{
    (by_quarters(rows) >> 48) as u16
}

// The cells of a square of level 2, where the store gives them.
fn cells_in<S: Squares>(squares: &S, id: Id) -> Option<u64>
    requires { S.knows squares.now id }
    ensures small { IfSome result (λ n. n < 65536) }
    ensures square { IfSome result (λ n. S.content squares.now id ≡ four n) }
{
    let cells = squares.small_cells(id)?;
    Some(u64::from(cells))
}

// The eight rows of the cells of four squares of level 2, where the store gives them.
fn rows_of<S: Squares>(squares: &S, block: &Quarters) -> Option<u64>
    requires { InBlock (IsOfLevel (S.knows squares.now) (S.content squares.now) 2) block.now }
    ensures { IfSome result (λ rows. (cells : ℤ → ℤ → ℕ) (x y : ℤ)
        → IsBlock (S.content squares.now) cells 4 x y block.now → HasRows cells x y rows) }
{
    let a = cells_in(squares, block.nw)?;
    let b = cells_in(squares, block.ne)?;
    let c = cells_in(squares, block.sw)?;
    let d = cells_in(squares, block.se)?;
    Some(by_rows(((a * 65_536 + b) * 65_536 + c) * 65_536 + d))
}

// The cells of the square of level 2 that begins so many columns east and rows south of the first of eight rows.
fn cells_at(rows: u64, east: u64, south: u64) -> u16
    requires east { east < 4 }
    requires south { south < 4 }
    ensures { (cells : ℤ → ℤ → ℕ) (x y : ℤ) → HasRows cells x y rows
        → HasSquareBits cells (step_ahead x east) (step_ahead y south) result }
{
    first_square(rows << (8 * south + east))
}

/// The cells of the square of level 2 that begins in the first of four, where the store gives theirs. It is inlined, so that a slide calls nothing for them.
#[inline(always)]
pub(crate) fn leaf_cells<S: Squares>(
    squares: &S,
    offset: Offset,
    level: u8,
    block: &Quarters,
) -> Option<u16>
    requires known { InBlock (IsOfLevel (S.knows squares.now) (S.content squares.now) level)
        block.now }
    ensures small { IfSome result (λ n. n < 65536) }
    ensures level { IfSome result (λ _. level ≡ 2) }
    ensures cells { IfSome result (λ n. (cells : ℤ → ℤ → ℕ) (x y : ℤ)
        → IsBlock (S.content squares.now) cells 4 x y block.now
        → HasSquareBits cells (step_ahead x (offset.columns % 4)) (step_ahead y (offset.rows % 4))
        n) }
{
    if level != 2 {
        return None;
    }
    let rows = rows_of(squares, block)?;
    Some(cells_at(rows, offset.columns % 4, offset.rows % 4))
}

// The eight rows of the cells of a square of level 3, where the store gives them.
fn rows_in<S: Squares>(squares: &S, id: Id) -> Option<u64>
    requires { IsOfLevel (S.knows squares.now) (S.content squares.now) 3 id }
    ensures { IfSome result (λ rows. (cells : ℤ → ℤ → ℕ) (x y : ℤ)
        → IsPiece cells x y (S.content squares.now id) → HasRows cells x y rows) }
{
    let cells = squares.leaf_cells(id)?;
    Some(by_rows(cells))
}

// The eight rows that begin so many rows south of a word's, by the word of the eight rows below.
fn rows_south(here: u64, below: u64, rows: u64) -> u64
    requires { rows < 8 }
    ensures { (cells : ℤ → ℤ → ℕ) (x y : ℤ) → HasRows cells x y here
        → HasRows cells x (step_ahead y 8) below → HasRows cells x (step_ahead y rows) result }
{
    if rows == 0 {
        return here;
    }
    (here << (8 * rows)) | (below >> (64 - 8 * rows))
}

// In each of eight rows all columns but the last ones, by how many these are.
const FIRST_COLUMNS: [u64; 8] = [
    0xFFFF_FFFF_FFFF_FFFF,
    0xFEFE_FEFE_FEFE_FEFE,
    0xFCFC_FCFC_FCFC_FCFC,
    0xF8F8_F8F8_F8F8_F8F8,
    0xF0F0_F0F0_F0F0_F0F0,
    0xE0E0_E0E0_E0E0_E0E0,
    0xC0C0_C0C0_C0C0_C0C0,
    0x8080_8080_8080_8080,
];

// In each of eight rows all columns but so many at the end, as bits that are 1.
fn columns_but(last: u64) -> u64
    requires { last < 8 }
    ensures { (r i : ℕ) → r < 8 → i < 8
        → bit_at result (63 - (8 * r + i)) ≡ min (8 - (i + last)) 1 }
{
    FIRST_COLUMNS[last as usize]
}

// The eight columns that begin so many columns east of a word's, by the word of the eight columns east of it.
fn columns_east(here: u64, east: u64, columns: u64) -> u64
    requires { columns < 8 }
    ensures { (cells : ℤ → ℤ → ℕ) (x y : ℤ) → HasRows cells x y here
        → HasRows cells (step_ahead x 8) y east → HasRows cells (step_ahead x columns) y result }
{
    let mask = columns_but(columns);
    ((here << columns) & mask) | ((east >> (8 - columns)) & !mask)
}

/// The cells of the square of level 3 that begins in the first of four, as `Squares::leaf` takes them, where the store gives theirs.
pub(crate) fn leaf_of_block<S: Squares>(
    squares: &S,
    offset: Offset,
    level: u8,
    block: &Quarters,
) -> Option<u64>
    requires { InBlock (IsOfLevel (S.knows squares.now) (S.content squares.now) level) block.now }
    ensures level { IfSome result (λ _. level ≡ 3) }
    ensures cells { IfSome result (λ leaf. (cells : ℤ → ℤ → ℕ) (x y : ℤ)
        → IsBlock (S.content squares.now) cells 8 x y block.now
        → eight leaf ≡ square_from cells 3 (step_ahead x (offset.columns % 8))
        (step_ahead y (offset.rows % 8))) }
{
    if level != 3 {
        return None;
    }
    let nw = rows_in(squares, block.nw)?;
    let ne = rows_in(squares, block.ne)?;
    let sw = rows_in(squares, block.sw)?;
    let se = rows_in(squares, block.se)?;
    let rows = offset.rows % 8;
    let west = rows_south(nw, sw, rows);
    let east = rows_south(ne, se, rows);
    Some(by_quarters(columns_east(west, east, offset.columns % 8)))
}
