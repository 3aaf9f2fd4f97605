//! The rows of a leaf line.

ghost use Rattle.std.specs.Prelude.{◌≡◌, ◌<◌, ◌≤◌, ◌+◌, ◌-◌, ◌%◌, ◌^◌, take, map, true, false, drop, length, MatchOption};
ghost use Rattle.life_mc.specs.Words.{mask_l, is_cell, is_leaf, leaf_bytes, byte_of_row, first_row, leading_cells, TellsRow};

use std::simd::prelude::*;

/// Which of the first eight bytes of a text are cells: a bit each, that of the first byte the lowest. With the bit of 4 set, `*` is `.`, and
/// no other byte but `.` is.
fn cell_places(text: &[u8]) -> u64
    requires { 8 ≤ length text.now }
    ensures { result ≡ mask_l (map is_cell (take 8 text.now)) }
{
    let bytes = u8x8::from_slice(text) | u8x8::splat(4);
    bytes.simd_eq(u8x8::splat(b'.')).to_bitmask()
}

/// How many of the first eight bytes of a text are cells, up to the first that is none. Bit 8 represents the byte after these.
fn cells_in_prefix(text: &[u8]) -> usize
    requires { 8 ≤ length text.now }
    ensures { result ≡ leading_cells 8 text.now }
{
    (511 - cell_places(text)).trailing_zeros() as usize
}

/// The first eight bytes of a text as a row.
fn eight_columns(text: &[u8]) -> u8
    requires { 8 ≤ length text.now }
    ensures { result ≡ byte_of_row (take 8 text.now) }
{
    let bytes = u8x8::from_slice(text).reverse();
    bytes.simd_eq(u8x8::splat(b'*')).to_bitmask() as u8
}

/// The bits of the columns before one.
const COLUMNS_BEFORE: [u8; 9] = [0, 128, 192, 224, 240, 248, 252, 254, 255];

/// A row without its columns from this one on.
fn first_columns(row: u8, column: usize) -> u8
    requires { column ≤ 8 }
    ensures { result ≡ row - row % 2 ^ (8 - column) }
{
    row & COLUMNS_BEFORE[column]
}

/// The first row of a text of more than eight bytes, if it is one of a leaf, and how many bytes it has. The first eight bytes are looked at
/// together.
#[inline(always)]
fn whole_row(text: &[u8]) -> Option<(u8, usize)>
    requires { 8 < length text.now }
    ensures { TellsRow (first_row text.now) result }
{
    let end = cells_in_prefix(text);
    if text[end] != b'$' {
        return None;
    }
    Some((first_columns(eight_columns(text), end), end))
}

/// The same of a shorter text, which is ended as a row is.
fn short_row(text: &[u8]) -> Option<(u8, usize)>
    requires { length text.now ≤ 8 }
    ensures { TellsRow (first_row text.now) result }
{
    let mut ended = [b'$'; 16];
    ended[..text.len()].copy_from_slice(text);
    whole_row(&ended)
}

/// The first row of a text, if it is one of a leaf, and how many bytes it has.
fn read_row(text: &[u8]) -> Option<(u8, usize)>
    ensures { TellsRow (first_row text.now) result }
{
    if text.len() > 8 {
        whole_row(text)
    } else {
        short_row(text)
    }
}

/// What follows a row of this length and the `$` that ends it.
fn behind_row(text: &[u8], end: usize) -> &[u8]
    requires { end < length text.now }
    ensures { result.now ≡ drop (end + 1) text.now }
{
    &text[end + 1..]
}

/// The eight rows of a leaf line.
pub(crate) fn read_leaf(text: &[u8]) -> Option<[u8; 8]>
    ensures { MatchOption result (is_leaf text.now ≡ false)
        (λ rows. (is_leaf text.now ≡ true) × (rows ≡ leaf_bytes text.now)) }
{
    let mut rows = [0; 8];
    let mut rest = text;
    for ended in 0..8 {
        let (row, end) = read_row(rest)?;
        rows[ended] = row;
        if end == rest.len() {
            return Some(rows);
        }
        rest = behind_row(rest, end);
    }
    if rest.is_empty() { Some(rows) } else { None }
}
