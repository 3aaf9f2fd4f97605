//! A row of cells of the states 0 and 1 as words of 64 columns: filled from west to east, and walked along.
ghost use Rattle.std.specs.Prelude.{◌≡◌, ℕ, suc, ◌+◌, ◌-◌, ◌^◌, ◌%◌, ◌<◌, ◌≤◌, IfErr, List, OnOk};
ghost use Rattle.life_rows.specs.Words.{AddsWord, AreWestOf, AreColumns, AreInner, AreRowWords, AreWordsBefore, IsRowAt, IsMemory, place_ahead, PutsCells, RowWordValue};

use life_base::{Kind, MAX_LEVEL};
use life_pieces::Three;
use life_strip::{RowWord, bits_of_columns};

// The place of the next word where none is left.
pub(crate) const NEVER: u64 = u64::MAX;

// A row at a place on the way from west to east.
#[derive(Clone, Copy)]
pub(crate) struct RowPlace {
    // The cells of the place before.
    pub(crate) west: u64,
    // The cells of this place.
    pub(crate) here: u64,
    // How many words of the row are at this place or west of it.
    pub(crate) passed: usize,
}

// Puts cells into columns of one word, east of the others.
#[inline(always)]
fn push_piece(words: &mut Vec<RowWord>, start: u64, end: u64) -> Result<(), Kind>
    requires words { AreRowWords words.old.items }
    requires before { AreWordsBefore start words.old.items }
    requires some { start < end }
    requires one { start % 64 + (end - start) ≤ 64 }
    requires within { end ≤ 2 ^ MAX_LEVEL }
    ensures puts { OnOk result (PutsCells words.old.items words.new.items start end) }
    ensures refusals { IfErr result IsMemory }
{
    let place = start / 64;
    let cells = bits_of_columns(start % 64, end - start);
    if let Some(last) = words.last_mut() {
        if last.place == place {
            last.cells |= cells;
            return Ok(());
        }
    }
    words.push(RowWord { place, cells })?;
    Ok(())
}

// Puts cells into columns of more than one word, piece by piece. It is never inlined, so that `push_cells` can be.
#[inline(never)]
fn push_pieces(words: &mut Vec<RowWord>, start: u64, end: u64) -> Result<(), Kind>
    requires words { AreRowWords words.old.items }
    requires before { AreWordsBefore start words.old.items }
    requires some { start < end }
    requires within { end ≤ 2 ^ MAX_LEVEL }
    ensures puts { OnOk result (PutsCells words.old.items words.new.items start end) }
    ensures refusals { IfErr result IsMemory }
{
    let mut from = start;
    while from < end {
        let to = end.min(64 * (from / 64) + 64);
        push_piece(words, from, to)?;
        from = to;
    }
    Ok(())
}

// Puts cells into the columns from one to before another one, east of the others.
#[inline(always)]
pub(crate) fn push_cells(words: &mut Vec<RowWord>, start: u64, end: u64) -> Result<(), Kind>
    requires words { AreRowWords words.old.items }
    requires before { AreWordsBefore start words.old.items }
    requires some { start < end }
    requires within { end ≤ 2 ^ MAX_LEVEL }
    ensures puts { OnOk result (PutsCells words.old.items words.new.items start end) }
    ensures refusals { IfErr result IsMemory }
{
    if start % 64 + (end - start) <= 64 {
        push_piece(words, start, end)
    } else {
        push_pieces(words, start, end)
    }
}

// Gives a place its cells, east of the others.
#[inline(always)]
pub(crate) fn push_word(words: &mut Vec<RowWord>, place: u64, cells: u64) -> Result<(), Kind>
    requires words { AreRowWords words.old.items }
    requires before { AreWestOf place words.old.items }
    requires within { place < 2 ^ (MAX_LEVEL - 6) }
    ensures adds { OnOk result (AddsWord words.old.items words.new.items place cells) }
    ensures refusals { IfErr result IsMemory }
{
    if cells != 0 {
        words.push(RowWord { place, cells })?;
    }
    Ok(())
}

// A row at the western edge of the plane.
#[inline(always)]
pub(crate) fn at_edge() -> RowPlace
    ensures { (words : List RowWordValue) → AreInner words → IsRowAt words 0 result }
{
    RowPlace {
        west: 0,
        here: 0,
        passed: 0,
    }
}

// The place of the next word.
#[inline(always)]
pub(crate) fn next_place(words: &[RowWord], at: RowPlace) -> u64
    ensures { result ≡ place_ahead words.now at.passed }
{
    if at.passed < words.len() {
        words[at.passed].place
    } else {
        NEVER
    }
}

// The row one place further east.
#[inline(always)]
pub(crate) fn one_place_on(words: &[RowWord], at: RowPlace, place: u64) -> RowPlace
    requires words { AreRowWords words.now }
    requires at { IsRowAt words.now place at }
    requires within { place < 2 ^ MAX_LEVEL }
    ensures { IsRowAt words.now (place + 1) result }
{
    if next_place(words, at) == place + 1 {
        return RowPlace {
            west: at.here,
            here: words[at.passed].cells,
            passed: at.passed + 1,
        };
    }
    RowPlace {
        west: at.here,
        here: 0,
        passed: at.passed,
    }
}

// The cells of a place amid those of the columns one further west and one further east, by the row at the place and at the one after it.
#[inline(always)]
pub(crate) fn columns_around(at: RowPlace, next: RowPlace) -> Three<u64>
    ensures { (words : List RowWordValue) (place : ℕ) → IsRowAt words place at
        → IsRowAt words (place + 1) next → AreColumns words place result }
{
    Three {
        before: at.here >> 1 | at.west << 63,
        here: at.here,
        after: at.here << 1 | next.here >> 63,
    }
}
