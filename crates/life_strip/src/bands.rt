//! Four rows of cells of the states 0 and 1, made into squares of level 2 at once, 64 columns at a time.
ghost use Rattle.std.specs.Prelude.{◌≡◌, ℕ, suc, ◌+◌, ◌-◌, ◌*◌, ◌%◌, ◌^◌, ◌<◌, ◌≤◌, IfOk, OnOk};
ghost use Rattle.life_strip.specs.Words.{Tree, SomePart, four, four_in, Grows, AreRowBlocks, IsStrip, AreWithin, FilledTo, Rise, square_at, cells_among_four, square_of_words, SomeColumn, IsLeastOfFour, block_goes_to};

use crate::blocks::Block;
use crate::spans::{NEVER, Span, extend};
use crate::spare::Spare;
use crate::words::{
    BlockPlace, TwoWords, blank_from, blank_to, block_end, cells_of, four_squares, next_block,
    pass_blocks, two_words,
};
use life_base::{Kind, MAX_LEVEL};
use life_quad::Squares;
use std::ops::Range;

// A square of level 2 with these cells in some columns east of the others. A blank one has no span.
#[inline(always)]
fn push_square<S: Squares>(
    squares: &mut S,
    spans: &mut Vec<Span>,
    cells: u16,
    columns: Range<u64>,
) -> Result<(), Kind>
    requires { columns.start < columns.end }
    ensures filled { OnOk result ((want : ℕ → Tree)
        → FilledTo (S.knows squares.old) (S.content squares.old) 2 want spans.old.items
        columns.start → ((c : ℕ) → columns.start ≤ c → c < columns.end → want c ≡ four cells)
        → FilledTo (S.knows squares.new) (S.content squares.new) 2 want spans.new.items
        columns.end) }
    ensures grows { Grows S.Squares squares.old squares.new result (λ P. SomePart P (four cells)) }
{
    if cells == 0 {
        return Ok(());
    }
    let id = squares.small(cells)?;
    extend(spans, columns.start, columns.end, id)
}

// Some of four squares of level 2 side by side, east of the others.
#[inline(always)]
fn push_some<S: Squares>(
    squares: &mut S,
    spans: &mut Vec<Span>,
    cells: u64,
    column: u64,
    some: Range<u64>,
) -> Result<(), Kind>
    requires order { some.start ≤ some.end }
    requires within { some.end ≤ 4 }
    requires column { column ≤ 2 ^ MAX_LEVEL }
    ensures filled { OnOk result ((want : ℕ → Tree)
        → FilledTo (S.knows squares.old) (S.content squares.old) 2 want spans.old.items
        (column + some.start)
        → ((i : ℕ) → i < 4 → want (column + i) ≡ four (cells_among_four cells i))
        → FilledTo (S.knows squares.new) (S.content squares.new) 2 want spans.new.items
        (column + some.end)) }
    ensures grows { Grows S.Squares squares.old squares.new result
        (λ P. (i : ℕ) × (i < 4) × SomePart P (four (cells_among_four cells i))) }
{
    let mut square = some.start;
    while square < some.end {
        let start = column + square;
        push_square(squares, spans, cells_of(cells, square), start..start + 1)?;
        square += 1;
    }
    Ok(())
}

// The squares of level 2 of the columns of a block, or of several blocks where all of them are one square.
fn push_block<S: Squares>(
    squares: &mut S,
    spans: &mut Vec<Span>,
    upper: TwoWords,
    lower: TwoWords,
    block: u64,
    next: u64,
) -> Result<(), Kind>
    requires beyond { block < next }
    requires within { next ≤ 2 ^ (MAX_LEVEL - 6) }
    requires alike { suc block < next → (i : ℕ) → i < 16
        → square_of_words upper lower i ≡ square_of_words upper lower 0 }
    ensures filled { OnOk result ((want : ℕ → Tree)
        → FilledTo (S.knows squares.old) (S.content squares.old) 2 want spans.old.items
        (16 * block) → ((c : ℕ) → 16 * block ≤ c → c < 16 * next
        → want c ≡ square_of_words upper lower (c % 16))
        → FilledTo (S.knows squares.new) (S.content squares.new) 2 want spans.new.items
        (16 * next)) }
    ensures grows { Grows S.Squares squares.old squares.new result
        (λ P. (i : ℕ) × (i < 16) × SomePart P (square_of_words upper lower i)) }
{
    let start = 16 * block;
    if block + 1 < next {
        let cells = four_squares(upper, lower, 0);
        return push_square(squares, spans, cells_of(cells, 0), start..16 * next);
    }
    let last = blank_from(upper, lower);
    let mut square = blank_to(upper, lower);
    while square < last {
        let part = square / 4;
        let end = last.min(4 * part + 4);
        let cells = four_squares(upper, lower, part);
        let some = square % 4..end - 4 * part;
        push_some(squares, spans, cells, start + 4 * part, some)?;
        square = end;
    }
    Ok(())
}

// The least of four numbers.
#[inline(always)]
fn least(a: u64, b: u64, c: u64, d: u64) -> u64
    ensures { IsLeastOfFour result a b c d }
{
    a.min(b).min(c.min(d))
}

// The block up to which all four rows go on.
#[inline(always)]
fn rows_end(a: BlockPlace, b: BlockPlace, c: BlockPlace, d: BlockPlace, block: u64) -> u64
    ensures { IsLeastOfFour result (block_goes_to a block) (block_goes_to b block)
        (block_goes_to c block) (block_goes_to d block) }
{
    least(
        block_end(a, block),
        block_end(b, block),
        block_end(c, block),
        block_end(d, block),
    )
}

// For how many spans four short rows get capacity at most.
const SHORT_SPACE: usize = 256;

// For how many spans four rows get capacity. For rows of one block the least will do, and a block has 16 squares at most. Long rows whose blocks have
// several squares each make their spans grow, because most rows of single cells far apart need one span for each block.
fn most_spans(first: &[Block], second: &[Block], third: &[Block], fourth: &[Block]) -> usize {
    let north = first.len().max(second.len());
    let most = north.max(third.len()).max(fourth.len());
    if most > 1 {
        most.saturating_mul(16).min(SHORT_SPACE).max(most)
    } else {
        0
    }
}

// The strip of level 2 of four rows of cells of the states 0 and 1.
pub(crate) fn band_spans<S: Squares>(
    squares: &mut S,
    spare: &mut Spare,
    first: &[Block],
    second: &[Block],
    third: &[Block],
    fourth: &[Block],
) -> Result<Vec<Span>, Kind>
    requires first { AreRowBlocks first.now }
    requires second { AreRowBlocks second.now }
    requires third { AreRowBlocks third.now }
    requires fourth { AreRowBlocks fourth.now }
    ensures strip { IfOk result
        (λ r. IsStrip (S.knows squares.new) (S.content squares.new) 2 r.items) }
    ensures within { IfOk result (λ r. AreWithin 2 r.items) }
    ensures rises { IfOk result (λ r. Rise r.items) }
    ensures squares { IfOk result (λ r. (column : ℕ)
        → square_at (S.content squares.new) 2 r.items column
        ≡ four_in first.now second.now third.now fourth.now column) }
    ensures grows { Grows S.Squares squares.old squares.new result
        (λ P. SomeColumn (SomePart P) 2 (four_in first.now second.now third.now fourth.now)) }
{
    let mut spans = spare.take(most_spans(first, second, third, fourth))?;
    let mut a = next_block(first, 0);
    let mut b = next_block(second, 0);
    let mut c = next_block(third, 0);
    let mut d = next_block(fourth, 0);
    let mut next: u64 = 0;
    // Up to here all is blank.
    let mut block = least(a.start, b.start, c.start, d.start);
    while block < NEVER {
        let upper = two_words(a, b, block);
        let lower = two_words(c, d, block);
        next = rows_end(a, b, c, d, block);
        push_block(squares, &mut spans, upper, lower, block, next)?;
        a = pass_blocks(first, a, next);
        b = pass_blocks(second, b, next);
        c = pass_blocks(third, c, next);
        d = pass_blocks(fourth, d, next);
        block = least(a.start, b.start, c.start, d.start);
    }
    Ok(spans)
}
