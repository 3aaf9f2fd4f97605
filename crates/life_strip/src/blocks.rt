//! A row of cells of the states 0 and 1, 64 columns at a time.
ghost use Rattle.std.specs.Prelude.{◌≡◌, ℕ, ◌+◌, ◌-◌, ◌*◌, ◌/◌, ◌%◌, ◌^◌, ◌<◌, ◌≤◌, [], IfOk, IfErr, OnOk};
ghost use Rattle.life_strip.specs.Words.{Tree, point, AddsCells, AreBefore, AreRowBlocks, AreBlocksBefore, AreRowWords, AreWithin, FilledTo, IsRowBlock, IsBlockBefore, IsMemory, IsStrip, Rise, cell_in_blocks, cell_in_word, cell_in_words, square_at};

use crate::row_builder::RowWord;
use crate::spans::{Span, extend};
use crate::spare::Spare;
use life_base::{Kind, MAX_LEVEL};
use life_quad::Squares;

// The cells of 64 columns, the westernmost in the highest bit, or of several times as many, each of which has a cell.
// `start` and `end` count blocks of 64 columns from the western edge of the plane.
#[derive(Clone, Copy)]
pub(crate) struct Block {
    pub(crate) start: u64,
    pub(crate) end: u64,
    pub(crate) cells: u64,
}

/// The bits of `count` columns of a word of 64 columns, beginning with column `from`. The westernmost column, 0, is the highest bit.
#[inline(always)]
pub fn bits_of_columns(from: u64, count: u64) -> u64
    requires some { 0 < count }
    requires within { from + count ≤ 64 }
    ensures { result ≡ 2 ^ (64 - from) - 2 ^ (64 - (from + count)) }
{
    (u64::MAX << (64 - count)) >> from
}

// The block of cells in some of its columns.
#[inline(always)]
pub(crate) fn block_of(start: u64, len: u64) -> Block
    requires some { 0 < len }
    requires one { start % 64 + len ≤ 64 }
    requires within { start + len ≤ 2 ^ MAX_LEVEL }
    ensures start { result.start ≡ start / 64 }
    ensures end { result.end ≡ start / 64 + 1 }
    ensures cells { result.cells ≡ 2 ^ (64 - start % 64) - 2 ^ (64 - (start % 64 + len)) }
{
    let block = start / 64;
    Block {
        start: block,
        end: block + 1,
        cells: bits_of_columns(start % 64, len),
    }
}

// Cells in columns of one block, east of the others.
#[inline(always)]
fn add_within(blocks: &mut Vec<Block>, start: u64, end: u64) -> Result<(), Kind>
    requires blocks { AreRowBlocks blocks.old.items }
    requires before { AreBlocksBefore start blocks.old.items }
    requires some { start < end }
    requires one { start % 64 + (end - start) ≤ 64 }
    requires within { end ≤ 2 ^ MAX_LEVEL }
    ensures adds { OnOk result (AddsCells blocks.old.items blocks.new.items start end) }
    ensures refusals { IfErr result IsMemory }
{
    let block = start / 64;
    let cells = bits_of_columns(start % 64, end - start);
    if let Some(last) = blocks.last_mut() {
        if last.start == block {
            last.cells += cells;
            return Ok(());
        }
    }
    blocks.push(Block {
        start: block,
        end: block + 1,
        cells,
    })?;
    Ok(())
}

// Whole blocks of cells, east of the others, if there is one.
fn add_whole(blocks: &mut Vec<Block>, start: u64, end: u64) -> Result<(), Kind>
    requires blocks { AreRowBlocks blocks.old.items }
    requires before { AreBlocksBefore (64 * start) blocks.old.items }
    requires order { start ≤ end }
    requires within { end ≤ 2 ^ (MAX_LEVEL - 6) }
    ensures adds { OnOk result
        (AddsCells blocks.old.items blocks.new.items (64 * start) (64 * end)) }
    ensures refusals { IfErr result IsMemory }
{
    if start == end {
        return Ok(());
    }
    blocks.push(Block {
        start,
        end,
        cells: u64::MAX,
    })?;
    Ok(())
}

// Cells in columns of one block, if there is one.
fn add_part(blocks: &mut Vec<Block>, start: u64, end: u64) -> Result<(), Kind>
    requires blocks { AreRowBlocks blocks.old.items }
    requires before { AreBlocksBefore start blocks.old.items }
    requires order { start ≤ end }
    requires one { start % 64 + (end - start) ≤ 64 }
    requires within { end ≤ 2 ^ MAX_LEVEL }
    ensures adds { OnOk result (AddsCells blocks.old.items blocks.new.items start end) }
    ensures refusals { IfErr result IsMemory }
{
    if start == end {
        return Ok(());
    }
    add_within(blocks, start, end)
}

// Cells in columns of more than one block: a part of the western one, those that are whole, and a part of the eastern one. It is never inlined,
// so that `add_cells` can be.
#[inline(never)]
fn add_across(blocks: &mut Vec<Block>, start: u64, end: u64) -> Result<(), Kind>
    requires blocks { AreRowBlocks blocks.old.items }
    requires before { AreBlocksBefore start blocks.old.items }
    requires several { 64 < start % 64 + (end - start) }
    requires within { end ≤ 2 ^ MAX_LEVEL }
    ensures adds { OnOk result (AddsCells blocks.old.items blocks.new.items start end) }
    ensures refusals { IfErr result IsMemory }
{
    let first = start.div_ceil(64);
    let last = end / 64;
    add_part(blocks, start, 64 * first)?;
    add_whole(blocks, first, last)?;
    add_part(blocks, 64 * last, end)
}

// Cells in some columns, east of the others.
#[inline(always)]
pub(crate) fn add_cells(blocks: &mut Vec<Block>, start: u64, end: u64) -> Result<(), Kind>
    requires blocks { AreRowBlocks blocks.old.items }
    requires before { AreBlocksBefore start blocks.old.items }
    requires some { start < end }
    requires within { end ≤ 2 ^ MAX_LEVEL }
    ensures blocks { OnOk result (AreRowBlocks blocks.new.items) }
    ensures before { OnOk result (AreBlocksBefore end blocks.new.items) }
    ensures inside { OnOk result
        ((c : ℕ) → start ≤ c → c < end → cell_in_blocks blocks.new.items c ≡ 1) }
    ensures others { OnOk result ((c : ℕ) → ¬ ((start ≤ c) × (c < end))
        → cell_in_blocks blocks.new.items c ≡ cell_in_blocks blocks.old.items c) }
    ensures refusals { IfErr result IsMemory }
{
    if start % 64 + (end - start) <= 64 {
        add_within(blocks, start, end)
    } else {
        add_across(blocks, start, end)
    }
}

// The blocks of the words of a row, in a vector that has none yet. It takes memory once at most, and none if the vector has the capacity.
pub(crate) fn blocks_of_words(blocks: Vec<Block>, words: &[RowWord]) -> Result<Vec<Block>, Kind>
    requires none { blocks.items ≡ [] }
    requires words { AreRowWords words.now }
    ensures blocks { IfOk result (λ r. AreRowBlocks r.items) }
    ensures cells { IfOk result
        (λ r. (c : ℕ) → cell_in_blocks r.items c ≡ cell_in_words words.now c) }
    ensures refusals { IfErr result IsMemory }
{
    let mut all = blocks;
    all.reserve(words.len())?;
    for word in words {
        all.push_reserved(Block {
            start: word.place,
            end: word.place + 1,
            cells: word.cells,
        });
    }
    Ok(all)
}

// The cells of a block as spans, east of the others.
fn push_cells<S: Squares>(squares: &S, spans: &mut Vec<Span>, block: Block) -> Result<(), Kind>
    requires block { IsRowBlock block }
    requires before { AreBefore (64 * block.start) spans.old.items }
    ensures filled { OnOk result ((want : ℕ → Tree)
        → FilledTo (S.knows squares.now) (S.content squares.now) 0 want spans.old.items
        (64 * block.start)
        → ((c : ℕ) → 64 * block.start ≤ c → c < 64 * block.end
        → want c ≡ point (cell_in_word block.cells (c % 64)))
        → FilledTo (S.knows squares.now) (S.content squares.now) 0 want spans.new.items
        (64 * block.end)) }
    ensures before { OnOk result ((n : ℕ) → AreBefore n spans.old.items → IsBlockBefore n block
        → AreBefore n spans.new.items) }
    ensures refusals { IfErr result IsMemory }
{
    let one = squares.cell(1);
    let mut column = 64 * block.start;
    let end = 64 * block.end;
    if block.start + 1 < block.end {
        return extend(spans, column, end, one);
    }
    while column < end {
        if (block.cells >> (63 - column % 64)) % 2 == 1 {
            extend(spans, column, column + 1, one)?;
        }
        column += 1;
    }
    Ok(())
}

// The same row as spans. Only a pattern of more than two states needs them, so they are made column by column.
pub(crate) fn spans_of<S: Squares>(
    squares: &S,
    spare: &mut Spare,
    blocks: &[Block],
) -> Result<Vec<Span>, Kind>
    requires blocks { AreRowBlocks blocks.now }
    ensures strip { IfOk result
        (λ r. IsStrip (S.knows squares.now) (S.content squares.now) 0 r.items) }
    ensures within { IfOk result (λ r. AreWithin 0 r.items) }
    ensures rises { IfOk result (λ r. Rise r.items) }
    ensures cells { IfOk result (λ r. (c : ℕ) → square_at (S.content squares.now) 0 r.items c
        ≡ point (cell_in_blocks blocks.now c)) }
    ensures before { IfOk result
        (λ r. (n : ℕ) → AreBlocksBefore n blocks.now → AreBefore n r.items) }
    ensures refusals { IfErr result IsMemory }
{
    let mut spans = spare.take(blocks.len())?;
    let mut index = 0;
    while index < blocks.len() {
        push_cells(squares, &mut spans, blocks[index])?;
        index += 1;
    }
    Ok(spans)
}
