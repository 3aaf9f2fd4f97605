//! Rows of cells of the states 0 and 1, 64 columns at a time: a word has a bit for each column, and that of the westernmost is the highest.
ghost use Rattle.std.specs.Prelude.{◌≡◌, ℕ, ◌+◌, ◌-◌, ◌*◌, ◌<◌, ◌≤◌, bit_or};
ghost use Rattle.life_strip.specs.Words.{four, blank, AreRowBlocks, IsPastBlocks, IsAtBlock, word_in, block_goes_to, bit_at, cell_in_word, place_in, cells_among_four, square_of_words};

use crate::blocks::Block;
use crate::spans::NEVER;
use life_lanes::exchange;

// The place of a row at a block of 64 columns: the block of cells that is there or comes next, without its columns before that one.
#[derive(Clone, Copy)]
pub(crate) struct BlockPlace {
    pub(crate) index: usize,
    // `NEVER` if no block is left.
    pub(crate) start: u64,
    // `NEVER` if no block is left.
    pub(crate) end: u64,
    pub(crate) cells: u64,
}

// The words of two rows, one below the other.
#[derive(Clone, Copy)]
pub(crate) struct TwoWords {
    pub(crate) north: u64,
    pub(crate) south: u64,
}

// The place of a row where the block at the index comes next.
#[inline(always)]
pub(crate) fn next_block(blocks: &[Block], index: usize) -> BlockPlace
    requires { AreRowBlocks blocks.now }
    ensures { (number : ℕ) → number < NEVER → IsPastBlocks blocks.now index number
        → IsAtBlock blocks.now number result }
{
    if index < blocks.len() {
        let block = blocks[index];
        return BlockPlace {
            index,
            start: block.start,
            end: block.end,
            cells: block.cells,
        };
    }
    BlockPlace {
        index,
        start: NEVER,
        end: NEVER,
        cells: 0,
    }
}

// The place at a later block, no later than where the one before ends.
#[inline(always)]
pub(crate) fn pass_blocks(blocks: &[Block], place: BlockPlace, number: u64) -> BlockPlace
    requires blocks { AreRowBlocks blocks.now }
    requires place { (before : ℕ) × (before ≤ number) × IsAtBlock blocks.now before place }
    requires reach { number ≤ place.end }
    requires number { number < NEVER }
    ensures { IsAtBlock blocks.now number result }
{
    if number < place.end {
        return BlockPlace {
            start: place.start.max(number),
            ..place
        };
    }
    next_block(blocks, place.index + 1)
}

// The word of a row at a block before the end of its place.
#[inline(always)]
fn word_of(place: BlockPlace, number: u64) -> u64
    ensures { result ≡ word_in place number }
{
    if place.start <= number {
        place.cells
    } else {
        0
    }
}

// The block up to which it goes on.
#[inline(always)]
pub(crate) fn block_end(place: BlockPlace, number: u64) -> u64
    ensures { result ≡ block_goes_to place number }
{
    if place.start <= number {
        place.end
    } else {
        place.start
    }
}

// The words of two rows.
#[inline(always)]
pub(crate) fn two_words(north: BlockPlace, south: BlockPlace, number: u64) -> TwoWords
    ensures north { result.north ≡ word_in north number }
    ensures south { result.south ≡ word_in south number }
{
    TwoWords {
        north: word_of(north, number),
        south: word_of(south, number),
    }
}

// The sixteen columns of a part of four words, one row after the other.
#[inline(always)]
fn sixteen_columns(upper: TwoWords, lower: TwoWords, part: u64) -> u64
    requires { part < 4 }
    ensures first { (k : ℕ) → k < 16
        → bit_at result (63 - k) ≡ cell_in_word upper.north (16 * part + k) }
    ensures second { (k : ℕ) → k < 16
        → bit_at result (47 - k) ≡ cell_in_word upper.south (16 * part + k) }
    ensures third { (k : ℕ) → k < 16
        → bit_at result (31 - k) ≡ cell_in_word lower.north (16 * part + k) }
    ensures fourth { (k : ℕ) → k < 16
        → bit_at result (15 - k) ≡ cell_in_word lower.south (16 * part + k) }
{
    let shift = 48 - 16 * part;
    let first = (upper.north >> shift) % 0x1_0000;
    let second = (upper.south >> shift) % 0x1_0000;
    let third = (lower.north >> shift) % 0x1_0000;
    let fourth = (lower.south >> shift) % 0x1_0000;
    ((first * 0x1_0000 + second) * 0x1_0000 + third) * 0x1_0000 + fourth
}

// The cells of the four squares of level 2 of sixteen columns, one square after the other. Those of each quarter are together.
#[inline(always)]
fn by_squares(rows: u64) -> u64
    ensures { (i r c : ℕ) → i < 4 → r < 4 → c < 4
        → bit_at result (63 - (16 * i + place_in r c)) ≡ bit_at rows (63 - (16 * r + 4 * i + c)) }
{
    let halves = exchange(rows, 0x0000_0000_FF00_FF00, 24);
    let squares = exchange(halves, 0x0000_F0F0_0000_F0F0, 12);
    exchange(squares, 0x0C0C_0C0C_0C0C_0C0C, 2)
}

// The cells of the four squares of level 2 in a part of four words.
#[inline(always)]
pub(crate) fn four_squares(upper: TwoWords, lower: TwoWords, part: u64) -> u64
    requires { part < 4 }
    ensures { (i : ℕ) → i < 4
        → four (cells_among_four result i) ≡ square_of_words upper lower (4 * part + i) }
{
    by_squares(sixteen_columns(upper, lower, part))
}

// The cells of one of four squares, as `Squares::small` takes them.
#[inline(always)]
pub(crate) fn cells_of(squares: u64, square: u64) -> u16
    requires { square < 4 }
    ensures { result ≡ cells_among_four squares square }
{
    ((squares >> (48 - 16 * square)) % 0x1_0000) as u16
}

// The cells of all four rows.
#[inline(always)]
fn all_rows(upper: TwoWords, lower: TwoWords) -> u64
    ensures { result ≡ bit_or (bit_or (bit_or upper.north upper.south) lower.north) lower.south }
{
    upper.north | upper.south | lower.north | lower.south
}

// The first square of level 2 with a cell, or the one after the last.
#[inline(always)]
pub(crate) fn blank_to(upper: TwoWords, lower: TwoWords) -> u64
    ensures within { result ≤ 16 }
    ensures blank { (i : ℕ) → i < result → square_of_words upper lower i ≡ blank 2 }
{
    u64::from(all_rows(upper, lower).leading_zeros() / 4)
}

// The square of level 2 after the last one with a cell.
#[inline(always)]
pub(crate) fn blank_from(upper: TwoWords, lower: TwoWords) -> u64
    ensures within { result ≤ 16 }
    ensures blank { (i : ℕ) → result ≤ i → i < 16 → square_of_words upper lower i ≡ blank 2 }
{
    16 - u64::from(all_rows(upper, lower).trailing_zeros() / 4)
}
