//! The blocks of a row while runs are put into it.
ghost use Rattle.std.specs.Prelude.{◌≡◌, ℕ, ℤ, pos, neg_ℤ, ◌+ℤ◌, ◌≤ℤ◌, ◌+◌, ◌*◌, ◌%◌, ◌/◌, ◌^◌, ◌<◌, ◌≤◌, [], ◌∷◌, ◌++◌, false, IsTrue, IfSome};
ghost use Rattle.life_strip.specs.Words.{AddsCells, AreBlocksBefore, AreOpen, AreRowBlocks, blocks_of, half_plane, vec_capacity, vec_len};

use crate::blocks::{Block, bits_of_columns, block_of};
use crate::plane::{coordinate, offset};
use life_base::MAX_LEVEL;

// The blocks of a row, of which the last is kept apart: most runs are within it, and then nothing else is read or written.
#[derive(Drop)]
pub(crate) struct OpenBlocks {
    // All blocks but the last, with capacity for that one.
    blocks: Vec<Block>,
    last: Block,
    // The coordinate of the last block's westernmost column.
    west: i64,
}

impl OpenBlocks {
    // The blocks of a row with its last one.
    #[inline(always)]
    pub(crate) fn new(blocks: Vec<Block>, last: Block) -> OpenBlocks
        requires blocks { AreRowBlocks (blocks.items ++ last ∷ []) }
        requires space { vec_len blocks < vec_capacity blocks }
        ensures sound { AreOpen result }
        ensures blocks { blocks_of result ≡ blocks.items ++ last ∷ [] }
    {
        OpenBlocks {
            blocks,
            last,
            west: coordinate(64 * last.start),
        }
    }

    // Cells in columns of a block that begins after the last one. Returns whether it took them: not where they are in more than one block, or
    // where there is no capacity for one block more.
    #[inline(always)]
    fn begin_block(&mut self, start: u64, len: u64) -> bool
        requires sound { AreOpen self.old }
        requires before { AreBlocksBefore start (blocks_of self.old) }
        requires some { 0 < len }
        requires within { start + len ≤ 2 ^ MAX_LEVEL }
        requires behind { self.old.last.start ≡ start / 64 → 64 < start % 64 + len }
        ensures sound { AreOpen self.new }
        ensures adds { IsTrue result
            → AddsCells (blocks_of self.old) (blocks_of self.new) start (start + len) }
        ensures left { result ≡ false → blocks_of self.new ≡ blocks_of self.old }
    {
        if start % 64 + len > 64 || self.blocks.len() + 1 >= self.blocks.capacity() {
            return false;
        }
        self.blocks.push_reserved(self.last);
        self.last = block_of(start, len);
        self.west = coordinate(64 * self.last.start);
        true
    }

    // Cells side by side, east of the others. Returns whether it took them: not where they are in more than one block, or where there is no
    // capacity for one block more.
    #[inline(always)]
    pub(crate) fn add(&mut self, x: i64, len: u64) -> bool
        requires sound { AreOpen self.old }
        requires before { (column : ℕ) → pos column ≡ x +ℤ pos half_plane
            → AreBlocksBefore column (blocks_of self.old) }
        requires some { 0 < len }
        requires west { neg_ℤ (pos half_plane) ≤ℤ x }
        requires east { (x +ℤ pos len) ≤ℤ pos half_plane }
        ensures sound { AreOpen self.new }
        ensures adds { IsTrue result → (column : ℕ) → pos column ≡ x +ℤ pos half_plane
            → AddsCells (blocks_of self.old) (blocks_of self.new) column (column + len) }
        ensures left { result ≡ false → blocks_of self.new ≡ blocks_of self.old }
    {
        let from = (x - self.west) as u64;
        if from + len <= 64 {
            self.last.cells += bits_of_columns(from, len);
            return true;
        }
        self.begin_block(offset(x), len)
    }

    // The blocks in one vector.
    #[inline(always)]
    pub(crate) fn close(self) -> Vec<Block>
        requires { AreOpen self }
        ensures { result.items ≡ blocks_of self }
    {
        let OpenBlocks { blocks, last, .. } = self;
        let mut all = blocks;
        all.push_reserved(last);
        all
    }
}
