//! Vectors that are not used any more, and wait for the next row or strip.
ghost use Rattle.std.specs.Prelude.{◌≡◌, [], IfOk, IfErr};
ghost use Rattle.life_strip.specs.Words.{IsMemory};

use crate::blocks::Block;
use crate::row::Row;
use crate::spans::Span;
use life_base::Kind;
use std::alloc::Global;

// For how many items a vector that waits has capacity at most, so that no more memory than that waits with it.
const MOST_SPACE: usize = 256;

// For how many items a new vector has capacity at least.
const LEAST_SPACE: usize = 8;

// Of so many squares that were joined one by one, the processor's cache holds those that are stored.
const FEW_SQUARES: usize = 0x1_0000;

// Vectors whose items are of no more use. Short rows and strips come one after the other, and each would ask the allocator for a vector of its own.
#[derive(Drop)]
pub(crate) struct Spare {
    alloc: Global,
    spans: Vec<Vec<Span>>,
    blocks: Vec<Vec<Block>>,
    // How many squares were joined one by one, as far as they are counted.
    joined: usize,
}

// A vector without items, with capacity for so many: one that waits, if it has it.
#[inline(always)]
fn take_from<T: Drop>(
    alloc: Global,
    waiting: &mut Vec<Vec<T>>,
    space: usize,
) -> Result<Vec<T>, Kind>
    ensures empty { IfOk result (λ items. items.items ≡ []) }
    ensures refusals { IfErr result IsMemory }
{
    if space <= MOST_SPACE {
        if let Some(vector) = waiting.pop() {
            if space <= vector.capacity() {
                let mut items = vector;
                items.clear();
                return Ok(items);
            }
        }
    }
    let items = Vec::with_capacity(alloc, space.max(LEAST_SPACE))?;
    Ok(items)
}

// Keeps a vector whose items are of no more use. One without memory of its own is dropped, a long one goes back to the allocator, and so does
// one for which there is no place here.
#[inline(always)]
fn give_to<T: Drop>(waiting: &mut Vec<Vec<T>>, items: Vec<T>) {
    let space = items.capacity();
    if LEAST_SPACE <= space && space <= MOST_SPACE {
        let _refused = waiting.push(items).is_err();
    }
}

impl Spare {
    // No vector waits.
    pub(crate) fn new(alloc: Global) -> Spare {
        Spare {
            alloc,
            spans: Vec::new(alloc),
            blocks: Vec::new(alloc),
            joined: 0,
        }
    }

    // Counts squares that are joined one by one.
    pub(crate) fn count_joined(&mut self, squares: usize) {
        self.joined = self.joined.saturating_add(squares);
    }

    // Whether few squares were joined one by one so far.
    pub(crate) fn has_few(&self) -> bool {
        self.joined < FEW_SQUARES
    }

    // A vector without spans, with capacity for so many.
    pub(crate) fn take(&mut self, space: usize) -> Result<Vec<Span>, Kind>
        ensures empty { IfOk result (λ spans. spans.items ≡ []) }
        ensures refusals { IfErr result IsMemory }
    {
        take_from(self.alloc, &mut self.spans, space)
    }

    // Keeps a vector whose spans are of no more use.
    #[inline(always)]
    pub(crate) fn give(&mut self, spans: Vec<Span>) {
        give_to(&mut self.spans, spans);
    }

    // A vector without blocks, with capacity for so many.
    pub(crate) fn take_blocks(&mut self, space: usize) -> Result<Vec<Block>, Kind>
        ensures empty { IfOk result (λ blocks. blocks.items ≡ []) }
        ensures refusals { IfErr result IsMemory }
    {
        take_from(self.alloc, &mut self.blocks, space)
    }

    // Keeps a vector whose blocks are of no more use.
    #[inline(always)]
    pub(crate) fn give_blocks(&mut self, blocks: Vec<Block>) {
        give_to(&mut self.blocks, blocks);
    }

    // Keeps the vectors of rows without spans.
    pub(crate) fn give_rows(&mut self, rows: &mut Vec<Row>)
        ensures { rows.new.items ≡ [] }
    {
        while let Some(row) = rows.pop() {
            self.give_blocks(row.blocks);
        }
    }
}
