//! A row of cells, as far as it was given.
ghost use Rattle.std.specs.Prelude.{◌≡◌, ℕ, ◌^◌, ◌<◌, ◌≤◌, [], IsTrue, IfOk, IfErr, OnOk};
ghost use Rattle.life_strip.specs.Words.{FillsRow, IsMemory, IsRow, IsRowBefore, IsSoundStrip, row_state, state_in_strip, WidensRow};

use crate::blocks::{Block, add_cells, spans_of};
use crate::spans::{Span, Strip, extend};
use crate::spare::Spare;
use life_base::{Kind, MAX_LEVEL, State};
use life_quad::Squares;
use std::alloc::Global;

// The cells of a row: blocks as long as no cell has a state above 1, and spans from then on. One of the two lists is empty.
#[derive(Drop)]
pub(crate) struct Row {
    pub(crate) blocks: Vec<Block>,
    pub(crate) spans: Vec<Span>,
}

impl Row {
    // No cell.
    pub(crate) fn new(alloc: Global) -> Row
        ensures blocks { result.blocks.items ≡ [] }
        ensures spans { result.spans.items ≡ [] }
    {
        Row {
            blocks: Vec::new(alloc),
            spans: Vec::new(alloc),
        }
    }

    // The row below, with no cell yet. Rows that follow one another are mostly alike, so it gets capacity for a few more blocks or spans than this
    // one has.
    pub(crate) fn begin_next(&self, alloc: Global, spare: &mut Spare) -> Result<Row, Kind>
        ensures blocks { IfOk result (λ row. row.blocks.items ≡ []) }
        ensures spans { IfOk result (λ row. row.spans.items ≡ []) }
        ensures refusals { IfErr result IsMemory }
    {
        let blocks = spare.take_blocks(self.blocks.len() / 8 * 9 + 2)?;
        if self.spans.is_empty() {
            return Ok(Row {
                blocks,
                spans: Vec::new(alloc),
            });
        }
        let spans = spare.take(self.spans.len() / 8 * 9 + 2)?;
        Ok(Row { blocks, spans })
    }

    // Whether nothing was given but cells of the state 0.
    pub(crate) fn is_empty(&self) -> bool
        ensures blocks { IsTrue result → self.now.blocks.items ≡ [] }
        ensures spans { IsTrue result → self.now.spans.items ≡ [] }
    {
        self.blocks.is_empty() && self.spans.is_empty()
    }

    // Gives the cells from one column to before another one a state. In a row of blocks, cells of the state 0 are there already.
    #[inline(always)]
    pub(crate) fn add<S: Squares>(
        &mut self,
        squares: &S,
        spare: &mut Spare,
        start: u64,
        end: u64,
        state: State,
    ) -> Result<(), Kind>
        requires row { IsRow (S.knows squares.now) (S.content squares.now) self.old }
        requires before { IsRowBefore start self.old }
        requires some { start < end }
        requires within { end ≤ 2 ^ MAX_LEVEL }
        ensures fills { OnOk result (FillsRow (S.knows squares.now) (S.content squares.now) self.old
            self.new start end state) }
        ensures refusals { IfErr result IsMemory }
    {
        if self.spans.is_empty() {
            if state == 1 {
                return add_cells(&mut self.blocks, start, end);
            }
            if state == 0 {
                return Ok(());
            }
        }
        self.add_span(squares, spare, start, end, state)
    }

    // The same in a row of spans.
    #[inline(always)]
    fn add_span<S: Squares>(
        &mut self,
        squares: &S,
        spare: &mut Spare,
        start: u64,
        end: u64,
        state: State,
    ) -> Result<(), Kind>
        requires row { IsRow (S.knows squares.now) (S.content squares.now) self.old }
        requires before { IsRowBefore start self.old }
        requires some { start < end }
        requires within { end ≤ 2 ^ MAX_LEVEL }
        ensures fills { OnOk result (FillsRow (S.knows squares.now) (S.content squares.now) self.old
            self.new start end state) }
        ensures refusals { IfErr result IsMemory }
    {
        self.widen(squares, spare)?;
        let square = squares.cell(state);
        extend(&mut self.spans, start, end, square)
    }

    // Makes spans of the blocks, if there are any.
    #[inline(always)]
    fn widen<S: Squares>(&mut self, squares: &S, spare: &mut Spare) -> Result<(), Kind>
        requires { IsRow (S.knows squares.now) (S.content squares.now) self.old }
        ensures wide { OnOk result
            (WidensRow (S.knows squares.now) (S.content squares.now) self.old self.new) }
        ensures refusals { IfErr result IsMemory }
    {
        if self.blocks.is_empty() {
            return Ok(());
        }
        self.make_spans(squares, spare)
    }

    // Makes spans of the blocks. It is never inlined, so that `add` can be.
    #[inline(never)]
    fn make_spans<S: Squares>(&mut self, squares: &S, spare: &mut Spare) -> Result<(), Kind>
        requires row { IsRow (S.knows squares.now) (S.content squares.now) self.old }
        requires none { self.old.spans.items ≡ [] }
        ensures wide { OnOk result
            (WidensRow (S.knows squares.now) (S.content squares.now) self.old self.new) }
        ensures refusals { IfErr result IsMemory }
    {
        let made = spans_of(squares, spare, self.blocks.as_slice())?;
        self.spans.extend_from_slice(made.as_slice())?;
        self.blocks.clear();
        spare.give(made);
        Ok(())
    }

    // The row as a strip.
    pub(crate) fn into_strip<S: Squares>(
        self,
        squares: &S,
        spare: &mut Spare,
    ) -> Result<Strip, Kind>
        requires { IsRow (S.knows squares.now) (S.content squares.now) self }
        ensures sound { IfOk result
            (λ r. IsSoundStrip (S.knows squares.now) (S.content squares.now) r) }
        ensures level { IfOk result (λ r. r.level ≡ 0) }
        ensures cells { IfOk result (λ r. (c : ℕ) → state_in_strip (S.content squares.now) r c 0
            ≡ row_state (S.content squares.now) self c) }
        ensures refusals { IfErr result IsMemory }
    {
        let Row { blocks, spans } = self;
        if blocks.is_empty() {
            spare.give_blocks(blocks);
            return Ok(Strip { level: 0, spans });
        }
        let made = spans_of(squares, spare, blocks.as_slice())?;
        spare.give_blocks(blocks);
        spare.give(spans);
        Ok(Strip {
            level: 0,
            spans: made,
        })
    }
}
