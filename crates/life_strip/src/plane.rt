//! The plane as far as it is filled, row by row.
ghost use Rattle.std.specs.Prelude.{◌≡◌, ℕ, ℤ, pos, neg_ℤ, nat_abs, ◌+ℤ◌, ◌<ℤ◌, ◌≤ℤ◌, ◌==◌, ◌+◌, ◌^◌, ◌<◌, ◌≤◌, ◌++◌, if◌then◌else◌, length, IfOk, OnOk};
ghost use Rattle.life_strip.specs.Words.{depth, tree_cell, Grows, IsRunOnPlane, half_plane, SomeSquare, IsFilled, IsUnfilled, IsFree, AddsRun, BeginsRow, EndsInCell, IsSouthLevel, SomeAboutMiddle, state_so_far, cell_so_far, AreNext, AreRowWords, IsFilledAbove, IsFilling, cell_in_words, vec_len};

use crate::blocks::blocks_of_words;
use crate::open_blocks::OpenBlocks;
use crate::pile::Pile;
use crate::row::Row;
use crate::row_builder::RowWord;
use crate::run_log::RunLog;
use life_base::{Kind, MAX_LEVEL, Run};
use life_quad::{Id, Squares};
use std::alloc::Global;
use std::mem;

// Half of the side of the plane: the column and the row of the cell (0, 0).
const HALF_PLANE: i64 = 1 << (MAX_LEVEL - 1);

// The row of the cell (0, 0).
const HALF: u64 = 1 << (MAX_LEVEL - 1);

// The side of the plane.
const SIDE: u64 = 1 << MAX_LEVEL;

// The squares of the cells that were filled: row by row from the north, and in a row from west to east. It keeps Ids of the store alone.
#[derive(Drop)]
pub(crate) struct Plane {
    // The rows that are over, and how many.
    pile: Pile,
    rows: u64,
    // The row that follows, as far as it was given.
    row: Row,
}

/// The column of a coordinate `x`, counted from the western edge of the plane, or the row of a coordinate `y`, counted from the northern edge.
#[inline(always)]
pub fn offset(x: i64) -> u64
    requires low { neg_ℤ (pos half_plane) ≤ℤ x }
    requires high { x <ℤ pos half_plane }
    ensures { pos result ≡ (x +ℤ pos half_plane) }
{
    (x + HALF_PLANE) as u64
}

// The coordinate of a column or a row that is counted from the edge of the plane.
#[inline(always)]
pub(crate) fn coordinate(n: u64) -> i64
    requires { n < 2 ^ MAX_LEVEL }
    ensures { result +ℤ pos half_plane ≡ pos n }
{
    n as i64 - HALF_PLANE
}

impl Plane {
    // No cell yet.
    pub(crate) fn new(alloc: Global) -> Plane
        ensures { IsUnfilled result }
    {
        Plane {
            pile: Pile::new(alloc),
            rows: 0,
            row: Row::new(alloc),
        }
    }

    // Begins a row below the one that was begun.
    #[inline(never)]
    fn begin_row<S: Squares>(&mut self, squares: &mut S, row: u64) -> Result<(), Kind>
        requires filled { IsFilled (S.knows squares.old) (S.content squares.old) self.old }
        requires later { self.old.rows < row }
        requires inside { row < 2 ^ MAX_LEVEL }
        ensures begun { OnOk result (BeginsRow (S.knows squares.new)
            (S.content squares.old) (S.content squares.new) self.old self.new row) }
        ensures grows { Grows S.Squares squares.old squares.new result
            (λ P. SomeSquare P row (state_so_far (S.content squares.old) self.old)) }
    {
        let next = self.row.begin_next(self.pile.alloc, &mut self.pile.spare)?;
        let begun = mem::replace(&mut self.row, next);
        self.pile.end_row(squares, begun, row - self.rows - 1)?;
        self.rows = row;
        Ok(())
    }

    // Begins a row, if it isn't the one that was begun.
    #[inline(always)]
    fn go_to_row<S: Squares>(&mut self, squares: &mut S, row: u64) -> Result<(), Kind>
        requires filled { IsFilled (S.knows squares.old) (S.content squares.old) self.old }
        requires later { self.old.rows ≤ row }
        requires inside { row < 2 ^ MAX_LEVEL }
        ensures begun { OnOk result (BeginsRow (S.knows squares.new)
            (S.content squares.old) (S.content squares.new) self.old self.new row) }
        ensures grows { Grows S.Squares squares.old squares.new result
            (λ P. SomeSquare P row (state_so_far (S.content squares.old) self.old)) }
    {
        if self.rows == row {
            return Ok(());
        }
        self.begin_row(squares, row)
    }

    // Gives the cells of a run its state.
    #[inline(always)]
    pub(crate) fn add_run<S: Squares>(&mut self, squares: &mut S, run: Run) -> Result<(), Kind>
        requires filled { IsFilled (S.knows squares.old) (S.content squares.old) self.old }
        requires positive { 1 ≤ run.len }
        requires inside { IsRunOnPlane run.x run.y run.len }
        requires free { IsFree self.old run.x run.y }
        ensures filled { OnOk result
            (IsFilled (S.knows squares.new) (S.content squares.new) self.new) }
        ensures cells { OnOk result (AddsRun (cell_so_far (S.content squares.old) self.old)
            (cell_so_far (S.content squares.new) self.new) run) }
        ensures below { OnOk result ((column row : ℤ) → run.y <ℤ row → IsFree self.new column row) }
        ensures adjacent { OnOk result
            ((column : ℤ) → (run.x +ℤ pos run.len) ≤ℤ column → IsFree self.new column run.y) }
        ensures grows { Grows S.Squares squares.old squares.new result
            (λ P. SomeSquare P (nat_abs (run.y +ℤ pos half_plane))
            (state_so_far (S.content squares.old) self.old)) }
    {
        let column = offset(run.x);
        let row = offset(run.y);
        self.go_to_row(squares, row)?;
        let spare = &mut self.pile.spare;
        self.row
            .add(squares, spare, column, column + run.len, run.state)
    }

    // Gives a row its cells, which are those of words from west to east. No row from it on was given.
    pub(crate) fn add_words<S: Squares>(
        &mut self,
        squares: &mut S,
        row: u64,
        words: &[RowWord],
    ) -> Result<(), Kind>
        requires filled { IsFilledAbove (S.knows squares.old) (S.content squares.old) row self.old }
        requires inside { row < 2 ^ MAX_LEVEL }
        requires words { AreRowWords words.now }
        ensures filled { OnOk result
            (IsFilledAbove (S.knows squares.new) (S.content squares.new) (row + 1) self.new) }
        ensures cells { OnOk result
            ((i j : ℕ) → state_so_far (S.content squares.new) self.new i j
            ≡ (if j == row then cell_in_words words.now i
            else state_so_far (S.content squares.old) self.old i j)) }
        ensures grows { Grows S.Squares squares.old squares.new result
            (λ P. SomeSquare P row (state_so_far (S.content squares.old) self.old)) }
    {
        self.go_to_row(squares, row)?;
        let empty = mem::replace(&mut self.row.blocks, Vec::new(self.pile.alloc));
        self.row.blocks = blocks_of_words(empty, words)?;
        Ok(())
    }

    // Gives the cells of the first runs their state: of those that are in the row that was begun, which has a block, each within one block. It
    // stops at another run, and where there is no capacity for one block more. Returns the runs that are left.
    #[inline(never)]
    fn add_short_runs<'a, S: Squares>(
        &mut self,
        _squares: &S,
        log: &mut RunLog,
        runs: &'a [Run],
    ) -> &'a [Run]
        requires filling { IsFilling (S.knows _squares.now) (S.content _squares.now)
            (record { runs = log.old.runs; kept = self.old }) }
        requires next { AreNext log.old.runs runs.now }
        requires some { 0 < vec_len self.old.row.blocks }
        ensures filling { IsFilling (S.knows _squares.now) (S.content _squares.now)
            (record { runs = log.new.runs; kept = self.new }) }
        ensures next { AreNext log.new.runs result.now }
        ensures runs { log.new.runs ++ result.now ≡ log.old.runs ++ runs.now }
        ensures fewer { length result.now ≤ length runs.now }
    {
        let alloc = self.pile.alloc;
        let mut blocks = mem::replace(&mut self.row.blocks, Vec::new(alloc));
        let Some(last) = blocks.pop() else {
            return runs;
        };
        let y = coordinate(self.rows);
        let mut row = OpenBlocks::new(blocks, last);
        let mut index = 0;
        while index < runs.len() {
            let run = &runs[index];
            if run.y != y || run.state != 1 || !row.add(run.x, run.len) {
                break;
            }
            *log = log.then(run);
            index += 1;
        }
        self.row.blocks = row.close();
        &runs[index..]
    }

    // The same in any row. It gives none where the first run is in another row than the one that was begun.
    #[inline(always)]
    pub(crate) fn add_row_runs<'a, S: Squares>(
        &mut self,
        squares: &S,
        log: &mut RunLog,
        runs: &'a [Run],
    ) -> &'a [Run]
        requires filling { IsFilling (S.knows squares.now) (S.content squares.now)
            (record { runs = log.old.runs; kept = self.old }) }
        requires next { AreNext log.old.runs runs.now }
        ensures filling { IsFilling (S.knows squares.now) (S.content squares.now)
            (record { runs = log.new.runs; kept = self.new }) }
        ensures next { AreNext log.new.runs result.now }
        ensures runs { log.new.runs ++ result.now ≡ log.old.runs ++ runs.now }
        ensures fewer { length result.now ≤ length runs.now }
    {
        if runs.is_empty() || runs[0].y != coordinate(self.rows) || self.row.blocks.is_empty() {
            return runs;
        }
        self.add_short_runs(squares, log, runs)
    }

    // Whether the row that was begun is one of spans.
    #[inline(always)]
    pub(crate) fn has_spans(&self) -> bool {
        !self.row.spans.is_empty()
    }

    // The square of the whole plane.
    pub(crate) fn finish<S: Squares>(self, squares: &mut S) -> Result<Id, Kind>
        requires filled { IsFilled (S.knows squares.old) (S.content squares.old) self }
        ensures known { IfOk result (S.knows squares.new) }
        ensures level { IfOk result (λ r. depth (S.content squares.new r) ≡ MAX_LEVEL) }
        ensures cells { IfOk result (λ r. (x y : ℤ)
            → tree_cell (S.content squares.new r) x y
            ≡ cell_so_far (S.content squares.old) self x y) }
        ensures grows { Grows S.Squares squares.old squares.new result
            (λ P. SomeSquare P (2 ^ MAX_LEVEL) (state_so_far (S.content squares.old) self)) }
    {
        let Plane { pile, rows, row } = self;
        pile.whole_plane(squares, row, SIDE - rows - 1)
    }

    // The square of the least level about the middle of the plane with all cells, where none is in the northern half. Otherwise that of the whole plane.
    pub(crate) fn finish_about_middle<S: Squares>(self, squares: &mut S) -> Result<Id, Kind>
        requires filled { IsFilled (S.knows squares.old) (S.content squares.old) self }
        requires cell { EndsInCell (S.content squares.old) self }
        ensures known { IfOk result (S.knows squares.new) }
        ensures level { IfOk result (λ r. IsSouthLevel (depth (S.content squares.new r))
            (cell_so_far (S.content squares.old) self)) }
        ensures cells { IfOk result (λ r. (x y : ℤ)
            → tree_cell (S.content squares.new r) x y
            ≡ cell_so_far (S.content squares.old) self x y) }
        ensures grows { Grows S.Squares squares.old squares.new result
            (λ P. SomeAboutMiddle P (cell_so_far (S.content squares.old) self)) }
    {
        let Plane {
            mut pile,
            rows,
            row,
        } = self;
        if rows < HALF {
            return pile.whole_plane(squares, row, SIDE - rows - 1);
        }
        if !pile.take_northern_half(squares) {
            return pile.whole_plane(squares, row, SIDE - rows - 1);
        }
        pile.about_middle(squares, row, rows - HALF)
    }
}
