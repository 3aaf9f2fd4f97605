//! The last three rows of a pattern that comes row by row, and the rows of its next generation before them.
ghost use Rattle.std.specs.Prelude.{◌≡◌, ℤ, ℕ, pos, nat_abs, [], ◌∷◌, ◌++◌, ◌==◌, ◌+◌, ◌-◌, ◌^◌, ◌<◌, ◌≤◌, ◌+ℤ◌, if◌then◌else◌, IsTrue, IfSome};
ghost use Rattle.life_rows.specs.Words.{depth, tree_cell, AddsOnly, AreInner, AreRowWords, cell_in_words, half_plane, IsBetweenRows, IsFilledAbove, IsNextRunStart, IsRunOnPlane, IsThreeRows, KeepsStore, next_life, run_cells, SomeNextAbove, SomeSquare, state_by, state_so_far};

use crate::next_row::next_row;
use crate::row_cells::push_cells;
use life_base::{LifeRule, MAX_LEVEL, Run};
use life_quad::{Id, Squares};
use life_strip::{RowBuilder, RowWord, RunLog, offset};
use std::alloc::Global;
use std::mem;

// A pattern may have so many cells.
const MOST_CELLS: u64 = 1 << 20;

// The row north of the southernmost one.
const LAST_ROW: u64 = (1 << MAX_LEVEL) - 2;

// The easternmost word of a row is at this place.
const LAST_PLACE: u64 = (1 << (MAX_LEVEL - 6)) - 1;

// The last three rows of a pattern, as far as its runs came, and a builder that has the next generation of the rows before the middle one.
#[derive(Drop)]
pub(crate) struct ThreeRows {
    pub(crate) rule: LifeRule,
    builder: RowBuilder,
    // The three rows, and which row the northern one is, counted from the northern edge of the plane. No run is in a row after the southern one.
    north: Vec<RowWord>,
    here: Vec<RowWord>,
    south: Vec<RowWord>,
    north_row: u64,
    // A row of the next generation, kept for its memory.
    next: Vec<RowWord>,
    // How many cells may still come.
    left: u64,
    pub(crate) log: RunLog,
}

// Whether no word of a row is at the western or the eastern edge of the plane.
fn are_inner(words: &[RowWord]) -> bool
    requires { AreRowWords words.now }
    ensures { IsTrue result → AreInner words.now }
{
    words.is_empty() || (words[0].place > 0 && words[words.len() - 1].place < LAST_PLACE)
}

// Gives a builder a row, unless that has no word. Returns whether the step goes on.
fn give_row<S: Squares>(
    builder: &mut RowBuilder,
    squares: &mut S,
    row: u64,
    words: &[RowWord],
) -> bool
    requires filled { IsFilledAbove (S.knows squares.old) (S.content squares.old) row builder.old }
    requires inside { row < 2 ^ MAX_LEVEL }
    requires words { AreRowWords words.now }
    ensures keeps { KeepsStore S.Squares squares.old squares.new }
    ensures adds { AddsOnly S.stored
        (λ P. SomeSquare P row (state_so_far (S.content squares.old) builder.old)) squares.old
        squares.new }
    ensures filled { IsTrue result
        → IsFilledAbove (S.knows squares.new) (S.content squares.new) (row + 1) builder.new }
    ensures cells { IsTrue result → (i j : ℕ)
        → state_so_far (S.content squares.new) builder.new i j
        ≡ (if j == row then cell_in_words words.now i
        else state_so_far (S.content squares.old) builder.old i j) }
{
    if words.is_empty() {
        return true;
    }
    builder.add_row(squares, row, words).is_ok()
}

impl ThreeRows {
    // No run yet.
    pub(crate) fn new<S: Squares>(alloc: Global, _squares: &S, rule: LifeRule) -> ThreeRows
        ensures rows { IsThreeRows (S.knows _squares.now) (S.content _squares.now) result }
        ensures between { IsBetweenRows result }
        ensures rule { result.rule ≡ rule }
        ensures runs { result.log.runs ≡ [] }
    {
        // Reading a field gives the proof the invariant of the rule.
        let _ = &rule.births;
        ThreeRows {
            rule,
            builder: RowBuilder::new(alloc),
            north: Vec::new(alloc),
            here: Vec::new(alloc),
            south: Vec::new(alloc),
            north_row: 0,
            next: Vec::new(alloc),
            left: MOST_CELLS,
            log: RunLog::new(),
        }
    }

    // Whether none of the three rows has a cell.
    fn is_blank(&self) -> bool
        ensures north { IsTrue result → self.now.north.items ≡ [] }
        ensures here { IsTrue result → self.now.here.items ≡ [] }
        ensures south { IsTrue result → self.now.south.items ≡ [] }
    {
        self.north.is_empty() && self.here.is_empty() && self.south.is_empty()
    }

    // Forgets the northern row, and begins another one south of the other two.
    fn shift(&mut self)
        requires { self.old.north_row < 2 ^ MAX_LEVEL }
        ensures north { self.new.north.items ≡ self.old.here.items }
        ensures here { self.new.here.items ≡ self.old.south.items }
        ensures south { self.new.south.items ≡ [] }
        ensures row { self.new.north_row ≡ self.old.north_row + 1 }
        ensures rule { self.new.rule ≡ self.old.rule }
        ensures builder { self.new.builder ≡ self.old.builder }
        ensures left { self.new.left ≡ self.old.left }
        ensures runs { self.new.log.runs ≡ self.old.log.runs }
    {
        mem::swap(&mut self.north, &mut self.here);
        mem::swap(&mut self.here, &mut self.south);
        self.south.clear();
        self.north_row += 1;
    }

    // Ends the southern row, and gives the builder the next generation of the middle one. Returns whether the step goes on.
    #[inline(never)]
    fn end_row<S: Squares>(&mut self, squares: &mut S) -> bool
        requires rows { IsThreeRows (S.knows squares.old) (S.content squares.old) self.old }
        requires inside { self.old.north_row + 1 < 2 ^ MAX_LEVEL }
        ensures keeps { KeepsStore S.Squares squares.old squares.new }
        ensures adds { AddsOnly S.stored (λ P. SomeNextAbove P (self.old.north_row + 1)
            self.old.rule (state_by self.old.log.runs)) squares.old squares.new }
        ensures rows { IsTrue result
            → IsThreeRows (S.knows squares.new) (S.content squares.new) self.new }
        ensures row { IsTrue result → self.new.north_row ≡ self.old.north_row + 1 }
        ensures rule { IsTrue result → self.new.rule ≡ self.old.rule }
        ensures runs { IsTrue result → self.new.log.runs ≡ self.old.log.runs }
    {
        if !are_inner(&self.south) {
            return false;
        }
        let Ok(()) = next_row(
            &self.rule,
            &self.north,
            &self.here,
            &self.south,
            &mut self.next,
        ) else {
            return false;
        };
        if !give_row(&mut self.builder, squares, self.north_row + 1, &self.next) {
            return false;
        }
        self.shift();
        true
    }

    // Makes a row after the southern one the southern one. At most three rows end on the way, since where the three rows are blank, those after them are too.
    #[inline(never)]
    fn go_to_row<S: Squares>(&mut self, squares: &mut S, row: u64) -> bool
        requires rows { IsThreeRows (S.knows squares.old) (S.content squares.old) self.old }
        requires between { IsBetweenRows self.old }
        ensures keeps { KeepsStore S.Squares squares.old squares.new }
        ensures adds { AddsOnly S.stored (λ P. SomeNextAbove P (row - 1) self.old.rule
            (state_by self.old.log.runs)) squares.old squares.new }
        ensures rows { IsTrue result
            → IsThreeRows (S.knows squares.new) (S.content squares.new) self.new }
        ensures between { IsTrue result → IsBetweenRows self.new }
        ensures row { IsTrue result → self.new.north_row + 2 ≡ row }
        ensures rule { IsTrue result → self.new.rule ≡ self.old.rule }
        ensures runs { IsTrue result → self.new.log.runs ≡ self.old.log.runs }
    {
        if row < self.north_row + 2 || row > LAST_ROW {
            return false;
        }
        while self.north_row + 2 < row && !self.is_blank() {
            if !self.end_row(squares) {
                return false;
            }
        }
        self.north_row = row - 2;
        true
    }

    // Makes a row the southern one, if it isn't.
    #[inline(always)]
    fn reach_row<S: Squares>(&mut self, squares: &mut S, row: u64) -> bool
        requires rows { IsThreeRows (S.knows squares.old) (S.content squares.old) self.old }
        requires between { IsBetweenRows self.old }
        ensures keeps { KeepsStore S.Squares squares.old squares.new }
        ensures adds { AddsOnly S.stored (λ P. SomeNextAbove P (row - 1) self.old.rule
            (state_by self.old.log.runs)) squares.old squares.new }
        ensures rows { IsTrue result
            → IsThreeRows (S.knows squares.new) (S.content squares.new) self.new }
        ensures between { IsTrue result → IsBetweenRows self.new }
        ensures row { IsTrue result → self.new.north_row + 2 ≡ row }
        ensures rule { IsTrue result → self.new.rule ≡ self.old.rule }
        ensures runs { IsTrue result → self.new.log.runs ≡ self.old.log.runs }
    {
        if row == self.north_row + 2 {
            return true;
        }
        self.go_to_row(squares, row)
    }

    // Puts the cells of a run of state 1 into the southern row.
    #[inline(always)]
    fn push_run<S: Squares>(&mut self, _squares: &S, run: Run) -> bool
        requires rows { IsThreeRows (S.knows _squares.now) (S.content _squares.now) self.old }
        requires one { run.state ≡ 1 }
        requires positive { 1 ≤ run.len }
        requires few { run.len ≤ self.old.left }
        requires inside { IsRunOnPlane run.x run.y run.len }
        requires next { IsNextRunStart self.old.log.runs run.x run.y }
        requires here { run.y +ℤ pos half_plane ≡ pos (self.old.north_row + 2) }
        ensures rows { IsTrue result
            → IsThreeRows (S.knows _squares.now) (S.content _squares.now) self.new }
        ensures row { IsTrue result → self.new.north_row ≡ self.old.north_row }
        ensures rule { IsTrue result → self.new.rule ≡ self.old.rule }
        ensures runs { IsTrue result → self.new.log.runs ≡ self.old.log.runs ++ run ∷ [] }
    {
        let column = offset(run.x);
        let Ok(()) = push_cells(&mut self.south, column, column + run.len) else {
            return false;
        };
        self.left -= run.len;
        self.log = self.log.then(&run);
        true
    }

    // Takes a further run. Returns whether the step goes on.
    #[inline(always)]
    pub(crate) fn add_run<S: Squares>(&mut self, squares: &mut S, run: Run) -> bool
        requires rows { IsThreeRows (S.knows squares.old) (S.content squares.old) self.old }
        requires between { IsBetweenRows self.old }
        requires positive { 1 ≤ run.len }
        requires inside { IsRunOnPlane run.x run.y run.len }
        requires next { IsNextRunStart self.old.log.runs run.x run.y }
        ensures keeps { KeepsStore S.Squares squares.old squares.new }
        ensures adds { AddsOnly S.stored (λ P. SomeNextAbove P
            (nat_abs (run.y +ℤ pos half_plane) - 1) self.old.rule (state_by self.old.log.runs))
            squares.old squares.new }
        ensures rows { IsTrue result
            → IsThreeRows (S.knows squares.new) (S.content squares.new) self.new }
        ensures between { IsTrue result → IsBetweenRows self.new }
        ensures rule { IsTrue result → self.new.rule ≡ self.old.rule }
        ensures runs { IsTrue result → self.new.log.runs ≡ self.old.log.runs ++ run ∷ [] }
    {
        let row = offset(run.y);
        if !self.reach_row(squares, row) {
            return false;
        }
        run.state == 1 && run.len <= self.left && self.push_run(squares, run)
    }

    // The square of the whole plane with the cells of the next generation.
    pub(crate) fn finish<S: Squares>(self, squares: &mut S) -> Option<Id>
        requires rows { IsThreeRows (S.knows squares.old) (S.content squares.old) self }
        requires between { IsBetweenRows self }
        ensures keeps { KeepsStore S.Squares squares.old squares.new }
        ensures adds { AddsOnly S.stored
            (λ P. SomeNextAbove P (2 ^ MAX_LEVEL) self.rule (state_by self.log.runs)) squares.old
            squares.new }
        ensures known { IfSome result (S.knows squares.new) }
        ensures level { IfSome result (λ r. depth (S.content squares.new r) ≡ MAX_LEVEL) }
        ensures cells { IfSome result (λ r. (x y : ℤ) → tree_cell (S.content squares.new r) x y
            ≡ next_life self.rule (state_by self.log.runs) x y) }
        ensures few { IfSome result (λ _. run_cells self.log.runs ≤ 2 ^ 20) }
    {
        let mut rows = self;
        for _ in 0..3_u64 {
            if !rows.end_row(squares) {
                return None;
            }
        }
        rows.builder.finish(squares).ok()
    }
}
