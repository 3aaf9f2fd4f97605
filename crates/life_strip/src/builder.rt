//! A builder that fills a store row by row.
ghost use Rattle.std.specs.Prelude.{◌≡◌, ℤ, pos, nat_abs, ◌+ℤ◌, ◌^◌, ◌≤◌, ◌++◌, ◌∷◌, [], length, IfOk, OnOk};
ghost use Rattle.life_strip.specs.Words.{depth, tree_cell, Grows, IsAfterRun, IsNextRunStart, IsRunOnPlane, AreInOrder, state_by, by_columns, half_plane, SomeSquare, EndsWithCell, IsEmpty, IsFilling, IsSouthLevel, SomeAboutMiddle, AreNext, SomeOfRuns};

use crate::plane::Plane;
use crate::run_log::RunLog;
use life_base::{Kind, MAX_LEVEL, Run};
use life_quad::{Id, Squares};
use std::alloc::Global;
use std::marker::Model;

/// It pays to look for the runs of a row among so many runs and more.
const MANY_RUNS: usize = 8;

/// A pattern that is being filled into a store by runs of cells: row by row from the north, and in a row from west to east.
///
/// It keeps Ids of the store alone. Between two calls the store may be changed by calls that keep every Id.
#[derive(Drop)]
pub struct Builder {
    plane: Plane,
    log: RunLog,
}

impl Model for Builder {
    ghost use Rattle.life_strip.specs.Filling.{Building};

    ghost Value = { Building };

    ghost view = { λ b. record { runs = b.log.runs; kept = b.plane } };
}

impl Builder {
    /// No run yet, and any run of the plane may come first.
    pub fn new(alloc: Global) -> Builder
        ensures runs { result.runs ≡ [] }
        ensures empty { IsEmpty result }
    {
        Builder {
            plane: Plane::new(alloc),
            log: RunLog::new(),
        }
    }

    /// Gives the cells of a run its state.
    ///
    /// # Errors
    ///
    /// `Full` if the store holds its limit and a square of the runs before is new, or `Memory`. After an error the builder is only to
    /// be dropped.
    #[inline(always)]
    pub fn add_run<S: Squares>(&mut self, squares: &mut S, run: Run) -> Result<(), Kind>
        requires filling { IsFilling (S.knows squares.old) (S.content squares.old) self.old }
        requires positive { 1 ≤ run.len }
        requires inside { IsRunOnPlane run.x run.y run.len }
        requires next { IsNextRunStart self.old.runs run.x run.y }
        ensures filling { OnOk result
            (IsFilling (S.knows squares.new) (S.content squares.new) self.new) }
        ensures runs { OnOk result (self.new.runs ≡ self.old.runs ++ run ∷ []) }
        ensures next { OnOk result ((i j : ℤ) → IsAfterRun run i j
            → IsNextRunStart self.new.runs i j) }
        ensures grows { Grows S.Squares squares.old squares.new result
            (λ P. SomeSquare P (nat_abs (run.y +ℤ pos half_plane))
            (by_columns (state_by self.old.runs))) }
    {
        self.plane.add_run(squares, run)?;
        self.log = self.log.then(&run);
        Ok(())
    }

    /// Gives the cells of runs their states, run by run.
    ///
    /// # Errors
    ///
    /// As for one run.
    #[inline(always)]
    pub fn add_runs<S: Squares>(&mut self, squares: &mut S, runs: &[Run]) -> Result<(), Kind>
        requires filling { IsFilling (S.knows squares.old) (S.content squares.old) self.old }
        requires next { AreNext self.old.runs runs.now }
        ensures filling { OnOk result
            (IsFilling (S.knows squares.new) (S.content squares.new) self.new) }
        ensures runs { OnOk result (self.new.runs ≡ self.old.runs ++ runs.now) }
        ensures grows { Grows S.Squares squares.old squares.new result
            (λ P. SomeOfRuns P (self.old.runs ++ runs.now)) }
    {
        if runs.len() < MANY_RUNS || self.plane.has_spans() {
            self.add_one_by_one(squares, runs)
        } else {
            self.add_by_rows(squares, runs)
        }
    }

    // The same for few runs, or where a state is above 1.
    #[inline(always)]
    fn add_one_by_one<S: Squares>(&mut self, squares: &mut S, runs: &[Run]) -> Result<(), Kind>
        requires filling { IsFilling (S.knows squares.old) (S.content squares.old) self.old }
        requires next { AreNext self.old.runs runs.now }
        ensures filling { OnOk result
            (IsFilling (S.knows squares.new) (S.content squares.new) self.new) }
        ensures runs { OnOk result (self.new.runs ≡ self.old.runs ++ runs.now) }
        ensures grows { Grows S.Squares squares.old squares.new result
            (λ P. SomeOfRuns P (self.old.runs ++ runs.now)) }
    {
        for run in runs {
            self.add_run(squares, *run)?;
        }
        Ok(())
    }

    // The same for many runs: those of a row go into its blocks at once, as far as they can.
    #[inline(never)]
    fn add_by_rows<S: Squares>(&mut self, squares: &mut S, runs: &[Run]) -> Result<(), Kind>
        requires filling { IsFilling (S.knows squares.old) (S.content squares.old) self.old }
        requires next { AreNext self.old.runs runs.now }
        ensures filling { OnOk result
            (IsFilling (S.knows squares.new) (S.content squares.new) self.new) }
        ensures runs { OnOk result (self.new.runs ≡ self.old.runs ++ runs.now) }
        ensures grows { Grows S.Squares squares.old squares.new result
            (λ P. SomeOfRuns P (self.old.runs ++ runs.now)) }
    {
        let mut left = self.add_row_runs(squares, runs);
        while !left.is_empty() {
            self.add_run(squares, left[0])?;
            left = self.add_row_runs(squares, &left[1..]);
        }
        Ok(())
    }

    // Gives the cells of the first runs their state, as far as these go into the blocks of the row that was begun. Returns the runs that are left.
    #[inline(always)]
    fn add_row_runs<'a, S: Squares>(&mut self, squares: &S, runs: &'a [Run]) -> &'a [Run]
        requires filling { IsFilling (S.knows squares.now) (S.content squares.now) self.old }
        requires next { AreNext self.old.runs runs.now }
        ensures filling { IsFilling (S.knows squares.now) (S.content squares.now) self.new }
        ensures next { AreNext self.new.runs result.now }
        ensures runs { self.new.runs ++ result.now ≡ self.old.runs ++ runs.now }
        ensures fewer { length result.now ≤ length runs.now }
    {
        let log = &mut self.log;
        self.plane.add_row_runs(squares, log, runs)
    }

    /// The square of the whole plane with the cells of the runs.
    ///
    /// # Errors
    ///
    /// `Full` if the store holds its limit and a square of the runs is new, or `Memory`.
    pub fn finish<S: Squares>(self, squares: &mut S) -> Result<Id, Kind>
        requires filling { IsFilling (S.knows squares.old) (S.content squares.old) self }
        ensures known { IfOk result (S.knows squares.new) }
        ensures level { IfOk result (λ r. depth (S.content squares.new r) ≡ MAX_LEVEL) }
        ensures cells { IfOk result
            (λ r. (x y : ℤ) → tree_cell (S.content squares.new r) x y ≡ state_by self.runs x y) }
        ensures order { AreInOrder self.runs }
        ensures grows { Grows S.Squares squares.old squares.new result
            (λ P. SomeSquare P (2 ^ MAX_LEVEL) (by_columns (state_by self.runs))) }
    {
        self.plane.finish(squares)
    }

    /// The square of the least level, 3 or more, about the middle of the plane with the cells of the runs, where none of them is north of row 0. Otherwise
    /// the square of the whole plane.
    ///
    /// # Errors
    ///
    /// `Full` if the store holds its limit and a square of the runs is new, or `Memory`.
    pub fn finish_about_middle<S: Squares>(self, squares: &mut S) -> Result<Id, Kind>
        requires filling { IsFilling (S.knows squares.old) (S.content squares.old) self }
        requires cell { EndsWithCell self.runs }
        ensures known { IfOk result (S.knows squares.new) }
        ensures level { IfOk result
            (λ r. IsSouthLevel (depth (S.content squares.new r)) (state_by self.runs)) }
        ensures cells { IfOk result
            (λ r. (x y : ℤ) → tree_cell (S.content squares.new r) x y ≡ state_by self.runs x y) }
        ensures order { AreInOrder self.runs }
        ensures grows { Grows S.Squares squares.old squares.new result
            (λ P. SomeAboutMiddle P (state_by self.runs)) }
    {
        self.plane.finish_about_middle(squares)
    }
}
