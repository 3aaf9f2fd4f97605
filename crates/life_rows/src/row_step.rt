//! The next generation of a pattern whose runs come row by row.
ghost use Rattle.std.specs.Prelude.{◌≡◌, ℤ, ◌++◌, ◌^◌, ◌≤◌, [], IsTrue, IfSome};
ghost use Rattle.life_rows.specs.Words.{depth, tree_cell, AddsOnly, AreNext, IsStepping, KeepsStore, next_life, run_cells, SomeNextAbove, SomeNextOfRuns, state_by};

use crate::three_rows::ThreeRows;
use life_base::{LifeRule, MAX_LEVEL, Run};
use life_quad::{Id, Squares};
use std::alloc::Global;
use std::marker::Model;

/// The next generation of a pattern under a B/S rule, as the pattern's runs come: row by row from the north, and in a row from west to east. Only rows of the
/// next generation are put into a store.
///
/// It keeps Ids of the store alone. Between two calls the store may be changed by calls that keep every Id.
#[derive(Drop)]
pub struct RowStep {
    rows: ThreeRows,
}

impl Model for RowStep {
    ghost use Rattle.life_rows.specs.Stepping.{Stepping};

    ghost Value = { Stepping };

    ghost view = { λ s. record { rule = s.rows.rule; runs = s.rows.log.runs; kept = s.rows } };
}

impl RowStep {
    /// No run yet, and any run of the plane may come first.
    pub fn new<S: Squares>(alloc: Global, _squares: &S, rule: LifeRule) -> RowStep
        ensures stepping { IsStepping (S.knows _squares.now) (S.content _squares.now) result }
        ensures rule { result.rule ≡ rule }
        ensures runs { result.runs ≡ [] }
    {
        RowStep {
            rows: ThreeRows::new(alloc, _squares, rule),
        }
    }

    /// Takes further runs, and says whether the step goes on. It stops at a state above 1, at more than 2^20 cells, at a cell near the edge of the plane, and
    /// where the store is full or memory is refused. After that it is only to be dropped. The store keeps every square that it had, and gets only squares of
    /// the next generation.
    pub fn add_runs<S: Squares>(&mut self, squares: &mut S, runs: &[Run]) -> bool
        requires stepping { IsStepping (S.knows squares.old) (S.content squares.old) self.old }
        requires next { AreNext self.old.runs runs.now }
        ensures keeps { KeepsStore S.Squares squares.old squares.new }
        ensures adds { AddsOnly S.stored
            (λ P. SomeNextOfRuns P self.old.rule (self.old.runs ++ runs.now)) squares.old
            squares.new }
        ensures stepping { IsTrue result
            → IsStepping (S.knows squares.new) (S.content squares.new) self.new }
        ensures rule { IsTrue result → self.new.rule ≡ self.old.rule }
        ensures runs { IsTrue result → self.new.runs ≡ self.old.runs ++ runs.now }
    {
        for run in runs {
            if !self.rows.add_run(squares, *run) {
                return false;
            }
        }
        true
    }

    /// The square of the whole plane with the cells of the next generation, unless the store is full or memory is refused. The store gets only parts of it.
    pub fn finish<S: Squares>(self, squares: &mut S) -> Option<Id>
        requires { IsStepping (S.knows squares.old) (S.content squares.old) self }
        ensures keeps { KeepsStore S.Squares squares.old squares.new }
        ensures adds { AddsOnly S.stored
            (λ P. SomeNextAbove P (2 ^ MAX_LEVEL) self.rule (state_by self.runs)) squares.old
            squares.new }
        ensures known { IfSome result (S.knows squares.new) }
        ensures level { IfSome result (λ r. depth (S.content squares.new r) ≡ MAX_LEVEL) }
        ensures cells { IfSome result (λ r. (x y : ℤ) → tree_cell (S.content squares.new r) x y
            ≡ next_life self.rule (state_by self.runs) x y) }
        ensures few { IfSome result (λ _. run_cells self.runs ≤ 2 ^ 20) }
    {
        self.rows.finish(squares)
    }
}
