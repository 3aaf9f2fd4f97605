//! The places of a row that have cells at them or beside them, from west to east.
ghost use Rattle.std.specs.Prelude.{◌≡◌, ℕ, ℤ, ◌<◌, ◌<ℤ◌, ◌+ℤ◌, pos, true, false, IfSome, None};
ghost use Rattle.life_sweep.specs.Words.{IsOfSweep, IsNextPlace, IsWindow, IsSoundWindow, IsWindowBelow, GoesOn, IsFar, AreRows, AreInside, AreSorted, AreBelow, column_at, no_column, is_blank_column, left_in, steps_left, states_of_window, start_of_sweep};

use crate::column::{BLANK, Column, Rows};
use crate::plane::START;
use life_base::State;

/// Three columns of three rows, and what is left of the rows east of them.
#[derive(Clone, Copy)]
pub(crate) struct Window<'a> {
    pub(crate) x: i64,
    pub(crate) west: Column<State>,
    pub(crate) middle: Column<State>,
    pub(crate) east: Column<State>,
    pub(crate) rows: Rows<'a>,
}

impl<'a> Window<'a> {
    /// Before the first place.
    pub(crate) fn new(rows: Rows<'a>) -> Window<'a>
        requires inside { AreInside rows }
        requires sorted { AreSorted rows }
        ensures sound { IsSoundWindow result }
        ensures below { (bound : ℕ) → 0 < bound → AreBelow bound rows.entry
            → IsWindowBelow bound result }
        ensures start { result.x ≡ start_of_sweep }
        ensures window { (cells : ℤ → ℤ → ℕ) (y : ℤ)
            → AreRows cells y (start_of_sweep +ℤ pos 2) rows.entry
            → ((c : ℤ) → c <ℤ (start_of_sweep +ℤ pos 2) → column_at cells y c ≡ no_column)
            → IsWindow cells y result }
    {
        Window {
            x: START,
            west: BLANK,
            middle: BLANK,
            east: BLANK,
            rows,
        }
    }

    // The next place that has a cell at it or beside it.
    fn next_place(&self) -> Option<i64>
        requires sound { IsSoundWindow self.now }
        ensures within { IfSome result IsOfSweep }
        ensures place { IfSome result (IsNextPlace self.now) }
        ensures none { result ≡ None → (is_blank_column self.now.middle ≡ true)
            × (is_blank_column self.now.east ≡ true) × (left_in self.now.rows ≡ 0) }
    {
        if !self.middle.is_blank() || !self.east.is_blank() {
            return Some(self.x + 1);
        }
        let Some(first) = self.rows.first_column() else {
            return None;
        };
        Some(first - 1)
    }

    /// Goes on to the next place that has a cell at it or beside it, and says whether there is one.
    pub(crate) fn advance(&mut self) -> bool
        requires sound { IsSoundWindow self.old }
        ensures sound { IsSoundWindow self.new }
        ensures east { result ≡ true → self.old.x <ℤ self.new.x }
        ensures below { (bound : ℕ) → 0 < bound → IsWindowBelow bound self.old
            → IsWindowBelow bound self.new }
        ensures window { result ≡ true → (cells : ℤ → ℤ → ℕ) (y : ℤ) → IsWindow cells y self.old
            → GoesOn cells y self.old self.new }
        ensures over { result ≡ false → (cells : ℤ → ℤ → ℕ) (y : ℤ) → IsWindow cells y self.old
            → (c : ℤ) → self.old.x <ℤ c → IsFar cells y c }
        ensures smaller { result ≡ true → steps_left self.new < steps_left self.old }
    {
        let Some(next) = self.next_place() else {
            return false;
        };
        self.x = next;
        self.west = self.middle;
        self.middle = self.east;
        self.east = self.rows.take_column(next + 1);
        true
    }

    /// The state of the cell and those of its eight neighbours, from north clockwise.
    pub(crate) fn around(&self) -> [State; 9]
        ensures { result ≡ states_of_window self.now }
    {
        [
            self.middle.here,
            self.middle.north,
            self.east.north,
            self.east.here,
            self.east.south,
            self.middle.south,
            self.west.south,
            self.west.here,
            self.west.north,
        ]
    }
}
