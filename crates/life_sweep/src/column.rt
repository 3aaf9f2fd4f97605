//! Three rows of cells, column by column.
ghost use Rattle.std.specs.Prelude.{◌≡◌, ◌⊎◌, ℕ, ℤ, ◌+◌, ◌<◌, ◌≤◌, ◌≤ℤ◌, ◌<ℤ◌, true, All, IfSome, None, length};
ghost use Rattle.life_sweep.specs.Words.{one_after, IsRest, IsInside, StartsFrom, StartsAt, SomeStartsAt, InRows, AreInside, AreBelow, AreRows, IsColumn, column_at, is_blank_column, left_in, far, first_coordinate};

use crate::plane::HALF_PLANE;
use life_base::{Cell, State};

/// Three values, one below the other.
#[derive(Clone, Copy)]
pub struct Column<T> {
    pub north: T,
    pub here: T,
    pub south: T,
}

/// What is left of three rows.
pub(crate) type Rows<'a> = Column<&'a [Cell]>;

/// A column without a cell.
pub(crate) const BLANK: Column<State> = Column {
    north: 0,
    here: 0,
    south: 0,
};

// East of every cell.
const FAR: i64 = HALF_PLANE;

impl Column<State> {
    /// Whether the column has no cell.
    pub(crate) fn is_blank(self) -> bool
        ensures { result ≡ is_blank_column self }
    {
        self.north == 0 && self.here == 0 && self.south == 0
    }
}

// The state in a column of a row that has no cell west of it, and the row's cells east of it.
fn take(row: &[Cell], x: i64) -> (State, &[Cell])
    ensures state { (states : ℤ → ℕ) → IsRest states x row.now → result.0 ≡ states x }
    ensures rest { (states : ℤ → ℕ) → IsRest states x row.now
        → IsRest states (one_after x) result.1.now }
    ensures inside { All IsInside row.now → All IsInside result.1.now }
    ensures below { (bound : ℕ) → 0 < bound → All (λ cell. cell.state < bound) row.now
        → All (λ cell. cell.state < bound) result.1.now × (result.0 < bound) }
    ensures column { All IsInside row.now → (result.0 ≡ 0) ⊎ (x <ℤ far) }
    ensures fewer { (length result.1.now ≡ length row.now × (result.0 ≡ 0))
        ⊎ (length result.1.now + 1 ≡ length row.now) }
    ensures consumed { StartsAt x row.now → length result.1.now + 1 ≡ length row.now }
{
    match row.split_first() {
        Some((cell, rest)) if cell.x == x => (cell.state, rest),
        _ => (0, row),
    }
}

// The column of a row's first cell, or one east of every cell.
fn first_in(row: &[Cell]) -> i64
    requires inside { All IsInside row.now }
    ensures from { StartsFrom result row.now }
    ensures at { StartsAt result row.now ⊎ ((result ≡ far) × (length row.now ≡ 0)) }
    ensures least { first_coordinate ≤ℤ result }
    ensures most { result ≤ℤ far }
{
    match row.first() {
        Some(cell) => cell.x,
        None => FAR,
    }
}

// The lesser of two columns.
fn lesser(a: i64, b: i64) -> i64
    ensures first { result ≤ℤ a }
    ensures second { result ≤ℤ b }
    ensures one { (result ≡ a) ⊎ (result ≡ b) }
{
    if b < a { b } else { a }
}

impl<'a> Rows<'a> {
    /// The first column that has a cell.
    pub(crate) fn first_column(&self) -> Option<i64>
        requires inside { AreInside self.now }
        ensures from { IfSome result (λ x. InRows (StartsFrom x) self.now) }
        ensures at { IfSome result (λ x. SomeStartsAt x self.now) }
        ensures least { IfSome result (λ x. first_coordinate ≤ℤ x) }
        ensures most { IfSome result (λ x. x <ℤ far) }
        ensures none { result ≡ None → left_in self.now ≡ 0 }
    {
        let first = lesser(first_in(self.north), first_in(self.here));
        let first = lesser(first, first_in(self.south));
        if first < FAR { Some(first) } else { None }
    }

    /// The column `x`, before which there is no cell left. What is left is east of it.
    pub(crate) fn take_column(&mut self, x: i64) -> Column<State>
        ensures column { (cells : ℤ → ℤ → ℕ) (y : ℤ) → AreRows cells y x self.old
            → result ≡ column_at cells y x }
        ensures rest { (cells : ℤ → ℤ → ℕ) (y : ℤ) → AreRows cells y x self.old
            → AreRows cells y (one_after x) self.new }
        ensures inside { AreInside self.old → AreInside self.new }
        ensures below { (bound : ℕ) → 0 < bound → AreBelow bound self.old
            → AreBelow bound self.new × IsColumn bound result }
        ensures end { AreInside self.old → (is_blank_column result ≡ true) ⊎ (x <ℤ far) }
        ensures fewer { ((left_in self.new ≡ left_in self.old) × (is_blank_column result ≡ true))
            ⊎ (left_in self.new < left_in self.old) }
        ensures consumed { SomeStartsAt x self.old → left_in self.new < left_in self.old }
    {
        let (north, north_rest) = take(self.north, x);
        let (here, here_rest) = take(self.here, x);
        let (south, south_rest) = take(self.south, x);
        self.north = north_rest;
        self.here = here_rest;
        self.south = south_rest;
        Column { north, here, south }
    }
}
