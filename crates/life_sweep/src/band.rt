//! The rows of the plane that have cells in them or beside them, from north to south.
ghost use Rattle.std.specs.Prelude.{◌≡◌, ℕ, ℤ, ◌+◌, ◌<◌, ◌≤◌, ◌<ℤ◌, true, false, All, IfSome, None, IsTrue, ◌↔◌, length, take, drop};
ghost use Rattle.life_sweep.specs.Words.{IsBandOfRows, IsSoundBand, IsBandBelow, GoesSouth, IsFarRow, IsRestOf, IsBlankBefore, IsInside, IsSortedList, BeginsAt, IsOfSweep, IsNextRow, rows_left, start_of_sweep, first_coordinate};

use crate::column::Rows;
use crate::plane::START;
use life_base::Cell;

/// Three rows of cells, and the cells south of them.
#[derive(Clone, Copy)]
pub(crate) struct Band<'a> {
    pub(crate) y: i64,
    pub(crate) rows: Rows<'a>,
    pub(crate) rest: &'a [Cell],
}

// Whether a cell is in the row.
fn is_in_row(cell: &Cell, y: i64) -> bool
    ensures { IsTrue result ↔ (cell.now.y ≡ y) }
{
    cell.y == y
}

// How many cells from the first on are in the row.
fn row_length(cells: &[Cell], y: i64) -> usize
    ensures within { result ≤ length cells.now }
    ensures row { All (λ cell. cell.y ≡ y) (take result cells.now) }
    ensures rest { ¬ BeginsAt y (drop result cells.now) }
{
    for (i, cell) in cells.iter().enumerate() {
        if !is_in_row(cell, y) {
            return i;
        }
    }
    cells.len()
}

impl<'a> Band<'a> {
    /// Before the first row.
    pub(crate) fn new(cells: &'a [Cell]) -> Band<'a>
        requires inside { All IsInside cells.now }
        requires sorted { IsSortedList cells.now }
        ensures sound { IsSoundBand result }
        ensures below { (bound : ℕ) → All (λ cell. cell.state < bound) cells.now
            → IsBandBelow bound result }
        ensures start { result.y ≡ start_of_sweep }
        ensures band { (plane : ℤ → ℤ → ℕ) → IsBlankBefore plane
            → IsRestOf plane first_coordinate first_coordinate cells.now
            → IsBandOfRows plane result }
    {
        Band {
            y: START,
            rows: Rows {
                north: &[],
                here: &[],
                south: &[],
            },
            rest: cells,
        }
    }

    // The next row that has a cell in it or beside it.
    fn next_row(&self) -> Option<i64>
        requires sound { IsSoundBand self.now }
        ensures within { IfSome result IsOfSweep }
        ensures row { IfSome result (IsNextRow self.now) }
        ensures none { result ≡ None → (length self.now.rows.here.now ≡ 0)
            × (length self.now.rows.south.now ≡ 0) × (length self.now.rest.now ≡ 0) }
    {
        if !self.rows.here.is_empty() || !self.rows.south.is_empty() {
            return Some(self.y + 1);
        }
        let Some(first) = self.rest.first() else {
            return None;
        };
        Some(first.y - 1)
    }

    /// Goes on to the next row that has a cell in it or beside it, and says whether there is one.
    pub(crate) fn advance(&mut self) -> bool
        requires sound { IsSoundBand self.old }
        ensures sound { IsSoundBand self.new }
        ensures south { result ≡ true → self.old.y <ℤ self.new.y }
        ensures below { (bound : ℕ) → IsBandBelow bound self.old → IsBandBelow bound self.new }
        ensures band { result ≡ true → (cells : ℤ → ℤ → ℕ) → IsBlankBefore cells
            → IsBandOfRows cells self.old → GoesSouth cells self.old self.new }
        ensures over { result ≡ false → (cells : ℤ → ℤ → ℕ) → IsBlankBefore cells
            → IsBandOfRows cells self.old → (r : ℤ) → self.old.y <ℤ r → IsFarRow cells r }
        ensures smaller { result ≡ true → rows_left self.new < rows_left self.old }
    {
        let Some(next) = self.next_row() else {
            return false;
        };
        let (south, rest) = self.rest.split_at(row_length(self.rest, next + 1));
        self.y = next;
        self.rows.north = self.rows.here;
        self.rows.here = self.rows.south;
        self.rows.south = south;
        self.rest = rest;
        true
    }
}
