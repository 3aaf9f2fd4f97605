//! The rows of the plane that are over.
ghost use Rattle.std.specs.Prelude.{◌≡◌, ℕ, ◌+◌, ◌-◌, ◌^◌, ◌<◌, ◌≤◌, ◌∷◌, [], All, length, false, IsTrue, IfOk, OnOk};
ghost use Rattle.life_strip.specs.Words.{depth, state_at, Grows, AreStacked, IsLowest, IsRow, SomeSquare, IsBlankTo, IsPile, HasClosedRows, HasConsumedNorth, IsMiddleSquare, SomeOfMiddle, StripValue, SomeOfPile, pile_height, pile_state, pile_state_with};

use crate::middle::{is_blank_north, join_middle, widen};
use crate::row::Row;
use crate::rows::{band_strip, blank_level, push_and_raise, push_strip, take_last, whole};
use crate::spans::Strip;
use crate::spare::Spare;
use life_base::{Kind, MAX_LEVEL};
use life_quad::{Id, Squares};
use std::alloc::Global;

// The rows that are over, from the north: whole bands of four in strips of falling levels, and the rows of the next band.
#[derive(Drop)]
pub(crate) struct Pile {
    pub(crate) alloc: Global,
    pub(crate) spare: Spare,
    strips: Vec<Strip>,
    band: Vec<Row>,
}

// The least level, from 2 on, of which a square has this row.
fn row_level(row: u64) -> u8
    requires { row < 2 ^ (MAX_LEVEL - 1) }
    ensures low { 2 ≤ result }
    ensures high { result < MAX_LEVEL }
    ensures enough { row < 2 ^ result }
    ensures least { (m : ℕ) → 2 ≤ m → m < result → ¬ (row < 2 ^ m) }
{
    (row.max(3).ilog2() + 1) as u8
}

// How many rows a square of a level has below this one.
fn rows_below(level: u8, row: u64) -> u64
    requires high { level < MAX_LEVEL }
    requires enough { row < 2 ^ level }
    ensures { result + row + 1 ≡ 2 ^ level }
{
    (1 << level) - 1 - row
}

// The strip, of strips of falling levels that have the rows of one of this level.
fn only_strip(alloc: Global, strips: &mut Vec<Strip>) -> Strip
    ensures { (s : StripValue) → strips.old.items ≡ s ∷ [] → result ≡ s }
{
    match strips.pop() {
        Some(strip) => strip,
        None => Strip {
            level: 0,
            spans: Vec::new(alloc),
        },
    }
}

impl Pile {
    // No row yet.
    pub(crate) fn new(alloc: Global) -> Pile
        ensures strips { result.strips.items ≡ [] }
        ensures band { result.band.items ≡ [] }
    {
        Pile {
            alloc,
            spare: Spare::new(alloc),
            strips: Vec::new(alloc),
            band: Vec::new(alloc),
        }
    }

    // Rows one by one below the strips. The order of the rows stays.
    fn push_rows<S: Squares>(&mut self, squares: &mut S) -> Result<(), Kind>
        requires strips { AreStacked (S.knows squares.old) (S.content squares.old)
            self.old.strips.items }
        requires rows { All (IsRow (S.knows squares.old) (S.content squares.old))
            self.old.band.items }
        requires space { pile_height self.old ≤ 2 ^ MAX_LEVEL }
        ensures closed { OnOk result (HasClosedRows (S.knows squares.new) (S.content squares.old)
            (S.content squares.new) self.old self.new) }
        ensures grows { Grows S.Squares squares.old squares.new result
            (λ P. SomeOfPile P (S.content squares.old) self.old) }
    {
        let Some(last) = self.band.pop() else {
            return Ok(());
        };
        self.push_rows(squares)?;
        let strip = last.into_strip(squares, &mut self.spare)?;
        push_strip(squares, &mut self.spare, &mut self.strips, strip)
    }

    // A whole band below the strips. It is never inlined, so that `push_row` can be.
    #[inline(never)]
    fn close_band<S: Squares>(&mut self, squares: &mut S) -> Result<(), Kind>
        requires strips { AreStacked (S.knows squares.old) (S.content squares.old)
            self.old.strips.items }
        requires lowest { IsLowest 2 self.old.strips.items }
        requires rows { All (IsRow (S.knows squares.old) (S.content squares.old))
            self.old.band.items }
        requires whole { length self.old.band.items ≡ 4 }
        requires space { pile_height self.old ≤ 2 ^ MAX_LEVEL }
        ensures closed { OnOk result (HasClosedRows (S.knows squares.new) (S.content squares.old)
            (S.content squares.new) self.old self.new) }
        ensures grows { Grows S.Squares squares.old squares.new result
            (λ P. SomeOfPile P (S.content squares.old) self.old) }
    {
        let Some(strip) = band_strip(squares, &mut self.spare, self.band.as_slice())? else {
            return self.push_rows(squares);
        };
        self.spare.give_rows(&mut self.band);
        push_strip(squares, &mut self.spare, &mut self.strips, strip)
    }

    // One row more, below the others. Four rows become a strip of level 2.
    #[inline(always)]
    fn push_row<S: Squares>(&mut self, squares: &mut S, row: Row) -> Result<(), Kind>
        requires pile { IsPile (S.knows squares.old) (S.content squares.old) self.old }
        requires row { IsRow (S.knows squares.old) (S.content squares.old) row }
        requires space { pile_height self.old + 1 ≤ 2 ^ MAX_LEVEL }
        ensures pile { OnOk result (IsPile (S.knows squares.new) (S.content squares.new) self.new) }
        ensures height { OnOk result
            (pile_height self.new ≡ pile_height self.old + 1) }
        ensures picture { OnOk result ((column j : ℕ)
            → pile_state (S.content squares.new) self.new column j
            ≡ pile_state_with (S.content squares.old) self.old row column j) }
        ensures grows { Grows S.Squares squares.old squares.new result
            (λ P. SomeSquare P (pile_height self.old + 1)
            (pile_state_with (S.content squares.old) self.old row)) }
    {
        self.band.push(row)?;
        if self.band.len() < 4 {
            return Ok(());
        }
        self.close_band(squares)
    }

    // Rows without cells, in the fewest strips.
    #[inline(always)]
    fn skip_rows<S: Squares>(&mut self, squares: &mut S, count: u64) -> Result<(), Kind>
        requires pile { IsPile (S.knows squares.old) (S.content squares.old) self.old }
        requires space { pile_height self.old + count ≤ 2 ^ MAX_LEVEL }
        ensures pile { OnOk result (IsPile (S.knows squares.new) (S.content squares.new) self.new) }
        ensures height { OnOk result
            (pile_height self.new ≡ pile_height self.old + count) }
        ensures picture { OnOk result ((column row : ℕ)
            → pile_state (S.content squares.new) self.new column row
            ≡ pile_state (S.content squares.old) self.old column row) }
        ensures grows { Grows S.Squares squares.old squares.new result
            (λ P. SomeSquare P (pile_height self.old + count)
            (pile_state (S.content squares.old) self.old)) }
    {
        let mut rest = count;
        while rest > 0 {
            if rest < 4 || !self.band.is_empty() {
                self.push_row(squares, Row::new(self.alloc))?;
                rest -= 1;
                continue;
            }
            let level = blank_level(self.strips.as_slice(), rest);
            if let Some(last) = take_last(&mut self.strips, level) {
                let spare = &mut self.spare;
                let strips = &mut self.strips;
                rest -= push_and_raise(squares, spare, self.alloc, strips, last, rest)?;
                continue;
            }
            let strip = Strip {
                level,
                spans: Vec::new(self.alloc),
            };
            push_strip(squares, &mut self.spare, &mut self.strips, strip)?;
            rest -= 1 << level;
        }
        Ok(())
    }

    // One row more, below the others, and below it rows without cells.
    #[inline(always)]
    pub(crate) fn end_row<S: Squares>(
        &mut self,
        squares: &mut S,
        row: Row,
        blank_rows: u64,
    ) -> Result<(), Kind>
        requires pile { IsPile (S.knows squares.old) (S.content squares.old) self.old }
        requires row { IsRow (S.knows squares.old) (S.content squares.old) row }
        requires space { pile_height self.old + 1 + blank_rows ≤ 2 ^ MAX_LEVEL }
        ensures pile { OnOk result (IsPile (S.knows squares.new) (S.content squares.new) self.new) }
        ensures height { OnOk result
            (pile_height self.new ≡ pile_height self.old + 1 + blank_rows) }
        ensures picture { OnOk result ((column j : ℕ)
            → pile_state (S.content squares.new) self.new column j
            ≡ pile_state_with (S.content squares.old) self.old row column j) }
        ensures grows { Grows S.Squares squares.old squares.new result
            (λ P. SomeSquare P (pile_height self.old + 1 + blank_rows)
            (pile_state_with (S.content squares.old) self.old row)) }
    {
        // The first row of the plane is begun without cells: it is skipped with those below it, in the fewest strips.
        if row.is_empty() {
            return self.skip_rows(squares, blank_rows + 1);
        }
        self.push_row(squares, row)?;
        self.skip_rows(squares, blank_rows)
    }

    // The square of the plane whose last row with cells this is.
    pub(crate) fn whole_plane<S: Squares>(
        self,
        squares: &mut S,
        row: Row,
        blank_rows: u64,
    ) -> Result<Id, Kind>
        requires pile { IsPile (S.knows squares.old) (S.content squares.old) self }
        requires row { IsRow (S.knows squares.old) (S.content squares.old) row }
        requires whole { pile_height self + 1 + blank_rows ≡ 2 ^ MAX_LEVEL }
        ensures known { IfOk result (S.knows squares.new) }
        ensures level { IfOk result (λ r. depth (S.content squares.new r) ≡ MAX_LEVEL) }
        ensures cells { IfOk result (λ r. (column j : ℕ) → column < 2 ^ MAX_LEVEL
            → j < 2 ^ MAX_LEVEL → state_at (S.content squares.new r) column j
            ≡ pile_state_with (S.content squares.old) self row column j) }
        ensures grows { Grows S.Squares squares.old squares.new result
            (λ P. SomeSquare P (2 ^ MAX_LEVEL)
            (pile_state_with (S.content squares.old) self row)) }
    {
        let mut pile = self;
        pile.end_row(squares, row, blank_rows)?;
        Ok(whole(squares, pile.strips.as_slice()))
    }

    // Takes the strip of the northern half of the plane away, if it has no cell. Returns whether it did.
    pub(crate) fn take_northern_half<S: Squares>(&mut self, squares: &S) -> bool
        requires pile { IsPile (S.knows squares.now) (S.content squares.now) self.old }
        requires space { pile_height self.old < 2 ^ MAX_LEVEL }
        ensures consumed { IsTrue result
            → HasConsumedNorth (S.content squares.now) self.old self.new }
        ensures left { result ≡ false → self.new ≡ self.old }
        ensures cell { result ≡ false → 2 ^ (MAX_LEVEL - 1) ≤ pile_height self.old
            → ¬ IsBlankTo (2 ^ (MAX_LEVEL - 1)) (pile_state (S.content squares.now) self.old) }
    {
        if !is_blank_north(squares, self.strips.as_slice()) {
            return false;
        }
        let _northern = self.strips.remove(0);
        true
    }

    // The square about the middle of the plane with the cells of the rows from the middle on. `rows` are before the last one.
    pub(crate) fn about_middle<S: Squares>(
        self,
        squares: &mut S,
        row: Row,
        rows: u64,
    ) -> Result<Id, Kind>
        requires pile { IsPile (S.knows squares.old) (S.content squares.old) self }
        requires row { IsRow (S.knows squares.old) (S.content squares.old) row }
        requires height { pile_height self ≡ rows }
        requires space { rows < 2 ^ (MAX_LEVEL - 1) }
        ensures known { IfOk result (S.knows squares.new) }
        ensures square { IfOk result (λ r. IsMiddleSquare rows
            (pile_state_with (S.content squares.old) self row) (S.content squares.new r)) }
        ensures grows { Grows S.Squares squares.old squares.new result
            (λ P. SomeOfMiddle P rows (pile_state_with (S.content squares.old) self row)) }
    {
        let mut pile = self;
        let level = row_level(rows);
        pile.end_row(squares, row, rows_below(level, rows))?;
        let strip = only_strip(pile.alloc, &mut pile.strips);
        let wide = widen(squares, &mut pile.spare, pile.alloc, strip)?;
        join_middle(squares, &wide)
    }
}
