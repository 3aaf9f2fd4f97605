//! A builder that fills a store by whole rows of cells of the states 0 and 1.
ghost use Rattle.std.specs.Prelude.{◌≡◌, ℤ, ℕ, ◌==◌, ◌+◌, ◌^◌, ◌<◌, if◌then◌else◌, IfOk, OnOk};
ghost use Rattle.life_strip.specs.Words.{depth, tree_cell, AreRowWords, cell_in_words, cell_so_far, Grows, IsFilled, IsFilledAbove, IsUnfilled, SomeSquare, state_so_far};

use crate::plane::Plane;
use life_base::{Kind, MAX_LEVEL};
use life_quad::{Id, Squares};
use std::alloc::Global;
use std::marker::Model;

/// The cells of 64 columns of a row, the westernmost in the highest bit.
#[derive(Clone, Copy)]
pub struct RowWord {
    /// Which 64 columns these are, counted from the western edge of the plane.
    pub place: u64,
    /// The cells.
    pub cells: u64,
}

/// A pattern of the states 0 and 1 that is being filled into a store by whole rows, from the north.
///
/// It keeps Ids of the store alone. Between two calls the store may be changed by calls that keep every Id.
#[derive(Drop)]
pub struct RowBuilder {
    plane: Plane,
}

impl Model for RowBuilder {
    ghost use Rattle.life_strip.specs.declared.plane.Plane.{Plane};

    ghost Value = { Plane };

    ghost view = { λ b. b.plane };
}

impl RowBuilder {
    /// No row yet.
    pub fn new(alloc: Global) -> RowBuilder
        ensures { IsUnfilled result }
    {
        RowBuilder {
            plane: Plane::new(alloc),
        }
    }

    /// Gives a row its cells, which are those of words from west to east. `row` is counted from the northern edge of the plane, and no row from it on was
    /// given.
    ///
    /// # Errors
    ///
    /// `Full` if the store holds its limit and a square of the rows before is new, or `Memory`. After an error the builder is only to be dropped.
    pub fn add_row<S: Squares>(
        &mut self,
        squares: &mut S,
        row: u64,
        words: &[RowWord],
    ) -> Result<(), Kind>
        requires filled { IsFilledAbove (S.knows squares.old) (S.content squares.old) row self.old }
        requires inside { row < 2 ^ MAX_LEVEL }
        requires words { AreRowWords words.now }
        ensures filled { OnOk result
            (IsFilledAbove (S.knows squares.new) (S.content squares.new) (row + 1) self.new) }
        ensures cells { OnOk result
            ((i j : ℕ) → state_so_far (S.content squares.new) self.new i j
            ≡ (if j == row then cell_in_words words.now i
            else state_so_far (S.content squares.old) self.old i j)) }
        ensures grows { Grows S.Squares squares.old squares.new result
            (λ P. SomeSquare P row (state_so_far (S.content squares.old) self.old)) }
    {
        self.plane.add_words(squares, row, words)
    }

    /// The square of the whole plane with the cells of the rows.
    ///
    /// # Errors
    ///
    /// `Full` if the store holds its limit and a square of the rows is new, or `Memory`.
    pub fn finish<S: Squares>(self, squares: &mut S) -> Result<Id, Kind>
        requires filled { IsFilled (S.knows squares.old) (S.content squares.old) self }
        ensures known { IfOk result (S.knows squares.new) }
        ensures level { IfOk result (λ r. depth (S.content squares.new r) ≡ MAX_LEVEL) }
        ensures cells { IfOk result (λ r. (x y : ℤ)
            → tree_cell (S.content squares.new r) x y
            ≡ cell_so_far (S.content squares.old) self x y) }
        ensures grows { Grows S.Squares squares.old squares.new result
            (λ P. SomeSquare P (2 ^ MAX_LEVEL) (state_so_far (S.content squares.old) self)) }
    {
        self.plane.finish(squares)
    }
}
