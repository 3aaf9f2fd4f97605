//! Squares as pieces of a plane of cells, and squares of one level side by side.
//!
//! A call that makes the next generation of a square, or a square that begins at another place, works on squares side by side, and says what it makes of
//! the cells of a plane: wherever on a plane these squares are, the answer is a piece of that plane too. This crate has the words for both.
//!
//! Begin here:
//!
//! 1. [`Three`] and [`Four`] are values side by side. A [`Nine`] is a square amid its eight neighbours, and a [`Sixteen`] four rows of four squares.
//! 2. [`Three::quarters`] of a `Nine` returns the four quarters of the square in the middle, and the twelve around them.
//! 3. [`cells_of_leaf`] and [`cells_of_small`] return the cells of a square of level 3 or 2 as the bits of a word.
//! 4. `specs/Pieces.antt` says when a square is a piece of a plane (`IsPiece`), which square of a level begins at a place (`square_from`), and that squares
//!    side by side are pieces (`AreNine`, `AreSixteen`). `specs/Bits.antt` says the same of the bits of words.
//!
//! It doesn't know files, rules or next generations. It uses `life_quad`, `life_lanes` and `life_base`. Above it, `life_next` and `life_block` step cells
//! amid their neighbours, and `life_slide` cuts squares out of four others.
#![tactic(auto)]

mod grid;
mod leaf;

pub use grid::{Four, Nine, Sixteen, Three};
pub use leaf::{cells_of_leaf, cells_of_small};
