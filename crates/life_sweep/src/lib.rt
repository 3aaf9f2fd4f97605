//! One generation of a pattern, place by place: the next states of a square's cells, by a B/S rule or a rule table.
//!
//! This crate answers what each cell becomes, in the order of rows and columns, so that a refusal names the first cell that has no next state. It visits only
//! places that have a cell at them or next to them; every other place keeps 0.
//!
//! Begin here:
//!
//! 1. A [`Law`] says what a cell becomes, by its state and those of its eight neighbours. [`ByCounts::new`] makes one of a B/S rule, and [`ByTable::new`] one
//!    of a rule table.
//! 2. [`next_generation`] takes a square, and returns the square of the plane with the next generation. You say how many cells there may be at most.
//!
//! An example: three live cells in a row under B3/S23.
//!
//! ```text
//! (0, 0)  (1, 0)  (2, 0)      becomes      (1, -1)  (1, 0)  (1, 1)
//! ```
//!
//! If the row is at the southern edge of the plane, a cell outside the plane would be born, and the call is refused as `OutOfPlane`.
//!
//! Inside, a `band` keeps three rows and goes from row to row, and a `window` keeps three columns of these and goes from place to place. The results go to the
//! builder of `life_strip`.
//!
//! It doesn't know pattern files, or which generation it is. It uses `life_next`, `life_table`, `life_strip`, `life_quad` and `life_base`. Above it, `life_block`
//! does the same square by square, and calls this crate where that isn't possible.
//!
//! Read first: `specs/Generation.antt` of this crate and of `life_next` (the next state of a cell), `src/generation.rt`, and `src/sweep.rt`.
#![tactic(auto)]

mod band;
mod column;
mod generation;
mod law;
pub mod laws;
mod plane;
mod run_builder;
mod sweep;
mod window;

pub use column::Column;
pub use generation::next_generation;
pub use law::{ByCounts, ByTable, Law};
