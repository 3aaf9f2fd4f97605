//! One generation of a pattern under a B/S rule, row by row, as the runs of a file come in.
//!
//! This crate answers what the next generation is without making any square of the pattern itself: three rows of words of 64 cells give the next row, and only
//! rows of the next generation go into the store.
//!
//! Begin here:
//!
//! 1. [`RowStep::new`] begins a step under a rule.
//! 2. [`RowStep::add_runs`] takes further runs, row by row from the north, and in a row from west to east. It returns whether the step goes on. It stops at a
//!    state above 1, at more than 2^20 cells, near the edge of the plane, and if the store is full or out of memory.
//! 3. [`RowStep::finish`] returns the Id of the plane of the next generation, or `None`.
//!
//! An example: the runs of a glider under B3/S23, each with its column, its row and its length, and the cells of the square that `finish` returns.
//!
//! ```text
//! (1, 0) 1    (2, 1) 1    (0, 2) 3      becomes      (0, 1)  (2, 1)  (1, 2)  (2, 2)  (1, 3)
//! ```
//!
//! If the step stops, that says nothing about the pattern: step it in another way, which answers or says why not. Inside, `row_cells` puts the cells of a row
//! into words and walks along them, and `next_row` makes a row of three.
//!
//! It doesn't know how a file is read, or which generation it is. It uses `life_next` for the cells of a word, and the `RowBuilder` of `life_strip`. Above it,
//! `next_by_rows` of `life_step` steps an RLE file by it.
//!
//! Read first: `specs/Stepping.antt` (what a step has done so far), `src/row_step.rt`, and `src/next_row.rt`.
#![tactic(auto)]

mod next_row;
mod row_cells;
mod row_step;
mod three_rows;

pub use row_step::RowStep;
