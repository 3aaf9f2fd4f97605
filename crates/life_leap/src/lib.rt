//! Many generations at once under a B/S rule, by HashLife (Golly Help, HashLife): the answer for a square is found once and remembered by the square's Id.
//!
//! This crate answers what a square of cells is 2^pace generations later. The pace is the binary logarithm of the number of generations: pace 0 is 1
//! generation, and the greatest pace, [`FASTEST`], is 2^60 generations.
//!
//! Begin here. A square is an Id in a store of `life_quad`. The memory of answers is an `IdMap`, which you make empty; it serves leaps of any pace in one store
//! and under one rule:
//!
//! 1. [`leap_on_plane`] takes a square, grows it as far as needed, and returns the square after the leap. No cell may be near enough to the edge of the plane
//!    to leave it.
//! 2. [`square_after`] does the same with the square as it is, which has to be large enough.
//! 3. [`next_on_plane`] makes one generation where a pattern is at the edge of the plane, and refuses a cell that leaves it as `OutOfPlane`.
//!
//! An example: a glider moves by one cell to the east and the south in 4 generations. So `leap_on_plane(alloc, &mut store, &mut memory, &rule, 2, glider)`
//! returns the square of the glider moved by 1 column and 1 row. With pace 12 in place of 2 these are 4,096 generations, and it is moved by 1,024 columns and
//! 1,024 rows.
//!
//! The states of a plane after n generations are `after rule n cells`, for all pairs of whole numbers.
//!
//! It doesn't know files, rules by tables, or how many generations a caller wants in all. It uses `life_next` for single generations. Above it, `life_later`
//! divides any number of generations into leaps.
//!
//! Read first: `specs/After.antt` (later generations), `specs/Leaps.antt`, `src/growing.rt`, and `src/leap.rt`.
#![tactic(auto)]

mod bands;
mod edge;
mod grid;
mod growing;
pub mod laws;
mod leap;
mod slow;

pub use growing::{FASTEST, leap_on_plane, next_on_plane};
pub use leap::square_after;
