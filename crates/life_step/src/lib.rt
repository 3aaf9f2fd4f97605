//! One generation of a pattern: from a file of either format to the canonical text of the next generation.
//!
//! This crate answers what the next generation of a file is, or which of several reasons comes first if it has none.
//!
//! Begin here, with an empty store (`Shared` of `life_quad`):
//!
//! 1. [`step_life`] takes the bytes of a file, and steps its pattern under its own B/S rule. [`step_table`] steps one under a name by a rule table of that
//!    name.
//! 2. [`next_by_rule`] and [`next_by_table`] do so for a pattern that was read into the store.
//! 3. [`next_by_rows`] is a faster way for an RLE file. `None` says nothing about the file: call `step_life` then.
//! 4. [`text_of_square`] writes the canonical text of any square, for crates that step in other ways.
//!
//! An example: three cells in a row, and the text that `step_life` returns.
//!
//! ```text
//! x = 3, y = 1, rule = B3/S23         [M2] (canonical 1)
//! 3o!                                 #R B3/S23
//!                                     #G 1
//!                                     $$$.....*$.....*$.....*$$$
//! ```
//!
//! With a line `#CXRLE Gen=18446744073709551615` before these two, it is refused as `GenerationTooLarge`.
//!
//! A step is refused for the first of these that holds: a fault of the file; the wrong kind of rule; the last generation that a file can name; more than 2^20
//! cells that aren't 0; a state that the table lacks; a neighbourhood to which the table gives two states; a cell outside the plane that would not become 0.
//!
//! It doesn't know forms and the command line. It steps by `life_block` and `life_rows`, reads by `life_reader` and writes by `life_writer`. Above it,
//! `life_generations` makes many generations, and `life_cli` and `library_calls` call it for the program and the library.
//!
//! Read first: `specs/Refusals.antt` (their order), `specs/Stepped.antt` (the next generation), and `src/steps.rt`.
#![tactic(auto)]

mod by_rows;
mod steps;

pub use by_rows::next_by_rows;
pub use steps::{next_by_rule, next_by_table, step_life, step_table, text_of_square};
