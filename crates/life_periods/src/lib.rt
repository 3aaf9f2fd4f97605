//! The period of the pattern of a file, and the line that says it.
//!
//! This crate answers after how many generations the pattern of a file is the same again, moved or not, under the file's own B/S rule, or why that can't be
//! said.
//!
//! Begin here, with an empty store (`Shared` of `life_quad`):
//!
//! 1. [`period_of_file`] takes the bytes of a file, and the greatest period to look for. It returns a [`Period`], or `None` if there is none up to that.
//! 2. [`period_of_pattern`] does so for a pattern that was read into the store.
//! 3. [`append_period`] writes the line of a period. [`show_with_period`] writes five lines on the pattern, and this line after them.
//!
//! An example: a glider, three cells in a row, and a pattern that grows for a long time, under B3/S23 and with the greatest period 60.
//!
//! ```text
//! bo$2bo$3o!     period 4 spaceship 1 1
//! 3o!            period 2 oscillator
//! b2o$2o$bo!     period none up to 60
//! ```
//!
//! A file is refused for the first of these that holds: a fault of the file; a rule that is a name; a pattern that leaves the plane on the way, begun in its
//! middle.
//!
//! It doesn't know tables, commands and devices. It reads files by `life_reader`, and finds periods by `life_phases`. Above it, `life_cli` does
//! `show --period` with it, and the rows of the crate `rows` test it.
//!
//! Read first: `specs/OfFile.antt` (the period of a file), `specs/Line.antt` (the line), and `src/files.rt`.
#![tactic(auto)]

mod files;
pub mod laws;
mod line;

pub use files::{period_of_file, period_of_pattern, show_with_period};
pub use life_phases::{Period, Shift};
pub use line::append_period;
