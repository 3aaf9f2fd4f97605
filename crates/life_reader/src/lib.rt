//! Reads a file of either format into a store.
//!
//! This crate answers which pattern is in this file, or why there is none.
//!
//! Begin here, with an empty store (`Shared` of `life_quad`):
//!
//! 1. [`read`] takes the bytes of a file, and returns a `Pattern` of `life_pattern`: its rule, its generation, and the Id of its root.
//! 2. [`Reader`] takes the bytes in pieces: `new`, then `feed` for each piece, then `finish`.
//! 3. [`read_from`] takes the bytes from a source, and keeps at most 2^20 of them. [`read_from_within`] sets a lower limit to the length of the input.
//!
//! An example: two files of the same two cells. `read` returns equal patterns for both, with the rule B3/S23, the generation 0, and a root of level 4.
//!
//! ```text
//! #CXRLE Pos=-4,0                [M2]
//! x = 9, y = 1, rule = 23/3      ....*$
//! o7bo!                          ....*$
//!                                4 0 0 1 2
//! ```
//!
//! It doesn't know canonical texts, commands or next generations, or what a source really is. It uses both formats, `life_quad` and `life_strip`. Above it,
//! `life_canon` goes from bytes to a text, and `life_step`, `life_periods`, `life_generations` and `pattern_sources` read files by it.
//!
//! Read first: `specs/Feeding.antt` (what a reader keeps between two pieces), `specs/Calls.antt` (what a call leaves in the store), and `src/reader.rt`.
#![tactic(auto)]

mod files;
pub mod laws;
mod line_squares;
mod prefix;
mod progress;
mod reader;
mod runs;
mod space;

pub use files::read;
pub use reader::Reader;
pub use runs::{LONGEST_INPUT, read_from, read_from_within};
