//! The pattern of a file of either format, and its canonical text.
//!
//! This crate answers the main question of the project: which pattern is in this file, and what is the one text that all files of this pattern share?
//!
//! Begin here, with an empty store (`Shared` of `life_quad`):
//!
//! 1. [`read`] takes the bytes of a file, and returns a [`Pattern`]: its rule, its generation, and the Id of its root. [`Reader`] takes the bytes in pieces
//!    (`new`, `feed`, `finish`), and [`read_from`] takes them from a source.
//! 2. [`text_of`] writes the canonical text of a pattern, [`five_lines_of`] describes it, and [`rle_of`] writes it in RLE. [`are_same`] compares two patterns
//!    of one store.
//! 3. [`canon`], [`show`], [`to_rle`] and [`same`] do both steps, from bytes to the answer.
//! 4. [`run_canon`] goes from a source to a sink, and keeps at most 2^20 bytes of the file.
//!
//! An example: two files of the same two cells, and the text that `canon` returns for each.
//!
//! ```text
//! #CXRLE Pos=-4,0                [M2]            [M2] (canonical 1)
//! x = 9, y = 1, rule = 23/3      ....*$          #R B3/S23
//! o7bo!                          ....*$          ....*$$$$$$$$
//!                                4 0 0 1 2       4 0 0 1 1
//! ```
//!
//! It doesn't know commands, forms or next generations, or what a source or a sink really is. It uses `life_pattern`, `life_reader` and `life_writer`, and
//! passes on what they have for a caller. Above it, `pattern_sources` calls it for the program, and `theorems` proves the headline of it.
//!
//! Read first: `specs/Running.antt` (what a run from a source to a sink leaves), and `src/texts.rt`. What a file says is defined in `life_pattern`, and its
//! canonical lines in `life_writer`.
#![tactic(auto)]

mod compare;
pub mod laws;
mod runs;
mod summary;
mod texts;

pub use compare::same;
pub use life_pattern::{Pattern, are_same, least_level};
pub use life_reader::{Reader, read, read_from};
pub use life_writer::{
    MOST_CELLS, five_lines_of, lesser_text, lesser_turned_text, number, rle_of, text_of,
};
pub use runs::{run_canon, run_canon_within};
pub use summary::show;
pub use texts::{canon, to_rle};
