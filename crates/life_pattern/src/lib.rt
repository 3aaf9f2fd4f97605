//! What a pattern file says, and a pattern in a store.
//!
//! This crate answers what a file of either format is, which rule, generation and cells it says, and when a pattern in a store is the pattern of a file.
//!
//! Begin here:
//!
//! 1. [`Pattern`] has a rule, a generation, and the Id of its root in a store (`Shared` of `life_quad`).
//! 2. [`are_same`] compares two patterns of one store, and [`least_level`] returns the level of the smallest squares with a node line of their own.
//! 3. [`laws`] has what holds of every file: it says one pattern (`files_are_unique`), and that pattern fits the plane (`files_are_on_plane`).
//!
//! An example: two files that say the same. The rule is B3/S23, the generation is 0, and the cells (-4, 0) and (4, 0) have state 1.
//!
//! ```text
//! #CXRLE Pos=-4,0                [M2]
//! x = 9, y = 1, rule = 23/3      ....*$
//! o7bo!                          ....*$
//!                                4 0 0 1 2
//! ```
//!
//! It doesn't know how a file is read or a text is written. It uses the definitions of both formats and of `life_quad`. Above it, `life_reader` makes a pattern
//! of a file, and `life_writer` writes texts of a pattern. Neither knows the other.
//!
//! Read first: `specs/Universe.antt` and `specs/Files.antt` (what a file says), and `specs/Store.antt` (a pattern in a store).
#![tactic(auto)]

pub mod laws;
mod pattern;

pub use pattern::{Pattern, are_same, least_level};
