//! Many generations of a pattern: from a file of either format to the canonical text of a later generation.
//!
//! This crate answers what the pattern of a file is so many generations later under its own B/S rule, or why it has no such generation.
//!
//! Begin here, with an empty store (`Shared` of `life_quad`):
//!
//! 1. [`step_later`] takes the bytes of a file and a number of generations, and returns the canonical text. For 0 generations it is that of the file itself.
//! 2. [`later_by_rule`] does so for a pattern that was read into the store.
//!
//! An example: three cells in a row, and the text that `step_later` returns for two generations. The row has turned twice.
//!
//! ```text
//! #CXRLE Pos=-1,0                     [M2] (canonical 1)
//! x = 3, y = 1, rule = B3/S23         #R B3/S23
//! 3o!                                 #G 2
//!                                     $$$$...***$$$$
//! ```
//!
//! If the row is at the southern edge of the plane, it is refused as `OutOfPlane`: it would be back after two generations, but it leaves the plane in the
//! first.
//!
//! A file is refused for the first of these that holds: a fault of the file; a rule that is a name; a generation above the last one that a file can name; a
//! cell outside the plane that isn't 0 in one of the generations on the way.
//!
//! It doesn't know tables, commands and devices. It takes its generations from `life_later`, and writes by `life_step`. Above it, `life_cli` calls it for the
//! option `--generations`, and `library_calls` for the library.
//!
//! Read first: `specs/Later.antt` (a later generation, and the refusals), and `src/further.rt`.
#![tactic(auto)]

mod further;
pub mod laws;

pub use further::{later_by_rule, step_later};
