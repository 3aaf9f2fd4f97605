//! The form `phases` of a pattern: one text for all its places, orientations and phases.
//!
//! This crate answers whether two patterns are the same oscillator or spaceship, wherever they are, however they are turned, and in whatever phase.
//!
//! Begin here, with a pattern that `life_reader` has read into a store:
//!
//! 1. [`phases_text`] takes the pattern and the greatest period to look for. If the pattern has a period up to that, it returns the least text of its phases,
//!    each in the turned form of `life_forms` and in generation 0. Otherwise it returns the text of the turned form, in generation 0.
//! 2. [`are_phases`] compares two patterns of one store by these texts. If one of them has none, a [`FaultOfTwo`] says which.
//!
//! An example: two phases of a glider, and their one text with the greatest period 4. With 3 each would have the text of its own turned form.
//!
//! ```text
//! #CXRLE Pos=1000,-7       #CXRLE Gen=1             [M2] (canonical 1)
//! x = 3, y = 3             x = 3, y = 3             #R B3/S23
//! bo$2bo$3o!               obo$b2o$bo!              $$$$....*$....*.*$....**$$
//! ```
//!
//! The text is a canonical file of one of the phases, and its own text is itself (`laws::phases_texts_are_files`). Two files have one text exactly if a turn and
//! a shift take the one pattern to the other, or to a phase of it (`laws::phases_texts_tell_files`). All phases of a turned pattern are turned alike, because a
//! turn takes the neighbours of a cell to the neighbours of its image (`laws::generations_keep_turns`).
//!
//! It doesn't know what a period is called, tables, commands and devices. It takes texts from `life_forms`, and periods and generations from
//! `life_phases`.
//!
//! Read first: `specs/Phases.antt` (the text), `specs/Laws.antt` (when two texts are equal), and `src/texts.rt`.
#![tactic(auto)]

mod compare;
pub mod laws;
mod texts;

pub use compare::{FaultOfTwo, are_phases};
pub use texts::phases_text;
