//! Normal forms of a pattern: one text for all its places (`moved`), or for all its places, turns and reflections (`turned`).
//!
//! This crate answers whether two patterns are the same up to translation, and whether they are the same up to rotation and reflection as well.
//!
//! Begin here, with a pattern that `life_reader` has read into a store:
//!
//! 1. [`moved_of`] returns the moved form, a pattern in a store of its own: its bounding box begins at (0, 0), unless the box is too wide for that.
//! 2. [`turned_text`] returns the canonical text of the turned form: of the eight images of the pattern, each moved, it is the text that is least byte by byte.
//! 3. [`are_shifts`] and [`are_turns`] compare two patterns of one store in these forms.
//!
//! An example: a glider far from the middle, its moved form and its turned form.
//!
//! ```text
//! #CXRLE Pos=1000,-7                  moved     [M2] (canonical 1)
//! x = 3, y = 3, rule = B3/S23                   #R B3/S23
//! bo$2bo$3o!                                    $$$$.....*$......*$....***$$
//!
//!                                     turned    [M2] (canonical 1)
//!                                               #R B3/S23
//!                                               $$$$....*$....*.*$....**$$
//! ```
//!
//! All eight images of a glider, at any place, have this turned form.
//!
//! It doesn't know how a file is read, and no next generation. A form has at most 2^21 different squares ([`MOST_SQUARES`]); a larger one is refused as `Full`.
//! Above it, `pattern_sources` writes the forms for the program, and `library_calls` for C.
//!
//! Read first: `specs/Forms.antt` and `specs/Turns.antt`, `src/patterns.rt`, and `src/images.rt`.
#![tactic(auto)]

mod compare;
mod corners;
mod images;
pub mod laws;
mod leaves;
mod lower_bounds;
mod moves;
mod order;
mod patterns;

pub use compare::{are_shifts, are_turns};
pub use images::turned_text;
pub use life_quad::Turn;
pub use patterns::{MOST_SQUARES, moved_of};
