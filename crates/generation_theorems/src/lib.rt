//! The theorems from bytes to bytes about many generations.
//!
//! This crate answers what is proved of `step_later` in the terms of the formats: which pattern the text of a later generation has, and why a file has none.
//!
//! Begin here. A function makes the calls on new stores, and its contract says what they return:
//!
//! 1. [`later_generation`]: the text of a file so many generations later has the same rule and as many generations more, and each cell has the state that the
//!    B/S rule gives it, generation by generation.
//! 2. [`later_text_is_fixed`]: such a text is its own canonical text.
//! 3. [`no_generation_is_canonical_text`] and [`one_generation_is_next`]: 0 generations give the canonical text, and 1 gives the text of `step_life`.
//!
//! An example, computed in `proofs/Rows.antt`: this row of three cells turns in each generation.
//!
//! ```text
//! #CXRLE Pos=-1,0    one generation later (0, -1), (0, 0) and (0, 1) are alive,
//! x=3,y=1            and two generations later (-1, 0), (0, 0) and (1, 0), as in the file
//! 3o!
//! ```
//!
//! What the theorems exclude: a call that goes one generation too far, and one that lets a pattern leave the plane and come back. If that row is at the
//! southern edge of the plane, two generations are refused as `OutOfPlane`.
//!
//! The statements don't know leaps, squares and stores. The bodies call `life_generations`, `life_step` and `life_canon`. Above it, `program_theorems` and
//! `library_theorems` say the same of the program and the library.
//!
//! Read first: `specs/ManyGenerations.antt`, and `src/further.rt`.
#![tactic(auto)]

mod further;

pub use further::{
    later_generation, later_text_is_fixed, no_generation_is_canonical_text, one_generation_is_next,
};
