//! Patterns in the form that a caller chooses: in their place, moved, turned, or for all their phases.
//!
//! This crate answers what the text of a pattern is in a [`Form`], and whether two patterns are the same in it. Whoever has a form as a value comes here, so
//! that the cases of the form are in one place.
//!
//! Begin here, with a pattern that `life_reader` has read into a store:
//!
//! 1. [`text_in`] returns its canonical text in a form.
//! 2. [`same_in`] compares it with another pattern of the store. [`compare_in`] does so too, and says which of the two leaves the plane.
//!
//! An example: two gliders, the second one moved and turned.
//!
//! ```text
//! Placed        different
//! Moved         different
//! Turned        same
//! Phases(4)     same
//! ```
//!
//! It doesn't know how a form is made, which is the work of `life_forms` and `life_phase_forms`. Above it, `pattern_sources` and `life_cli` do what the program is asked for, and
//! `library_calls` what C asks for.
//!
//! Read first: `specs/InForm.antt`, and `src/forms.rt`.
#![tactic(auto)]

mod forms;

pub use forms::{compare_in, same_in, text_in};
pub use life_base::Form;
pub use life_phase_forms::FaultOfTwo;
