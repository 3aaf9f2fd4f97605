//! The period of a pattern under a B/S rule: the least number of generations after which it is the same again, moved or not.
//!
//! This crate answers whether a pattern repeats within so many generations, after how many, and how far it has moved by then. A still life has period 1, an
//! oscillator moves by nothing, and a spaceship moves.
//!
//! Begin here. A square is an Id in a store (`Shared` of `life_quad`), a rule is a `LifeRule`, and an error is a `Fault` without a line number:
//!
//! 1. [`period_of`] takes a square and the greatest period to look for. It returns a [`Period`], or `None` if there is no period up to that.
//! 2. A [`Period`] has the number of generations, and a [`Shift`]: so many columns east and rows south.
//! 3. [`in_middle`] moves a pattern to the middle of the plane in another store, as far as [`way_to_middle`] says for its bounding box.
//!
//! An example: with the square of a glider, `period_of(alloc, &store, &rule, glider, 100)` returns 4 generations, 1 column and 1 row. With 3 in place of 100 it
//! returns `None`.
//!
//! Inside, the pattern is moved to the middle of the plane, and stepped from there one generation after another ([`next_phase`]). Each phase whose box is as
//! large as that of the pattern is moved to the middle in a store of its own, so that two phases are shifts of each other exactly if they have one Id. No cells
//! and no texts are compared.
//!
//! It doesn't know files, the generation that a pattern is in, what people call a pattern, or rules by tables. It steps small squares by `life_block` and
//! others by `life_later`, and moves them by `life_slide`. Above it, `life_periods` finds the period of a file, and `life_phase_forms` writes one text for all phases of a pattern.
//!
//! Read first: `specs/Periods.antt` (`HasPeriod` says what a period is), `specs/Laws.antt`, and `src/period.rt`.
#![tactic(auto)]

pub mod laws;
mod middle;
mod next;
mod period;

pub use middle::{Shift, in_middle, way_to_middle};
pub use next::next_phase;
pub use period::{Period, period_of};
