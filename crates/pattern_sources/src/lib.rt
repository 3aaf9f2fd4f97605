//! The pattern of a source and its text in a form, and what is written where a source is refused.
//!
//! This crate answers what the commands of the program share: how a source becomes a pattern, how that becomes a text, and which line and status a fault ends
//! the program with.
//!
//! Begin here:
//!
//! 1. [`Seeds::drawn`] draws the random words by which a run finds its squares. [`Seeds::fixed`] is for files that you trust.
//! 2. [`text_of_source`] reads a source, and returns the text of its pattern in a form. [`start_text_of_source`] does so as if its generation were 0.
//! 3. [`pattern_of`] reads a source into a store that you lend it, and [`write_canonical`] writes the canonical text to a sink as well.
//! 4. A [`Refusal`] is a fault, and whether it is one of a rule table. [`status`] is the status of a kind, and [`refuse`] writes the line of a kind and returns
//!    its status.
//!
//! An example: a source with the bytes `o!`, which has no header, and the line and the status for it.
//!
//! ```text
//! line 1: NoHeader        status 2
//! ```
//!
//! The status is 3 for `ReadFault` and `WriteFault`, 4 for `Full` and `Memory`, and 2 for every other kind.
//!
//! It doesn't know which command it is, and no next generation. It reads by `life_reader`, and uses `life_canon` and `pattern_forms` for texts.
//! Above it, `life_cli` works on one file or two, and `file_keys` on many.
//!
//! Read first: `specs/Faults.antt` (lines and statuses), `specs/Sources.antt`, `src/patterns.rt`, and `src/refusals.rt`.
#![tactic(auto)]

mod at_start;
mod forms;
mod patterns;
mod refusals;
mod seeds;

pub use at_start::start_text_of_source;
pub use forms::text_of_source;
pub use patterns::{MOST_SQUARES, pattern_of, write_canonical};
pub use refusals::{Refusal, refuse, status, tell};
pub use seeds::Seeds;
