//! What every layer speaks of: text, lines, numbers, rules, faults, cells, and the devices that bytes are read from and written to.
//!
//! This crate answers the small questions that all formats share: which rule a text names, what the lines of an input are, why something is refused, and how
//! bytes come in and go out.
//!
//! Begin here:
//!
//! 1. [`Kind`] says why something is refused, and [`Fault`] adds the line. Most calls of the other crates return one of the two as their error.
//! 2. [`lines`] cuts an input into numbered lines. [`split_word`], [`read_u64`] and [`read_i64`] read what a line contains.
//! 3. [`Rule::parse`] reads the text of a rule, and [`Rule::write`] writes its canonical text. A rule is a [`LifeRule`], which knows the next state of a cell
//!    (`LifeRule::next`), or a [`Name`].
//! 4. [`Cell`], [`Run`] and [`Bounds`] are cells of the plane, which has 2^62 columns and rows ([`MAX_LEVEL`]).
//! 5. A [`Form`] says whether the place and the direction of a pattern count.
//! 6. [`Source`] and [`Sink`] are what bytes are read from and written to, and a [`Device`] makes one of any reader or writer. [`read_within`] reads a source
//!    to its end, up to a limit, and [`deliver`] writes a text and flushes.
//!
//! An example: what `Rule::parse` returns for some texts.
//!
//! ```text
//! 23/3          a B/S rule, with the canonical text B3/S23
//! s32B333       the same rule
//! b31/s20v      B13/S02V: a B/S rule that counts four neighbours
//! Life          a name, kept byte for byte
//! B3/S23:T20    refused as BoundedGrid
//! ```
//!
//! It doesn't know how a format writes a pattern, or how squares are stored: it only names the kinds of fault of both. It uses no other crate of the project,
//! and all others use it.
//!
//! Read first: `specs/Refusal.antt` (what it means to refuse), `specs/Rules.antt`, and `src/kind.rt`.
#![tactic(auto)]

mod appending;
mod bounds;
mod cell;
mod devices;
mod fault;
mod form;
mod items;
mod kind;
pub mod laws;
mod leading_digits;
mod line;
mod line_iterator;
mod line_log;
mod reading;
mod rule;
mod rule_reading;
mod rule_text;
mod text;
mod words;
mod writing;

pub use appending::{append, append_number};
pub use bounds::Bounds;
pub use cell::{Cell, MAX_LEVEL, Run, State};
pub use devices::{Device, Sink, Source};
pub use fault::{Fault, Place, StepFault};
pub use form::Form;
pub use items::Items;
pub use kind::Kind;
pub use leading_digits::leading_number;
pub use line::{LONGEST_LINE, is_too_long, line_end, line_fits};
pub use line_iterator::Lines;
pub use line_log::LineLog;
pub use reading::read_within;
pub use rule::{LifeRule, Name, Near, Rule};
pub use text::{
    begins_with, is_blank, is_digit_text, is_whitespace, lines, read_i64, read_u64, trimmed,
    trimmed_start,
};
pub use words::split_word;
pub use writing::{deliver, write_text, write_texts};
