//! The calls of the library for C, on slices of bytes, with the answers in memory of the caller.
//!
//! This crate answers what the library returns for the bytes of a file: a status, the length of a text, and the text itself if it fits. No call takes or gives
//! more than C can.
//!
//! Begin here:
//!
//! 1. [`Options`] has the limit of the store of a call, and a seed for it.
//! 2. [`canon`] writes the canonical text of a file into the memory that you lend it. [`show`], [`to_rle`], [`step`], [`canon_form`] and [`key`] do so with
//!    other texts, and [`same`] compares two files.
//! 3. A [`Stream`] is a file in pieces: [`open`] it for an [`Output`], [`feed`] it each piece, and [`finish`] it, which returns the text. [`close`] it at the
//!    end.
//!
//! An example: `canon` of the 39 bytes of a glider's RLE file, whose canonical text has 58 bytes.
//!
//! ```text
//! x = 3, y = 3, rule = B3/S23    into 100 bytes of memory: status 0, and 58 bytes are needed and written
//! bo$2bo$3o!                     into 50 bytes of memory: status 64, and 58 bytes are needed; none is written
//! ```
//!
//! The file `o!` has status 1, the number of `NoHeader`, and line 1.
//!
//! A call touches nothing but its arguments and what an open stream stores, so calls on different memory and streams can run side by side.
//!
//! It doesn't know the command line and the system. It uses `life_reader`, `life_writer`, `pattern_forms`, `life_step`, `life_generations` and
//! `file_hints`, as the program does. Above it, `golly_canon_c` exports the calls.
//!
//! Read first: `src/texts.rt` and `specs/Texts.antt` (whole files), and `src/streams.rt`.
#![tactic(auto)]

mod compared;
mod comparison;
mod feeding;
mod held;
mod hints;
mod in_form;
mod options;
mod reported;
mod seeds;
mod session;
mod steps;
mod stream;
mod streams;
mod texts;

pub use compared::{Compared, same};
pub use comparison::same_form;
pub use hints::warning;
pub use in_form::{NO_FORM, PHASES, canon_form, key};
pub use life_base::Form;
pub use options::Options;
pub use reported::{NO_ROOM, Reported, give};
pub use steps::{step, step_by_table, step_generations};
pub use stream::Stream;
pub use streams::{close, feed, finish, finish_key, open, open_canon_form, stream_warning};
pub use texts::{Output, canon, show, to_rle};
