//! What helps someone with a file, in sentences: what its fault means, what it is, if it is refused and no pattern, and what seems damaged, if it is accepted.
//!
//! This crate answers what a kind of fault means, such as `ZeroCount`. By the bytes alone it answers whether a refused file is something else (a gzip file, a
//! web page, a pattern in another format), and whether an accepted file is probably meant otherwise than it is read (cut off, or several files in one).
//!
//! Begin here:
//!
//! 1. [`sentence`] returns the sentence of a `Kind`.
//! 2. [`recognize`] takes the first bytes of a file ([`HEAD`] are enough), and returns a [`Foreign`], if it is something that the program doesn't read.
//! 3. [`advice_on`] does so for a file that was refused with some kind of fault, and returns the sentence to write, or no byte.
//! 4. [`warning_of`] takes all bytes of an accepted file, and returns a [`Warning`], if there is one. `Warning::sentence` is its text.
//! 5. [`Watch`] does the same for a file in pieces: `new`, `after` each piece, and `warning` at the end.
//!
//! An example: a kind of fault and two files, and what the crate says of them.
//!
//! ```text
//! a count of 0    sentence: A count is 0.
//!
//! #Life 1.05      recognize: Foreign::Life105, a format that the program doesn't read
//!
//! x = 3, y = 3    warning_of: Warning::Cut, because the file has no `!`, and one row
//! 3o$             where its header says three
//! ```
//!
//! It doesn't know where the bytes come from, or at which line a file was refused. It uses `life_base` alone. Above it, `golly_canon` and `file_keys` write the
//! sentences, and `library_calls` and `golly_canon_c` return them to C.
//!
//! Read first: `specs/Recognition.antt` and `specs/Damage.antt` (what is recognized), `src/recognizing.rt`, and `src/watch.rt`.
#![tactic(auto)]

mod foreign;
mod macrocell_watch;
mod places;
mod recognizing;
mod refused;
mod rle_watch;
mod sentences;
mod warnings;
mod watch;

pub use foreign::Foreign;
pub use recognizing::{HEAD, is_text, recognize};
pub use refused::{advice_on, advice_words, foreign_on};
pub use sentences::sentence;
pub use warnings::Warning;
pub use watch::{Watch, warning_of};
