//! The commands over any number of files: the key of each, and the groups of those with equal keys.
//!
//! The key of a file is the SHA-256 of the text of its pattern in a form, so two files have one key exactly if the texts are equal (SHA-256 aside). This crate
//! answers what `keys` and `duplicates` write.
//!
//! Begin here. Each call takes a plan of `command_line`, an opener of files, and two sinks, and returns the status:
//!
//! 1. [`write_keys`] writes a line (or an object of JSON) for each file of a plan. A file that is refused is reported, and the run goes on.
//! 2. [`write_duplicates`] writes the names of the files in groups, one for each key that more than one file has.
//! 3. [`write_stream_keys`] writes a line for each pattern of one stream, in which each pattern ends in a NUL byte.
//! 4. An [`OpenedFile`] is what an opener returns: a source, and what its first bytes say that it is.
//!
//! An example: `keys twins bad gone`, where `twins` has two cells, `bad` has the one byte `x`, and `gone` can't be opened.
//!
//! ```text
//! 5d590ed454cf10f531d11807fad8d284b97111a728b0ebc44c0fdc897c4d34ae  twins
//!
//! bad: line 1: BadHeader: The header isn't x = .., y = .., rule = ..
//! gone: no such file
//! ```
//!
//! The first line goes to standard output, the last two go to standard error, and the status is 3, the greatest of any file.
//!
//! It doesn't know commands over one file or two, or the system. It makes texts by `pattern_sources`, and keys by `key_sink`. Above it is the program,
//! `golly_canon`.
//!
//! Read first: `specs/Keys.antt` and `specs/Duplicates.antt` (what is written), `src/keys/runs.rt`, and `src/duplicates/runs.rt`.
#![tactic(auto)]

mod duplicates;
mod json;
mod keys;
pub mod laws;
mod stream;
mod text_sink;
mod text_source;

pub use duplicates::write_duplicates;
pub use keys::{OpenedFile, write_keys};
pub use stream::write_stream_keys;
