//! The theorems about the library for C: from the bytes that a call is given to those that it writes into memory of the caller.
//!
//! This crate answers what is proved of `library_calls` in the terms of the formats: the status, the line, the length and the text of each call.
//!
//! Begin here. A function makes the calls, and its contract says what they return:
//!
//! 1. [`files_are_compared`]: `same` returns 1 exactly if two files have one rule, one generation, and in each cell one state; or the fault of the first file
//!    that has one.
//! 2. [`text_of_stream`]: a stream that is fed the pieces of a file, cut anywhere, returns at its end what a call on the whole file returns.
//! 3. [`text_is_within_limit`], and the two after it in the same file: `Full` is returned only if the file has more different squares than the limit.
//! 4. The other functions say which text each call puts into the memory of the caller, or which fault it returns.
//!
//! An example: with the limit `14 * length + 264` squares, where `length` is that of the file in bytes, `canon` never returns `Full`. For the 39 bytes of a
//! glider's RLE file that is 810.
//!
//! What the theorems exclude: a `same` that compares the first file with itself, a stream that drops a piece, and a call that puts RLE where the canonical text
//! is asked for.
//!
//! The statements don't know stores, except in the theorems on the limit. The bodies call `library_calls`. No crate is above it, and the exports of
//! `golly_canon_c` have contracts of their own.
//!
//! Read first: `src/texts.rt`, `src/streams.rt`, and `src/limits.rt`.
#![tactic(auto)]

mod compared;
mod limits;
mod steps;
mod streams;
mod texts;

pub use compared::files_are_compared;
pub use limits::{comparison_is_within_limit, key_is_within_limit, text_is_within_limit};
pub use steps::{next_by_table_is_reported, next_is_reported, reported_next_texts_are_fixed};
pub use streams::{text_of_stream, text_of_stream_is_that_of_canon};
pub use texts::{
    lines_are_reported, reported_texts_are_those_of_canon, rle_is_reported, text_is_reported,
};
