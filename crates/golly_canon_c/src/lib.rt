//! What programs in C call: the exports of the library, whose names begin with `golly_canon_`.
//!
//! This crate answers how a call looks from C. Each export, except those for the names and sentences of statuses, the advice on refused files and the version,
//! calls the function of `library_calls` of the same name without `golly_canon_`, and puts the result where the caller wants it. The exports that open a stream
//! call `open`, except `golly_canon_open_canon_form`. `include/golly_canon.h` declares them all, and says what a caller in C guarantees.
//!
//! Begin here:
//!
//! 1. `golly_canon_canon` (in `files`) and the other calls on whole files.
//! 2. `golly_canon_open_canon`, `golly_canon_feed`, `golly_canon_finish` and `golly_canon_close` (in `streams`), in this order, for a file in pieces.
//! 3. `golly_canon_status_name` and `golly_canon_sentence` (in `names`) say what a status means, and `golly_canon_advice` (in `hints`) what a refused file is.
//!
//! An example in C:
//!
//! ```c
//! static unsigned char text[4096];
//! size_t needed;
//! uint64_t line, seed = 0;
//! uint32_t status = golly_canon_canon(bytes, length, GOLLY_CANON_SQUARES, seed, text, sizeof text, &needed, &line);
//! ```
//!
//! If the bytes are the glider `bo$2bo$3o!` after the header `x = 3, y = 3, rule = B3/S23`, then `status` is `GOLLY_CANON_OK` and `needed` is 58.
//!
//! It doesn't know how an answer is made: `library_calls` makes it. No crate is above it, but programs in C are: it is built as a static library.
//!
//! Read first: `include/golly_canon.h`, and then `src/files.rt`.
#![tactic(auto)]

mod files;
mod hints;
mod names;
mod reported;
mod streams;
