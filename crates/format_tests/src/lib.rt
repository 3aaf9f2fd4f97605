//! Tests of the calls of `life_base`, `life_rle`, `life_mc` and `life_table`, for what is not proved: that the definitions are those of the formats, and that
//! calls succeed where memory is there.
//!
//! This crate answers whether the kinds of fault have their numbers and names, whether the laws of these layers can be called, and how large tables and long
//! texts are read.
//!
//! Begin here:
//!
//! 1. `rt try --test` in the folder of this crate runs the tests without a proof.
//! 2. There is a module for each layer: `base`, `rle`, `mc` and `table`, with parts in the folders of these names.
//!
//! An example from `mc`: this call does nothing when it runs, and it compiles only while the law is there for crates above `life_mc`.
//!
//! ```text
//! laws::grammars_agree();
//! ```
//!
//! Worked files are rows of the crate `rows`, so that one more needs no proof.
//!
//! It doesn't know stores, patterns and the program: `cli_tests` has tests of those. No crate is above it.
//!
//! Read first: `src/base/kinds.rt`, and `src/table/large.rt`.
#![tactic(auto)]

#[cfg(test)]
mod base;
#[cfg(test)]
mod mc;
#[cfg(test)]
mod rle;
#[cfg(test)]
mod table;
