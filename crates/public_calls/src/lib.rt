//! The public calls that the layers promise their callers, each made with exactly its arguments, and the public types by their variants and fields.
//!
//! This crate answers whether a change of a layer changes its interface: then it doesn't compile here. What the calls answer is in their contracts.
//!
//! Begin here. There is a module for the calls of each layer (`base`, `rle`, `mc`, `quad`, `canon`, `table`, `step`, `cli`), one for devices, and two for
//! types:
//!
//! 1. A function makes one call, and returns what that returns.
//! 2. A function whose name ends in `fields` or `variants` reads all parts of a value, and one that ends in `made` makes a value of its parts.
//!
//! An example from `base`: if `read_u64` took another argument, or returned another type, this function would be refused.
//!
//! ```text
//! pub fn number_of(text: &[u8]) -> Result<u64, Kind> {
//!     read_u64(text)
//! }
//! ```
//!
//! To change an interface on purpose, change the function here in the same commit.
//!
//! It doesn't know what a call answers, and has no tests. Not every public call is here: those of `life_forms` and `life_generations`, for example, are not. It
//! uses the layers of its modules, and no crate is above it.
//!
//! Read first: `src/base.rt`, and `src/base_types.rt`.
#![tactic(auto)]

pub mod base;
pub mod base_types;
pub mod canon;
pub mod cli;
pub mod devices;
pub mod mc;
pub mod quad;
pub mod rle;
pub mod step;
pub mod table;
pub mod table_types;
