//! The next state of a cell under a B/S rule, and of the 64 cells of a word at once.
//!
//! Begin here:
//!
//! 1. [`next_word`] steps the 64 cells of a word, amid the words of their neighbours ([`NineWords`]).
//! 2. `specs/Generation.antt` says what the next state of a cell is (`next_life`).
//!
//! An example: under B3/S23, a cell is alive in the result if it has three live neighbours, or if it is alive and has two.
//!
//! Inside, `counts` counts the live neighbours of all places of a word at once, in four words, a binary digit a word.
//!
//! It doesn't know what a bit's place is: the cells of a word may be a row, or eight rows of eight. It uses `life_pieces` and `life_base`. Above it,
//! `life_block`, `life_rows` and `life_leap` step words of cells.
//!
//! Read first: `specs/Generation.antt`, and `src/counts.rt`.
#![tactic(auto)]

mod counts;

pub use counts::{NineWords, next_word};
