//! The texts of a pattern: its canonical text, its text in RLE, and five lines that describe it.
//!
//! This crate answers which node lines the canonical file of a pattern has, in which order, and writes them.
//!
//! Begin here, with a `Pattern` of `life_pattern` in a store:
//!
//! 1. [`text_of`] writes the canonical text, and [`number`] lists its node lines. [`begin_text`] and [`deliver_squares`] write it to a sink, in pieces.
//! 2. [`five_lines_of`] describes the pattern, and [`rle_of`] writes it in RLE.
//! 3. [`lesser_text`] and [`lesser_turned_text`] compare the text, also as it is when the pattern is turned, with another one, and keep the lesser.
//!
//! An example: a glider in RLE, and the text that `text_of` writes of it.
//!
//! ```text
//! x = 3, y = 3, rule = B3/S23    [M2] (canonical 1)
//! bo$2bo$3o!                     #R B3/S23
//!                                $$$$.....*$......*$....***$$
//! ```
//!
//! It doesn't know how a file is read, or what a sink really is. It uses both formats and `life_quad`. Above it, `life_canon` goes from bytes to a text,
//! `life_forms` writes the texts of a pattern that is moved or turned, and `life_step` that of a next generation.
//!
//! Read first: `specs/Listing.antt` (the canonical lines), `specs/Texts.antt` (the texts of a file), and `src/writer.rt`.
#![tactic(auto)]

mod cell_counts;
pub mod laws;
mod leaf_rows;
mod lesser;
mod line_sink;
mod macrocell;
mod node_walk;
mod orientation;
mod piece;
mod rle;
mod summary;
mod writer;

pub use lesser::{lesser_text, lesser_turned_text};
pub use macrocell::number;
pub use rle::{MOST_CELLS, rle_of};
pub use summary::five_lines_of;
pub use writer::{begin_text, deliver_squares, text_of};
