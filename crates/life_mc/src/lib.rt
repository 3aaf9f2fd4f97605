//! Pattern files in Golly's macrocell format, read and written.
//!
//! This crate answers what a macrocell file says (a rule, a generation, and a list of squares, each of earlier ones), or at which line it stops being one, and
//! why. It also writes the text of such a list.
//!
//! Begin here:
//!
//! 1. [`read_mc`] reads a whole file, and returns an [`McFile`] with its rule, its generation and its squares.
//! 2. A [`Line`] is a square: a `Leaf` of eight rows, or a `Quad` of a level with the numbers of its four quarters.
//! 3. [`McLines`] does the same line by line: `line` returns the square of a line, if it has one, and `end` the rule and the generation.
//! 4. [`write_mc`] writes a whole file, [`append_line`] a line, and [`write_line`] a line into memory that you have.
//!
//! An example: a file with one leaf, a glider, that is two quarters of the root.
//!
//! ```text
//! [M2]                  the rule is B3/S23, the generation 0, and the squares are
//! $$..*$...*$.***$$$$   1: Leaf with the rows 0, 0, 32, 16, 112, 0, 0, 0
//! 4 0 1 0 1             2: Quad of level 4: a blank quarter, square 1, a blank quarter, square 1
//! ```
//!
//! The westernmost cell of a row is the highest bit of its byte, so `..*` is 32. The last square is the root.
//!
//! It doesn't know the other format, and no stores: its squares are numbers of lines. It uses `life_base` alone. Above it are
//! `life_reader`, which reads files of both formats, and `life_writer`, which writes the canonical one.
//!
//! Read first: `specs/Grammar.antt` and `specs/Macrocell.antt` (the format), `src/line.rt`, and `src/lines.rt`.
#![tactic(auto)]

mod file;
pub mod laws;
mod leaf;
mod line;
mod line_writing;
mod lines;
mod node;
mod numbers;
mod reading;
mod writing;

pub use file::McFile;
pub use line::Line;
pub use line_writing::{LONGEST_NODE_LINE, append_line, write_line};
pub use lines::McLines;
pub use reading::read_mc;
pub use writing::{append_prefix, write_mc};
