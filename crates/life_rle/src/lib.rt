//! Pattern files in extended RLE, read and written.
//!
//! This crate answers what a file in extended RLE says (a rule, a generation, and runs of cells), or at which line it stops being one, and why. It also writes
//! the one text for a rule, a generation and a list of cells.
//!
//! Begin here:
//!
//! 1. [`read_rle`] reads a whole file, and returns an [`RleFile`] with its rule, its generation, its corner and its [`Run`]s.
//! 2. [`RleLines`] does the same line by line, and stores no text: `line` or `line_into` returns the runs of a line, `over` says whether `!` came, and `end`
//!    returns the rule and the generation.
//! 3. [`write_rle`] writes cells. [`sorted_cells`] says whether it can: they have to rise by row and column.
//!
//! An example: a glider, and the runs of its file.
//!
//! ```text
//! x = 3, y = 3, rule = B3/S23    one cell of state 1 from (1, 0) on, one from (2, 1) on,
//! bo$2bo$3o!                     and three from (0, 2) on
//! ```
//!
//! `write_rle` writes these five cells, under B3/S23 and in generation 0, as
//!
//! ```text
//! #CXRLE Pos=0,0
//! x = 3, y = 3, rule = B3/S23
//! bo$2bo$3o!
//! ```
//!
//! It doesn't know the other format, and no stores. It uses `life_base` alone. Above it is `life_reader`, which reads files of both formats.
//!
//! Read first: `specs/PlainFile.antt` (the whole format on a page), `specs/Pattern.antt` (the cells of a file), and `src/lines.rt`.
#![tactic(auto)]

mod bounds;
mod cursor;
mod file;
mod header;
mod item;
pub mod laws;
mod line;
mod line_items;
mod lines;
mod pen;
mod plane;
mod position;
mod reading;
mod short_items;
mod sorted;
mod wrapping;
mod writing;

pub use file::RleFile;
pub use life_base::Run;
pub use lines::RleLines;
pub use reading::read_rle;
pub use sorted::sorted_cells;
pub use writing::write_rle;
