//! One generation of a pattern, square by square: the next states of a square amid its eight neighbours are four squares of next states.
//!
//! This crate answers what the next generation of a square is without visiting its cells one by one: it remembers the answer for the same nine squares, and at
//! the bottom it steps the 64 cells of a word at once.
//!
//! Begin here:
//!
//! 1. [`next_life_generation`] returns the next generation under a B/S rule. It refuses too many cells (you say how many), and cells that leave the plane.
//! 2. [`next_life_square`] does the same without these two checks, for a square that is smaller than the plane: the result is one level higher.
//! 3. [`next_law_generation`] takes any `Law` of `life_sweep`, such as a rule table. It goes square by square where squares occur often.
//!
//! An example: a glider under B3/S23, as a macrocell file writes a square of level 3, now and one generation later (trimmed to that level).
//!
//! ```text
//! $$$$.....*$......*$....***$$    becomes    $$$$$....*.*$.....**$.....*$
//! ```
//!
//! Inside, `grid` has a `Nine` and a `Sixteen` of squares, `leaf` reads sixteen squares of level 3 as words, `leaf_words` makes the words of their
//! neighbours, and `next_word` of `life_next` steps them. `docs/ARCHITECTURE.md` says how these go together ("One generation").
//!
//! It doesn't know pattern files, tables, or which generation it is. It calls `life_sweep` where a cell is at the edge of the plane. Above it, `life_step`
//! makes one generation of a file.
//!
//! Read first: `specs/Pieces.antt` of `life_pieces` (the square at a place), `src/generation.rt`, and `src/blocks.rt`.
#![tactic(auto)]

mod blocks;
mod corner;
mod generation;
mod law_generation;
mod law_squares;
mod leaf;
mod leaf_words;
mod remembered;

pub use blocks::next_life_square;
pub use generation::next_life_generation;
pub use law_generation::next_law_generation;
