//! A pattern any number of generations later, under a B/S rule.
//!
//! This crate answers which cells a square has n generations later, for each n below 2^64. It refuses exactly if a cell would be outside the plane in one of
//! these generations, or if memory or the limit of the store doesn't suffice. There is no limit on the number of cells.
//!
//! Begin here. A square is an Id in a store of `life_quad`, a rule is a `LifeRule`, and an error is a `Fault` without a line number:
//!
//! 1. [`later`] returns the square n generations later, and keeps each square of each leap in your store.
//! 2. [`later_in_stages`] returns the same cells, but goes on in a fresh store once the leaps have more than doubled a large one.
//!
//! An example: with the square of a glider, `later(alloc, &mut store, &rule, glider, 1_000_000)` returns the square of the glider 250,000 columns further east
//! and 250,000 rows further south.
//!
//! Inside, n is divided into leaps, each a power of two. `docs/ARCHITECTURE.md` says how long a leap may be ("Many generations").
//!
//! It doesn't know files, the generation that a pattern is in, or rules by tables. It uses the leaps of `life_leap`. Above it, `life_generations` takes a file
//! further, and `life_phases` finds its period.
//!
//! Read first: `specs/Course.antt` (`LeavesWithin` says what it is to leave the plane), `src/course.rt`, and `src/stages.rt`.
#![tactic(auto)]

mod course;
mod stages;

pub use course::later;
pub use stages::later_in_stages;
