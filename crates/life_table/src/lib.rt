//! Rule tables: files `.rule` with a section `@TABLE`, and the next state of a cell by such a table.
//!
//! This crate answers two questions: which table a file writes, or at which line it stops being one; and what becomes of a cell, by the first line of the table
//! that fits the cell and its neighbours.
//!
//! Begin here:
//!
//! 1. [`read_table_seeded`] reads a file, and returns a [`Table`]. [`read_table`] is for files that you trust.
//! 2. [`Table::next`] returns the next state of a cell in [`Neighbours`], or `Ambiguous` if the line that fits gives two states.
//! 3. [`Index`] answers the same faster, for many cells: `Index::new`, then `grow` to index more lines, and `next`.
//!
//! An example: a table by which a state spreads to a cell of state 0 that has it in exactly one neighbour, and 0 in the other three.
//!
//! ```text
//! @RULE Spread
//! @TABLE
//! n_states:3
//! neighborhood:vonNeumann
//! symmetries:rotate4
//! var a={1,2}
//! 0,a,0,0,0,a
//! ```
//!
//! `Neighbours::Four` has the cell first, and then its neighbours from north clockwise. Of `[0, 0, 0, 0, 2]` the table makes 2, because `rotate4` turns the
//! line so that its `a` is in the west. Of `[0, 2, 0, 2, 0]` it makes 0, because no line fits and the cell keeps its state.
//!
//! It doesn't know squares and patterns: it sees one cell and its neighbours. It uses `life_base` alone. Above it, `life_sweep` makes a law of a table, and
//! `life_step` steps a pattern by one.
//!
//! Read first: `specs/Grammar.antt` (the format), `specs/Meaning.antt` (what a table decides), `src/reading.rt`, and `src/next.rt`.
#![tactic(auto)]

mod block;
mod by_name;
mod choose;
mod complete;
mod descriptors;
mod directive;
mod entries;
mod fit;
mod found;
mod groups;
mod image_list;
mod index;
pub mod laws;
mod line;
mod lines;
mod next;
mod places;
mod reading;
mod seed;
mod seen;
mod site;
mod some_order;
mod table;
mod transitions;
mod turn;
mod variables;
mod words;

pub use index::Index;
pub use next::Neighbours;
pub use reading::{read_table, read_table_seeded};
pub use seed::NameSeed;
pub use table::{Entry, Neighborhood, Symmetry, Table, Transition, Var};
