//! Squares of cells in a store, in which equal squares have one Id.
//!
//! A pattern is a square of four squares, and so on down to single cells. This crate answers whether two squares are equal: exactly if their [`Id`]s are. It
//! also sets, counts and lists the cells of a square.
//!
//! Begin here:
//!
//! 1. [`Shared::seeded`] makes an empty store, for at most `limit` different squares that aren't blank. [`Shared::new`] is for input that you trust.
//! 2. The trait [`Squares`] has the calls that make a square: `cell` (one cell), `empty` (a blank square of a level), and `join` (a square of four quarters).
//! 3. [`put_run`] gives cells side by side a state, and returns the Id of the changed square. The old Id still names the old square.
//! 4. [`grow`] makes a square one level higher, [`trim`] takes blank outer rings away, and [`divide`] returns the four quarters.
//! 5. [`population`], [`bounds`] and [`cells`] say what is in a square.
//!
//! An example, in an empty store: a glider as a square of level 2, whose 16 bits are those of its four quarters, and the same square by its quarters.
//!
//! ```text
//! let glider = store.small(0b0100_0010_1100_1000)?;   // its cells: (-1, -2), (0, -1), (-2, 0), (-1, 0), (0, 0)
//! let (dead, live) = (store.cell(0), store.cell(1));
//! let nw = store.join(dead, live, dead, dead)?;       // 0100, and so on for ne (0010), sw (1100) and se (1000)
//! store.join(nw, ne, sw, se)?                         // is glider: no square is stored, and store.len() is still 5
//! ```
//!
//! [`Plain`] is another store, which doesn't look for equal squares: there the last call returns a new Id.
//!
//! It doesn't know files, rules or generations. It uses `life_base` alone. Above it, `life_strip` fills a store row by row, `life_reader` makes a pattern of a
//! file in it, and `life_writer` writes the text of one.
//!
//! Read first: `specs/Store.antt` (what a store promises), `src/squares.rt` (the trait), and `src/shared.rt`.
#![tactic(auto)]

mod distances;
mod id;
mod id_map;
mod id_numbers;
mod join_log;
pub mod laws;
mod listing;
mod marks;
mod memory;
mod moves;
mod plain;
mod reads;
mod runs;
mod seed;
mod shared;
mod squares;
mod turning;

pub use id::Id;
pub use id_map::IdMap;
pub use id_numbers::IdNumbers;
pub use life_base::Bounds;
pub use listing::cells;
pub use memory::NeighbourhoodMemory;
pub use moves::{Quarters, divide, grow, is_blank, is_blank_at, trim};
pub use plain::Plain;
pub use reads::{bounds, leaf_population, population};
pub use runs::{put_run, set_run};
pub use seed::{Lanes, Seed};
pub use shared::Shared;
pub use squares::{SharedSquares, Squares};
pub use turning::{Turn, divide_turned, turned, turned_cells};
