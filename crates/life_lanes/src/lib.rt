//! The 64 cells of a square of level 3 (eight rows of eight) in one word of 64 bits, and how to put these bits into another order.
//!
//! A file writes such a square row by row, but a square consists of quarters. This crate answers where each bit goes between the two orders.
//!
//! Begin here:
//!
//! 1. [`by_quarters`] takes the cells row by row, the north-western one in the highest bit. It returns them quarter by quarter, and within each quarter again
//!    quarter by quarter.
//! 2. [`by_rows`] takes that back.
//! 3. [`exchange`] is what both are made of: it exchanges each bit of a mask with the bit that is so many places above it.
//!
//! An example: the rows of a glider, of which the fifth has the value 4, the sixth 2 and the seventh 14. All its cells are in the south-eastern quarter, which
//! has the lowest 16 bits.
//!
//! ```text
//! ........    by_quarters(0x0000_0000_0402_0E00) is 0x0000_0000_0000_42C8,
//! ........    by_rows of that is the first word again, and
//! ........    exchange(0b001, 0b001, 2) is 0b100
//! ........
//! .....*..
//! ......*.
//! ....***.
//! ........
//! ```
//!
//! It doesn't know files and stores: it sees one word. It uses `life_base` alone. Above it, `life_strip` makes words of the rows of a pattern, and `life_block`
//! computes the next states of the cells of words.
//!
//! Read first: `specs/Places.antt` (where a cell is among the bits), and `src/quarters.rt`.
#![tactic(auto)]

mod quarters;

pub use quarters::{by_quarters, by_rows, exchange};
