//! Tests of the calls of `command_line`, `life_cli` and `file_keys`, and of the devices of `life_base`: worked files, readers and writers that fail, and what
//! the arguments of a command line ask for.
//!
//! This crate answers for worked files whether each command writes the text that the formats give, and what it leaves where a read or a write fails.
//!
//! Begin here:
//!
//! 1. `rt try --test` in the folder of this crate runs the tests without a proof.
//! 2. `plans` has arguments with what they ask for, and `tasks` has commands with their files, texts and statuses.
//! 3. `keys` and `duplicates` do so for the commands over many files.
//! 4. `streams` and `failures` have sources and sinks that move a few bytes at a time, or fail.
//!
//! An example from `plans`, and one from `tasks`:
//!
//! ```text
//! same - -                              Usage::TwoInputs
//! canon, where the output takes 5 bytes of the text and then fails
//!                                       the output has "[M2] ", standard error "WriteFault", and the status is 3
//! ```
//!
//! The expected texts come from the formats, by hand. `tests/program/` has more of them, for the program as it is built.
//!
//! It doesn't know the system: files are bytes in memory. No crate is above it.
//!
//! Read first: `src/tests.rt` (the worked files), and `src/tests/tasks.rt`.
#![tactic(auto)]

#[cfg(test)]
mod tests;
