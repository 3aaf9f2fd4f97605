//! The command `duplicates`: the names of the files with equal keys, in groups.

mod gathered;
mod groups;
mod runs;
mod texts;

pub use runs::write_duplicates;
