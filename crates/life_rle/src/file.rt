//! An RLE file.

use life_base::{Items, Rule, Run};

/// An RLE file: its rule, its generation, its corner (x, y), and its runs.
#[derive(Drop)]
pub struct RleFile {
    pub rule: Rule,
    pub generation: u64,
    pub x: i64,
    pub y: i64,
    /// A run for each item of nonzero state, in the file's order: no run of a file has state 0.
    pub runs: Items<Run>,
}
