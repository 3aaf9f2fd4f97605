//! A run of the program.

use life_cli::Seeds;
use life_cli::plans::Task;

/// A run of a task: its files, and the outputs for its text and for its reports.
pub struct ProgramRun<A, B, O, E> {
    pub seeds: Seeds,
    pub task: Task,
    pub first: A,
    pub second: Option<B>,
    pub out: O,
    pub err: E,
}
