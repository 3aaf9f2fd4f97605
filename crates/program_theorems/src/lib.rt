//! The theorems about the program: from the bytes of its files to the bytes that it writes, for each task on one file or two.
//!
//! This crate answers what is proved of `work_seeded` of `life_cli`, over any sources and sinks that report their bytes.
//!
//! Begin here. A [`ProgramRun`] has the task, the files, and the outputs for the text and for reports:
//!
//! 1. [`does_its_job`]: a task writes the text that the bytes of its files ask for, and ends with its status. Or it writes the line of a fault to the other
//!    output, ends with the status of the fault, and leaves the first output as it was.
//! 2. [`written_text_is_that_of_canon`]: what the command `canon` writes is the canonical text that `life_canon` makes of the bytes.
//! 3. [`outputs_of_two_runs`]: two runs of `canon` write the same bytes exactly if their files are the same pattern.
//!
//! An example: the task `Canon(Form::Placed)` on the first file ends with status 0 and the text on its right. On a file `o!` it ends with status 2 and the line
//! `line 1: NoHeader`.
//!
//! ```text
//! [M2]            [M2] (canonical 1)
//! ....*$          #R B3/S23
//! ....*$          ....*$$$$$$$$
//! 4 0 0 1 2       4 0 0 1 1
//! ```
//!
//! What [`does_its_job`] excludes: a program that writes some other text for a task, such as that of `show` for each of them; one that writes a text and then
//! reports a failure; and one that reports another line.
//!
//! The statements don't know stores, and say nothing of arguments and of how files are opened. The bodies call `life_cli`. No crate is above it.
//!
//! Read first: `specs/Jobs.antt` (the outcome of each task), `src/jobs.rt`, and `src/outputs.rt`.
#![tactic(auto)]

mod jobs;
pub mod laws;
mod outputs;
mod runs;

pub use jobs::does_its_job;
pub use outputs::{outputs_of_two_runs, written_text_is_that_of_canon};
pub use runs::ProgramRun;
