//! What the program `golly_canon` does with one file or two, over any sources and sinks.
//!
//! This crate answers what each command writes for the bytes of its files, and with which status it ends.
//!
//! Begin here:
//!
//! 1. [`request`] (of `command_line`) returns the plan of the arguments. If there is none, [`report`] writes why, and returns the status.
//! 2. [`open_files`] opens the files of the plan, by an opener that you give it.
//! 3. [`carry_out`] does the task: it writes to the output that you lend it, and returns the status, or why it is refused. Nothing is written then, unless it
//!    was the output that failed.
//! 4. [`work_seeded`] also writes the line of a refusal, and always returns a status. [`work`] does so for a [`Job`] and with fixed seeds.
//!
//! An example: the task `canon` on a file of two cells. It ends with status 0.
//!
//! ```text
//! #CXRLE Pos=-4,0                [M2] (canonical 1)
//! x = 9, y = 1, rule = 23/3      #R B3/S23
//! o7bo!                          ....*$$$$$$$$
//!                                4 0 0 1 1
//! ```
//!
//! `same` ends with status 1 if two files are different. A rule table of the one line `@RULE Spread` is refused with the line `table line 2: NoTable` and
//! status 2.
//!
//! It doesn't know commands over many files, or the system: it is given openers, sources and sinks. It uses `pattern_sources`, `pattern_forms`, `life_step` and
//! `life_generations`. Above it is the program, `golly_canon`.
//!
//! Read first: `specs/Jobs.antt` (what each task writes, and why it is refused), `src/jobs.rt`, and `src/steps.rt`.
#![tactic(auto)]

mod jobs;
mod later;
mod origins;
mod periods;
mod reports;
mod steps;
mod whole_files;

pub use command_line::{
    Form, Job, Origin, Plan, Target, Task, TaskPlan, Usage, plan, plans, request,
};
pub use jobs::{carry_out, work, work_seeded};
pub use origins::{Opened, open_files};
pub use pattern_sources::{Refusal, Seeds, refuse, status, tell};
pub use reports::report;
