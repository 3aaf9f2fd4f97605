//! The command line of the program `golly_canon`: what its arguments ask for.
//!
//! This crate answers which command the arguments name, with which options and files, or what is wrong with them. The library `clap` reads the arguments, and
//! the texts of `--help` are here.
//!
//! Begin here:
//!
//! 1. [`request`] takes the arguments, of which the first is the program's own name, and returns a [`Request`] or a [`Usage`].
//! 2. A [`Request`] is work on one file or two (a [`TaskPlan`], whose [`Task`] says what to do), or one of the commands over many files (a [`KeysPlan`] or a
//!    [`StreamPlan`]).
//! 3. A [`Usage`] says why there is nothing to do. `--help` and `--version` are among the reasons, with the text to print.
//! 4. [`origin_of`] says whether the name of a file is `-`, standard input.
//!
//! An example: some arguments, and what they ask for.
//!
//! ```text
//! golly_canon canon -             Task::Canon(Form::Placed), with the file -
//! golly_canon same - b.rle        Task::Same(Form::Placed), with the files - and b.rle
//! golly_canon canon a.rle --form phases --within 30
//!                                 Task::Canon(Form::Phases(30)), with the file a.rle
//! golly_canon same - -            Usage::TwoInputs, because only one file can be standard input
//! golly_canon --version           Usage::Words, with the text to print
//! ```
//!
//! [`plan`] returns a [`Plan`] of arguments that ask for a [`Job`], which has no form and no number of generations.
//!
//! It doesn't know what a file is, or whether one is there: it sees arguments alone. It uses `life_base` and `clap`. Above it, `life_cli` and `file_keys` do
//! what is asked for.
//!
//! Read first: `specs/Plans.antt` (what arguments ask for), `src/plans.rt` (the types), and `src/plans/requests.rt`.
#![tactic(auto)]

mod origins;
pub mod plans;

pub use origins::{Origin, origin_of};
pub use plans::requests::{plan, request};
pub use plans::{
    Form, Job, KeyForm, KeysPlan, Plan, Request, StreamPlan, Target, Task, TaskPlan, Usage,
};
