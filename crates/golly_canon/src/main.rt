//! The program `golly_canon`: its arguments as text, its files and streams, and what a terminal shows.
//!
//! This crate is where the program meets the system. What a command writes is answered by `life_cli` and `file_keys`; this crate opens their files, lends them
//! standard output and standard error, and ends with the status that they return.
//!
//! Begin here, in the order in which a run calls them:
//!
//! 1. `main` (in this file) reserves streams that are closed, and reads the arguments (`arguments`).
//! 2. `run` asks `command_line` what they ask for, and prints a text of `clap` or a line if they ask for nothing that can be done.
//! 3. `do_task` (in `tasks`) draws two seeds, opens the files (`opening`), and carries out a task on one file or two.
//! 4. `list_files` (in `listing`) and `list_stream` (in `streaming`) do so for `keys` and `duplicates`; `folders` finds the files of a folder.
//! 5. `explaining` and `closing` write the sentences that come after a refusal or at the end of a run.
//!
//! An example: two files of one glider, an RLE file and a macrocell file.
//!
//! ```text
//! $ golly_canon keys one.rle two.mc
//! 6d49a09978fd167769af106a97e3186cee07cf07e2e4481424797f7ae40b5459  one.rle
//! 6d49a09978fd167769af106a97e3186cee07cf07e2e4481424797f7ae40b5459  two.mc
//! ```
//!
//! It doesn't know stores, or how a pattern is read or written. It is proved to be safe, and no theorem says what it writes. No crate is above it.
//!
//! Read first: `src/tasks.rt`, and then `request` in the crate `command_line` and `carry_out` in `life_cli`.
#![tactic(auto)]

mod arguments;
mod closing;
mod counting;
mod escaping;
mod explaining;
mod folders;
mod item_marks;
mod listing;
mod opening;
mod outputs;
mod progress;
mod recognizing;
mod rereading;
mod streaming;
mod tasks;
mod watching;

use arguments::{Arguments, Unreadable, read_arguments, report_unreadable};
use clap::Error;
use clap::error::ErrorKind;
use escaping::push_visible;
use folders::Found;
use life_base::{Device, Kind};
use life_cli::plans::{KeysPlan, Request, Usage};
use life_cli::{refuse, report, request, status};
use listing::{Listing, list_files};
use opening::{ReservedStreams, reserve_closed_streams};
use outputs::{Visible, is_broken_pipe};
use std::alloc::AllocError;
use std::io::{ErrorKind as IoErrorKind, IsTerminal, Result as IoResult, Write};
use std::process::ExitCode;
use streaming::list_stream;
use tasks::do_task;

/// How the text of `clap` was printed.
#[derive(Clone, Copy)]
enum Printed {
    Whole,
    Not,
    /// Its reader left before the end.
    Left,
}

/// Prints the text of an error of `clap`. Where a terminal shows what is wrong, control characters of arguments are escaped.
fn print_error(rt: &HostRuntime, error: &Error) -> IoResult<()> {
    let stream = rt.stderr();
    if !error.use_stderr() || !stream.is_terminal() {
        return error.print(rt);
    }
    let text = format!(in rt.alloc(); "{error}")?;
    let mut terminal = Visible::new(stream, true, None);
    terminal.write_all(text.as_bytes())
}

/// Prints the text that `clap` has for the words, if it has one: it has none where it is out of memory.
fn print(rt: &HostRuntime, usage: &Usage) -> Printed {
    let Usage::Words(error) = usage else {
        return Printed::Whole;
    };
    if matches!(error.kind(), ErrorKind::OutOfMemory) {
        return Printed::Whole;
    }
    let printed = print_error(rt, error);
    if is_broken_pipe(&printed) && !error.use_stderr() {
        Printed::Left
    } else if printed.is_ok() {
        Printed::Whole
    } else {
        Printed::Not
    }
}

/// Whether the command is one over any number of files.
fn names_many_files(words: &[String]) -> bool {
    match words {
        [_, command, ..] => matches!(command.as_str(), "keys" | "duplicates"),
        _ => false,
    }
}

/// Whether the words ask for sentences.
fn asks_for_sentences(words: &[String]) -> bool {
    for word in words {
        if word.as_str() == "--explain" {
            return true;
        }
    }
    false
}

/// Says in a sentence that standard input is named twice, on a terminal or where the words ask for it.
fn explain_two_inputs(rt: &HostRuntime, words: &[String]) {
    if !asks_for_sentences(words) && !rt.stderr().is_terminal() {
        return;
    }
    let sentence: &[u8] = if names_many_files(words) {
        b"Only one of the files, or the list of them, may be -, standard input.\n"
    } else {
        b"Only one of the two files may be -, standard input.\n"
    };
    let _ = rt.stderr().write_all(sentence);
}

/// Prints the text that `clap` has for the words, reports on them, and returns the status.
fn report_usage(rt: &HostRuntime, usage: &Usage, words: &[String]) -> u8 {
    let mut err = Device::new(rt.stderr());
    let status = match print(rt, usage) {
        Printed::Whole => report(&mut err, usage, true),
        Printed::Not => report(&mut err, usage, false),
        Printed::Left => status(Kind::WriteFault),
    };
    if matches!(usage, Usage::TwoInputs) {
        explain_two_inputs(rt, words);
    }
    status
}

/// Whether so many files of the plan are known not to be opened.
fn are_files(plan: &KeysPlan<'_>, found: &Found, count: usize) -> bool {
    let mut unopened: usize = 0;
    for file in plan.files.as_slice() {
        if found.why(file).is_some() {
            unopened = unopened.saturating_add(1);
        }
    }
    unopened == count
}

/// Writes the line that says that this argument isn't UTF-8 text, and returns the status.
fn refuse_word(rt: &HostRuntime, word: &str) -> Result<u8, AllocError> {
    let mut shown = Vec::new(rt.alloc());
    push_visible(&mut shown, word.as_bytes())?;
    let mut err = Device::new(rt.stderr());
    Ok(report_unreadable(&mut err, Unreadable::NoText, shown.as_slice()))
}

/// Writes what is wanted of the plan's files. Each argument that isn't UTF-8 text has to be the name of one: there is no such file.
fn list(
    rt: &HostRuntime,
    streams: &ReservedStreams,
    damaged: &[String],
    plan: &KeysPlan<'_>,
    listing: Listing,
) -> Result<u8, AllocError> {
    let mut found = Found::new(rt);
    for word in damaged {
        found.note(rt, word.as_str(), IoErrorKind::InvalidData)?;
    }
    match damaged {
        [word, ..] if !are_files(plan, &found, damaged.len()) => refuse_word(rt, word.as_str()),
        _ => Ok(list_files(rt, streams, found, plan, listing)),
    }
}

/// Does what the arguments ask for.
fn run(
    rt: &HostRuntime,
    streams: &ReservedStreams,
    arguments: &Arguments,
) -> Result<u8, AllocError> {
    let damaged = arguments.damaged.as_slice();
    match request(rt.alloc(), arguments.words.as_slice()) {
        Ok(Request::Work(plan)) => match damaged {
            [] => Ok(do_task(rt, streams, &plan)),
            [word, ..] => refuse_word(rt, word.as_str()),
        },
        Ok(Request::Keys(plan)) => list(rt, streams, damaged, &plan, Listing::Keys),
        Ok(Request::Stream(plan)) => match damaged {
            [] => Ok(list_stream(rt, streams, &plan)),
            [word, ..] => refuse_word(rt, word.as_str()),
        },
        Ok(Request::Duplicates(plan)) => list(rt, streams, damaged, &plan, Listing::Duplicates),
        Err(usage) => Ok(report_usage(rt, &usage, arguments.words.as_slice())),
    }
}

/// Reads the arguments, and does what they ask for.
fn read_and_run(rt: &HostRuntime, streams: &ReservedStreams) -> Result<u8, AllocError> {
    let arguments = read_arguments(rt)?;
    run(rt, streams, &arguments)
}

fn main(rt: HostRuntime) -> ExitCode {
    let streams = reserve_closed_streams(&rt);
    let status = match read_and_run(&rt, &streams) {
        Ok(status) => status,
        Err(_) => report_unreadable(&mut Device::new(rt.stderr()), Unreadable::Memory, b""),
    };
    ExitCode::from(status)
}
