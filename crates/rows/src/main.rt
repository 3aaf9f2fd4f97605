//! Answers rows of standard input: tests of the libraries for what is not proved, where they are tables of inputs and answers. The inputs are in the file
//! `stdin` of this crate and the answers in `stdout`, so that one more row is nothing more to prove.
//!
//! Begin here: `printf 'rule|b3s23\n' | rt try` in the folder of this crate answers the row `rule|b3s23`, in which the call `rule` has the input `b3s23`:
//!
//! ```text
//! Life B3/S23
//! 1 rows
//! ```
//!
//! A row is the name of a call, `|` and an input, whose bytes are written so:
//!
//! - `;` is a line feed;
//! - `\t`, `\r` and `\\` are a tab, a carriage return and a backslash, and `\xNN` is the byte of that number;
//! - `\NUMBER*` means so many times the byte that is written after it.
//!
//! An input of several parts has another `|` between each two. The calls `shared`, `new` and `plain` are stores: their input is the limit of a store, how many
//! times the steps are done, and the steps, one a line. (`calls` and `steps` list the names.)
//!
//! Each row is answered by a line, and a last line says how many there were. Rows that begin with `#` are comments. A call that is out of memory is answered
//! `Memory`, and a row that gets no memory for its own input or answer `no memory`. What isn't a row is answered `no row`, which no row is answered with.
//!
//! It doesn't know the command line: each call goes to a library from `life_base` to `life_periods`. No crate is above it; the tests compare its answers with
//! `stdout`.
//!
//! Read first: `src/calls.rt` (the calls), `src/steps.rt` (the steps on squares), and the file `stdin`.
#![tactic(auto)]

mod answer;
mod base;
mod bytes;
mod calls;
mod feeding;
mod files;
mod fill;
mod mc;
mod patterns;
mod rle;
mod row;
mod squares;
mod steps;
mod stores;
mod table;

use life_base::{Device, Kind, lines, read_within};
use std::io;
use std::process::ExitCode;

/// Most bytes of standard input.
const MOST: u64 = 1 << 24;

/// What standard input holds.
fn input(rt: &HostRuntime) -> Result<Vec<u8>, Kind> {
    let mut source = Device::new(rt.stdin());
    read_within(rt.alloc(), &mut source, MOST)
}

/// Prints the answer of each row, and how many there were.
fn answer_rows(rt: &HostRuntime, rows: &[u8]) -> io::Result<()> {
    let mut count = 0u64;
    for (_, row) in lines(rows) {
        if !row.starts_with(b"#") {
            let answer = calls::answer_to(rt.alloc(), row);
            println!(rt; "{}", answer.line())?;
            count = count.saturating_add(1);
        }
    }
    println!(rt; "{count} rows")
}

fn main(rt: HostRuntime) -> ExitCode {
    let Ok(rows) = input(&rt) else {
        return ExitCode::from(1);
    };
    match answer_rows(&rt, &rows) {
        Ok(()) => ExitCode::from(0),
        Err(_) => ExitCode::from(1),
    }
}
