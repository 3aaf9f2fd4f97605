//! The arguments of the command line, and what is said where they can't be read.

ghost use Rattle.std.specs.Prelude.{◌≡◌};
ghost use Rattle.life_cli.specs.Words.{Reports, sink_run};
ghost use Rattle.golly_canon.specs.Arguments.{unreadable_line, unreadable_status};

use life_base::{Kind, Sink, write_texts};
use life_cli::refuse;
use std::alloc::AllocError;
use std::env::{Env, FillError};
use std::{env, io};

/// Why the arguments can't be read.
#[derive(Clone, Copy)]
pub(crate) enum Unreadable {
    /// An argument isn't UTF-8 text.
    NoText,
    /// Memory was refused.
    Memory,
}

impl From<io::Error> for Unreadable {
    ghost use Rattle.golly_canon.specs.Arguments.{SaysUnreadable};

    ghost from_gives = { λ error unreadable. SaysUnreadable error unreadable };

    /// An argument isn't text, or memory was refused.
    fn from(error: io::Error) -> Unreadable {
        match error.kind() {
            io::ErrorKind::OutOfMemory => Unreadable::Memory,
            _ => Unreadable::NoText,
        }
    }
}

/// The arguments, each as text.
#[derive(Drop)]
pub(crate) struct Arguments {
    /// All arguments, the program's own name first, with U+FFFD in place of what isn't UTF-8 text.
    pub words: Vec<String>,
    /// Those that aren't UTF-8 text, also so.
    pub damaged: Vec<String>,
}

/// The arguments, if all are UTF-8 text.
fn words(rt: &HostRuntime) -> io::Result<Vec<String>> {
    Ok(env::args(rt)?.collect(rt.alloc())?)
}

/// The bytes of an argument, if there is one in this place.
fn argument(rt: &HostRuntime, place: usize) -> Result<Option<Vec<u8>>, AllocError> {
    let mut bytes = Vec::new(rt.alloc());
    let mut capacity: usize = 256;
    for _ in 0..usize::BITS {
        bytes.resize(capacity, 0)?;
        match rt.arg(place, bytes.as_mut_slice()) {
            Ok(count) => {
                bytes.truncate(count);
                return Ok(Some(bytes));
            }
            Err(FillError::NotPresent) => return Ok(None),
            Err(FillError::TooLong) => capacity = capacity.saturating_add(capacity),
        }
    }
    Err(AllocError)
}

/// Adds an argument as text.
fn push_word(rt: &HostRuntime, words: &mut Vec<String>, bytes: &[u8]) -> Result<(), AllocError> {
    match words.push(String::from_utf8_lossy(rt.alloc(), bytes)?) {
        Ok(()) => Ok(()),
        Err(_) => Err(AllocError),
    }
}

/// The arguments, of which one isn't UTF-8 text.
fn damaged_arguments(rt: &HostRuntime) -> Result<Arguments, AllocError> {
    let mut arguments = Arguments {
        words: Vec::new(rt.alloc()),
        damaged: Vec::new(rt.alloc()),
    };
    for place in 0..usize::MAX {
        let Some(bytes) = argument(rt, place)? else {
            break;
        };
        push_word(rt, &mut arguments.words, bytes.as_slice())?;
        if str::from_utf8(bytes.as_slice()).is_err() {
            push_word(rt, &mut arguments.damaged, bytes.as_slice())?;
        }
    }
    Ok(arguments)
}

/// The arguments, whether or not they are UTF-8 text.
pub(crate) fn read_arguments(rt: &HostRuntime) -> Result<Arguments, AllocError> {
    match words(rt) {
        Ok(words) => Ok(Arguments {
            words,
            damaged: Vec::new(rt.alloc()),
        }),
        Err(error) => match Unreadable::from(error) {
            Unreadable::NoText => damaged_arguments(rt),
            Unreadable::Memory => Err(AllocError),
        },
    }
}

/// Writes the line that says that this argument isn't UTF-8 text, and returns the status.
fn report_no_text<E: Sink>(err: &mut E, argument: &[u8]) -> u8
    requires { E.failures err.old ≡ 0 }
    ensures reported { Reports (sink_run E.contents E.failures E.stalled err.old err.new)
        (unreadable_line Unreadable.NoText argument.now) }
    ensures status { result ≡ unreadable_status Unreadable.NoText }
{
    let _ = write_texts(
        err,
        &[b"error: an argument isn't UTF-8 text: ", argument, b"\n"],
    );
    5
}

/// Writes the line that says why the arguments can't be read, and returns the status that the program ends with. `argument` is the one that isn't text.
pub(crate) fn report_unreadable<E: Sink>(err: &mut E, why: Unreadable, argument: &[u8]) -> u8
    requires { E.failures err.old ≡ 0 }
    ensures reported { Reports (sink_run E.contents E.failures E.stalled err.old err.new)
        (unreadable_line why argument.now) }
    ensures status { result ≡ unreadable_status why }
{
    match why {
        Unreadable::NoText => report_no_text(err, argument),
        Unreadable::Memory => refuse(err, Kind::Memory),
    }
}
