//! The files that the words name.

use crate::escaping::push_visible;
use life_cli::{Opened, Origin};
use std::fs;
use std::fs::{File, Metadata};
use std::io::{ErrorKind, IsTerminal, Read, Result};
use std::os::fd::AsRawFd;
use std::os::unix::fs::FileTypeExt;
use std::rt::Stdin;

/// A file, or standard input.
#[derive(Drop)]
pub(crate) enum Input {
    File(File),
    Standard(Stdin),
}

impl Read for Input {
    fn read(&mut self, buf: &mut [u8]) -> Result<usize> {
        match self {
            Input::File(file) => file.read(buf),
            Input::Standard(stdin) => stdin.read(buf),
        }
    }
}

/// What holds the numbers of the standard streams that a caller has closed.
#[derive(Drop)]
pub(crate) struct ReservedStreams([Option<File>; 3]);

impl ReservedStreams {
    /// Whether standard input was closed, so that its number is reserved.
    pub(crate) fn holds_input(&self) -> bool {
        for folder in self.0.iter().flatten() {
            if folder.as_raw_fd() == 0 {
                return true;
            }
        }
        false
    }
}

/// Takes the numbers of the standard streams that a caller has closed, so that no file that is opened later gets one of them and is
/// taken for it. They are given to a folder, of which nothing can be read and to which nothing can be written.
pub(crate) fn reserve_closed_streams(rt: &HostRuntime) -> ReservedStreams {
    ReservedStreams([reserve_stream(rt), reserve_stream(rt), reserve_stream(rt)])
}

/// A folder that stays open.
fn reserve_stream(rt: &HostRuntime) -> Option<File> {
    File::open(rt, "/").ok()
}

/// Whether a name is that of a pipe. One that a shell made for a command, which has no name of its own, is none.
fn is_named_pipe(rt: &HostRuntime, name: &str) -> bool {
    if name.starts_with("/dev/") || name.starts_with("/proc/") {
        return false;
    }
    match fs::metadata(rt, name) {
        Ok(metadata) => metadata.file_type().is_fifo(),
        Err(_) => false,
    }
}

/// The line that says that a name is that of a pipe.
fn pipe_line(rt: &HostRuntime, name: &str) -> Option<Vec<u8>> {
    let mut line = Vec::new(rt.alloc());
    push_visible(&mut line, name.as_bytes()).ok()?;
    line.extend_from_slice(b" is a pipe: it is read when a program writes to it.\n")
        .ok()?;
    Some(line)
}

/// What is said before a word is opened: if standard error is a terminal and the word names a pipe, that it is one, because opening it waits for a program
/// that writes to it.
pub(crate) fn hint_before(rt: &HostRuntime, origin: Origin<'_>) -> Option<Vec<u8>> {
    match origin {
        Origin::File(name) if rt.stderr().is_terminal() && is_named_pipe(rt, name) => {
            pipe_line(rt, name)
        }
        _ => None,
    }
}

/// Opens what a word names.
pub(crate) fn open(rt: &HostRuntime, origin: Origin<'_>) -> Result<Opened<Input>> {
    let input = match origin {
        Origin::Standard => Input::Standard(rt.stdin()),
        Origin::File(name) => Input::File(File::open(rt, name)?),
    };
    let bytes = length(rt, &input);
    Ok(Opened { input, bytes })
}

/// What the system says of an input.
fn metadata(rt: &HostRuntime, input: &Input) -> Result<Metadata> {
    match input {
        Input::File(file) => file.metadata(),
        Input::Standard(_) => fs::metadata(rt, "/dev/stdin"),
    }
}

/// About how many bytes an input has, if the system says so: the length of a file, and 0 for anything else.
fn length(rt: &HostRuntime, input: &Input) -> u64 {
    match metadata(rt, input) {
        Ok(metadata) => metadata.len(),
        Err(_) => 0,
    }
}

/// Whether an input is a folder, which can't be read, if the system says so.
fn is_folder(rt: &HostRuntime, input: &Input) -> bool {
    match metadata(rt, input) {
        Ok(metadata) => metadata.is_dir(),
        Err(_) => false,
    }
}

/// Opens what a word names, unless it is a folder, or a standard input that a caller has closed.
pub(crate) fn open_no_folder(
    rt: &HostRuntime,
    streams: &ReservedStreams,
    origin: Origin<'_>,
) -> Result<Opened<Input>> {
    if matches!(origin, Origin::Standard) && streams.holds_input() {
        return Err(ErrorKind::NotConnected.into());
    }
    let opened = open(rt, origin)?;
    if is_folder(rt, &opened.input) {
        return Err(ErrorKind::IsADirectory.into());
    }
    Ok(opened)
}
