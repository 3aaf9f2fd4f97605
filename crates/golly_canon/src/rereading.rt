//! Files that are read again, to say more of a fault.

use file_hints::{Foreign, HEAD, recognize};
use std::fs;
use std::fs::File;
use std::io::{ErrorKind, Read, Result as IoResult};

/// How many bytes of a line are shown at most.
pub(crate) const SHOWN: usize = 200;

/// Opens what the system calls `path`, if it is a file. A pipe or a device can't be read again.
fn open_file(rt: &HostRuntime, path: &str) -> IoResult<Option<File>> {
    let metadata = fs::metadata(rt, path)?;
    if metadata.is_dir() {
        return Err(ErrorKind::IsADirectory.into());
    }
    if !metadata.is_file() {
        return Ok(None);
    }
    Ok(Some(File::open(rt, path)?))
}

/// A file that can be read again. Standard input isn't one.
fn reopen(rt: &HostRuntime, name: &str) -> Option<File> {
    if name == "-" {
        return None;
    }
    open_file(rt, name).ok()?
}

/// Why a file can't be opened, in words.
fn reason(kind: ErrorKind) -> &'static str {
    match kind {
        ErrorKind::NotFound => "no such file",
        ErrorKind::PermissionDenied => "permission denied",
        ErrorKind::IsADirectory => "is a folder",
        _ => "can't be opened",
    }
}

/// Why what the system calls `path` can't be read, where that is seen without reading it.
pub(crate) fn unreadable(rt: &HostRuntime, path: &str) -> Option<&'static str> {
    match open_file(rt, path) {
        Ok(_) => None,
        Err(error) => Some(reason(error.kind())),
    }
}

/// What a file is, if it is something that the program doesn't read. `is_table` says whether a rule table was wanted.
pub(crate) fn foreign(rt: &HostRuntime, name: &str, is_table: bool) -> Option<Foreign> {
    let mut file = reopen(rt, name)?;
    let mut head = [0; HEAD];
    let count = file.read(&mut head).ok()?;
    recognize(&head[..count], is_table)
}

/// A line that is looked for.
#[derive(Drop)]
struct Search {
    /// How many lines come before it.
    before: u64,
    /// What was found of it, at most one byte more than is shown.
    text: Vec<u8>,
}

impl Search {
    /// Takes the next bytes of the file, and returns whether the line is found, as far as it is shown. Nothing where there is no memory.
    fn take(&mut self, piece: &[u8]) -> Option<bool> {
        for byte in piece {
            if self.before > 0 {
                self.before -= u64::from(*byte == b'\n');
            } else if *byte == b'\n' || self.text.len() > SHOWN {
                return Some(true);
            } else {
                self.text.push(*byte).ok()?;
            }
        }
        Some(false)
    }
}

/// The line of this number, without its end, as far as it is shown and one byte more; nothing where the file can't be read again.
pub(crate) fn line(rt: &HostRuntime, name: &str, number: u64) -> Option<Vec<u8>> {
    let mut file = reopen(rt, name)?;
    let mut search = Search {
        before: number.saturating_sub(1),
        text: Vec::new(rt.alloc()),
    };
    let mut piece = [0; 65536];
    for _ in 0..usize::MAX {
        let count = file.read(&mut piece).ok()?;
        if count == 0 || search.take(&piece[..count])? {
            break;
        }
    }
    let Search { before: _, text } = search;
    Some(text)
}
