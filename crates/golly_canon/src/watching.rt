//! Files whose bytes are watched as they pass, to warn of those that were probably damaged.

use crate::counting::NameCount;
use crate::escaping::{push_all, push_name};
use crate::opening::Input;
use crate::progress::GenerationsLine;
use file_hints::{Warning, Watch};
use life_cli::Opened;
use std::alloc::AllocError;
use std::cell::{Cell, RefCell};
use std::io::{Read, Result as IoResult};

/// Adds a warning after the name of a file, and ends the line.
pub(crate) fn push_warning(line: &mut Vec<u8>, warning: Warning) -> Result<(), AllocError> {
    push_all(
        line,
        &[b": warning: ", warning.sentence().as_bytes(), b"\n"],
    )
}

/// What is watched of the file that a run reads.
#[derive(Drop)]
pub(crate) struct Watcher {
    /// The line of its warning, as far as the name in it.
    pub line: RefCell<Vec<u8>>,
    /// Nothing where no file is watched.
    pub watch: Cell<Option<Watch>>,
}

/// Makes a line begin with a name.
fn begin_line(line: &mut Vec<u8>, name: &str) -> Result<(), AllocError> {
    line.clear();
    push_name(line, name)
}

impl Watcher {
    /// No file is watched yet.
    pub(crate) fn new(rt: &HostRuntime) -> Watcher {
        Watcher {
            line: RefCell::new(Vec::new(rt.alloc())),
            watch: Cell::new(None),
        }
    }

    /// Begins to watch a file of this name. Where there is no memory for the name, nothing is watched.
    pub(crate) fn begin(&self, name: &str) {
        self.watch.set(None);
        if let Ok(mut line) = self.line.try_borrow_mut() {
            if begin_line(&mut line, name).is_ok() {
                self.watch.set(Some(Watch::new()));
            }
        }
    }
}

/// An input whose bytes are watched.
#[derive(Drop)]
pub(crate) struct Watched<'a, R> {
    pub input: R,
    pub watch: &'a Cell<Option<Watch>>,
    /// Counts the names, if the input is a list.
    pub names: Option<&'a NameCount>,
    /// The line that is shown when the input has ended, if there is one.
    pub at_end: Option<&'a GenerationsLine>,
}

impl<'a, R: Read> Read for Watched<'a, R> {
    fn read(&mut self, buf: &mut [u8]) -> IoResult<usize> {
        let count = self.input.read(buf)?;
        if let Some(line) = self.at_end {
            if count == 0 {
                line.show();
            }
        }
        if let Some(names) = self.names {
            names.take(&buf[..count]);
        }
        if let Some(watch) = self.watch.get() {
            self.watch.set(Some(watch.after(&buf[..count])));
        }
        Ok(count)
    }
}

/// What was opened, with its bytes watched.
pub(crate) fn watch_opened<'a>(
    opened: Opened<Input>,
    watch: &'a Cell<Option<Watch>>,
    names: Option<&'a NameCount>,
    at_end: Option<&'a GenerationsLine>,
) -> Opened<Watched<'a, Input>> {
    Opened {
        input: Watched {
            input: opened.input,
            watch,
            names,
            at_end,
        },
        bytes: opened.bytes,
    }
}
