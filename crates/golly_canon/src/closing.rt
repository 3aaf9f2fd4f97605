//! What a terminal gets at the end of a run over files: what to change in the arguments, and how many files are duplicates.

use crate::counting::NameCount;
use life_cli::Origin;
use std::alloc::AllocError;
use std::cell::Cell;
use std::io::{ErrorKind, Result as IoResult};

/// What the files of a run show of its arguments.
#[derive(Drop)]
pub(crate) struct Hints {
    // How many files that the arguments name are still to be opened. Those of the list come after them.
    arguments_left: Cell<usize>,
    // Whether an argument is a folder.
    has_folder: Cell<bool>,
    // Whether a file of the list could be opened.
    opens_list_files: Cell<bool>,
}

impl Hints {
    /// Nothing is known yet of so many files that the arguments name.
    pub(crate) fn new(named: usize) -> Hints {
        Hints {
            arguments_left: Cell::new(named),
            has_folder: Cell::new(false),
            opens_list_files: Cell::new(false),
        }
    }

    /// Takes what came of opening a file.
    pub(crate) fn take<T>(&self, origin: Origin<'_>, opened: &IoResult<T>) {
        let arguments_left = self.arguments_left.get();
        self.arguments_left.set(arguments_left.saturating_sub(1));
        match opened {
            Ok(_) => self.opens_list_files.set(arguments_left == 0),
            Err(error) => {
                let is_folder = matches!(error.kind(), ErrorKind::IsADirectory);
                if is_folder && arguments_left > 0 && matches!(origin, Origin::File(_)) {
                    self.has_folder.set(true);
                }
            }
        }
    }

    /// What to do about an argument that is a folder, or nothing.
    pub(crate) fn of_folder(&self) -> &'static str {
        if self.has_folder.get() {
            "To read the files in a folder and below it, add -r.\n"
        } else {
            ""
        }
    }

    /// What to do about a list whose names seem to have the other end, or nothing. `zero` says whether each ends in NUL.
    pub(crate) fn of_list(&self, zero: bool, names: &NameCount) -> &'static str {
        if !names.has_other_end.get() {
            ""
        } else if !zero {
            "The list has NUL bytes. If its names end in NUL, as those of find -print0, add --zero.\n"
        } else if names.count.get() == 1 && !self.opens_list_files.get() {
            "The list is one name with line feeds in it. If its names end in a line feed, leave out --zero.\n"
        } else {
            ""
        }
    }
}

/// How many files of a run are duplicates.
#[derive(Clone, Copy)]
pub(crate) struct Tally {
    /// The files that have a key.
    pub files: usize,
    /// The files that were passed over.
    pub refusals: usize,
    /// The files in groups.
    pub duplicates: usize,
    pub groups: usize,
}

impl Tally {
    /// The line that says so.
    pub(crate) fn line(self, rt: &HostRuntime) -> Result<String, AllocError> {
        let Tally {
            files,
            refusals,
            duplicates,
            groups,
        } = self;
        let more = match refusals {
            0 => String::new(rt.alloc()),
            _ => format!(in rt.alloc(); " (passed over: {refusals})")?,
        };
        let more = more.as_str();
        if files < 2 {
            return format!(in rt.alloc(); "There are no two files to compare{more}.\n");
        }
        match groups {
            0 => format!(in rt.alloc(); "No two of {files} files are the same pattern{more}.\n"),
            1 => format!(in rt.alloc();
                "{duplicates} of {files} files are in 1 group of duplicates{more}.\n"
            ),
            _ => format!(in rt.alloc();
                "{duplicates} of {files} files are in {groups} groups of duplicates{more}.\n"
            ),
        }
    }
}
