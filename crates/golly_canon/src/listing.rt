//! The commands over any number of files, `keys` and `duplicates`.

use crate::closing::{Hints, Tally};
use crate::counting::NameCount;
use crate::folders::{Found, take_list, take_words};
use crate::opening::{Input, ReservedStreams, hint_before, open_no_folder};
use crate::outputs::{Errors, Listed, Output, Visible};
use crate::progress::ProgressLine;
use crate::recognizing::Recognized;
use crate::watching::{Watched, Watcher, push_warning, watch_opened};
use file_keys::{OpenedFile, write_duplicates, write_keys};
use life_base::{Device, Kind};
use life_cli::plans::KeysPlan;
use life_cli::{Opened, Origin, Seeds, refuse};
use std::alloc::AllocError;
use std::cell::Cell;
use std::io::{ErrorKind, IsTerminal, Result as IoResult, Write};
use std::rt::{Stderr, Stdout};

/// What is written of the files.
#[derive(Clone, Copy)]
pub(crate) enum Listing {
    /// The key of each.
    Keys,
    /// The groups of files that are the same pattern.
    Duplicates,
}

/// What a run over files keeps as it goes.
#[derive(Drop)]
struct Run<'a> {
    streams: &'a ReservedStreams,
    found: &'a Found,
    progress: ProgressLine,
    watcher: Watcher,
    /// Whether the list of files is read next, before any of them.
    lists: Cell<bool>,
    /// The names in the list.
    names: NameCount,
    /// What the files show of the arguments.
    hints: Hints,
    listed: Listed,
    /// Whether the reader of standard output has left.
    is_left: Cell<bool>,
    /// The lines that reported why files are passed over.
    report_lines: NameCount,
    /// How many of them came before the file that was opened last.
    earlier_reports: Cell<usize>,
    /// How many files have a name that is UTF-8 text, so that they could be tried.
    tried: Cell<usize>,
}

/// A file that was opened, or the list.
type OpenedInput<'a> = OpenedFile<Device<Recognized<Watched<'a, Input>>>>;

/// What was opened, and what it is if it is something that the program doesn't read.
fn recognize_opened<'a>(opened: Opened<Watched<'a, Input>>) -> OpenedInput<'a> {
    let Opened { input, bytes } = opened;
    let input = Recognized::new(input);
    let foreign = input.foreign();
    OpenedFile {
        source: Device::new(input).expecting(bytes),
        foreign,
    }
}

/// Opens what a name represents, unless it is known that it can't be opened.
fn open_found(
    rt: &HostRuntime,
    streams: &ReservedStreams,
    found: &Found,
    origin: Origin<'_>,
) -> IoResult<Opened<Input>> {
    if let Origin::File(name) = origin {
        if let Some(kind) = found.why(name) {
            return Err(kind.into());
        }
    }
    open_no_folder(rt, streams, origin)
}

/// Whether a file wasn't tried, because its name isn't UTF-8 text.
fn has_no_text<T>(opened: &IoResult<T>) -> bool {
    match opened {
        Ok(_) => false,
        Err(error) => matches!(error.kind(), ErrorKind::InvalidData),
    }
}

/// The line that says how many of something were left out, or no text where none were.
fn left_out_line(rt: &HostRuntime, what: &str, count: usize) -> Result<String, AllocError> {
    if count == 0 {
        return Ok(String::new(rt.alloc()));
    }
    format!(in rt.alloc(); "{what}: {count}.\n")
}

/// The name of what is opened.
fn name_of(origin: Origin<'_>) -> &str {
    match origin {
        Origin::Standard => "-",
        Origin::File(name) => name,
    }
}

impl<'a> Run<'a> {
    /// Standard output, whose lines come in place of the line of progress.
    fn out(&self, rt: &HostRuntime) -> Output<'_, Visible<'_, Stdout>> {
        let stream = rt.stdout();
        let progress = self.progress.is_shared.then_some(&self.progress.line);
        Output {
            stream: Visible::new(stream, stream.is_terminal(), progress),
            is_left: &self.is_left,
            listed: Some(&self.listed),
            line: None,
        }
    }

    /// Standard error, whose lines do too.
    fn stderr(&self, rt: &HostRuntime) -> Visible<'_, Stderr> {
        let stream = rt.stderr();
        Visible::new(stream, stream.is_terminal(), Some(&self.progress.line))
    }

    /// The same for reports, each of which says that a file is passed over.
    fn errors(&self, rt: &HostRuntime) -> Errors<'_, Visible<'_, Stderr>> {
        Errors {
            stream: self.stderr(rt),
            is_left: &self.is_left,
            lines: &self.report_lines,
        }
    }

    /// Writes a text that is no report to standard error, unless the reader of standard output has left.
    fn say(&self, rt: &HostRuntime, text: &[u8]) {
        if !self.is_left.get() {
            let _ = self.stderr(rt).write_all(text);
        }
    }

    /// Writes the warning of the file that was read last, if there is one and the file wasn't refused.
    fn warn(&self, rt: &HostRuntime) {
        let reported = self.report_lines.count.get();
        let is_reported = self.earlier_reports.replace(reported) != reported;
        let is_refused = self.listed.is_refused.replace(false);
        let Some(watch) = self.watcher.watch.take() else {
            return;
        };
        let Some(warning) = watch.warning() else {
            return;
        };
        if is_reported || is_refused {
            return;
        }
        if let Ok(mut line) = self.watcher.line.try_borrow_mut() {
            if push_warning(&mut line, warning).is_ok() {
                self.say(rt, line.as_slice());
            }
        }
    }

    /// Watches the file that is opened next, or if that is the list, returns what counts its names.
    fn watch(&self, name: &str) -> Option<&NameCount> {
        if self.lists.replace(false) {
            return Some(&self.names);
        }
        self.watcher.begin(name);
        None
    }

    /// Counts a file that was tried, whether or not it could be opened.
    fn count<T>(&self, opened: &IoResult<T>) {
        if !has_no_text(opened) {
            self.tried.set(self.tried.get().saturating_add(1));
        }
    }

    /// Opens a file, or the list.
    fn open(&self, rt: &HostRuntime, origin: Origin<'_>) -> IoResult<OpenedInput<'_>> {
        self.warn(rt);
        self.progress.advance(rt, self.names.count.get());
        let names = self.watch(name_of(origin));
        if let Some(hint) = hint_before(rt, origin) {
            self.say(rt, hint.as_slice());
        }
        let opened = open_found(rt, self.streams, self.found, origin);
        if names.is_none() {
            self.hints.take(origin, &opened);
            self.count(&opened);
        }
        let opened = watch_opened(opened?, &self.watcher.watch, names, None);
        Ok(recognize_opened(opened))
    }

    /// Writes what is wanted of the plan's files, and between their lines how far that is.
    fn write(&self, rt: &HostRuntime, seeds: &Seeds, plan: &KeysPlan<'_>, listing: Listing) -> u8 {
        let mut out = Device::new(self.out(rt));
        let mut err = Device::new(self.errors(rt));
        let opener = |origin: Origin<'_>| self.open(rt, origin);
        match listing {
            Listing::Keys => write_keys(rt.alloc(), seeds, plan, opener, &mut out, &mut err),
            Listing::Duplicates => {
                write_duplicates(rt.alloc(), seeds, plan, opener, &mut out, &mut err)
            }
        }
    }

    /// How many files the plan and its list name.
    fn named(&self, plan: &KeysPlan<'_>) -> usize {
        plan.files.len().saturating_add(self.names.count.get())
    }

    /// How many of the plan's files are duplicates.
    fn tally(&self, plan: &KeysPlan<'_>) -> Tally {
        let refusals = self.report_lines.count.get();
        Tally {
            files: self.named(plan).saturating_sub(refusals),
            refusals,
            duplicates: self.listed.names.count.get(),
            groups: self.listed.names.groups(),
        }
    }

    /// Says after a run over folders how many files were left out because their names aren't UTF-8 text, and how many because they are devices, pipes or
    /// sockets, if any were.
    fn close_folders(&self, rt: &HostRuntime, plan: &KeysPlan<'_>) {
        if !plan.recursive {
            return;
        }
        let unnamed = self.named(plan).saturating_sub(self.tried.get());
        let no_text = "Files and folders left out because the name isn't UTF-8 text";
        let devices = "Devices, pipes and sockets left out";
        for (what, count) in [(no_text, unnamed), (devices, self.found.devices)] {
            if let Ok(line) = left_out_line(rt, what, count) {
                self.say(rt, line.as_bytes());
            }
        }
    }

    /// Says what was left out, and on a terminal what to change in the arguments, and how many files are duplicates.
    fn close(&self, rt: &HostRuntime, plan: &KeysPlan<'_>, listing: Listing) {
        if !self.listed.is_whole.get() {
            return;
        }
        self.close_folders(rt, plan);
        if !rt.stderr().is_terminal() {
            return;
        }
        self.say(rt, self.hints.of_folder().as_bytes());
        self.say(rt, self.hints.of_list(plan.zero, &self.names).as_bytes());
        if matches!(listing, Listing::Duplicates) {
            if let Ok(line) = self.tally(plan).line(rt) {
                self.say(rt, line.as_bytes());
            }
        }
    }
}

/// Writes what is wanted of the plan's files.
fn write_listing(
    rt: &HostRuntime,
    streams: &ReservedStreams,
    found: &Found,
    plan: &KeysPlan<'_>,
    listing: Listing,
) -> u8 {
    let Ok(seeds) = Seeds::drawn(rt) else {
        return refuse(&mut Device::new(rt.stderr()), Kind::ReadFault);
    };
    let run = Run {
        streams,
        found,
        progress: ProgressLine::new(rt, plan),
        watcher: Watcher::new(rt),
        lists: Cell::new(plan.from.is_some()),
        names: NameCount::new(plan.zero),
        hints: Hints::new(plan.files.len()),
        listed: Listed {
            names: NameCount::new(plan.zero),
            is_whole: Cell::new(false),
            json: plan.json,
            is_refused: Cell::new(false),
        },
        is_left: Cell::new(false),
        report_lines: NameCount::new(false),
        earlier_reports: Cell::new(0),
        tried: Cell::new(0),
    };
    let status = run.write(rt, &seeds, plan, listing);
    run.warn(rt);
    run.progress.line.clear();
    run.close(rt, plan, listing);
    status
}

/// The plan over the files that were found.
fn plan_of<'a>(
    rt: &HostRuntime,
    found: &'a Found,
    plan: &KeysPlan<'_>,
) -> Result<KeysPlan<'a>, AllocError> {
    let mut files = Vec::new(rt.alloc());
    for file in found.files.as_slice() {
        if files.push(file.as_str()).is_err() {
            return Err(AllocError);
        }
    }
    Ok(KeysPlan {
        form: plan.form,
        zero: plan.zero,
        json: plan.json,
        recursive: true,
        from: found.list.as_deref(),
        files,
    })
}

/// Finds the files in the plan's folders, and writes what is wanted of them.
fn write_below(
    rt: &HostRuntime,
    streams: &ReservedStreams,
    mut found: Found,
    plan: &KeysPlan<'_>,
    listing: Listing,
) -> Result<u8, AllocError> {
    take_list(rt, plan.from, &mut found)?;
    take_words(rt, plan.files.as_slice(), &mut found)?;
    let whole = plan_of(rt, &found, plan)?;
    Ok(write_listing(rt, streams, &found, &whole, listing))
}

/// Draws the random words, and writes what is wanted of the plan's files. Without random words nothing is read. `found` says which of the names can't be
/// opened.
pub(crate) fn list_files(
    rt: &HostRuntime,
    streams: &ReservedStreams,
    found: Found,
    plan: &KeysPlan<'_>,
    listing: Listing,
) -> u8 {
    if !plan.recursive {
        return write_listing(rt, streams, &found, plan, listing);
    }
    match write_below(rt, streams, found, plan, listing) {
        Ok(status) => status,
        Err(_) => refuse(&mut Device::new(rt.stderr()), Kind::Memory),
    }
}
