//! Readers, writers and devices that fail, and what a task leaves in them.

ghost use Rattle.std.specs.Prelude.{◌≡◌, ◌≤◌, ◌↔◌, Some, IsSome, IfSome, IsTrue, true, false};
ghost use Rattle.std.proofs.Common.{rules};
ghost use Rattle.life_base.specs.DeviceState.{has_failed};
ghost use Rattle.life_base.specs.Devices.{flag_count};
ghost use Rattle.life_cli.specs.Plans.{HasSecond};

use life_base::{Device, Kind, Sink, Source};
use life_cli::plans::Task;
use life_cli::{Seeds, work_seeded};
use std::alloc::Global;
use std::io::{self, Read, Write};
use std::process::Abort;

/// A reader of std that gives `piece` bytes at a time, and is interrupted after some calls.
#[derive(Drop)]
pub struct Dripping<'a> {
    left: &'a [u8],
    piece: usize,
    good: usize,
}

impl<'a> Read for Dripping<'a> {
    fn read(&mut self, buf: &mut [u8]) -> io::Result<usize> {
        if self.good == 0 {
            return Err(io::ErrorKind::Interrupted.into());
        }
        self.good -= 1;
        let count = self.left.len().min(self.piece).min(buf.len());
        buf[..count].copy_from_slice(&self.left[..count]);
        self.left = &self.left[count..];
        Ok(count)
    }
}

/// A source of these bytes, `piece` at a time, that fails after so many reads.
fn source_in_pieces(left: &[u8], piece: usize, good: usize) -> Device<Dripping<'_>>
    ensures { has_failed result ≡ false }
{
    Device::new(Dripping { left, piece, good })
}

/// A source of these bytes, one at a time, that fails after so many reads.
pub(super) fn source_of(left: &[u8], good: usize) -> Device<Dripping<'_>>
    ensures { has_failed result ≡ false }
{
    source_in_pieces(left, 1, good)
}

/// What a writer does once it is full: it takes no more, fails with such an error, or can't flush and fails with such an error.
#[derive(Clone, Copy)]
pub(super) enum End {
    Stops,
    Fails(io::ErrorKind),
    Unflushed(io::ErrorKind),
}

/// A writer of std that takes `piece` bytes at a time, `room` bytes at most.
#[derive(Drop)]
pub(super) struct Narrow<'a> {
    pub(super) written: &'a mut Vec<u8>,
    pub(super) room: usize,
    pub(super) piece: usize,
    pub(super) end: End,
}

impl<'a> Write for Narrow<'a> {
    fn write(&mut self, buf: &[u8]) -> io::Result<usize> {
        match self.end {
            End::Fails(kind) if self.room == 0 => return Err(kind.into()),
            _ => {}
        }
        let count = buf.len().min(self.room).min(self.piece);
        self.written.extend_from_slice(&buf[..count])?;
        self.room -= count;
        Ok(count)
    }

    fn flush(&mut self) -> io::Result<()> {
        match self.end {
            End::Unflushed(kind) => Err(kind.into()),
            End::Stops | End::Fails(_) => Ok(()),
        }
    }
}

/// A sink that takes some bytes at a time, none where `piece` is 0, and fails when it is full.
#[derive(Drop)]
pub struct Limited {
    pub written: Vec<u8>,
    pub room: usize,
    pub piece: usize,
    pub failed: bool,
    pub stalled: bool,
    pub flushed: bool,
}

impl Sink for Limited {
    ghost failures = { λ s. flag_count s.failed };

    ghost contents = { λ s. Some s.written.items };

    ghost stalled = { λ s. s.stalled };

    ghost flushed = { λ s. s.flushed };

    ghost at_most_one = { λ s. elim s.failed as (λ f. flag_count f ≤ 1) [ true ↦ Prim.search rules | false ↦ Prim.search rules ] };

    fn failed(&self) -> bool {
        self.failed
    }

    fn write(&mut self, buf: &[u8]) -> Result<usize, Kind> {
        self.flushed = false;
        let count = buf.len().min(self.room).min(self.piece);
        if self.room == 0 || self.written.extend_from_slice(&buf[..count]).is_err() {
            self.failed = true;
            return Err(Kind::WriteFault);
        }
        self.room -= count;
        if count == 0 && !buf.is_empty() {
            self.stalled = true;
        }
        Ok(count)
    }

    fn flush(&mut self) -> Result<(), Kind> {
        self.flushed = true;
        Ok(())
    }
}

/// A sink for `room` bytes that takes `piece` bytes at a time.
pub(super) fn sink_with(alloc: Global, room: usize, piece: usize) -> Limited
    ensures failed { result.failed ≡ false }
    ensures stalled { result.stalled ≡ false }
{
    Limited {
        written: Vec::new(alloc),
        room,
        piece,
        failed: false,
        stalled: false,
        flushed: false,
    }
}

/// A task left this. Its status says that the output failed.
pub(super) fn assert_left(
    rt: &impl Abort,
    (status, out, err): (u8, Limited, Limited),
    wanted: (u8, &[u8], &[u8]),
) {
    assert!(rt; status == wanted.0, "status {status}");
    assert!(rt; out.written.as_slice() == wanted.1, "standard output");
    assert!(rt; err.written.as_slice() == wanted.2, "standard error");
    assert!(rt; !out.failed || status == 3);
}

/// A file whose bytes come `piece` at a time, and whose reads fail after `good` ones.
#[derive(Clone, Copy)]
pub(super) struct Input<'a> {
    pub(super) bytes: &'a [u8],
    pub(super) piece: usize,
    pub(super) good: usize,
}

/// A task and its files.
#[derive(Clone, Copy)]
pub(super) struct Case<'a> {
    pub(super) task: Task,
    pub(super) first: Input<'a>,
    pub(super) second: Option<Input<'a>>,
}

/// What a task leaves: its status, what standard output and standard error took, and whether a read of the first file failed.
#[derive(Clone, Copy)]
pub(super) struct Left<'a> {
    pub(super) status: u8,
    pub(super) out: &'a [u8],
    pub(super) err: &'a [u8],
    pub(super) first_failed: bool,
}

/// The source of a file.
fn device_of(input: Input<'_>) -> Device<Dripping<'_>>
    ensures { has_failed result ≡ false }
{
    source_in_pieces(input.bytes, input.piece, input.good)
}

/// The source of a second file, if there is one.
fn second_of(input: Option<Input<'_>>) -> Option<Device<Dripping<'_>>>
    ensures reads { IfSome result (λ source. has_failed source ≡ false) }
    ensures given { IsSome result ↔ IsSome input.entry }
{
    match input {
        Some(input) => Some(device_of(input)),
        None => None,
    }
}

/// Whether a task is one of two files.
fn takes_two(task: &Task) -> bool
    ensures { IsTrue result ↔ HasSecond task.now }
{
    match task {
        Task::Same(_) | Task::StepTable | Task::LaterTable(_) => true,
        _ => false,
    }
}

/// The status of a task, what standard error took, which has space for `heard.0` bytes and takes `heard.1` at a time, and whether a read of the
/// first file failed.
pub(super) fn run_case<O: Sink>(
    rt: &impl Abort,
    alloc: Global,
    case: &Case,
    out: &mut O,
    heard: (usize, usize),
) -> (u8, Limited, bool)
    requires writes { O.failures out.old ≡ 0 }
    requires takes { O.stalled out.old ≡ false }
{
    let mut first = device_of(case.first);
    let mut second = second_of(case.second);
    assert!(rt;
        takes_two(&case.task) == second.is_some(),
        "the files of {:?}",
        case.task
    );
    let mut err = sink_with(alloc, heard.0, heard.1);
    let seeds = Seeds::fixed();
    let status = work_seeded(
        alloc,
        &seeds,
        &case.task,
        &mut first,
        &mut second,
        out,
        &mut err,
    );
    (status, err, first.failed())
}

/// Ends a test: this task leaves something else where its output takes so many bytes, so many at a time.
fn refuse(rt: &impl Abort, case: &Case, (room, piece): (usize, usize), status: u8) -> ! {
    let Case {
        task,
        first,
        second,
    } = *case;
    let second = match second {
        Some(second) => second.good,
        None => 0,
    };
    let reads = (first.piece, first.good, second);
    panic!(rt; "{task:?}: reads {reads:?}, writes {room} {piece}: status {status}")
}

/// A task, where standard output has space for `sink.0` bytes and takes `sink.1` at a time, leaves this.
pub(super) fn assert_case(
    rt: &impl Abort,
    alloc: Global,
    case: &Case,
    sink: (usize, usize),
    wanted: &Left,
) {
    let mut out = sink_with(alloc, sink.0, sink.1);
    let (status, err, first_failed) = run_case(rt, alloc, case, &mut out, (99, 3));
    let is_reported = status == wanted.status && first_failed == wanted.first_failed;
    let is_written = out.written.as_slice() == wanted.out && err.written.as_slice() == wanted.err;
    if !is_reported || !is_written || (out.failed && status != 3) {
        refuse(rt, case, sink, status);
    }
}
