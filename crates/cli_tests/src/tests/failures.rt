//! Each call of a device in turn fails: each read, also the one after the last byte, a write after a prefix of the text, and the flush.

use super::TASKS;
use super::devices::{Case, End, Narrow, assert_case, assert_left, run_case, sink_with};
use super::tasks::{WIDE, case_of, dripping, read_fault};
use life_base::Device;
use life_cli::plans::{Form, Task};
use std::alloc::Global;
use std::io;
use std::process::Abort;

/// A task whose first file fails at any of its reads reports that.
fn assert_reads_fail(rt: &impl Abort, alloc: Global, case: &Case) {
    let bytes = case.first.bytes;
    for good in 0..=bytes.len() {
        let case = Case {
            first: dripping(bytes, good),
            ..*case
        };
        assert_case(rt, alloc, &case, WIDE, &read_fault(true));
    }
}

#[test]
fn each_read_fails(rt: HostRuntime) {
    for &(task, first, second, _, _) in &TASKS {
        assert_reads_fail(&rt, rt.alloc(), &case_of(task, first, second, 999));
    }
}

/// A task whose second file, of these bytes, fails at any of its reads reports that.
fn assert_second_reads_fail(rt: &impl Abort, alloc: Global, case: &Case, bytes: &[u8]) {
    for good in 0..=bytes.len() {
        let case = Case {
            second: Some(dripping(bytes, good)),
            ..*case
        };
        assert_case(rt, alloc, &case, WIDE, &read_fault(false));
    }
}

#[test]
fn each_read_of_the_second_file_fails(rt: HostRuntime) {
    for &(task, first, second, _, _) in &TASKS {
        if let Some(bytes) = second {
            let case = case_of(task, first, second, 999);
            assert_second_reads_fail(&rt, rt.alloc(), &case, bytes);
        }
    }
}

/// A task whose output takes the text only up to some byte reports that, and has written what was taken.
fn assert_prefix(
    rt: &impl Abort,
    alloc: Global,
    case: &Case,
    text: &[u8],
    (room, piece, end): (usize, usize, End),
) {
    let mut written = Vec::new(alloc);
    let writer = Narrow {
        written: &mut written,
        room,
        piece,
        end,
    };
    let mut out = Device::new(writer);
    let (status, err, _) = run_case(rt, alloc, case, &mut out, (99, 3));
    drop(out);
    let is_fault = status == 3 && err.written.as_slice() == b"WriteFault\n".as_slice();
    let is_prefix = text.starts_with(&written) && written.len() == room;
    assert!(rt; is_fault && is_prefix, "{:?} {room} {piece}", case.task);
}

/// How many bytes are taken at most before a write is interrupted, or takes none: whole texts but the last byte, where 999 is said.
const ROOMS: [usize; 4] = [0, 1, 7, 999];

/// A byte or all at a time, and then an interrupted write or one that takes nothing.
const ENDS: [(usize, End); 4] = [
    (1, End::Stops),
    (1, End::Fails(io::ErrorKind::Interrupted)),
    (999, End::Stops),
    (999, End::Fails(io::ErrorKind::Interrupted)),
];

/// A task whose output takes the text only up to some byte, in any of these ways, reports that.
fn assert_prefixes(rt: &impl Abort, alloc: Global, case: &Case, text: &[u8], room: usize) {
    for &(piece, end) in &ENDS {
        assert_prefix(rt, alloc, case, text, (room, piece, end));
    }
}

#[test]
fn each_write_fails(rt: HostRuntime) {
    for &(task, first, second, _, text) in &TASKS {
        let case = case_of(task, first, second, 999);
        for most in ROOMS {
            let room = text.len().saturating_sub(1).min(most);
            assert_prefixes(&rt, rt.alloc(), &case, text, room);
        }
    }
}

/// A text that is written whole and can't be flushed is reported.
#[test]
fn each_flush_fails(rt: HostRuntime) {
    for &(task, first, second, _, text) in &TASKS {
        let case = case_of(task, first, second, 999);
        let end = (text.len(), 999, End::Unflushed(io::ErrorKind::Other));
        assert_prefix(&rt, rt.alloc(), &case, text, end);
    }
}

/// Where standard error takes only a prefix of the fault's line, the status stays.
fn assert_error_prefix(rt: &impl Abort, alloc: Global, room: usize, piece: usize, wanted: &[u8]) {
    let mut out = sink_with(alloc, 999, 7);
    let case = case_of(Task::Canon(Form::Placed), b"o!\n", None, 999);
    let (status, err, _) = run_case(rt, alloc, &case, &mut out, (room, piece));
    assert_left(rt, (status, out, err), (2, b"", wanted));
}

#[test]
fn each_write_to_standard_error_fails(rt: HostRuntime) {
    let line = b"line 1: NoHeader\n".as_slice();
    for room in 0..line.len() {
        for piece in [1, 3, 7, 999] {
            assert_error_prefix(&rt, rt.alloc(), room, piece, &line[..room]);
        }
    }
}
