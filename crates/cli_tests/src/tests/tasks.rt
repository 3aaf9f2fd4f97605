//! What the tasks leave, also over devices that fail.

use super::devices::{Case, Input, Left, assert_case, assert_left, sink_with};
use super::{GLIDER, SEED, SPREAD, TASKS, TWINS, TWINS_IN_RLE, TWINS_TEXT};
use life_base::Device;
use life_cli::plans::{Form, Target, Task};
use life_cli::{Job, work};

/// Space for every text that a test writes, in pieces of seven bytes.
pub(super) const WIDE: (usize, usize) = (9999, 7);

/// More reads than a file has.
const ALL: usize = 999;

/// What a task leaves where a read of its first file, or of its second, fails: that is reported, and nothing is written.
pub(super) fn read_fault(first_failed: bool) -> Left<'static> {
    Left {
        status: 3,
        out: b"",
        err: b"ReadFault\n",
        first_failed,
    }
}

/// Tasks of which a read fails: their files, each with the number of reads that don't fail, and whether it is the first file's.
///
/// A failed read comes before what is wrong with the bytes that were read, also where all of them were. The second file is read to its end before what is
/// wrong with the first one is reported, and a table before anything of the pattern.
const READS: [(Task, (&[u8], usize), Option<(&[u8], usize)>, bool); 25] = [
    (Task::Canon(Form::Placed), (GLIDER, 3), None, true),
    (Task::Canon(Form::Placed), (b"o!\n", 3), None, true),
    (Task::Canon(Form::Moved), (TWINS_IN_RLE, 3), None, true),
    (Task::Canon(Form::Turned), (TWINS_IN_RLE, 3), None, true),
    (Task::Show, (TWINS, 2), None, true),
    (Task::Convert(Target::Rle), (TWINS, 2), None, true),
    (
        Task::Same(Form::Placed),
        (TWINS, 2),
        Some((TWINS, ALL)),
        true,
    ),
    (
        Task::Same(Form::Placed),
        (b"o!\n", ALL),
        Some((TWINS, 2)),
        false,
    ),
    (Task::Show, (TWINS, 29), None, true),
    (Task::Convert(Target::Rle), (TWINS, 29), None, true),
    (Task::Step, (TWINS, 29), None, true),
    (
        Task::Same(Form::Placed),
        (TWINS, 29),
        Some((TWINS, ALL)),
        true,
    ),
    (Task::StepTable, (TWINS, 29), Some((SPREAD, ALL)), true),
    (
        Task::Same(Form::Placed),
        (TWINS, ALL),
        Some((TWINS, 29)),
        false,
    ),
    (Task::Show, (b"o!\n", 3), None, true),
    (Task::Convert(Target::Rle), (b"o!\n", 3), None, true),
    (Task::Step, (b"o!\n", 3), None, true),
    (
        Task::Same(Form::Placed),
        (b"o!\n", 3),
        Some((TWINS, ALL)),
        true,
    ),
    (Task::StepTable, (b"o!\n", 3), Some((SPREAD, ALL)), true),
    (
        Task::Same(Form::Placed),
        (TWINS, ALL),
        Some((b"o!\n", 3)),
        false,
    ),
    (Task::StepTable, (SEED, 0), Some((SPREAD, 2)), false),
    (Task::ShowPeriod(9), (TWINS, 29), None, true),
    (Task::Later(3), (TWINS, 29), None, true),
    (Task::LaterTable(2), (TWINS, 29), Some((SPREAD, ALL)), true),
    (Task::LaterTable(2), (SEED, 0), Some((SPREAD, 2)), false),
];

/// Tasks of which a write fails: their files, how many bytes the output takes and how many at a time, and what it took, a prefix of the text.
const WRITES: [(Task, &[u8], Option<&[u8]>, (usize, usize), &[u8]); 12] = [
    (Task::Canon(Form::Placed), GLIDER, None, (5, 2), b"[M2] "),
    (Task::Canon(Form::Placed), GLIDER, None, (0, 9), b""),
    (Task::Canon(Form::Placed), GLIDER, None, (999, 0), b""),
    (Task::Canon(Form::Moved), GLIDER, None, (5, 2), b"[M2] "),
    (Task::Canon(Form::Turned), GLIDER, None, (5, 2), b"[M2] "),
    (
        Task::Same(Form::Placed),
        TWINS,
        Some(b"[M2]\n"),
        (3, 2),
        b"dif",
    ),
    (
        Task::Same(Form::Placed),
        TWINS,
        Some(b"[M2]\n"),
        (0, 9),
        b"",
    ),
    (
        Task::Same(Form::Placed),
        TWINS,
        Some(b"[M2]\n"),
        (999, 0),
        b"",
    ),
    (Task::Show, TWINS, None, (13, 5), b"rule B3/S23\ng"),
    (Task::Convert(Target::Rle), TWINS, None, (6, 5), b"#CXRLE"),
    (Task::Later(4), GLIDER, None, (5, 2), b"[M2] "),
    (Task::ShowPeriod(4), GLIDER, None, (9, 2), b"rule B3/S"),
];

/// How many bytes of its files a task reads at a time, and what its output takes: all bytes, so many at a time.
const WAYS: [(usize, (usize, usize)); 3] = [(ALL, WIDE), (1, WIDE), (ALL, (9999, 1))];

/// The file of these bytes, whose reads don't fail.
pub(super) fn whole(bytes: &[u8], piece: usize) -> Input<'_> {
    Input {
        bytes,
        piece,
        good: ALL,
    }
}

/// The file of these bytes, one at a time, whose reads fail after so many.
pub(super) fn dripping(bytes: &[u8], good: usize) -> Input<'_> {
    Input {
        bytes,
        piece: 1,
        good,
    }
}

/// A task and its whole files, `piece` bytes of which are read at a time.
pub(super) fn case_of<'a>(
    task: Task,
    first: &'a [u8],
    second: Option<&'a [u8]>,
    piece: usize,
) -> Case<'a> {
    Case {
        task,
        first: whole(first, piece),
        second: match second {
            Some(second) => Some(whole(second, piece)),
            None => None,
        },
    }
}

#[test]
fn tasks_write_their_texts(rt: HostRuntime) {
    for &(piece, sink) in &WAYS {
        for &(task, first, second, status, out) in &TASKS {
            let case = case_of(task, first, second, piece);
            let wanted = Left {
                status,
                out,
                err: b"",
                first_failed: false,
            };
            assert_case(&rt, rt.alloc(), &case, sink, &wanted);
        }
    }
}

/// `work` takes the job, and does its task on patterns as they lie.
#[test]
fn canon_by_its_job(rt: HostRuntime) {
    let alloc = rt.alloc();
    let (mut out, mut err) = (sink_with(alloc, 9999, 7), sink_with(alloc, 99, 3));
    let mut first = Device::new(TWINS_IN_RLE);
    let mut second = None::<Device<&[u8]>>;
    let status = work(
        alloc,
        &Job::Canon,
        &mut first,
        &mut second,
        &mut out,
        &mut err,
    );
    assert_left(&rt, (status, out, err), (0, TWINS_TEXT, b""));
}

#[test]
fn failed_reads_are_reported(rt: HostRuntime) {
    for &(task, (first, good), second, first_failed) in &READS {
        let case = Case {
            task,
            first: dripping(first, good),
            second: match second {
                Some((second, good)) => Some(dripping(second, good)),
                None => None,
            },
        };
        assert_case(&rt, rt.alloc(), &case, WIDE, &read_fault(first_failed));
    }
}

#[test]
fn failed_writes_are_reported(rt: HostRuntime) {
    for &(task, first, second, sink, out) in &WRITES {
        let case = case_of(task, first, second, ALL);
        let wanted = Left {
            status: 3,
            out,
            err: b"WriteFault\n",
            first_failed: false,
        };
        assert_case(&rt, rt.alloc(), &case, sink, &wanted);
    }
}

/// Where the table is refused, nothing of the pattern has been read, whose first read would fail.
#[test]
fn a_table_is_refused_first(rt: HostRuntime) {
    let case = Case {
        task: Task::StepTable,
        first: dripping(SEED, 0),
        second: Some(whole(b"@RULE Spread\n", 1)),
    };
    let wanted = Left {
        status: 2,
        out: b"",
        err: b"table line 2: NoTable\n",
        first_failed: false,
    };
    assert_case(&rt, rt.alloc(), &case, WIDE, &wanted);
}
