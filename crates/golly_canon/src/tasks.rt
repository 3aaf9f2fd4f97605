//! A task over one file or two.

ghost use Rattle.std.specs.Prelude.{◌↔◌, IsSome};
ghost use Rattle.life_cli.specs.Plans.{HasSecond};

use crate::explaining::{explain, explain_unread, warn};
use crate::opening::{Input, ReservedStreams, hint_before, open};
use crate::outputs::Output;
use crate::progress::GenerationsLine;
use crate::watching::{Watched, watch_opened};
use file_hints::Watch;
use life_base::{Device, Fault, Kind};
use life_cli::plans::{Task, TaskPlan};
use life_cli::{Opened, Origin, Refusal, Seeds, carry_out, open_files, refuse, status, tell};
use std::cell::Cell;
use std::io::{IsTerminal, Result as IoResult, Write};

/// Whether sentences come after the line of a fault, or after the answer.
fn is_explained(rt: &HostRuntime, plan: &TaskPlan) -> bool {
    plan.explain || rt.stderr().is_terminal()
}

/// What is watched of the files of a task.
#[derive(Drop)]
struct Watches {
    first: Cell<Option<Watch>>,
    second: Cell<Option<Watch>>,
    /// Whether the first file was opened.
    is_begun: Cell<bool>,
    /// The line that is shown once the first file, which is read last, has ended.
    generations: GenerationsLine,
}

/// The watch of a file that is opened later, or nothing where it isn't watched.
fn watch_if(is_watched: bool) -> Cell<Option<Watch>> {
    Cell::new(is_watched.then_some(Watch::new()))
}

/// Writes the warning of a file that was read, if there is one.
fn warn_of(rt: &HostRuntime, name: &str, watch: &Cell<Option<Watch>>) {
    if let Some(watch) = watch.get() {
        if let Some(warning) = watch.warning() {
            warn(rt, name, warning);
        }
    }
}

impl Watches {
    /// No file is opened yet. Nothing is watched where nothing is said, and a rule table isn't watched.
    fn new(rt: &HostRuntime, plan: &TaskPlan) -> Watches {
        let is_said = is_explained(rt, plan);
        Watches {
            first: watch_if(is_said),
            second: watch_if(is_said && matches!(plan.task, Task::Same(_))),
            is_begun: Cell::new(false),
            generations: GenerationsLine::new(rt, &plan.task),
        }
    }

    /// Opens the next file.
    fn open(&self, rt: &HostRuntime, origin: Origin<'_>) -> IoResult<Opened<Watched<'_, Input>>> {
        let (watch, at_end) = if self.is_begun.replace(true) {
            (&self.second, None)
        } else {
            (&self.first, Some(&self.generations))
        };
        if let Some(hint) = hint_before(rt, origin) {
            let _ = rt.stderr().write_all(hint.as_slice());
        }
        Ok(watch_opened(open(rt, origin)?, watch, None, at_end))
    }

    /// Writes the warnings of the files, which were read.
    fn warn(&self, rt: &HostRuntime, plan: &TaskPlan) {
        let first = plan.first.as_str();
        warn_of(rt, first, &self.first);
        if let Some(second) = plan.second.as_deref() {
            if second != first {
                warn_of(rt, second, &self.second);
            }
        }
    }
}

/// Opens the plan's files and does its task.
fn done<'a>(
    rt: &HostRuntime,
    seeds: &Seeds,
    plan: &TaskPlan,
    watches: &'a Watches,
    is_left: &'a Cell<bool>,
) -> Result<u8, Refusal>
    requires { IsSome plan.now.second ↔ HasSecond plan.now.task }
{
    match open_files(plan, |origin| watches.open(rt, origin)) {
        Ok(files) => {
            let (mut first, mut second) = files;
            let mut out = Device::new(Output {
                stream: rt.stdout(),
                is_left,
                listed: None,
                line: Some(&watches.generations.line),
            });
            carry_out(
                rt.alloc(),
                seeds,
                &plan.task,
                &mut first,
                &mut second,
                &mut out,
            )
        }
        Err(kind) => Err(Refusal::from(Fault::of(kind))),
    }
}

/// Reports why a task is refused, and returns the status.
fn report_refusal(
    rt: &HostRuntime,
    streams: &ReservedStreams,
    plan: &TaskPlan,
    refusal: &Refusal,
) -> u8 {
    tell(&mut Device::new(rt.stderr()), refusal);
    if is_explained(rt, plan) {
        explain(rt, streams, plan, refusal);
    }
    status(refusal.fault.kind)
}

/// Reports that there are no random words, and returns the status.
fn report_unseeded(rt: &HostRuntime, streams: &ReservedStreams, plan: &TaskPlan) -> u8 {
    let status = refuse(&mut Device::new(rt.stderr()), Kind::ReadFault);
    if is_explained(rt, plan) {
        explain_unread(rt, streams, plan);
    }
    status
}

/// Draws the random words, opens the plan's files and does its task. Without random words nothing is read. Nothing is said where the reader of standard
/// output has left.
pub(crate) fn do_task(rt: &HostRuntime, streams: &ReservedStreams, plan: &TaskPlan) -> u8
    requires { IsSome plan.now.second ↔ HasSecond plan.now.task }
{
    let Ok(seeds) = Seeds::drawn(rt) else {
        return report_unseeded(rt, streams, plan);
    };
    let watches = Watches::new(rt, plan);
    let is_left = Cell::new(false);
    let ended = done(rt, &seeds, plan, &watches, &is_left);
    watches.generations.line.clear();
    match ended {
        Ok(status) => {
            watches.warn(rt, plan);
            status
        }
        Err(refusal) if is_left.get() => status(refusal.fault.kind),
        Err(refusal) => report_refusal(rt, streams, plan, &refusal),
    }
}
