//! The command `keys`: its files, one after another.

ghost use Rattle.std.specs.Prelude.{◌≡◌, OnOk, true};
ghost use Rattle.file_keys.specs.Words.{sink_run, CanBegin, CanTake, LeavesSink, IsStatus, names_left, KeysRan, TakesNames};

use super::files::Files;
use super::names::Names;
use super::outputs::Outputs;
use super::refusal::OpenedFile;
use super::style::Style;
use command_line::{KeysPlan, Origin};
use life_base::{Kind, Sink, Source};
use pattern_sources::{Seeds, refuse};
use std::alloc::Global;
use std::io::Result as IoResult;

/// A run: its files, and what it writes of them.
#[derive(Drop)]
pub struct KeyRun<F> {
    files: Files<F>,
    outputs: Outputs,
}

impl<R: Source + Drop, F: FnMut(Origin<'_>) -> IoResult<OpenedFile<R>> + Drop> KeyRun<F> {
    /// Takes the files that these names name, and flushes.
    fn take_all<W: Sink, E: Sink>(
        &mut self,
        mut names: Names<'_, '_>,
        out: &mut W,
        err: &mut E,
    ) -> Result<(), Kind>
        requires { CanTake F.IsAlwaysCallable self.old (W.failures out.old) (E.failures err.old) }
        ensures took { TakesNames F.step R.remaining R.failures W.contents E.contents E.failures
            E.stalled self.old.files.form (names_left names.entry)
            self.old.files.opener self.new.files.opener out.old out.new err.old err.new
            self.old.outputs self.new.outputs result }
        ensures sink { LeavesSink W.failures W.stalled out.old out.new result }
        ensures flushed { OnOk result (W.flushed out.new ≡ true) }
    {
        while let Some(name) = names.next_name() {
            let outcome = self.files.take(name);
            self.outputs.put(name.bytes(), outcome, out, err)?;
        }
        out.flush()
    }
}

/// Writes a line for each file that the plan names, in their order: its key and its name. Files that are refused or can't be opened are reported on
/// `err` and passed over. If the plan says JSON, each file has an object in place of these. A file that `opener` opens is reported as `ReadFault`
/// exactly where a read of it fails. Returns the status that the program ends with.
pub fn write_keys<R, F, W, E>(
    alloc: Global,
    seeds: &Seeds,
    plan: &KeysPlan<'_>,
    opener: F,
    out: &mut W,
    err: &mut E,
) -> u8
where
    R: Source + Drop,
    F: FnMut(Origin<'_>) -> IoResult<OpenedFile<R>> + Drop,
    W: Sink,
    E: Sink,
    requires { CanBegin F.IsAlwaysCallable W.failures W.stalled E.failures E.stalled
        opener out.old err.old }
    ensures ran { KeysRan F.step R.remaining R.failures plan.now opener
        (sink_run W.contents W.failures W.stalled out.old out.new)
        (sink_run E.contents E.failures E.stalled err.old err.new) (W.flushed out.new) result }
    ensures status { IsStatus result }
{
    let mut files = Files {
        alloc,
        seeds: *seeds,
        form: plan.form,
        opener,
    };
    let list = match files.list(plan.from) {
        Ok(list) => list,
        Err(kind) => return refuse(err, kind),
    };
    let mut run = KeyRun {
        files,
        outputs: Outputs::new(alloc, Style::by(plan.json, plan.zero)),
    };
    let names = Names::new(plan.files.as_slice(), list.as_slice(), plan.zero);
    match run.take_all(names, out, err) {
        Ok(()) => run.outputs.status,
        Err(kind) => run.outputs.break_off(err, kind),
    }
}
