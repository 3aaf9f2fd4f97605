//! The command `duplicates`: its files, one after another, and then the groups.

ghost use Rattle.std.specs.Prelude.{◌≡◌, []};
ghost use Rattle.file_keys.specs.Words.{sink_run, CanBegin, CanGather, Gathers, IsGroupStatus, names_left, RanDuplicates};

use super::gathered::Gathered;
use super::texts::write_groups;
use crate::keys::files::Files;
use crate::keys::names::Names;
use crate::keys::outputs::break_off;
use crate::keys::refusal::OpenedFile;
use command_line::{KeysPlan, Origin};
use life_base::{Sink, Source};
use pattern_sources::{Seeds, refuse};
use std::alloc::Global;
use std::io::Result as IoResult;

/// A run: its files, and what it keeps of them.
#[derive(Drop)]
pub struct Gathering<'a, F> {
    files: Files<F>,
    gathered: Gathered<'a>,
}

impl<'a, R: Source + Drop, F: FnMut(Origin<'_>) -> IoResult<OpenedFile<R>> + Drop> Gathering<
    'a,
    F,
> {
    /// Takes the files that these names name.
    fn take_all<E: Sink>(&mut self, mut names: Names<'_, 'a>, err: &mut E)
        requires { CanGather F.IsAlwaysCallable self.old (E.failures err.old) }
        ensures can { CanGather F.IsAlwaysCallable self.new (E.failures err.new) }
        ensures gathers { Gathers F.step R.remaining R.failures E.contents E.failures E.stalled
            self.old.files.form (names_left names.entry) []
            self.old.files.opener self.new.files.opener err.old err.new self.old.gathered
            self.new.gathered }
    {
        while let Some(name) = names.next_name() {
            let outcome = self.files.take(name);
            self.gathered.put(name.bytes(), outcome, err);
        }
    }
}

/// Writes the names of the files that the plan names in groups, one for each key that more than one of them has. Files that are refused or can't be
/// opened are reported on `err` and passed over, and so is a file for whose key or name there is no memory. Nothing is written to `out` before all
/// files were processed. A file that `opener` opens is reported as `ReadFault` exactly where a read of it fails. Returns the status that the program ends
/// with: the greatest one of a file, or if that is 0, whether there is no group.
pub fn write_duplicates<R, F, W, E>(
    alloc: Global,
    seeds: &Seeds,
    plan: &KeysPlan<'_>,
    opener: F,
    out: &mut W,
    err: &mut E,
) -> u8
where
    R: Source + Drop,
    F: FnMut(Origin<'_>) -> IoResult<OpenedFile<R>> + Drop,
    W: Sink,
    E: Sink,
    requires { CanBegin F.IsAlwaysCallable W.failures W.stalled E.failures E.stalled
        opener out.old err.old }
    ensures ran { RanDuplicates F.step R.remaining R.failures plan.now opener
        (sink_run W.contents W.failures W.stalled out.old out.new)
        (sink_run E.contents E.failures E.stalled err.old err.new) (W.flushed out.new) result }
    ensures status { IsGroupStatus result }
{
    let mut files = Files {
        alloc,
        seeds: *seeds,
        form: plan.form,
        opener,
    };
    let list = match files.list(plan.from) {
        Ok(list) => list,
        Err(kind) => return refuse(err, kind),
    };
    let mut run = Gathering {
        files,
        gathered: Gathered::new(alloc, seeds),
    };
    let names = Names::new(plan.files.as_slice(), list.as_slice(), plan.zero);
    run.take_all(names, err);
    match write_groups(out, &run.gathered.groups, plan.zero) {
        Ok(()) => run.gathered.final_status(),
        Err(kind) => break_off(run.gathered.tells, err, kind),
    }
}
