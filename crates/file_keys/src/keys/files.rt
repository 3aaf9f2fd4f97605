//! What the files of the command `keys` come to.

ghost use Rattle.std.specs.Prelude.{◌≡◌, ◌^◌, IfErr, IfOk, OnOk, Some, option_map};
ghost use Rattle.file_keys.specs.Words.{source_run, Comes, IsOutcomeOf, LacksBytes, LacksList, Listed, name_of_file, ReadAll, ReadsList, Takes};

use super::key_of;
use super::names::FileName;
use super::outcome::Outcome;
use super::refusal::{FileRefusal, OpenedFile};
use command_line::{KeyForm, Origin, origin_of};
use file_hints::{Foreign, foreign_on};
use life_base::{Fault, Kind, Source, read_within};
use life_pattern::laws::refusals_have_kinds;
use pattern_sources::Seeds;
use std::alloc::Global;
use std::io::{ErrorKind, Result as IoResult};

/// The most bytes of a list.
const LONGEST_LIST: u64 = 1 << 30;

/// How the files of a run are opened, and in which form their patterns are hashed.
#[derive(Drop)]
pub(crate) struct Files<F> {
    pub alloc: Global,
    pub seeds: Seeds,
    pub form: KeyForm,
    pub opener: F,
}

/// The key of a source's pattern, or why it has none: `ReadFault` exactly where a read of it failed.
pub(crate) fn source_outcome<R: Source>(
    alloc: Global,
    seeds: &Seeds,
    form: KeyForm,
    source: &mut R,
    foreign: Option<Foreign>,
) -> Outcome
    ensures { IsOutcomeOf form foreign
        (source_run R.remaining R.failures source.old source.new) result }
{
    refusals_have_kinds();
    if source.failed() {
        let fault = Fault::of(Kind::ReadFault);
        let foreign = None;
        return Outcome::Refused(FileRefusal { fault, foreign });
    }
    match key_of(alloc, seeds, form, source) {
        Ok(key) => Outcome::Key(key),
        Err(fault) => {
            let foreign = foreign_on(fault.kind, foreign);
            Outcome::Refused(FileRefusal { fault, foreign })
        }
    }
}

/// The bytes of a list, or why they aren't read: `ReadFault` exactly where a read failed.
fn list_bytes<R: Source>(alloc: Global, source: &mut R) -> Result<Vec<u8>, Kind>
    ensures ok { IfOk result (λ bytes. ReadAll (2 ^ 30) (R.remaining source.old)
        (R.remaining source.new) bytes.items) }
    ensures works { OnOk result (R.failures source.new ≡ 0) }
    ensures err { IfErr result
        (LacksBytes (source_run R.remaining R.failures source.old source.new)) }
{
    if source.failed() {
        return Err(Kind::ReadFault);
    }
    read_within(alloc, source, LONGEST_LIST)
}

impl<R: Source + Drop, F: FnMut(Origin<'_>) -> IoResult<OpenedFile<R>> + Drop> Files<F> {
    /// Opens what a name names, and reads it to its end.
    fn outcome(&mut self, origin: Origin<'_>) -> Outcome
        requires callable { F.IsAlwaysCallable self.old.opener }
        ensures callable { F.IsAlwaysCallable self.new.opener }
        ensures comes { (given : _) × F.step self.old.opener origin.entry given self.new.opener
            × Comes F.step R.remaining R.failures self.old.form given result }
        ensures form { self.new.form ≡ self.old.form }
    {
        match (self.opener)(origin) {
            Ok(opened) => {
                let mut source = opened.source;
                source_outcome(
                    self.alloc,
                    &self.seeds,
                    self.form,
                    &mut source,
                    opened.foreign,
                )
            }
            Err(error) => Outcome::Unopened(error.kind()),
        }
    }

    /// The same of a name in a list, which is a file, and can't be opened where it is no UTF-8 text.
    fn listed_outcome(&mut self, name: &[u8]) -> Outcome
        requires callable { F.IsAlwaysCallable self.old.opener }
        ensures callable { F.IsAlwaysCallable self.new.opener }
        ensures takes { Takes F.step R.remaining R.failures self.old.form self.old.opener
            (record { name = Listed name.now; outcome = result }) self.new.opener }
        ensures form { self.new.form ≡ self.old.form }
    {
        match str::from_utf8(name) {
            Ok(text) => self.outcome(Origin::File(text)),
            Err(_) => Outcome::Unopened(ErrorKind::InvalidData),
        }
    }

    /// Opens what a name of a run names, and reads it to its end.
    pub(crate) fn take(&mut self, name: FileName<'_>) -> Outcome
        requires callable { F.IsAlwaysCallable self.old.opener }
        ensures callable { F.IsAlwaysCallable self.new.opener }
        ensures takes { Takes F.step R.remaining R.failures self.old.form self.old.opener
            (record { name = name_of_file name.entry; outcome = result }) self.new.opener }
        ensures form { self.new.form ≡ self.old.form }
    {
        match name {
            FileName::Word(word) => self.outcome(origin_of(word)),
            FileName::Listed(bytes) => self.listed_outcome(bytes),
        }
    }

    /// The bytes of the list that a word names, or none.
    pub(crate) fn list(&mut self, from: Option<&str>) -> Result<Vec<u8>, Kind>
        requires callable { F.IsAlwaysCallable self.old.opener }
        ensures callable { F.IsAlwaysCallable self.new.opener }
        ensures ok { IfOk result (λ bytes. ReadsList F.step R.remaining R.failures
            (option_map (λ word. word.now) from.entry) self.old.opener bytes.items
            self.new.opener) }
        ensures err { IfErr result (λ kind. (word : _)
            × (option_map (λ word. word.now) from.entry ≡ Some word)
            × LacksList F.step R.remaining R.failures word self.old.opener kind) }
        ensures form { self.new.form ≡ self.old.form }
    {
        let Some(name) = from else {
            return Ok(Vec::new(self.alloc));
        };
        let Ok(opened) = (self.opener)(origin_of(name)) else {
            return Err(Kind::ReadFault);
        };
        let mut source = opened.source;
        list_bytes(self.alloc, &mut source)
    }
}
