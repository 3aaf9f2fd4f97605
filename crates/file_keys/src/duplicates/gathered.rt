//! What a run of the command `duplicates` keeps of its files.

ghost use Rattle.std.specs.Prelude.{◌≡◌, [], true};
ghost use Rattle.file_keys.specs.Words.{classes_in, is_empty, IsReportedAs, kept_groups, PutsFile, status_by, with_outcome};

use super::groups::Groups;
use crate::keys::outcome::Outcome;
use crate::keys::outputs::tell_outcome;
use crate::keys::refusal::FileRefusal;
use life_base::{Fault, Kind, Sink};
use pattern_sources::Seeds;
use std::alloc::Global;

/// What a run keeps of its files.
#[derive(Drop)]
pub struct Gathered<'a> {
    /// Whether standard error still takes reports: no write to it has failed or taken no bytes.
    pub tells: bool,
    /// The greatest status of a file so far.
    pub status: u8,
    pub groups: Groups<'a>,
}

/// Keeps the name of a file that has a key. Where memory is refused for that, the file has no key.
fn keep<'a>(groups: &mut Groups<'a>, name: &'a [u8], outcome: Outcome) -> Outcome
    ensures reported { IsReportedAs outcome result }
    ensures kept { classes_in groups.new ≡ with_outcome (classes_in groups.old) result name.now }
{
    let Outcome::Key(key) = outcome else {
        return outcome;
    };
    match groups.add(key, name) {
        Ok(()) => outcome,
        Err(_) => Outcome::Refused(FileRefusal::of(Fault::of(Kind::Memory))),
    }
}

impl<'a> Gathered<'a> {
    /// No file is processed yet.
    pub(super) fn new(alloc: Global, seeds: &Seeds) -> Gathered<'a>
        ensures tells { result.tells ≡ true }
        ensures status { result.status ≡ 0 }
        ensures groups { classes_in result.groups ≡ [] }
    {
        Gathered {
            tells: true,
            status: 0,
            groups: Groups::new(alloc, seeds),
        }
    }

    /// Keeps the name of a file that has a key, or reports why it has none.
    pub(super) fn put<E: Sink>(&mut self, name: &'a [u8], outcome: Outcome, err: &mut E)
        requires { self.old.tells ≡ true → E.failures err.old ≡ 0 }
        ensures { (reported : _) × IsReportedAs outcome reported
            × PutsFile E.contents E.failures E.stalled err.old err.new self.old self.new name.now
            reported }
    {
        let reported = keep(&mut self.groups, name, outcome);
        self.tells = tell_outcome(self.tells, err, name, &reported);
        let status = reported.status();
        if status > self.status {
            self.status = status;
        }
    }

    /// The status of a run whose groups were printed.
    pub(super) fn final_status(&self) -> u8
        ensures { result ≡ status_by self.now.status (is_empty (kept_groups self.now.groups)) }
    {
        if self.status != 0 {
            return self.status;
        }
        if self.groups.are_alone() { 1 } else { 0 }
    }
}
