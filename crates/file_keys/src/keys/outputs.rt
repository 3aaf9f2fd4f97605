//! What a run of the command `keys` writes of its files.

ghost use Rattle.std.specs.Prelude.{◌≡◌, true, false, max};
ghost use Rattle.file_keys.specs.Words.{LeavesSink, sink_run, fault_of, fault_line, refusal_of, status_of, Reports, error_line, IsReportedAs, object_text, outcome_line, outcome_status, output_line, report_line, TellsOn, warning_line, WritesEntry, WritesFiles, WritesText};

use super::lines::{append_key_line, write_error_line, write_warning};
use super::objects::write_object_whole;
use super::outcome::Outcome;
use super::refusal::FileRefusal;
use super::style::Style;
use file_hints::Warning;
use life_base::{Fault, Kind, Sink, write_text};
use pattern_sources::{refuse, status};
use std::alloc::Global;

/// What a run keeps from one file to the next.
#[derive(Drop)]
pub struct Outputs {
    pub style: Style,
    /// Whether standard error still takes reports: no write to it has failed or taken no bytes.
    pub tells: bool,
    /// The greatest status of a file so far.
    pub status: u8,
    alloc: Global,
    // The buffer for the line of a key.
    space: Vec<u8>,
}

/// Makes the line of a key in `space`. Where memory is refused for it, the file has no key.
fn make_line(space: &mut Vec<u8>, name: &[u8], outcome: Outcome, zero: bool) -> Outcome
    ensures reported { IsReportedAs outcome result }
    ensures line { space.new.items ≡ outcome_line zero name.now result }
{
    space.clear();
    let Outcome::Key(key) = outcome else {
        return outcome;
    };
    if append_key_line(space, &key, name, zero).is_ok() {
        return outcome;
    }
    space.clear();
    Outcome::Refused(FileRefusal::of(Fault::of(Kind::Memory)))
}

/// Reports why a file has no key, unless `tells` says that `err` takes no more reports, and returns whether it takes more.
pub(crate) fn tell_outcome<E: Sink>(
    tells: bool,
    err: &mut E,
    name: &[u8],
    outcome: &Outcome,
) -> bool
    requires { tells ≡ true → E.failures err.old ≡ 0 }
    ensures { TellsOn E.contents E.failures E.stalled tells result err.old err.new
        (error_line name.now outcome.now) }
{
    if tells {
        write_error_line(err, name, outcome).is_ok()
    } else {
        false
    }
}

/// Writes the warning of a file, if there is one, unless `tells` says that `err` takes no more reports, and returns whether it takes more.
fn tell_warning<E: Sink>(tells: bool, err: &mut E, name: &[u8], warning: Option<Warning>) -> bool
    requires { tells ≡ true → E.failures err.old ≡ 0 }
    ensures { TellsOn E.contents E.failures E.stalled tells result err.old err.new
        (warning_line name.now warning) }
{
    match warning {
        Some(warning) if tells => write_warning(err, name, warning).is_ok(),
        _ => tells,
    }
}

/// Reports why the run ends early, unless `tells` says that `err` takes no more reports, and returns the status of that.
pub(crate) fn break_off<E: Sink>(tells: bool, err: &mut E, kind: Kind) -> u8
    requires { tells ≡ true → E.failures err.old ≡ 0 }
    ensures reported { tells ≡ true
        → Reports (sink_run E.contents E.failures E.stalled err.old err.new)
        (fault_line (refusal_of (fault_of kind))) }
    ensures silent { tells ≡ false → err.new ≡ err.old }
    ensures status { result ≡ status_of kind }
{
    if tells {
        refuse(err, kind)
    } else {
        status(kind)
    }
}

/// The greater one of two statuses.
fn greater(first: u8, second: u8) -> u8
    ensures { result ≡ max first second }
{
    if second > first { second } else { first }
}

impl Outputs {
    /// Nothing is written yet.
    pub(crate) fn new(alloc: Global, style: Style) -> Outputs
        ensures style { result.style ≡ style }
        ensures tells { result.tells ≡ true }
        ensures status { result.status ≡ 0 }
    {
        Outputs {
            style,
            tells: true,
            status: 0,
            alloc,
            space: Vec::new(alloc),
        }
    }

    /// Writes the object of a file.
    fn put_object<W: Sink>(
        &mut self,
        name: &[u8],
        outcome: &Outcome,
        out: &mut W,
    ) -> Result<(), Kind>
        requires { W.failures out.old ≡ 0 }
        ensures text { WritesText (W.contents out.old) (W.contents out.new)
            (object_text name.now outcome.now) result }
        ensures sink { LeavesSink W.failures W.stalled out.old out.new result }
        ensures status { self.new.status ≡ max self.old.status (outcome_status outcome.now) }
        ensures style { self.new.style ≡ self.old.style }
        ensures tells { self.new.tells ≡ self.old.tells }
    {
        self.status = greater(self.status, outcome.status());
        write_object_whole(self.alloc, out, name, outcome)
    }

    /// Writes the line of a file's key, as one text, or reports why it has none.
    fn put_line<W: Sink, E: Sink>(
        &mut self,
        name: &[u8],
        outcome: Outcome,
        zero: bool,
        out: &mut W,
        err: &mut E,
    ) -> Result<(), Kind>
        requires works { W.failures out.old ≡ 0 }
        requires hears { self.old.tells ≡ true → E.failures err.old ≡ 0 }
        ensures processed { (reported : _) × IsReportedAs outcome reported
            × WritesFiles W.contents E.contents E.failures E.stalled out.old out.new err.old err.new
            self.old self.new result (outcome_line zero name.now reported)
            (error_line name.now reported) (outcome_status reported) }
        ensures sink { LeavesSink W.failures W.stalled out.old out.new result }
        ensures style { self.new.style ≡ self.old.style }
    {
        let reported = make_line(&mut self.space, name, outcome, zero);
        self.tells = tell_outcome(self.tells, err, name, &reported);
        self.status = greater(self.status, reported.status());
        write_text(out, self.space.as_slice())
    }

    /// Writes what the style has of a file: its object; or the line of its key, as one text, or a report of why it has none.
    pub(super) fn put<W: Sink, E: Sink>(
        &mut self,
        name: &[u8],
        outcome: Outcome,
        out: &mut W,
        err: &mut E,
    ) -> Result<(), Kind>
        requires works { W.failures out.old ≡ 0 }
        requires hears { self.old.tells ≡ true → E.failures err.old ≡ 0 }
        ensures processed { (reported : _) × IsReportedAs outcome reported
            × WritesFiles W.contents E.contents E.failures E.stalled out.old out.new err.old err.new
            self.old self.new result (output_line self.old.style name.now reported)
            (report_line self.old.style name.now reported) (outcome_status reported) }
        ensures sink { LeavesSink W.failures W.stalled out.old out.new result }
        ensures style { self.new.style ≡ self.old.style }
    {
        match self.style {
            Style::Lines => self.put_line(name, outcome, false, out, err),
            Style::Zero => self.put_line(name, outcome, true, out, err),
            Style::Json => self.put_object(name, &outcome, out),
        }
    }

    /// Writes a warning of a file, if there is one, and then what the style has of the file.
    pub(crate) fn put_warned<W: Sink, E: Sink>(
        &mut self,
        name: &[u8],
        outcome: Outcome,
        warning: Option<Warning>,
        out: &mut W,
        err: &mut E,
    ) -> Result<(), Kind>
        requires works { W.failures out.old ≡ 0 }
        requires hears { self.old.tells ≡ true → E.failures err.old ≡ 0 }
        ensures entry { WritesEntry W.contents E.contents E.failures E.stalled out.old out.new
            err.old err.new self.old self.new result name.now outcome warning }
        ensures sink { LeavesSink W.failures W.stalled out.old out.new result }
        ensures style { self.new.style ≡ self.old.style }
    {
        self.tells = tell_warning(self.tells, err, name, warning);
        self.put(name, outcome, out, err)
    }

    /// Reports why the run ends early, if standard error takes it, and returns the status of that.
    pub(crate) fn break_off<E: Sink>(&self, err: &mut E, kind: Kind) -> u8
        requires hears { self.now.tells ≡ true → E.failures err.old ≡ 0 }
        ensures reported { self.now.tells ≡ true
            → Reports (sink_run E.contents E.failures E.stalled err.old err.new)
            (fault_line (refusal_of (fault_of kind))) }
        ensures silent { self.now.tells ≡ false → err.new ≡ err.old }
        ensures status { result ≡ status_of kind }
    {
        break_off(self.tells, err, kind)
    }
}
