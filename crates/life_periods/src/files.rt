//! The period of the pattern of a file.
ghost use Rattle.std.specs.Prelude.{◌≡◌, IfOk, IfErr};
ghost use Rattle.life_periods.specs.Words.{ForEachFile, IsOfFile, IsPeriodOfFile, IsShownWithPeriod, Keeps, RefusesPeriod, RefusesPeriodOfFile};

use crate::line::append_period;
use life_base::{Fault, Kind, MAX_LEVEL, Rule};
use life_pattern::Pattern;
use life_pattern::laws::{files_are_on_plane, patterns_fit};
use life_phases::{Period, period_of};
use life_quad::Shared;
use life_reader::read;
use life_writer::five_lines_of;
use std::alloc::Global;

/// The least period, up to `most` generations, of a pattern that was read into the store, as `period_of` of `life_phases` returns it. The store isn't changed.
///
/// # Errors
///
/// `NeedsTable` for a rule that is a name. `OutOfPlane` where the pattern, moved to the middle of the plane, leaves the plane in one of these generations,
/// before a period is found. `Full` where one of the call's own stores reaches the limit of the given one, and `Memory`.
pub fn period_of_pattern(
    alloc: Global,
    store: &Shared,
    pattern: &Pattern,
    most: u64,
) -> Result<Option<Period>, Fault>
    requires { IsOfFile MAX_LEVEL store.now pattern.now }
    ensures period { IfOk result (λ answer. ForEachFile store.now pattern.now
        (λ bytes. IsPeriodOfFile most bytes answer)) }
    ensures refused { IfErr result (RefusesPeriod most store.now pattern.now) }
{
    files_are_on_plane();
    patterns_fit();
    let Rule::Life(rule) = &pattern.rule else {
        return Err(Fault::of(Kind::NeedsTable));
    };
    period_of(alloc, store, rule, pattern.root, most)
}

/// The least period, up to `most` generations, of the pattern of a file.
///
/// # Errors
///
/// The place and the kind of the file's fault, and then those of `period_of_pattern`. `Full` where the store holds its limit too. All but the file's fault
/// name no line. After a fault too each Id of the store names the square that it named.
pub fn period_of_file(
    alloc: Global,
    store: &mut Shared,
    bytes: &[u8],
    most: u64,
) -> Result<Option<Period>, Fault>
    ensures period { IfOk result (IsPeriodOfFile most bytes.now) }
    ensures refused { IfErr result (RefusesPeriodOfFile most bytes.now) }
    ensures keeps { Keeps store.old store.new }
{
    let pattern = read(alloc, store, bytes)?;
    period_of_pattern(alloc, &*store, &pattern, most)
}

/// The five lines of a pattern that was read into the store, as `show` writes them for its file, and the line of its period up to `most` generations.
///
/// # Errors
///
/// Those of `period_of_pattern`.
pub fn show_with_period(
    alloc: Global,
    store: &Shared,
    pattern: &Pattern,
    most: u64,
) -> Result<Vec<u8>, Fault>
    requires { IsOfFile MAX_LEVEL store.now pattern.now }
    ensures text { IfOk result (λ text. ForEachFile store.now pattern.now
        (λ bytes. IsShownWithPeriod most bytes text.items)) }
    ensures refused { IfErr result (RefusesPeriod most store.now pattern.now) }
{
    let mut text = five_lines_of(alloc, store, pattern)?;
    let found = period_of_pattern(alloc, store, pattern, most)?;
    append_period(&mut text, found, most)?;
    Ok(text)
}
