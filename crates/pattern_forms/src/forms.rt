//! A pattern in one of its forms.

ghost use Rattle.std.specs.Prelude.{◌≡◌, ◌↔◌, IfOk, IfErr, OnOk, Ok, Err, IsTrue};
ghost use Rattle.pattern_forms.specs.Words.{OrMemory, fault_of, Full, OutOfPlane, IsOfFile, IsTrimmed, ForEachFile, universe_in, HasLargeForm, IsMovedText, IsTextWithin, FileLacksForm, most_of_form, AreSameIn, OneFileLacksForm, IsFirstToLack, of_two, ForEachTwoFiles, RefusesFormFor};

use life_base::{Fault, Form, MAX_LEVEL};
use life_forms::{are_shifts, are_turns, moved_of, turned_text};
use life_pattern::laws::{files_are_on_plane, files_are_unique, patterns_fit, patterns_tell_files};
use life_pattern::{Pattern, are_same};
use life_phase_forms::{FaultOfTwo, are_phases, phases_text};
use life_quad::Shared;
use life_writer::text_of;
use std::alloc::Global;

/// The canonical text of a pattern's moved form.
fn moved_text(alloc: Global, store: &Shared, pattern: &Pattern) -> Result<Vec<u8>, Fault>
    requires { IsTrimmed store.now pattern.now }
    ensures text { IfOk result
        (λ text. IsMovedText MAX_LEVEL (universe_in store.now pattern.now) text.items) }
    ensures small { OnOk result (¬ HasLargeForm store.now pattern.now) }
    ensures fault { IfErr result (λ fault. OrMemory fault
        ((fault ≡ fault_of Full) × HasLargeForm store.now pattern.now)) }
{
    let (form, moved) = moved_of(alloc, store, pattern)?;
    text_of(alloc, &form, &moved)
}

/// The canonical text of a file's pattern in a form.
///
/// # Errors
///
/// `Full` where the form has more different squares than `life_forms::MOST_SQUARES`, or than the pattern's store may hold; if it is `Turned`, where the moved form
/// of one of the eight images has more. The pattern in its place is never refused so. For `Phases`, those of `life_phase_forms::phases_text`: `OutOfPlane` where the
/// pattern leaves the plane before its period is found, and `Full` where a phase has too large a form or a store of the call is full. And `Memory`.
pub fn text_in(
    alloc: Global,
    store: &Shared,
    form: Form,
    pattern: &Pattern,
) -> Result<Vec<u8>, Fault>
    requires { IsOfFile MAX_LEVEL store.now pattern.now }
    ensures text { IfOk result (λ text. ForEachFile store.now pattern.now
        (λ bytes. IsTextWithin form MAX_LEVEL (most_of_form store.now) bytes text.items)) }
    ensures fault { IfErr result (λ fault. OrMemory fault (ForEachFile store.now pattern.now
        (λ bytes. RefusesFormFor form
        (FileLacksForm form MAX_LEVEL (most_of_form store.now) bytes) fault))) }
{
    patterns_fit();
    match form {
        Form::Placed => text_of(alloc, store, pattern),
        Form::Moved => moved_text(alloc, store, pattern),
        Form::Turned => turned_text(alloc, store, pattern),
        Form::Phases(most) => phases_text(alloc, store, pattern, most),
    }
}

/// Gives the answer or the fault of a comparison the type of `are_phases`. Which pattern the fault is of isn't known, so it doesn't name the second.
fn as_of_two(answer: Result<bool, Fault>) -> Result<bool, FaultOfTwo>
    ensures answer { IfOk answer (λ is_same. result ≡ Ok is_same) }
    ensures fault { IfErr answer (λ fault. result ≡ Err (of_two fault)) }
{
    match answer {
        Ok(is_same) => Ok(is_same),
        Err(fault) => Err(FaultOfTwo {
            fault,
            of_second: false,
        }),
    }
}

/// Whether the patterns of two files, read into one store, are one in a form.
///
/// # Errors
///
/// Those of `text_in`, for the first pattern and then for the second. Turned, patterns of two generations are never refused for their forms. Of an `OutOfPlane`
/// it is said whether the first pattern leaves the plane, or only the second.
pub fn compare_in(
    alloc: Global,
    store: &Shared,
    form: Form,
    a: &Pattern,
    b: &Pattern,
) -> Result<bool, FaultOfTwo>
    requires a { IsOfFile MAX_LEVEL store.now a.now }
    requires b { IsOfFile MAX_LEVEL store.now b.now }
    ensures answer { IfOk result (λ answer. ForEachTwoFiles store.now a.now b.now
        (λ first second. IsTrue answer ↔ AreSameIn form MAX_LEVEL first second)) }
    ensures have { OnOk result (ForEachTwoFiles store.now a.now b.now (λ first second.
        ¬ OneFileLacksForm form MAX_LEVEL (most_of_form store.now) first second)) }
    ensures fault { IfErr result (λ it. OrMemory it.fault (ForEachTwoFiles store.now a.now b.now
        (λ first second. RefusesFormFor form
        (OneFileLacksForm form MAX_LEVEL (most_of_form store.now) first second) it.fault))) }
    ensures whose { IfErr result (λ it. it.fault ≡ fault_of OutOfPlane
        → ForEachTwoFiles store.now a.now b.now (λ first second.
        IsFirstToLack form MAX_LEVEL (most_of_form store.now) it.of_second first second)) }
{
    patterns_fit();
    patterns_tell_files();
    files_are_unique();
    files_are_on_plane();
    match form {
        Form::Placed => Ok(are_same(a, b)),
        Form::Moved => as_of_two(are_shifts(alloc, store, a, b)),
        Form::Turned => as_of_two(are_turns(alloc, store, a, b)),
        Form::Phases(most) => are_phases(alloc, store, a, b, most),
    }
}

/// Compares two patterns as `compare_in` does, for a caller who needn't know which of the two a fault is of.
///
/// # Errors
///
/// Those of `compare_in`.
pub fn same_in(
    alloc: Global,
    store: &Shared,
    form: Form,
    a: &Pattern,
    b: &Pattern,
) -> Result<bool, Fault>
    requires a { IsOfFile MAX_LEVEL store.now a.now }
    requires b { IsOfFile MAX_LEVEL store.now b.now }
    ensures answer { IfOk result (λ answer. ForEachTwoFiles store.now a.now b.now
        (λ first second. IsTrue answer ↔ AreSameIn form MAX_LEVEL first second)) }
    ensures have { OnOk result (ForEachTwoFiles store.now a.now b.now (λ first second.
        ¬ OneFileLacksForm form MAX_LEVEL (most_of_form store.now) first second)) }
    ensures fault { IfErr result (λ fault. OrMemory fault (ForEachTwoFiles store.now a.now b.now
        (λ first second. RefusesFormFor form
        (OneFileLacksForm form MAX_LEVEL (most_of_form store.now) first second) fault))) }
{
    match compare_in(alloc, store, form, a, b) {
        Ok(is_same) => Ok(is_same),
        Err(refused) => Err(refused.fault),
    }
}
