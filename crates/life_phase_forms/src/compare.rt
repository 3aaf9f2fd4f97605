//! Two patterns, compared up to their phases.

ghost use Rattle.std.specs.Prelude.{◌≡◌, ◌↔◌, ◌⊎◌, IfOk, IfErr, OnOk, IsTrue};
ghost use Rattle.life_phase_forms.specs.Words.{FileLeavesUnderway, ForEachFile, IsOfFile, IsPhasesTextOf, RefusesOneOfTwo, RefusesPhases, SayOneCourse};

use crate::laws::phases_texts_tell_files;
use crate::texts::phases_text;
use life_base::{Fault, MAX_LEVEL};
use life_pattern::Pattern;
use life_pattern::laws::files_are_unique;
use life_quad::Shared;
use std::alloc::Global;

/// Why two patterns aren't compared.
#[derive(Clone, Copy, Drop)]
pub struct FaultOfTwo {
    pub fault: Fault,
    /// Whether the fault is that of the second pattern, and not that of the first.
    pub of_second: bool,
}

/// Whether two texts are the same.
fn are_equal(first: &[u8], second: &[u8]) -> bool
    ensures { IsTrue result ↔ (first.now ≡ second.now) }
{
    first == second
}

/// The text of one of two patterns.
fn text_of_one(
    alloc: Global,
    store: &Shared,
    pattern: &Pattern,
    most: u64,
    of_second: bool,
) -> Result<Vec<u8>, FaultOfTwo>
    requires { IsOfFile MAX_LEVEL store.now pattern.now }
    ensures text { IfOk result (λ text. ForEachFile store.now pattern.now
        (λ bytes. IsPhasesTextOf most bytes text.items)) }
    ensures refused { IfErr result (λ it. RefusesPhases most store.now pattern.now it.fault) }
    ensures whose { IfErr result (λ it. it.of_second ≡ of_second) }
{
    match phases_text(alloc, store, pattern, most) {
        Ok(text) => Ok(text),
        Err(fault) => Err(FaultOfTwo { fault, of_second }),
    }
}

/// Whether two patterns that were read into one store are the same but for their places, orientations and phases: whether they have one text with this
/// greatest period. Their generations are left out.
///
/// # Errors
///
/// Those of `phases_text`, for the first pattern and then for the second.
pub fn are_phases(
    alloc: Global,
    store: &Shared,
    a: &Pattern,
    b: &Pattern,
    most: u64,
) -> Result<bool, FaultOfTwo>
    requires a { IsOfFile MAX_LEVEL store.now a.now }
    requires b { IsOfFile MAX_LEVEL store.now b.now }
    ensures answer { IfOk result (λ answer. ForEachFile store.now a.now
        (λ first. ForEachFile store.now b.now
        (λ second. IsTrue answer ↔ SayOneCourse most first second))) }
    ensures stay { OnOk result (ForEachFile store.now a.now
        (λ first. ForEachFile store.now b.now
        (λ second. ¬ (FileLeavesUnderway most first ⊎ FileLeavesUnderway most second)))) }
    ensures refused { IfErr result
        (λ it. RefusesOneOfTwo most store.now a.now b.now it.of_second it.fault) }
{
    files_are_unique();
    phases_texts_tell_files();
    let first = text_of_one(alloc, store, a, most, false)?;
    let second = text_of_one(alloc, store, b, most, true)?;
    Ok(are_equal(&first, &second))
}
