//! The call that compares two files in a form.

ghost use Rattle.std.specs.Prelude.{◌≡◌, ◌↔◌, ◌⊎◌, ℕ, [], Err, IfOk, IfErr, OnOk, IsTrue, MatchOption};
ghost use Rattle.library_calls.specs.Words.{fault_of, MAX_LEVEL, Full, stored_squares, Accepted, Refuses, IsRead, IsShortageOf, IsFreshStore, AddsOnly, Fits, IsTooLowForBoth, NeedsMore, SomeToReadBoth, form_numbered, squares_of_form, AreSameIn, OneFileLacksForm, RefusesEitherInForm, ComparesInForm, ComparesInNone};

use crate::compared::Compared;
use crate::in_form::{NO_FORM, form_of};
use crate::options::Options;
use life_base::{Fault, Form};
use life_pattern::Pattern;
use life_pattern::laws::{patterns_stay, refusals_have_kinds};
use life_quad::Shared;
use life_reader::laws::{few_squares, limit_suffices};
use life_reader::read;
use pattern_forms::same_in;
use std::alloc::Global;

/// The patterns of two files, read into one store.
fn read_both(
    alloc: Global,
    store: &mut Shared,
    first: &[u8],
    second: &[u8],
) -> Result<(Pattern, Pattern), Fault>
    ensures one { IfOk result (λ both. IsRead MAX_LEVEL first.now store.new both.0) }
    ensures other { IfOk result (λ both. IsRead MAX_LEVEL second.now store.new both.1) }
    ensures fault { IfErr result (λ fault. Refuses MAX_LEVEL first.now fault
        ⊎ (Accepted MAX_LEVEL first.now × Refuses MAX_LEVEL second.now fault)
        ⊎ IsShortageOf store.new fault) }
    ensures fits { OnOk result
        (¬ NeedsMore (SomeToReadBoth first.now second.now) store.new.limit) }
    ensures needed { result ≡ Err (fault_of Full) → stored_squares store.old ≡ []
        → IsTooLowForBoth first.now second.now store.new.limit }
    ensures adds { AddsOnly stored_squares (SomeToReadBoth first.now second.now) store.old
        store.new }
    ensures limit { store.new.limit ≡ store.old.limit }
{
    patterns_stay();
    refusals_have_kinds();
    few_squares();
    limit_suffices();
    let found = read(alloc, store, first);
    // Its contract says that a store holds each square once, and none that is blank. The proof counts them.
    let _ = store.len();
    let a = found?;
    let found = read(alloc, store, second);
    // As above.
    let _ = store.len();
    let b = found?;
    Ok((a, b))
}

/// Whether two files are one pattern in a form.
fn are_one(
    alloc: Global,
    store: &mut Shared,
    first: &[u8],
    second: &[u8],
    form: Form,
) -> Result<bool, Fault>
    ensures accepted { OnOk result (Accepted MAX_LEVEL first.now × Accepted MAX_LEVEL second.now) }
    ensures answer { IfOk result
        (λ answer. IsTrue answer ↔ AreSameIn form MAX_LEVEL first.now second.now) }
    ensures small { OnOk result ((limit : ℕ) → IsFreshStore limit store.old
        → ¬ OneFileLacksForm form MAX_LEVEL (squares_of_form limit) first.now second.now) }
    ensures fits { OnOk result ((limit : ℕ) → IsFreshStore limit store.old
        → Fits (SomeToReadBoth first.now second.now) limit) }
    ensures fault { IfErr result (λ fault. (limit : ℕ) → IsFreshStore limit store.old
        → RefusesEitherInForm form limit first.now second.now fault) }
{
    let (a, b) = read_both(alloc, store, first, second)?;
    same_in(alloc, store, form, &a, &b)
}

/// Whether two files, each of either format, are one pattern in the form.
pub(crate) fn compare(
    alloc: Global,
    first: &[u8],
    second: &[u8],
    form: Form,
    options: Options,
) -> Compared
    ensures compares { ComparesInForm form options.limit first.now second.now result }
    ensures fits { result.status ≡ 0
        → Fits (SomeToReadBoth first.now second.now) options.limit }
{
    let mut store = options.new_store(alloc);
    match are_one(alloc, &mut store, first, second, form) {
        Ok(answer) => Compared::of(answer),
        Err(fault) => Compared::refused(&fault),
    }
}

/// Whether two files, each of either format, are one pattern in the form with this number.
pub fn same_form(
    alloc: Global,
    first: &[u8],
    second: &[u8],
    form: u32,
    options: Options,
) -> Compared
    ensures compares { MatchOption (form_numbered form) (ComparesInNone result)
        (λ form. ComparesInForm form options.limit first.now second.now result) }
    ensures fits { result.status ≡ 0
        → Fits (SomeToReadBoth first.now second.now) options.limit }
{
    let Some(form) = form_of(form) else {
        return Compared {
            status: NO_FORM,
            is_same: 0,
            line: 0,
        };
    };
    compare(alloc, first, second, form, options)
}
