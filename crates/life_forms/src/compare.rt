//! Two patterns, compared in a form.

ghost use Rattle.std.specs.Prelude.{◌≡◌, ◌↔◌, ◌⊎◌, IfOk, IfErr, OnOk, IsTrue};
ghost use Rattle.life_forms.specs.Words.{OrMemory, fault_of, IsRule, Full, IsTrimmed, universe_in, IsShift, IsTurnedShift, HasLargeForm, HasLargeImage};

use crate::images::turned_text;
use crate::patterns::{WITHOUT_LIMIT, brought, moved_of};
use life_base::Fault;
use life_pattern::{Pattern, are_same};
use life_quad::{Shared, SharedSquares};
use life_writer::laws::texts_tell_universes;
use std::alloc::Global;

/// Whether two patterns of one store have one rule and one generation, and a shift takes the cells of the one to those of the other: whether
/// their moved forms are the same.
///
/// # Errors
///
/// Those of `moved_of`, for the first pattern and then for the second.
pub fn are_shifts(alloc: Global, store: &Shared, a: &Pattern, b: &Pattern) -> Result<bool, Fault>
    requires a { IsTrimmed store.now a.now }
    requires b { IsTrimmed store.now b.now }
    ensures answer { IfOk result (λ answer. IsTrue answer ↔ IsShift (universe_in store.now a.now)
        (universe_in store.now b.now)) }
    ensures small { OnOk result
        (¬ HasLargeForm store.now a.now × ¬ HasLargeForm store.now b.now) }
    ensures fault { IfErr result (λ fault. OrMemory fault ((fault ≡ fault_of Full)
        × (HasLargeForm store.now a.now ⊎ HasLargeForm store.now b.now))) }
{
    let (one, first) = moved_of(alloc, store, a)?;
    let (other, second) = moved_of(alloc, store, b)?;
    let mut both = Shared::seeded(alloc, store.seed(), WITHOUT_LIMIT);
    let first = brought(alloc, &one, &mut both, first)?;
    let second = brought(alloc, &other, &mut both, second)?;
    Ok(are_same(&first, &second))
}

/// Whether two texts are the same.
fn are_equal(first: &[u8], second: &[u8]) -> bool
    ensures { IsTrue result ↔ (first.now ≡ second.now) }
{
    first == second
}

/// Whether two patterns of one store have one rule and one generation, and one of the eight turns and reflections followed by a shift takes the cells of
/// the one to those of the other: whether their turned forms have one text.
///
/// # Errors
///
/// Those of `turned_text`, for the first pattern and then for the second, if their generations are one. Patterns of two generations are never refused
/// for their forms.
pub fn are_turns(alloc: Global, store: &Shared, a: &Pattern, b: &Pattern) -> Result<bool, Fault>
    requires a { IsTrimmed store.now a.now }
    requires b { IsTrimmed store.now b.now }
    requires a_rule { IsRule a.now.rule }
    requires b_rule { IsRule b.now.rule }
    ensures answer { IfOk result (λ answer. IsTrue answer ↔ IsTurnedShift
        (universe_in store.now a.now) (universe_in store.now b.now)) }
    ensures small { OnOk result (a.now.generation ≡ b.now.generation
        → ¬ HasLargeImage store.now a.now × ¬ HasLargeImage store.now b.now) }
    ensures fault { IfErr result (λ fault. OrMemory fault ((fault ≡ fault_of Full)
        × (a.now.generation ≡ b.now.generation)
        × (HasLargeImage store.now a.now ⊎ HasLargeImage store.now b.now))) }
{
    if a.generation != b.generation {
        return Ok(false);
    }
    texts_tell_universes();
    let first = turned_text(alloc, store, a)?;
    let second = turned_text(alloc, store, b)?;
    Ok(are_equal(&first, &second))
}
