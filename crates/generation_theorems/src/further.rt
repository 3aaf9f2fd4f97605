//! A file so many generations further.

ghost use Rattle.std.specs.Prelude.{◌≡◌, ◌⊎◌, Err, IfOk, IfErr, IsTrue};
ghost use Rattle.generation_theorems.specs.Words.{IsClaimedTextLater, IsNotAdvanced, IsShortage, pattern_of};

use life_base::Fault;
use life_canon::canon;
use life_generations::laws::{
    later_texts_are_unique, no_generation_is_canonical, one_generation_is_step,
};
use life_generations::step_later;
use life_pattern::laws::{files_are_on_plane, files_are_unique};
use life_step::step_life;
use std::alloc::Global;
use theorems::{StoreOptions, are_equal};

/// The text of a file so many generations later under its B/S rule has the same rule and as many generations more, and each
/// cell has the state that the rule gives it, generation by generation, by its neighbours.
///
/// # Errors
///
/// The fault of the file; a full store or no more memory; or the first reason, in their order, why its pattern isn't taken so
/// many generations further: `NeedsTable`, `GenerationTooLarge`, `OutOfPlane`.
pub fn later_generation(
    alloc: Global,
    file: &[u8],
    generations: u64,
    space: StoreOptions,
) -> Result<Vec<u8>, Fault>
    ensures later { IfOk result (λ text. IsClaimedTextLater generations file.now text.items) }
    ensures refused { IfErr result (λ fault. (pattern_of file.now ≡ Err fault)
        ⊎ (IsShortage fault ⊎ IsNotAdvanced generations file.now fault)) }
{
    files_are_on_plane();
    step_later(alloc, &mut space.new_store(alloc), file, generations)
}

/// The text of a file so many generations later is its own canonical text.
pub fn later_text_is_fixed(
    alloc: Global,
    file: &[u8],
    generations: u64,
    one: StoreOptions,
    other: StoreOptions,
) -> Result<bool, Fault>
    ensures { IfOk result (λ equal. IsTrue equal) }
{
    files_are_unique();
    let text = step_later(alloc, &mut one.new_store(alloc), file, generations)?;
    let again = canon(alloc, &mut other.new_store(alloc), &text)?;
    Ok(are_equal(&text, &again))
}

/// No generation later a file has its canonical text.
pub fn no_generation_is_canonical_text(
    alloc: Global,
    file: &[u8],
    one: StoreOptions,
    other: StoreOptions,
) -> Result<bool, Fault>
    ensures { IfOk result (λ equal. IsTrue equal) }
{
    files_are_unique();
    no_generation_is_canonical();
    let text = step_later(alloc, &mut one.new_store(alloc), file, 0)?;
    let canonical = canon(alloc, &mut other.new_store(alloc), file)?;
    Ok(are_equal(&text, &canonical))
}

/// One generation later a file has the text of its next generation, wherever `step_life` has one.
pub fn one_generation_is_next(
    alloc: Global,
    file: &[u8],
    one: StoreOptions,
    other: StoreOptions,
) -> Result<bool, Fault>
    ensures { IfOk result (λ equal. IsTrue equal) }
{
    later_texts_are_unique();
    one_generation_is_step();
    let text = step_later(alloc, &mut one.new_store(alloc), file, 1)?;
    let next = step_life(alloc, &mut other.new_store(alloc), file)?;
    Ok(are_equal(&text, &next))
}
