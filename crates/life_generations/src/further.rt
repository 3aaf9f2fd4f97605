//! The pattern of a file, so many generations further.

ghost use Rattle.std.specs.Prelude.{◌≡◌, ◌+◌, ◌^◌, ◌<◌, ◌≤◌, IfOk, IfErr, OnOk};
ghost use Rattle.life_generations.specs.Words.{fault_of, ForEachFile, IsOfFile, IsTextLater, Keeps, LaterRefusal, RefusesFile, RefusesPattern};

use life_base::{Fault, Kind, MAX_LEVEL, Rule};
use life_later::later_in_stages;
use life_pattern::Pattern;
use life_pattern::laws::{files_are_on_plane, patterns_fit};
use life_quad::Shared;
use life_reader::read;
use life_step::text_of_square;
use std::alloc::Global;

/// The generation so many after this one, unless a file can't name it.
fn later_generation(generation: u64, generations: u64) -> Result<u64, Fault>
    ensures after { IfOk result (λ after. after ≡ generation + generations) }
    ensures named { OnOk result (generation + generations < 2 ^ 64) }
    ensures unnamed { IfErr result (λ fault. (2 ^ 64 ≤ generation + generations)
        × (fault ≡ fault_of Kind.GenerationTooLarge)) }
{
    match generation.checked_add(generations) {
        Some(after) => Ok(after),
        None => Err(Fault::of(Kind::GenerationTooLarge)),
    }
}

/// The canonical text of a pattern that was read into the store, so many generations later under its B/S rule.
///
/// # Errors
///
/// Those of `step_later`, but for the file's fault. After a fault too each Id of the store names the square that it named.
pub fn later_by_rule(
    alloc: Global,
    store: &mut Shared,
    pattern: Pattern,
    generations: u64,
) -> Result<Vec<u8>, Fault>
    requires { IsOfFile MAX_LEVEL store.old pattern }
    ensures later { IfOk result (λ text. ForEachFile store.old pattern
        (λ bytes. IsTextLater generations bytes text.items)) }
    ensures refused { IfErr result
        (RefusesPattern (LaterRefusal generations) pattern store.old store.new) }
    ensures keeps { Keeps store.old store.new }
{
    files_are_on_plane();
    patterns_fit();
    if generations == 0 {
        return text_of_square(alloc, store, pattern.rule, pattern.generation, pattern.root);
    }
    let Rule::Life(rule) = &pattern.rule else {
        return Err(Fault::of(Kind::NeedsTable));
    };
    let generation = later_generation(pattern.generation, generations)?;
    let square = later_in_stages(alloc, store, rule, pattern.root, generations)?;
    text_of_square(alloc, store, pattern.rule, generation, square)
}

/// The canonical text of the pattern of a file, so many generations later under its B/S rule: for 0 that of the file itself, whatever its rule is.
///
/// # Errors
///
/// The place and the kind of the file's fault; then, unless the number of generations is 0, `NeedsTable` for a rule that is a name; `GenerationTooLarge` for a
/// generation above 2^64 - 1; and `OutOfPlane` where in one of the generations after the file's, up to the last one, a cell outside the plane isn't 0. `Full`
/// where the store holds its limit, and `Memory`. All but the file's fault name no line. There is no limit on the number of cells. After a fault too each Id
/// of the store names the square that it named, and nothing stored is gone.
pub fn step_later(
    alloc: Global,
    store: &mut Shared,
    bytes: &[u8],
    generations: u64,
) -> Result<Vec<u8>, Fault>
    ensures later { IfOk result (λ text. IsTextLater generations bytes.now text.items) }
    ensures refused { IfErr result (RefusesFile (LaterRefusal generations) bytes.now store.new) }
    ensures keeps { Keeps store.old store.new }
{
    let pattern = read(alloc, store, bytes)?;
    later_by_rule(alloc, store, pattern, generations)
}

#[cfg(test)]
mod tests;
