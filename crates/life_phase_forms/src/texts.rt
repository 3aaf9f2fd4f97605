//! The text of a pattern for all its places, orientations and phases.

ghost use Rattle.std.specs.Prelude.{◌≡◌, ℤ, ◌<◌, ◌≤◌, IfOk, IfErr};
ghost use Rattle.life_phase_forms.specs.Words.{after, content, depth, ForEachFile, IsKnownInShared, IsLeastOfPhases, IsLeastPeriod, IsLesserText, IsOfFile, IsPhasesTextOf, IsTrimmed, IsTurnedText, IsMemoryOrFull, LeavesFromMiddle, LeavesWithin, RefusesPhases, square_universe, tree_cell};

use life_base::{Fault, LifeRule, MAX_LEVEL, Rule};
use life_forms::turned_text;
use life_pattern::Pattern;
use life_pattern::laws::{files_are_on_plane, patterns_fit, squares_are_centred};
use life_phases::{Period, in_middle, next_phase, period_of, way_to_middle};
use life_quad::{Id, Shared, SharedSquares, bounds};
use std::alloc::Global;

/// The lesser of two texts, byte by byte.
fn lesser(first: Vec<u8>, second: Vec<u8>) -> Vec<u8>
    ensures { IsLesserText first.items second.items result.items }
{
    if second.as_slice().cmp(first.as_slice()).is_lt() {
        second
    } else {
        first
    }
}

/// The canonical text of the turned form of a square's cells, in generation 0.
fn turned_text_of(alloc: Global, store: &Shared, rule: Rule, root: Id) -> Result<Vec<u8>, Fault>
    requires { IsTrimmed store.now (record { rule = rule; generation = 0; root = root }) }
    ensures text { IfOk result (λ text. IsTurnedText MAX_LEVEL
        (square_universe rule 0 (content store.now root)) text.items) }
    ensures refused { IfErr result IsMemoryOrFull }
{
    let pattern = Pattern {
        rule,
        generation: 0,
        root,
    };
    turned_text(alloc, store, &pattern)
}

/// The square of the next phase as the root of a pattern, which is trimmed.
fn next_root(alloc: Global, course: &mut Shared, rule: &LifeRule, now: Id) -> Result<Id, Fault>
    requires known { IsKnownInShared course.old now }
    requires low { 3 ≤ depth (content course.old now) }
    requires states { (x y : ℤ) → tree_cell (content course.old now) x y < 2 }
    requires stays { ¬ (LeavesWithin rule.now 1 (tree_cell (content course.old now))) }
    ensures trimmed { IfOk result (λ next. IsTrimmed course.new
        (record { rule = Rule.Life rule.now; generation = 0; root = next })) }
    ensures later { IfOk result (λ next. (x y : ℤ) → tree_cell (content course.new next) x y
        ≡ after rule.now 1 (tree_cell (content course.old now)) x y) }
    ensures refused { IfErr result IsMemoryOrFull }
{
    squares_are_centred();
    let next = next_phase(alloc, course, rule, now)?;
    Ok(next)
}

/// The least of the texts of a square's first `count` phases, of which `first` is that of the square itself.
fn least_text(
    alloc: Global,
    course: &mut Shared,
    rule: &LifeRule,
    start: Id,
    count: u64,
    first: Vec<u8>,
) -> Result<Vec<u8>, Fault>
    requires some { 1 ≤ count }
    requires trimmed { IsTrimmed course.old
        (record { rule = Rule.Life rule.now; generation = 0; root = start }) }
    requires stays { ¬ (LeavesWithin rule.now count (tree_cell (content course.old start))) }
    requires first { IsTurnedText MAX_LEVEL
        (square_universe (Rule.Life rule.now) 0 (content course.old start)) first.items }
    ensures text { IfOk result (λ text. IsLeastOfPhases MAX_LEVEL rule.now count
        (square_universe (Rule.Life rule.now) 0 (content course.old start)) text.items) }
    ensures refused { IfErr result IsMemoryOrFull }
{
    let mut now = start;
    let mut best = first;
    let mut done = 0;
    while done + 1 < count {
        now = next_root(alloc, course, rule, now)?;
        let text = turned_text_of(alloc, &*course, Rule::Life(*rule), now)?;
        best = lesser(best, text);
        done += 1;
    }
    Ok(best)
}

/// The least of the texts of a square's phases, wherever it is: the phases begin in the middle of the plane. `first` is the text of the square itself.
fn least_text_of(
    alloc: Global,
    store: &Shared,
    rule: &LifeRule,
    root: Id,
    period: &Period,
    first: Vec<u8>,
) -> Result<Vec<u8>, Fault>
    requires known { IsKnownInShared store.now root }
    requires low { 3 ≤ depth (content store.now root) }
    requires states { (x y : ℤ) → tree_cell (content store.now root) x y < 2 }
    requires period { IsLeastPeriod rule.now (tree_cell (content store.now root)) period.now }
    requires stays { ¬ (LeavesFromMiddle rule.now period.now.generations
        (tree_cell (content store.now root))) }
    requires first { IsTurnedText MAX_LEVEL
        (square_universe (Rule.Life rule.now) 0 (content store.now root)) first.items }
    ensures text { IfOk result (λ text. IsLeastOfPhases MAX_LEVEL rule.now period.now.generations
        (square_universe (Rule.Life rule.now) 0 (content store.now root)) text.items) }
    ensures refused { IfErr result IsMemoryOrFull }
{
    squares_are_centred();
    // Reading a field gives its invariant to the proof: no cell is born without live neighbours.
    let _ = &rule.births;
    let Some(found) = bounds(alloc, store, root)? else {
        return Ok(first);
    };
    let way = way_to_middle(&found);
    let mut course = Shared::seeded(alloc, store.seed(), store.limit());
    let start = in_middle(alloc, store, &mut course, root, &found, way)?;
    least_text(alloc, &mut course, rule, start, period.generations, first)
}

/// The text of a pattern that was read into the store, for all its places, orientations and phases. If the pattern has a period up to `most` generations
/// under its B/S rule, it is the least text of the phases of one period, each in the turned form (`turned_text` of `life_forms`) and in generation 0, byte by
/// byte. Otherwise, and under a rule that is a name, it is the text of the turned form of the pattern in generation 0.
///
/// Two patterns have one text exactly if a turn followed by a shift takes the one to the other or to a phase of it (`laws::phases_texts_tell_files`).
///
/// # Errors
///
/// `OutOfPlane` where the pattern, moved to the middle of the plane, leaves the plane in one of these generations, before a period is found. `Full` where the
/// moved form of an image of a phase has more different squares than a form may have, or one of the call's own stores reaches the limit of the given one.
/// `Memory`. They name no line, and the store isn't changed.
pub fn phases_text(
    alloc: Global,
    store: &Shared,
    pattern: &Pattern,
    most: u64,
) -> Result<Vec<u8>, Fault>
    requires { IsOfFile MAX_LEVEL store.now pattern.now }
    ensures text { IfOk result (λ text. ForEachFile store.now pattern.now
        (λ bytes. IsPhasesTextOf most bytes text.items)) }
    ensures refused { IfErr result (RefusesPhases most store.now pattern.now) }
{
    files_are_on_plane();
    patterns_fit();
    let copy = pattern.rule.copy(alloc)?;
    let first = turned_text_of(alloc, store, copy, pattern.root)?;
    let Rule::Life(rule) = &pattern.rule else {
        return Ok(first);
    };
    let found = period_of(alloc, store, rule, pattern.root, most)?;
    let Some(period) = found else {
        return Ok(first);
    };
    least_text_of(alloc, store, rule, pattern.root, &period, first)
}

#[cfg(test)]
mod tests;
