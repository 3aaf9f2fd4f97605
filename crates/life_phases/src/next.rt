//! The next phase of a pattern, in the store of its phases.
ghost use Rattle.std.specs.Prelude.{◌≡◌, ℤ, ◌<◌, ◌≤◌, IfOk, IfErr};
ghost use Rattle.life_phases.specs.Words.{after, content, depth, tree_cell, IsCourseFault, IsKnownInShared, KeepsShared, LeavesWithin, stored_squares, trimmed_square};

use crate::middle::LEAST_LEVEL;
use life_base::{Fault, LifeRule};
use life_block::next_life_square;
use life_later::later;
use life_quad::{Id, Shared, SharedSquares, Squares, trim};
use std::alloc::Global;

/// Up to this level a square is stepped leaf by leaf: at most 16,384 leaves in a generation, and those around them. Above it, a generation is a leap, which visits
/// equal squares once, however large they are.
const SMALL_LEVEL: u8 = 10;

/// The square of the next generation.
fn next_square(alloc: Global, course: &mut Shared, rule: &LifeRule, now: Id) -> Result<Id, Fault>
    requires known { IsKnownInShared course.old now }
    requires low { 3 ≤ depth (content course.old now) }
    requires states { (x y : ℤ) → tree_cell (content course.old now) x y < 2 }
    ensures known { IfOk result (IsKnownInShared course.new) }
    ensures low { IfOk result (λ next. 3 ≤ depth (content course.new next)) }
    ensures later { IfOk result (λ next. (x y : ℤ) → tree_cell (content course.new next) x y
        ≡ after rule.now 1 (tree_cell (content course.old now)) x y) }
    ensures stays { IfOk result
        (λ _. ¬ (LeavesWithin rule.now 1 (tree_cell (content course.old now)))) }
    ensures keeps { KeepsShared course.old course.new }
    ensures refusals { IfErr result (IsCourseFault rule.now 1
        (tree_cell (content course.old now)) (stored_squares course.new) course.new.limit) }
{
    if course.level(now) > SMALL_LEVEL {
        return later(alloc, course, rule, now, 1);
    }
    let next = next_life_square(alloc, course, rule, now)?;
    Ok(next)
}

/// The square of the next generation of a square's cells, without blank outer parts.
///
/// # Errors
///
/// `OutOfPlane` if a cell outside the plane isn't 0 in the next generation. Before that is known, `Full` if the store has reached its limit, and `Memory` if
/// memory ran out. After an error each Id still has its square.
pub fn next_phase(alloc: Global, course: &mut Shared, rule: &LifeRule, now: Id) -> Result<Id, Fault>
    requires known { IsKnownInShared course.old now }
    requires low { 3 ≤ depth (content course.old now) }
    requires states { (x y : ℤ) → tree_cell (content course.old now) x y < 2 }
    ensures known { IfOk result (IsKnownInShared course.new) }
    ensures low { IfOk result (λ next. 3 ≤ depth (content course.new next)) }
    ensures trimmed { IfOk result (λ next. trimmed_square (content course.new next) 3
        ≡ content course.new next) }
    ensures later { IfOk result (λ next. (x y : ℤ) → tree_cell (content course.new next) x y
        ≡ after rule.now 1 (tree_cell (content course.old now)) x y) }
    ensures stays { IfOk result
        (λ _. ¬ (LeavesWithin rule.now 1 (tree_cell (content course.old now)))) }
    ensures keeps { KeepsShared course.old course.new }
    ensures refusals { IfErr result (IsCourseFault rule.now 1
        (tree_cell (content course.old now)) (stored_squares course.new) course.new.limit) }
{
    let next = next_square(alloc, course, rule, now)?;
    let trimmed = trim(course, next, LEAST_LEVEL)?;
    Ok(trimmed)
}
