//! The leaps that lead to a later generation: `later` makes one leap after another, each as long as the pattern's distance to the edge of the plane allows.
ghost use Rattle.std.specs.Prelude.{◌≡◌, ℤ, ◌+◌, ◌^◌, ◌<◌, ◌≤◌, IfOk, IfErr};
ghost use Rattle.life_later.specs.Words.{after, depth, IsCourseFault, LeavesWithin, tree_cell, KeepsStore, IsBoundingBoxOfTree, IsBoxOnPlane, IsPlaneMargin, RemembersLeaps, value_of_id};

use life_base::{Bounds, Fault, LifeRule, MAX_LEVEL};
use life_leap::{FASTEST, leap_on_plane, next_on_plane};
use life_quad::laws::{trimming_keeps_cells, trimming_stops};
use life_quad::{Id, IdMap, SharedSquares, Squares, bounds, trim};
use std::alloc::Global;

/// The least level to which the square of a generation is trimmed. A leap requires this level or more.
const LEAST_LEVEL: u8 = 3;

/// Half of the side of the plane: its coordinates go from -HALF_PLANE to HALF_PLANE - 1.
const HALF_PLANE: i64 = 1 << (MAX_LEVEL - 1);

/// The distance of a box on the plane to the nearest edge of the plane, in cells: a box at the edge has distance 0.
fn margin_of(bounds: &Bounds) -> u64
    requires { IsBoxOnPlane bounds.now }
    ensures { IsPlaneMargin bounds.now result }
{
    let west = (bounds.left + HALF_PLANE) as u64;
    let north = (bounds.top + HALF_PLANE) as u64;
    let east = (HALF_PLANE - 1 - bounds.right) as u64;
    let south = (HALF_PLANE - 1 - bounds.bottom) as u64;
    west.min(north).min(east).min(south)
}

/// The greatest pace up to this one at which a leap is at most so many generations long.
fn pace_within(pace: u8, generations: u64) -> u8
    requires some { 1 ≤ generations }
    requires pace { pace ≤ FASTEST }
    ensures fits { 2 ^ result ≤ generations }
    ensures pace { result ≤ FASTEST }
{
    if pace == 0 || (1u64 << pace) <= generations {
        return pace;
    }
    pace_within(pace - 1, generations)
}

/// The greatest pace up to this one at which a whole number of leaps makes so many generations.
fn slowest(pace: u8, generations: u64) -> u8
    requires { pace ≤ FASTEST }
    ensures { result ≤ pace }
{
    let mut slow = 0;
    while slow < pace && (generations >> slow) % 2 == 0 {
        slow += 1;
    }
    slow
}

/// The pace of the next leap. Short leaps come first, because a leap visits the whole pattern and most patterns are small at first.
fn pace_for(margin: u64, left: u64) -> u8
    requires margin { 1 ≤ margin }
    requires some { 1 ≤ left }
    ensures margin { 2 ^ result ≤ margin }
    ensures fits { 2 ^ result ≤ left }
    ensures pace { result ≤ FASTEST }
{
    slowest(pace_within(FASTEST, margin.min(left)), left)
}

/// One leap: the number of its generations, and the square after it. Where the pattern is at the edge of the plane, it is a single generation.
fn leap<S: SharedSquares>(
    alloc: Global,
    squares: &mut S,
    memory: &mut IdMap<Option<Id>>,
    rule: &LifeRule,
    root: Id,
    bounding_box: &Bounds,
    left: u64,
) -> Result<(u64, Id), Fault>
    requires remembers { RemembersLeaps (S.knows squares.old) (S.content squares.old) rule.now
        FASTEST (value_of_id memory.old) }
    requires known { S.knows squares.old root }
    requires low { 3 ≤ depth (S.content squares.old root) }
    requires states { (x y : ℤ) → tree_cell (S.content squares.old root) x y < 2 }
    requires some { 1 ≤ left }
    requires inside { IsBoundingBoxOfTree (S.content squares.old root) bounding_box.now }
    ensures consumed { IfOk result (λ r. (1 ≤ r.0) × (r.0 ≤ left)) }
    ensures remembers { IfOk result
        (λ _. RemembersLeaps (S.knows squares.new)
        (S.content squares.new) rule.now FASTEST (value_of_id memory.new)) }
    ensures known { IfOk result (λ r. S.knows squares.new r.1) }
    ensures low { IfOk result (λ r. 3 ≤ depth (S.content squares.new r.1)) }
    ensures later { IfOk result (λ r. (x y : ℤ) → tree_cell (S.content squares.new r.1) x y
        ≡ after rule.now r.0 (tree_cell (S.content squares.old root)) x y) }
    ensures stays { IfOk result
        (λ r. ¬ (LeavesWithin rule.now r.0 (tree_cell (S.content squares.old root)))) }
    ensures keeps { KeepsStore S.Squares squares.old squares.new }
    ensures refusals { IfErr result (IsCourseFault rule.now left
        (tree_cell (S.content squares.old root)) (S.stored squares.new) (S.most squares.new)) }
{
    // Reading a field gives its invariant to the proof: no cell is born without live neighbours.
    let _ = &rule.births;
    let margin = margin_of(bounding_box);
    if margin == 0 {
        let next = next_on_plane(alloc, squares, rule, root)?;
        return Ok((1, next));
    }
    let pace = pace_for(margin, left);
    let next = leap_on_plane(alloc, squares, memory, rule, pace, root)?;
    Ok((1 << pace, next))
}

/// One leap, and the square after it without blank outer parts.
fn leap_trimmed<S: SharedSquares>(
    alloc: Global,
    squares: &mut S,
    memory: &mut IdMap<Option<Id>>,
    rule: &LifeRule,
    root: Id,
    bounding_box: &Bounds,
    left: u64,
) -> Result<(u64, Id), Fault>
    requires remembers { RemembersLeaps (S.knows squares.old) (S.content squares.old) rule.now
        FASTEST (value_of_id memory.old) }
    requires known { S.knows squares.old root }
    requires low { 3 ≤ depth (S.content squares.old root) }
    requires states { (x y : ℤ) → tree_cell (S.content squares.old root) x y < 2 }
    requires some { 1 ≤ left }
    requires inside { IsBoundingBoxOfTree (S.content squares.old root) bounding_box.now }
    ensures consumed { IfOk result (λ r. (1 ≤ r.0) × (r.0 ≤ left)) }
    ensures remembers { IfOk result
        (λ _. RemembersLeaps (S.knows squares.new)
        (S.content squares.new) rule.now FASTEST (value_of_id memory.new)) }
    ensures known { IfOk result (λ r. S.knows squares.new r.1) }
    ensures low { IfOk result (λ r. 3 ≤ depth (S.content squares.new r.1)) }
    ensures later { IfOk result (λ r. (x y : ℤ) → tree_cell (S.content squares.new r.1) x y
        ≡ after rule.now r.0 (tree_cell (S.content squares.old root)) x y) }
    ensures stays { IfOk result
        (λ r. ¬ (LeavesWithin rule.now r.0 (tree_cell (S.content squares.old root)))) }
    ensures keeps { KeepsStore S.Squares squares.old squares.new }
    ensures refusals { IfErr result (IsCourseFault rule.now left
        (tree_cell (S.content squares.old root)) (S.stored squares.new) (S.most squares.new)) }
{
    trimming_keeps_cells();
    trimming_stops();
    let (consumed, next) = leap(alloc, squares, memory, rule, root, bounding_box, left)?;
    let trimmed = trim(squares, next, LEAST_LEVEL)?;
    Ok((consumed, trimmed))
}

/// The next leap of a course, and the square after it without blank outer parts. A square without cells stays so for all generations that are left.
pub(crate) fn next_leap<S: SharedSquares>(
    alloc: Global,
    squares: &mut S,
    memory: &mut IdMap<Option<Id>>,
    rule: &LifeRule,
    root: Id,
    left: u64,
) -> Result<(u64, Id), Fault>
    requires remembers { RemembersLeaps (S.knows squares.old) (S.content squares.old) rule.now
        FASTEST (value_of_id memory.old) }
    requires known { S.knows squares.old root }
    requires low { 3 ≤ depth (S.content squares.old root) }
    requires states { (x y : ℤ) → tree_cell (S.content squares.old root) x y < 2 }
    requires some { 1 ≤ left }
    ensures consumed { IfOk result (λ r. (1 ≤ r.0) × (r.0 ≤ left)) }
    ensures remembers { IfOk result
        (λ _. RemembersLeaps (S.knows squares.new)
        (S.content squares.new) rule.now FASTEST (value_of_id memory.new)) }
    ensures known { IfOk result (λ r. S.knows squares.new r.1) }
    ensures low { IfOk result (λ r. 3 ≤ depth (S.content squares.new r.1)) }
    ensures later { IfOk result (λ r. (x y : ℤ) → tree_cell (S.content squares.new r.1) x y
        ≡ after rule.now r.0 (tree_cell (S.content squares.old root)) x y) }
    ensures stays { IfOk result
        (λ r. ¬ (LeavesWithin rule.now r.0 (tree_cell (S.content squares.old root)))) }
    ensures keeps { KeepsStore S.Squares squares.old squares.new }
    ensures refusals { IfErr result (IsCourseFault rule.now left
        (tree_cell (S.content squares.old root)) (S.stored squares.new) (S.most squares.new)) }
{
    // Reading a field gives its invariant to the proof: no cell is born without live neighbours.
    let _ = &rule.births;
    let Some(bounding_box) = bounds(alloc, &*squares, root)? else {
        return Ok((left, root));
    };
    leap_trimmed(alloc, squares, memory, rule, root, &bounding_box, left)
}

/// The cells of a square so many generations later, as a square around the same centre. With 0 generations, these are the same cells.
///
/// # Errors
///
/// `OutOfPlane` if a cell outside the plane isn't 0 in one of these generations, from the next one to the last. Otherwise there is an answer, unless
/// before that is known the store reaches its limit (`Full`) or memory runs out (`Memory`). After an error each Id still has its square.
pub fn later<S: SharedSquares>(
    alloc: Global,
    squares: &mut S,
    rule: &LifeRule,
    root: Id,
    generations: u64,
) -> Result<Id, Fault>
    requires known { S.knows squares.old root }
    requires low { 3 ≤ depth (S.content squares.old root) }
    requires states { (x y : ℤ) → tree_cell (S.content squares.old root) x y < 2 }
    ensures known { IfOk result (λ r. S.knows squares.new r) }
    ensures low { IfOk result (λ r. 3 ≤ depth (S.content squares.new r)) }
    ensures later { IfOk result (λ r. (x y : ℤ) → tree_cell (S.content squares.new r) x y
        ≡ after rule.now generations (tree_cell (S.content squares.old root)) x y) }
    ensures stays { IfOk result
        (λ _. ¬ (LeavesWithin rule.now generations (tree_cell (S.content squares.old root)))) }
    ensures keeps { KeepsStore S.Squares squares.old squares.new }
    ensures refusals { IfErr result (IsCourseFault rule.now generations
        (tree_cell (S.content squares.old root)) (S.stored squares.new) (S.most squares.new)) }
{
    let mut memory = IdMap::new(alloc, None);
    let mut left = generations;
    let mut now = root;
    while left > 0 {
        let (consumed, next) = next_leap(alloc, squares, &mut memory, rule, now, left)?;
        left -= consumed;
        now = next;
    }
    Ok(now)
}
