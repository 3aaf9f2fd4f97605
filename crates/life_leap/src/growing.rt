//! A leap on the plane. The square is grown first, so that no cell can leave it.
ghost use Rattle.std.specs.Prelude.{◌≡◌, ℤ, ◌+◌, ◌^◌, ◌<◌, ◌≤◌, max, ◌⊎◌, IfOk, IfErr};
ghost use Rattle.life_leap.specs.Words.{after, depth, tree_cell, HasCellOutside, HasPlaneMargin, KeepsStore, IsShortageIn, OutOfPlane, RemembersLeaps, value_of_id};

use crate::edge::next_of_plane;
use crate::leap::square_after;
use life_base::{Kind, LifeRule, MAX_LEVEL};
use life_quad::laws::growing_keeps_cells;
use life_quad::{Id, IdMap, SharedSquares, Squares, grow};
use std::alloc::Global;

/// The greatest pace of a leap. A leap of pace p is 2^p generations, and needs a square of level p + 2 or more: the plane has level 62.
pub const FASTEST: u8 = MAX_LEVEL - 2;

/// A square of this level with the same cells around the same centre. A square that has this level or a greater one is returned as it is.
fn grown_to<S: Squares>(squares: &mut S, level: u8, id: Id) -> Result<Id, Kind>
    requires known { S.knows squares.old id }
    requires low { 1 ≤ depth (S.content squares.old id) }
    requires high { level ≤ MAX_LEVEL }
    ensures known { IfOk result (S.knows squares.new) }
    ensures level { IfOk result
        (λ r. depth (S.content squares.new r) ≡ max level (depth (S.content squares.old id))) }
    ensures cells { IfOk result (λ r. (x y : ℤ)
        → tree_cell (S.content squares.new r) x y ≡ tree_cell (S.content squares.old id) x y) }
    ensures keeps { KeepsStore S.Squares squares.old squares.new }
    ensures refusals { IfErr result (IsShortageIn S.Squares squares.new) }
{
    growing_keeps_cells();
    if squares.level(id) >= level {
        return Ok(id);
    }
    let next = grow(squares, id)?;
    grown_to(squares, level, next)
}

/// The level to which a square of this level is grown for a leap: large enough that no cell leaves the square, unless it is the whole plane.
fn level_for(level: u8, pace: u8) -> u8
    requires level { level ≤ MAX_LEVEL }
    requires pace { pace ≤ FASTEST }
    ensures high { result ≤ MAX_LEVEL }
    ensures slow { pace + 2 ≤ result }
    ensures not_lower { level ≤ result }
    ensures margin { (result ≡ MAX_LEVEL) ⊎ ((level < result) × (pace + 2 ≤ result)) }
{
    (level + 1).max(pace + 2).min(MAX_LEVEL)
}

/// The cells of a square 2^pace generations later, as a square around the same centre that is large enough for them. It requires at least 2^pace columns and
/// rows of the plane beyond each cell on each side, so that none can leave the plane. The memory is that of `square_after`.
///
/// # Errors
///
/// `Full` if the store has reached its limit, and `Memory` if memory ran out. After an error each Id still has its square.
pub fn leap_on_plane<S: SharedSquares>(
    alloc: Global,
    squares: &mut S,
    memory: &mut IdMap<Option<Id>>,
    rule: &LifeRule,
    pace: u8,
    id: Id,
) -> Result<Id, Kind>
    requires remembers { RemembersLeaps (S.knows squares.old) (S.content squares.old) rule.now
        FASTEST (value_of_id memory.old) }
    requires known { S.knows squares.old id }
    requires low { 3 ≤ depth (S.content squares.old id) }
    requires slow { pace ≤ FASTEST }
    requires states { (x y : ℤ) → tree_cell (S.content squares.old id) x y < 2 }
    requires margin { HasPlaneMargin (2 ^ pace) (S.content squares.old id) }
    ensures remembers { IfOk result
        (λ _. RemembersLeaps (S.knows squares.new)
        (S.content squares.new) rule.now FASTEST (value_of_id memory.new)) }
    ensures known { IfOk result (S.knows squares.new) }
    ensures level { IfOk result (λ r. 3 ≤ depth (S.content squares.new r)) }
    ensures later { IfOk result (λ r. (x y : ℤ) → tree_cell (S.content squares.new r) x y
        ≡ after rule.now (2 ^ pace) (tree_cell (S.content squares.old id)) x y) }
    ensures keeps { KeepsStore S.Squares squares.old squares.new }
    ensures refusals { IfErr result (IsShortageIn S.Squares squares.new) }
{
    let level = level_for(squares.level(id), pace);
    let grown = grown_to(squares, level, id)?;
    square_after(alloc, squares, memory, rule, pace, grown)
}

/// The next generation of the whole plane, as a square of the level of the plane. Unlike in a leap, cells may be at the edge of the plane. The time depends
/// on the number of squares, not on the number of cells.
///
/// # Errors
///
/// `OutOfPlane` if a cell outside the plane would not be 0. `Full` if the store has reached its limit, and `Memory` if memory ran out, before that is known.
/// After an error each Id still has its square.
pub fn next_on_plane<S: SharedSquares>(
    alloc: Global,
    squares: &mut S,
    rule: &LifeRule,
    id: Id,
) -> Result<Id, Kind>
    requires known { S.knows squares.old id }
    requires low { 1 ≤ depth (S.content squares.old id) }
    requires states { (x y : ℤ) → tree_cell (S.content squares.old id) x y < 2 }
    ensures known { IfOk result (S.knows squares.new) }
    ensures level { IfOk result (λ r. depth (S.content squares.new r) ≡ MAX_LEVEL) }
    ensures later { IfOk result (λ r. (x y : ℤ) → tree_cell (S.content squares.new r) x y
        ≡ after rule.now 1 (tree_cell (S.content squares.old id)) x y) }
    ensures stays { IfOk result
        (λ _. ¬ (HasCellOutside (after rule.now 1 (tree_cell (S.content squares.old id))))) }
    ensures keeps { KeepsStore S.Squares squares.old squares.new }
    ensures refusals { IfErr result (λ kind. IsShortageIn S.Squares squares.new kind
        ⊎ ((kind ≡ OutOfPlane)
        × HasCellOutside (after rule.now 1 (tree_cell (S.content squares.old id))))) }
{
    // Reading a field gives its invariant to the proof: no cell is born without live neighbours.
    let _ = &rule.births;
    let whole = grown_to(squares, MAX_LEVEL, id)?;
    next_of_plane(alloc, squares, rule, whole)
}
