//! The next states of squares.
ghost use Rattle.std.specs.Prelude.{◌≡◌, ℕ, ℤ, ◌+◌, ◌^◌, ◌<◌, ◌≤◌, false, IfOk, IfErr, OnErr};
ghost use Rattle.life_block.specs.Words.{has_digit, depth, tree_cell, SomePart, SomeOfNine, SomeOfSixteen, next_life, IsNextLife, HasClearEdge, next_plane, next_square, RemembersBlocks, IsPiece, IsBinary, IsOfLevel, InNine, InSixteen, AreNine, AreSixteen, AddsOnly, KeepsStore, IsShortageIn};

use crate::corner::{Corner, in_middle};
use crate::leaf::{next_of_leaves, next_of_small};
use crate::remembered::{recalled, remember};
use life_base::{Kind, LifeRule, MAX_LEVEL};
use life_pieces::{Nine, Sixteen};
use life_quad::{Id, NeighbourhoodMemory, SharedSquares, Squares, divide};
use std::alloc::Global;

#[cycle(block)]
// The next states of a square of this level amid its neighbours.
fn next_of<S: Squares>(
    squares: &mut S,
    memory: &mut NeighbourhoodMemory,
    rule: &LifeRule,
    level: u8,
    nine: &Nine,
) -> Result<Id, Kind>
    requires remembers { RemembersBlocks (S.knows squares.old) (S.content squares.old) rule.now
        memory.old }
    requires known { InNine (IsOfLevel (S.knows squares.old) (S.content squares.old) level)
        nine.now }
    requires low { 4 ≤ level }
    requires high { level ≤ MAX_LEVEL }
    requires quiet { has_digit rule.now.sets.births 0 ≡ false }
    ensures at { IfOk result (IsOfLevel (S.knows squares.new) (S.content squares.new) level) }
    ensures remembers { IfOk result
        (λ _. RemembersBlocks (S.knows squares.new) (S.content squares.new) rule.now memory.new) }
    ensures next { IfOk result (λ r. (cells : ℤ → ℤ → ℕ) (x y : ℤ) → IsBinary cells
        → AreNine (S.content squares.old) cells (2 ^ level) x y nine.now
        → IsPiece (next_life rule.now cells) x y (S.content squares.new r)) }
    ensures keeps { KeepsStore S.Squares squares.old squares.new }
    ensures refusals { IfErr result (IsShortageIn S.Squares squares.new) }
    ensures needed { OnErr result (SomeOfNine (S.needs_node squares.new) rule.now
        (S.content squares.old) level nine.now) }
    ensures adds { AddsOnly S.stored
        (λ P. SomeOfNine P rule.now (S.content squares.old) level nine.now) squares.old
        squares.new }
{
    let blank = squares.empty(level);
    if nine.are_all(blank) {
        return Ok(blank);
    }
    if let Some(next) = recalled(memory, level, nine) {
        return Ok(next);
    }
    let sixteen = nine.quarters(squares, level - 1);
    let next = next_of_middle(squares, memory, rule, level - 1, &sixteen)?;
    remember(memory, level, nine, next);
    Ok(next)
}

#[cycle(block)]
// The next states of the four squares of this level amid twelve others, as one square.
fn next_of_middle<S: Squares>(
    squares: &mut S,
    memory: &mut NeighbourhoodMemory,
    rule: &LifeRule,
    level: u8,
    sixteen: &Sixteen,
) -> Result<Id, Kind>
    requires remembers { RemembersBlocks (S.knows squares.old) (S.content squares.old) rule.now
        memory.old }
    requires known { InSixteen (IsOfLevel (S.knows squares.old) (S.content squares.old) level)
        sixteen.now }
    requires low { 3 ≤ level }
    requires high { level < MAX_LEVEL }
    requires quiet { has_digit rule.now.sets.births 0 ≡ false }
    ensures at { IfOk result (IsOfLevel (S.knows squares.new) (S.content squares.new) (level + 1)) }
    ensures remembers { IfOk result
        (λ _. RemembersBlocks (S.knows squares.new) (S.content squares.new) rule.now memory.new) }
    ensures next { IfOk result (λ r. (cells : ℤ → ℤ → ℕ) (x y : ℤ) → IsBinary cells
        → AreSixteen (S.content squares.old) cells (2 ^ level) x y sixteen.now
        → IsPiece (next_life rule.now cells) x y (S.content squares.new r)) }
    ensures keeps { KeepsStore S.Squares squares.old squares.new }
    ensures refusals { IfErr result (IsShortageIn S.Squares squares.new) }
    ensures needed { OnErr result (SomeOfSixteen (S.needs_node squares.new) rule.now
        (S.content squares.old) level sixteen.now) }
    ensures adds { AddsOnly S.stored
        (λ P. SomeOfSixteen P rule.now (S.content squares.old) level sixteen.now) squares.old
        squares.new }
{
    if level == 3 {
        return next_of_leaves(squares, rule, sixteen);
    }
    let nw = next_of(squares, memory, rule, level, &sixteen.north().western())?;
    let ne = next_of(squares, memory, rule, level, &sixteen.north().eastern())?;
    let sw = next_of(squares, memory, rule, level, &sixteen.rear().western())?;
    let se = next_of(squares, memory, rule, level, &sixteen.rear().eastern())?;
    squares.join(nw, ne, sw, se)
}

/// Makes one generation under a B/S rule of the cells of a square, which has to have level 2 or more. The answer is a square one level higher, about the same
/// centre, so that it also has each cell that is born around the given square. Each square that the call joins is part of the answer.
///
/// # Errors
///
/// `Full` if the store holds its limit and a square of the generation is new, or `Memory`. After an error each Id has its square.
pub fn next_life_square<S: SharedSquares>(
    alloc: Global,
    squares: &mut S,
    rule: &LifeRule,
    id: Id,
) -> Result<Id, Kind>
    requires known { S.knows squares.old id }
    requires high { 2 ≤ depth (S.content squares.old id) }
    requires low { depth (S.content squares.old id) < MAX_LEVEL }
    requires states { (x y : ℤ) → tree_cell (S.content squares.old id) x y < 2 }
    ensures known { IfOk result (S.knows squares.new) }
    ensures level { IfOk result
        (λ r. depth (S.content squares.new r) ≡ depth (S.content squares.old id) + 1) }
    ensures next { IfOk result
        (λ r. IsNextLife rule.now (S.content squares.old id) (S.content squares.new r)) }
    ensures keeps { KeepsStore S.Squares squares.old squares.new }
    ensures refusals { IfErr result (IsShortageIn S.Squares squares.new) }
    ensures needed { OnErr result
        (SomePart (S.needs_node squares.new) (next_square rule.now (S.content squares.old id))) }
    ensures adds { AddsOnly S.stored
        (λ P. SomePart P (next_square rule.now (S.content squares.old id))) squares.old
        squares.new }
{
    // To read a field opens the invariant to the proof: no cell is born without live neighbours.
    let _ = &rule.births;
    let level = squares.level(id);
    if level <= 3 {
        return next_of_small(squares, rule, id);
    }
    let mut memory = NeighbourhoodMemory::new(alloc, squares.seed());
    let memory = &mut memory;
    let level = level - 1;
    let root = divide(squares, id);
    let blank = squares.empty(level);
    let around = Corner::SouthEast.with(root, blank);
    let north_west = next_of_middle(squares, memory, rule, level, &around)?;
    let around = Corner::SouthWest.with(root, blank);
    let north_east = next_of_middle(squares, memory, rule, level, &around)?;
    let around = Corner::NorthEast.with(root, blank);
    let south_west = next_of_middle(squares, memory, rule, level, &around)?;
    let around = Corner::NorthWest.with(root, blank);
    let south_east = next_of_middle(squares, memory, rule, level, &around)?;
    squares.join(north_west, north_east, south_west, south_east)
}

/// The square of the next generation under a B/S rule of the whole plane, none of whose cells is at the edge. Each square that it joins is part of
/// that one.
///
/// # Errors
///
/// Those of `next_life_square`.
pub(crate) fn next_life_plane<S: SharedSquares>(
    alloc: Global,
    squares: &mut S,
    rule: &LifeRule,
    id: Id,
) -> Result<Id, Kind>
    requires whole { depth (S.content squares.old id) ≡ MAX_LEVEL }
    requires known { S.knows squares.old id }
    requires states { (x y : ℤ) → tree_cell (S.content squares.old id) x y < 2 }
    requires clear { HasClearEdge (S.content squares.old id) }
    ensures quiet { has_digit rule.now.sets.births 0 ≡ false }
    ensures known { IfOk result (S.knows squares.new) }
    ensures level { IfOk result (λ r. depth (S.content squares.new r) ≡ MAX_LEVEL) }
    ensures next { IfOk result
        (λ r. IsNextLife rule.now (S.content squares.old id) (S.content squares.new r)) }
    ensures keeps { KeepsStore S.Squares squares.old squares.new }
    ensures refusals { IfErr result (IsShortageIn S.Squares squares.new) }
    ensures needed { OnErr result
        (SomePart (S.needs_node squares.new) (next_plane rule.now (S.content squares.old id))) }
    ensures adds { AddsOnly S.stored
        (λ P. SomePart P (next_plane rule.now (S.content squares.old id))) squares.old
        squares.new }
{
    // To read a field opens the invariant to the proof: no cell is born without live neighbours.
    let _ = &rule.births;
    let mut memory = NeighbourhoodMemory::new(alloc, squares.seed());
    let root = divide(squares, id);
    let blank = squares.empty(MAX_LEVEL - 1);
    let around = in_middle(root, blank);
    next_of_middle(squares, &mut memory, rule, MAX_LEVEL - 1, &around)
}
