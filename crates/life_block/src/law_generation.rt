//! The next generation of a pattern by any law of a cell and its neighbours.
ghost use Rattle.std.specs.Prelude.{◌≡◌, ◌⊎◌, ℤ, ◌≤◌, Ok, Err, Some, None, IfOk, IfErr, IfSome};
ghost use Rattle.life_quad.specs.Grows.{Grows};
ghost use Rattle.life_block.specs.Words.{fault_of, depth, tree_cell, IsShortageFault, Becomes, states_at, IsNextAt, SomeNext, GenerationRefusal, AddsOnly, KeepsStore};

use crate::generation::reaches_edge;
use crate::law_squares::next_law_plane;
use life_base::{Fault, Kind, MAX_LEVEL};
use life_quad::{Id, Shared, SharedSquares, Turn, population, turned};
use life_sweep::{Law, next_generation};
use std::alloc::Global;

/// Fewer cells than this are always visited place by place.
const FEW_CELLS: u128 = 1 << 12;

/// From so many cells for each square of the store on, squares occur often enough that it is faster to go square by square.
const CELLS_PER_SQUARE: u128 = 16;

/// How many squares the next generation may have when it is made square by square.
const MOST_SQUARES: u64 = 1 << 20;

// Whether so many cells have squares that occur often, in a store of so many squares. The answer only matters for the time.
fn occur_often(cells: u128, stored: u64) -> bool {
    cells >= FEW_CELLS && cells / CELLS_PER_SQUARE >= u128::from(stored)
}

// The square of the whole plane with the next generation by a law of a square's cells, which are so many. It is made in a store of its own and then
// copied. `None` if squares don't occur often, if a cell is at the edge of the plane, if the law lacks a state or returns two for a cell, or if the
// other store is full or out of memory. `stored` is how many squares the store holds.
fn next_by_squares<S: SharedSquares, L: Law>(
    alloc: Global,
    squares: &mut S,
    law: &mut L,
    id: Id,
    count: u128,
    stored: u64,
) -> Result<Option<Id>, Kind>
    requires known { S.knows squares.old id }
    requires high { 1 ≤ depth (S.content squares.old id) }
    ensures same { law.new ≡ law.old }
    ensures unchanged { result ≡ Ok None → squares.new ≡ squares.old }
    ensures known { IfOk result (λ found. IfSome found (S.knows squares.new)) }
    ensures level { IfOk result
        (λ found. IfSome found (λ r. depth (S.content squares.new r) ≡ MAX_LEVEL)) }
    ensures next { IfOk result (λ found. IfSome found (λ r. (x y : ℤ)
        → IsNextAt (L.answers law.old) (L.bound law.old) (tree_cell (S.content squares.old id)) x
        y (tree_cell (S.content squares.new r) x y))) }
    ensures grows { Grows S.Squares squares.old squares.new result
        (λ P. SomeNext P (L.answers law.old) (tree_cell (S.content squares.old id))) }
{
    if !occur_often(count, stored) || reaches_edge(alloc, squares, id)? {
        return Ok(None);
    }
    let mut others = Shared::seeded(alloc, squares.seed(), MOST_SQUARES);
    let Some(next) = next_law_plane(alloc, squares, &mut others, law, id) else {
        return Ok(None);
    };
    let upright = Turn {
        exchange: false,
        columns: false,
        rows: false,
    };
    Ok(Some(turned(alloc, &others, squares, upright, next)?))
}

/// The square of the whole plane with the next generation by a law of a square's cells, of which at most `most` may have a state other than 0.
/// `stored` is how many squares the store holds. If the cells are many times as many, their next states are computed square by square; otherwise,
/// and wherever that doesn't find the next state of each cell, place by place. Both ways return the same square and the same error.
///
/// # Errors
///
/// The first of these that holds: `TooManyCells` if more have one; `StateBeyondTable` if a state is none of the law; `Ambiguous`, with the line
/// of the first such cell by row and then column, if the line of a cell gives two states; `OutOfPlane` if a cell outside the plane would not
/// stay 0. Or, before it is reported, `Full` if the store holds its limit and a square of the generation is new, or `Memory`. After an error each
/// Id has its square.
pub fn next_law_generation<S: SharedSquares, L: Law>(
    alloc: Global,
    squares: &mut S,
    law: &mut L,
    id: Id,
    most: u64,
    stored: u64,
) -> Result<Id, Fault>
    requires known { S.knows squares.old id }
    requires high { 1 ≤ depth (S.content squares.old id) }
    ensures same { law.new ≡ law.old }
    ensures known { IfOk result (S.knows squares.new) }
    ensures level { IfOk result (λ r. depth (S.content squares.new r) ≡ MAX_LEVEL) }
    ensures next { IfOk result (λ r. (x y : ℤ)
        → L.answers law.old (states_at (tree_cell (S.content squares.old id)) x y)
        (Becomes (tree_cell (S.content squares.new r) x y))) }
    ensures accepted { IfOk result (λ _. GenerationRefusal (L.answers law.old) (L.bound law.old)
        most (S.content squares.old id) None) }
    ensures refusals { IfErr result (λ f. IsShortageFault (S.stored squares.new)
        (S.most squares.new) f ⊎ GenerationRefusal (L.answers law.old) (L.bound law.old) most
        (S.content squares.old id) (Some f)) }
    ensures needed { result ≡ Err (fault_of Kind.Full)
        → SomeNext (S.needs_node squares.new) (L.answers law.old)
        (tree_cell (S.content squares.old id)) }
    ensures adds { AddsOnly S.stored
        (λ P. SomeNext P (L.answers law.old) (tree_cell (S.content squares.old id))) squares.old
        squares.new }
    ensures keeps { KeepsStore S.Squares squares.old squares.new }
{
    let count = population(alloc, squares, id)?;
    if count > u128::from(most) {
        return Err(Fault::of(Kind::TooManyCells));
    }
    if let Some(next) = next_by_squares(alloc, squares, law, id, count, stored)? {
        return Ok(next);
    }
    next_generation(alloc, squares, law, id, most)
}
