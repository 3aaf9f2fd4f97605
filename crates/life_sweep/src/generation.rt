//! The next generation of a square.
ghost use Rattle.std.specs.Prelude.{◌≡◌, ◌⊎◌, ◌↔◌, ℤ, ◌<◌, ◌≤◌, All, IsTrue, Err, Some, None, IfOk, IfErr};
ghost use Rattle.life_sweep.specs.Words.{fault_of, depth, tree_cell, IsShortageFault, Becomes, SomeNext, GenerationRefusal, states_at, AddsOnly, KeepsStore};

use crate::law::Law;
use crate::sweep::next_square;
use life_base::{Cell, Fault, Kind, MAX_LEVEL};
use life_quad::{Id, Squares, cells};
use std::alloc::Global;

// Whether every cell has a state below the bound.
fn are_below(cells: &[Cell], bound: u16) -> bool
    ensures { IsTrue result ↔ All (λ cell. cell.state < bound) cells.now }
{
    cells.iter().all(|cell| u16::from(cell.state) < bound)
}

/// The square of the whole plane with the next generation of a square's cells, of which at most `most` may have a state other than 0.
///
/// # Errors
///
/// The first of these that holds: `TooManyCells` if more have one; `StateBeyondTable` if a state is none of the law; `Ambiguous`, with the line
/// of the first such cell by row and then column, if the line of a cell gives two states; `OutOfPlane` if a cell outside the plane would not
/// stay 0. Or, before it is reported, `Full` if the store holds its limit and a square of the generation is new, or `Memory`. After an error each
/// Id has its square.
pub fn next_generation<S: Squares, L: Law>(
    alloc: Global,
    squares: &mut S,
    law: &mut L,
    id: Id,
    most: u64,
) -> Result<Id, Fault>
    requires known { S.knows squares.old id }
    requires high { 1 ≤ depth (S.content squares.old id) }
    ensures same { law.new ≡ law.old }
    ensures known { IfOk result (S.knows squares.new) }
    ensures level { IfOk result (λ r. depth (S.content squares.new r) ≡ MAX_LEVEL) }
    ensures next { IfOk result (λ r. (x y : ℤ)
        → L.answers law.old (states_at (tree_cell (S.content squares.old id)) x y)
        (Becomes (tree_cell (S.content squares.new r) x y))) }
    ensures accepted { IfOk result (λ _. GenerationRefusal (L.answers law.old) (L.bound law.old)
        most (S.content squares.old id) None) }
    ensures refusals { IfErr result (λ f. IsShortageFault (S.stored squares.new)
        (S.most squares.new) f ⊎ GenerationRefusal (L.answers law.old) (L.bound law.old) most
        (S.content squares.old id) (Some f)) }
    ensures needed { result ≡ Err (fault_of Kind.Full)
        → SomeNext (S.needs_node squares.new) (L.answers law.old)
        (tree_cell (S.content squares.old id)) }
    ensures adds { AddsOnly S.stored
        (λ P. SomeNext P (L.answers law.old) (tree_cell (S.content squares.old id))) squares.old
        squares.new }
    ensures keeps { KeepsStore S.Squares squares.old squares.new }
{
    let list = cells(alloc, squares, id, most)?;
    if !are_below(&list, law.n_states()) {
        return Err(Fault::of(Kind::StateBeyondTable));
    }
    next_square(alloc, squares, law, &list)
}
