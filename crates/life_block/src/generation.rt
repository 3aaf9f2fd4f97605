//! The next generation of a pattern.
ghost use Rattle.std.specs.Prelude.{◌≡◌, ◌⊎◌, ℤ, pos, neg_ℤ, ◌<ℤ◌, ◌^◌, ◌<◌, ◌≤◌, true, false, Err, Some, None, IfOk, IfErr};
ghost use Rattle.life_block.specs.Words.{fault_of, depth, tree_cell, IsShortageFault, one_after, IsNextLife, LifeAnswers, GenerationRefusal, HasClearEdge, SomeOfNext, level_after, IsMemory, AddsOnly, KeepsStore};

use crate::blocks::{next_life_plane, next_life_square};
use life_base::{Bounds, Fault, Kind, LifeRule, MAX_LEVEL};
use life_quad::{Id, SharedSquares, bounds, population};
use life_sweep::laws::life_answers_at;
use life_sweep::{ByCounts, next_generation};
use std::alloc::Global;

/// Half of the side of the plane: its coordinates go from -HALF_PLANE to HALF_PLANE - 1.
const HALF_PLANE: i64 = 1 << (MAX_LEVEL - 1);

/// Whether a box on the plane doesn't reach the plane's edge.
fn is_off_edge(bounds: &Bounds) -> bool
    ensures west { result ≡ true → neg_ℤ (pos (2 ^ 61)) <ℤ bounds.now.left }
    ensures east { result ≡ true → one_after bounds.now.right <ℤ pos (2 ^ 61) }
    ensures north { result ≡ true → neg_ℤ (pos (2 ^ 61)) <ℤ bounds.now.top }
    ensures south { result ≡ true → one_after bounds.now.bottom <ℤ pos (2 ^ 61) }
{
    if bounds.left <= -HALF_PLANE || bounds.right >= HALF_PLANE - 1 {
        return false;
    }
    if bounds.top <= -HALF_PLANE || bounds.bottom >= HALF_PLANE - 1 {
        return false;
    }
    true
}

/// Whether the sweep has to answer: the square is that of the whole plane, and a cell is at its edge, or it has no cell.
///
/// # Errors
///
/// `Memory`, and nothing else.
pub(crate) fn reaches_edge<S: SharedSquares>(
    alloc: Global,
    squares: &S,
    id: Id,
) -> Result<bool, Kind>
    requires known { S.knows squares.now id }
    ensures whole { IfOk result
        (λ reaches. reaches ≡ true → depth (S.content squares.now id) ≡ MAX_LEVEL) }
    ensures clear { IfOk result (λ reaches. reaches ≡ false
        → depth (S.content squares.now id) ≡ MAX_LEVEL → HasClearEdge (S.content squares.now id)) }
    ensures refusals { IfErr result IsMemory }
{
    if squares.level(id) != MAX_LEVEL {
        return Ok(false);
    }
    let found = bounds(alloc, squares, id)?;
    let Some(least) = found else {
        return Ok(true);
    };
    Ok(!is_off_edge(&least))
}

/// Makes one generation under a B/S rule of the cells of a square, which has to have level 2 or more. At most `most` of its cells may have a state other than
/// 0. The answer is a square one level higher, about the same centre. But if the given square is that of the whole plane, so is the answer.
///
/// # Errors
///
/// The first of these that holds: `TooManyCells` if more have one; `OutOfPlane` if a cell outside the plane would not stay 0. Or, before it is
/// reported, `Full` if the store holds its limit and a square of the generation is new, or `Memory`. After an error each Id has its square.
pub fn next_life_generation<S: SharedSquares>(
    alloc: Global,
    squares: &mut S,
    rule: &LifeRule,
    id: Id,
    most: u64,
) -> Result<Id, Fault>
    requires known { S.knows squares.old id }
    requires high { 2 ≤ depth (S.content squares.old id) }
    requires states { (x y : ℤ) → tree_cell (S.content squares.old id) x y < 2 }
    ensures known { IfOk result (S.knows squares.new) }
    ensures high { IfOk result (λ r. 3 ≤ depth (S.content squares.new r)) }
    ensures low { IfOk result (λ r. depth (S.content squares.new r) ≤ MAX_LEVEL) }
    ensures level { IfOk result
        (λ r. depth (S.content squares.new r) ≡ level_after (depth (S.content squares.old id))) }
    ensures next { IfOk result
        (λ r. IsNextLife rule.now (S.content squares.old id) (S.content squares.new r)) }
    ensures accepted { IfOk result
        (λ _. GenerationRefusal (LifeAnswers rule.now) 2 most (S.content squares.old id) None) }
    ensures refusals { IfErr result (λ f. IsShortageFault (S.stored squares.new)
        (S.most squares.new)
        f ⊎ GenerationRefusal (LifeAnswers rule.now) 2 most (S.content squares.old id) (Some f)) }
    ensures needed { result ≡ Err (fault_of Kind.Full)
        → SomeOfNext (S.needs_node squares.new) rule.now (S.content squares.old id) }
    ensures adds { AddsOnly S.stored
        (λ P. SomeOfNext P rule.now (S.content squares.old id)) squares.old squares.new }
    ensures keeps { KeepsStore S.Squares squares.old squares.new }
{
    life_answers_at();
    if reaches_edge(alloc, squares, id)? {
        let mut law = ByCounts::new(*rule);
        return next_generation(alloc, squares, &mut law, id, most);
    }
    if population(alloc, squares, id)? > u128::from(most) {
        return Err(Fault::of(Kind::TooManyCells));
    }
    if squares.level(id) == MAX_LEVEL {
        return Ok(next_life_plane(alloc, squares, rule, id)?);
    }
    Ok(next_life_square(alloc, squares, rule, id)?)
}
