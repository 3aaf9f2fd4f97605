//! The leaps of a long course in stages: once the leaps have more than doubled a store, the pattern alone goes on in a fresh one.
ghost use Rattle.std.specs.Prelude.{◌≡◌, ◌⊎◌, ℤ, ◌-◌, ◌<◌, ◌≤◌, IfOk, IfErr};
ghost use Rattle.life_later.specs.Words.{after, depth, content, IsCourse, IsCourseFault, IsFaultApart, IsKnownInShared, IsShortageFault, KeepsShared, LeavesWithin, stored_squares, tree_cell};

use crate::course::{later, next_leap};
use life_base::{Fault, Kind, LifeRule};
use life_quad::{Id, IdMap, Shared, SharedSquares, Turn, turned};
use std::alloc::Global;

/// A store of so many squares or fewer takes up little memory, and isn't left for a fresh one.
const FEW: u64 = 1 << 20;

/// The turn that leaves each square as it is.
const SAME: Turn = Turn {
    exchange: false,
    columns: false,
    rows: false,
};

/// With how many squares in its store a stage ends, if it began with so many.
fn most_in_stage(begun: u64, limit: u64) -> u64 {
    begun.saturating_mul(2).max(FEW).min(limit / 2)
}

/// A square in a fresh store with the same seed and limit, which has nothing but that square and its parts.
fn copied(alloc: Global, from: &Shared, id: Id) -> Result<(Shared, Id), Kind>
    requires { IsKnownInShared from.now id }
    ensures known { IfOk result (λ r. IsKnownInShared r.0 r.1) }
    ensures square { IfOk result (λ r. content r.0 r.1 ≡ content from.now id) }
    ensures refusals { IfErr result (λ kind. (kind ≡ Kind.Memory) ⊎ (kind ≡ Kind.Full)) }
{
    let mut to = Shared::seeded(alloc, from.seed(), from.limit());
    let copy = turned(alloc, from, &mut to, SAME, id)?;
    Ok((to, copy))
}

/// One leap or more: how many generations are left, and the square before these.
fn stage(
    alloc: Global,
    squares: &mut Shared,
    rule: &LifeRule,
    root: Id,
    generations: u64,
) -> Result<(u64, Id), Fault>
    requires known { IsKnownInShared squares.old root }
    requires low { 3 ≤ depth (content squares.old root) }
    requires states { (x y : ℤ) → tree_cell (content squares.old root) x y < 2 }
    requires some { 1 ≤ generations }
    ensures left { IfOk result (λ r. r.0 < generations) }
    ensures known { IfOk result (λ r. IsKnownInShared squares.new r.1) }
    ensures course { IfOk result (λ r. IsCourse rule.now (generations - r.0)
        (content squares.old root) (content squares.new r.1)) }
    ensures keeps { KeepsShared squares.old squares.new }
    ensures refusals { IfErr result (IsCourseFault rule.now generations
        (tree_cell (content squares.old root)) (stored_squares squares.new) squares.new.limit) }
{
    let most = most_in_stage(squares.len(), squares.limit());
    let mut memory = IdMap::new(alloc, None);
    let mut left = generations;
    let mut now = root;
    while left > 0 {
        let (consumed, next) = next_leap(alloc, squares, &mut memory, rule, now, left)?;
        left -= consumed;
        now = next;
        if squares.len() > most {
            return Ok((left, now));
        }
    }
    Ok((left, now))
}

/// The square so many generations later in a store of its own.
fn later_apart(
    alloc: Global,
    from: &Shared,
    rule: &LifeRule,
    root: Id,
    generations: u64,
) -> Result<(Shared, Id), Fault>
    requires known { IsKnownInShared from.now root }
    requires low { 3 ≤ depth (content from.now root) }
    requires states { (x y : ℤ) → tree_cell (content from.now root) x y < 2 }
    ensures known { IfOk result (λ r. IsKnownInShared r.0 r.1) }
    ensures course { IfOk result (λ r. IsCourse rule.now generations
        (content from.now root) (content r.0 r.1)) }
    ensures refusals { IfErr result
        (IsFaultApart rule.now generations (tree_cell (content from.now root))) }
{
    let (mut own, mut now) = copied(alloc, from, root)?;
    let mut left = generations;
    while left > 0 {
        let (rest, next) = stage(alloc, &mut own, rule, now, left)?;
        if rest == 0 {
            return Ok((own, next));
        }
        let (fresh, copy) = copied(alloc, &own, next)?;
        own = fresh;
        now = copy;
        left = rest;
    }
    Ok((own, now))
}

/// The answer of another store, in the store of the caller.
fn brought_back(alloc: Global, from: &Shared, to: &mut Shared, id: Id) -> Result<Id, Fault>
    requires { IsKnownInShared from.now id }
    ensures known { IfOk result (IsKnownInShared to.new) }
    ensures square { IfOk result (λ r. content to.new r ≡ content from.now id) }
    ensures keeps { KeepsShared to.old to.new }
    ensures refusals { IfErr result (IsShortageFault (stored_squares to.new) to.new.limit) }
{
    let copy = turned(alloc, from, to, SAME, id)?;
    Ok(copy)
}

/// The rest of a course in fresh stores, or, if one of these is full, in the store of the square.
fn rest_of_course(
    alloc: Global,
    squares: &mut Shared,
    rule: &LifeRule,
    root: Id,
    generations: u64,
) -> Result<Id, Fault>
    requires known { IsKnownInShared squares.old root }
    requires low { 3 ≤ depth (content squares.old root) }
    requires states { (x y : ℤ) → tree_cell (content squares.old root) x y < 2 }
    ensures known { IfOk result (IsKnownInShared squares.new) }
    ensures low { IfOk result (λ r. 3 ≤ depth (content squares.new r)) }
    ensures later { IfOk result (λ r. (x y : ℤ) → tree_cell (content squares.new r) x y
        ≡ after rule.now generations (tree_cell (content squares.old root)) x y) }
    ensures stays { IfOk result
        (λ _. ¬ (LeavesWithin rule.now generations (tree_cell (content squares.old root)))) }
    ensures keeps { KeepsShared squares.old squares.new }
    ensures refusals { IfErr result (IsCourseFault rule.now generations
        (tree_cell (content squares.old root)) (stored_squares squares.new) squares.new.limit) }
{
    match later_apart(alloc, &*squares, rule, root, generations) {
        Ok((own, answer)) => brought_back(alloc, &own, squares, answer),
        Err(fault) => match fault.kind {
            Kind::Full => later(alloc, squares, rule, root, generations),
            _ => Err(fault),
        },
    }
}

/// The cells of a square so many generations later, as `later` returns them. The leaps begin in the store of the square. Once they have more than doubled it
/// and it has more than 2^20 squares, or half of its limit, the square of that generation is copied into a fresh store, in which the leaps go on in the same
/// way. So the memory is that of one leap and of a few squares, and not that of all leaps. In the end the answer is copied into the store of the square.
///
/// # Errors
///
/// `OutOfPlane` if a cell outside the plane isn't 0 in one of these generations, from the next one to the last. Otherwise there is an answer, unless before
/// that is known memory runs out (`Memory`), or a fresh store is full and the given store too reaches its limit (`Full`): if a fresh store is full, `later`
/// makes the rest of the leaps in the given one. After an error each Id still has its square.
pub fn later_in_stages(
    alloc: Global,
    squares: &mut Shared,
    rule: &LifeRule,
    root: Id,
    generations: u64,
) -> Result<Id, Fault>
    requires known { IsKnownInShared squares.old root }
    requires low { 3 ≤ depth (content squares.old root) }
    requires states { (x y : ℤ) → tree_cell (content squares.old root) x y < 2 }
    ensures known { IfOk result (IsKnownInShared squares.new) }
    ensures low { IfOk result (λ r. 3 ≤ depth (content squares.new r)) }
    ensures later { IfOk result (λ r. (x y : ℤ) → tree_cell (content squares.new r) x y
        ≡ after rule.now generations (tree_cell (content squares.old root)) x y) }
    ensures stays { IfOk result
        (λ _. ¬ (LeavesWithin rule.now generations (tree_cell (content squares.old root)))) }
    ensures keeps { KeepsShared squares.old squares.new }
    ensures refusals { IfErr result (IsCourseFault rule.now generations
        (tree_cell (content squares.old root)) (stored_squares squares.new) squares.new.limit) }
{
    if generations == 0 {
        return Ok(root);
    }
    let (left, now) = stage(alloc, squares, rule, root, generations)?;
    if left == 0 {
        return Ok(now);
    }
    rest_of_course(alloc, squares, rule, now, left)
}
