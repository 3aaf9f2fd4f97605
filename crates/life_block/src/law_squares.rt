//! The next states of squares by any law of a cell and its neighbours, in another store.
ghost use Rattle.std.specs.Prelude.{◌≡◌, ℕ, ℤ, ◌+◌, ◌^◌, ◌<◌, ◌≤◌, IfSome, All, IsTrue};
ghost use Rattle.life_block.specs.Words.{depth, point, tree_cell, HasClearEdge, Becomes, states_at, IsNextAt, IsNextOfNine, IsPieceBy, RemembersBy, IsOfLevel, InNine, InSixteen, AreNine, AreSixteen, KeepsStore};

use crate::corner::{Corner, in_middle};
use crate::remembered::{recalled, remember};
use life_base::{MAX_LEVEL, State};
use life_pieces::{Nine, Sixteen};
use life_quad::laws::growing_keeps_cells;
use life_quad::{Id, NeighbourhoodMemory, SharedSquares, Squares, divide, grow};
use life_sweep::Law;
use std::alloc::Global;

/// The least level of squares that are remembered: lower ones are computed as fast again.
const LEAST_LEVEL: u8 = 3;

// The state of a square of level 0.
fn state_of<S: Squares>(squares: &S, id: Id) -> State
    requires { IsOfLevel (S.knows squares.now) (S.content squares.now) 0 id }
    ensures { S.content squares.now id ≡ point result }
{
    match squares.state(id) {
        Some(state) => state,
        None => unreachable!(),
    }
}

// The states of a cell and of its neighbours, from north clockwise.
fn states_of<S: Squares>(squares: &S, nine: &Nine) -> [State; 9]
    requires { InNine (IsOfLevel (S.knows squares.now) (S.content squares.now) 0) nine.now }
    ensures { (cells : ℤ → ℤ → ℕ) (x y : ℤ) → AreNine (S.content squares.now) cells 1 x y nine.now
        → result ≡ states_at cells x y }
{
    [
        state_of(squares, nine.here.here),
        state_of(squares, nine.before.here),
        state_of(squares, nine.before.after),
        state_of(squares, nine.here.after),
        state_of(squares, nine.after.after),
        state_of(squares, nine.after.here),
        state_of(squares, nine.after.before),
        state_of(squares, nine.here.before),
        state_of(squares, nine.before.before),
    ]
}

// Whether the law has each of the states.
fn are_below(around: &[State; 9], bound: u16) -> bool
    ensures { IsTrue result → All (λ state. state < bound) around.now }
{
    around.iter().all(|state| u16::from(*state) < bound)
}

// The next state of a cell amid its neighbours, unless the law lacks a state or answers with two.
fn next_state<S: Squares, L: Law>(from: &S, law: &mut L, nine: &Nine) -> Option<State>
    requires { InNine (IsOfLevel (S.knows from.now) (S.content from.now) 0) nine.now }
    ensures same { law.new ≡ law.old }
    ensures next { IfSome result (λ s. (cells : ℤ → ℤ → ℕ) (x y : ℤ)
        → AreNine (S.content from.now) cells 1 x y nine.now
        → IsNextAt (L.answers law.old) (L.bound law.old) cells x y s) }
{
    let around = states_of(from, nine);
    if !are_below(&around, law.n_states()) {
        return None;
    }
    law.next(&around).ok()
}

#[cycle(law)]
// The next states of a square of this level amid its neighbours, unless those of a cell aren't known.
fn next_of<S: Squares, T: Squares, L: Law>(
    from: &S,
    to: &mut T,
    memory: &mut NeighbourhoodMemory,
    law: &mut L,
    level: u8,
    nine: &Nine,
) -> Option<Id>
    requires remembers { RemembersBy (S.knows from.now) (S.content from.now) (T.knows to.old)
        (T.content to.old) (L.answers law.old) (L.bound law.old) memory.old }
    requires known { InNine (IsOfLevel (S.knows from.now) (S.content from.now) level) nine.now }
    requires high { level ≤ MAX_LEVEL }
    ensures same { law.new ≡ law.old }
    ensures keeps { KeepsStore T.Squares to.old to.new }
    ensures at { IfSome result (IsOfLevel (T.knows to.new) (T.content to.new) level) }
    ensures remembers { IfSome result (λ _. RemembersBy (S.knows from.now) (S.content from.now)
        (T.knows to.new) (T.content to.new) (L.answers law.old) (L.bound law.old) memory.new) }
    ensures next { IfSome result (λ r. IsNextOfNine (L.answers law.old) (L.bound law.old)
        (S.content from.now) level nine.now (T.content to.new r)) }
{
    if level == 0 {
        let state = next_state(from, law, nine)?;
        return Some(to.cell(state));
    }
    if nine.are_all(from.empty(level)) {
        return Some(to.empty(level));
    }
    if let Some(next) = recalled(memory, level, nine) {
        return Some(next);
    }
    let sixteen = nine.quarters(from, level - 1);
    let next = next_of_middle(from, to, memory, law, level - 1, &sixteen)?;
    remember(memory, level, nine, next);
    Some(next)
}

#[cycle(law)]
// The next states of the four squares of this level amid twelve others, as one square.
fn next_of_middle<S: Squares, T: Squares, L: Law>(
    from: &S,
    to: &mut T,
    memory: &mut NeighbourhoodMemory,
    law: &mut L,
    level: u8,
    sixteen: &Sixteen,
) -> Option<Id>
    requires remembers { RemembersBy (S.knows from.now) (S.content from.now) (T.knows to.old)
        (T.content to.old) (L.answers law.old) (L.bound law.old) memory.old }
    requires known { InSixteen (IsOfLevel (S.knows from.now) (S.content from.now) level)
        sixteen.now }
    requires high { level < MAX_LEVEL }
    ensures same { law.new ≡ law.old }
    ensures keeps { KeepsStore T.Squares to.old to.new }
    ensures at { IfSome result (IsOfLevel (T.knows to.new) (T.content to.new) (level + 1)) }
    ensures remembers { IfSome result (λ _. RemembersBy (S.knows from.now) (S.content from.now)
        (T.knows to.new) (T.content to.new) (L.answers law.old) (L.bound law.old) memory.new) }
    ensures next { IfSome result (λ r. (cells : ℤ → ℤ → ℕ) (x y : ℤ)
        → AreSixteen (S.content from.now) cells (2 ^ level) x y sixteen.now
        → IsPieceBy (IsNextAt (L.answers law.old) (L.bound law.old) cells) x y
        (T.content to.new r)) }
{
    let nw = next_of(from, to, memory, law, level, &sixteen.north().western())?;
    let ne = next_of(from, to, memory, law, level, &sixteen.north().eastern())?;
    let sw = next_of(from, to, memory, law, level, &sixteen.rear().western())?;
    let se = next_of(from, to, memory, law, level, &sixteen.rear().eastern())?;
    to.join(nw, ne, sw, se).ok()
}

// The square of the whole plane with the cells of a square of this level.
fn on_plane<T: Squares>(to: &mut T, level: u8, id: Id) -> Option<Id>
    requires known { T.knows to.old id }
    requires level { depth (T.content to.old id) ≡ level }
    requires positive { 1 ≤ level }
    ensures known { IfSome result (T.knows to.new) }
    ensures level { IfSome result (λ r. depth (T.content to.new r) ≡ MAX_LEVEL) }
    ensures cells { IfSome result (λ r. (x y : ℤ)
        → tree_cell (T.content to.new r) x y ≡ tree_cell (T.content to.old id) x y) }
{
    growing_keeps_cells();
    if level >= MAX_LEVEL {
        return Some(id);
    }
    let larger = grow(to, id).ok()?;
    on_plane(to, level + 1, larger)
}

// The same of a square's next states, one level higher, about the same centre.
fn next_square<S: SharedSquares, T: Squares, L: Law>(
    alloc: Global,
    from: &S,
    to: &mut T,
    law: &mut L,
    id: Id,
) -> Option<Id>
    requires known { S.knows from.now id }
    requires high { 1 ≤ depth (S.content from.now id) }
    requires low { depth (S.content from.now id) < MAX_LEVEL }
    ensures same { law.new ≡ law.old }
    ensures known { IfSome result (T.knows to.new) }
    ensures level { IfSome result
        (λ r. depth (T.content to.new r) ≡ depth (S.content from.now id) + 1) }
    ensures next { IfSome result (λ r. (x y : ℤ) → IsNextAt (L.answers law.old) (L.bound law.old)
        (tree_cell (S.content from.now id)) x y (tree_cell (T.content to.new r) x y)) }
{
    let mut memory = NeighbourhoodMemory::new(alloc, from.seed());
    let memory = &mut memory;
    let level = from.level(id) - 1;
    let root = divide(from, id);
    let blank = from.empty(level);
    let around = Corner::SouthEast.with(root, blank);
    let north_west = next_of_middle(from, to, memory, law, level, &around)?;
    let around = Corner::SouthWest.with(root, blank);
    let north_east = next_of_middle(from, to, memory, law, level, &around)?;
    let around = Corner::NorthEast.with(root, blank);
    let south_west = next_of_middle(from, to, memory, law, level, &around)?;
    let around = Corner::NorthWest.with(root, blank);
    let south_east = next_of_middle(from, to, memory, law, level, &around)?;
    to.join(north_west, north_east, south_west, south_east).ok()
}

// The same of the whole plane, none of whose cells is at the edge, at the same level.
fn next_whole<S: SharedSquares, T: Squares, L: Law>(
    alloc: Global,
    from: &S,
    to: &mut T,
    law: &mut L,
    id: Id,
) -> Option<Id>
    requires known { S.knows from.now id }
    requires whole { depth (S.content from.now id) ≡ MAX_LEVEL }
    requires clear { HasClearEdge (S.content from.now id) }
    ensures same { law.new ≡ law.old }
    ensures known { IfSome result (T.knows to.new) }
    ensures level { IfSome result (λ r. depth (T.content to.new r) ≡ MAX_LEVEL) }
    ensures next { IfSome result (λ r. (x y : ℤ) → IsNextAt (L.answers law.old) (L.bound law.old)
        (tree_cell (S.content from.now id)) x y (tree_cell (T.content to.new r) x y)) }
{
    let mut memory = NeighbourhoodMemory::new(alloc, from.seed());
    let root = divide(from, id);
    let blank = from.empty(MAX_LEVEL - 1);
    let around = in_middle(root, blank);
    next_of_middle(from, to, &mut memory, law, MAX_LEVEL - 1, &around)
}

/// The square of the whole plane, in another store, with the next states by a law of a square's cells; `None` if the law lacks a state or answers with
/// two for a cell, or if the other store is full or out of memory. A square of the whole plane has no cell at its edge.
pub(crate) fn next_law_plane<S: SharedSquares, T: Squares, L: Law>(
    alloc: Global,
    from: &S,
    to: &mut T,
    law: &mut L,
    id: Id,
) -> Option<Id>
    requires known { S.knows from.now id }
    requires high { 1 ≤ depth (S.content from.now id) }
    requires clear { depth (S.content from.now id) ≡ MAX_LEVEL
        → HasClearEdge (S.content from.now id) }
    ensures same { law.new ≡ law.old }
    ensures known { IfSome result (T.knows to.new) }
    ensures level { IfSome result (λ r. depth (T.content to.new r) ≡ MAX_LEVEL) }
    ensures next { IfSome result (λ r. (x y : ℤ) → IsNextAt (L.answers law.old) (L.bound law.old)
        (tree_cell (S.content from.now id)) x y (tree_cell (T.content to.new r) x y)) }
{
    let level = from.level(id);
    if level == MAX_LEVEL {
        return next_whole(alloc, from, to, law, id);
    }
    let next = next_square(alloc, from, to, law, id)?;
    on_plane(to, level + 1, next)
}
