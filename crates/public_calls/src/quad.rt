//! Calls and types of `life_quad`.

ghost use Rattle.std.specs.Prelude.{◌≡◌, ◌<◌, ◌≤◌, ◌^◌};
ghost use Rattle.life_base.specs.declared.cell.TheConstants.{MAX_LEVEL};
ghost use Rattle.life_quad.specs.Words.{depth, IsRunInside};

use life_base::{Cell, Kind, State};
use life_quad::{
    Bounds, Id, Plain, Shared, SharedSquares, Squares, bounds, cells, grow, population, put_run,
    trim,
};
use std::alloc::Global;

pub fn squares_empty<S: Squares>(squares: &S, level: u8) -> Id
    requires { level ≤ MAX_LEVEL }
{
    squares.empty(level)
}

pub fn squares_cell<S: Squares>(squares: &S, state: State) -> Id {
    squares.cell(state)
}

pub fn squares_join<S: Squares>(squares: &mut S, nw: Id, ne: Id, sw: Id, se: Id) -> Result<Id, Kind>
    requires nw { S.knows squares.old nw }
    requires ne { S.knows squares.old ne }
    requires sw { S.knows squares.old sw }
    requires se { S.knows squares.old se }
    requires ne_level { depth (S.content squares.old ne) ≡ depth (S.content squares.old nw) }
    requires sw_level { depth (S.content squares.old sw) ≡ depth (S.content squares.old nw) }
    requires se_level { depth (S.content squares.old se) ≡ depth (S.content squares.old nw) }
    requires below { depth (S.content squares.old nw) < MAX_LEVEL }
{
    squares.join(nw, ne, sw, se)
}

pub fn squares_parts<S: Squares>(squares: &S, id: Id) -> Option<[Id; 4]>
    requires { S.knows squares.now id }
{
    squares.parts(id)
}

pub fn squares_state<S: Squares>(squares: &S, id: Id) -> Option<State>
    requires { S.knows squares.now id }
{
    squares.state(id)
}

pub fn squares_level<S: Squares>(squares: &S, id: Id) -> u8
    requires { S.knows squares.now id }
{
    squares.level(id)
}

pub fn plain_new(alloc: Global, limit: u64) -> Plain
    requires { limit ≤ 2 ^ 62 }
{
    Plain::new(alloc, limit)
}

pub fn shared_new(alloc: Global, limit: u64) -> Shared
    requires { limit ≤ 2 ^ 62 }
{
    Shared::new(alloc, limit)
}

pub fn shared_len(shared: &Shared) -> u64 {
    shared.len()
}

pub fn shared_limit(shared: &Shared) -> u64 {
    shared.limit()
}

pub fn run_put<S: Squares>(
    squares: &mut S,
    root: Id,
    x: i64,
    y: i64,
    len: u64,
    state: State,
) -> Result<Id, Kind>
    requires known { S.knows squares.old root }
    requires high { 1 ≤ depth (S.content squares.old root) }
    requires positive { 1 ≤ len }
    requires inside { IsRunInside (S.content squares.old root)
        (record { x = x; y = y; len = len; state = state }) }
{
    put_run(squares, root, x, y, len, state)
}

pub fn grow_square<S: Squares>(squares: &mut S, id: Id) -> Result<Id, Kind>
    requires known { S.knows squares.old id }
    requires low { 1 ≤ depth (S.content squares.old id) }
    requires high { depth (S.content squares.old id) < MAX_LEVEL }
{
    grow(squares, id)
}

pub fn trim_square<S: Squares>(squares: &mut S, id: Id, least: u8) -> Result<Id, Kind>
    requires known { S.knows squares.old id }
    requires positive { 1 ≤ least }
{
    trim(squares, id, least)
}

pub fn population_of<S: SharedSquares>(alloc: Global, squares: &S, id: Id) -> Result<u128, Kind>
    requires known { S.knows squares.now id }
    requires high { 1 ≤ depth (S.content squares.now id) }
{
    population(alloc, squares, id)
}

pub fn bounds_of<S: SharedSquares>(
    alloc: Global,
    squares: &S,
    id: Id,
) -> Result<Option<Bounds>, Kind>
    requires known { S.knows squares.now id }
    requires high { 1 ≤ depth (S.content squares.now id) }
{
    bounds(alloc, squares, id)
}

pub fn bounds_made(left: i64, top: i64, right: i64, bottom: i64) -> Bounds {
    Bounds {
        left,
        top,
        right,
        bottom,
    }
}

pub fn cells_of<S: Squares>(
    alloc: Global,
    squares: &S,
    id: Id,
    limit: u64,
) -> Result<Vec<Cell>, Kind>
    requires known { S.knows squares.now id }
    requires high { 1 ≤ depth (S.content squares.now id) }
{
    cells(alloc, squares, id, limit)
}
