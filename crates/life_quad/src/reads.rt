//! What a square has: the number of its nonzero cells, and their bounding box.
ghost use Rattle.std.specs.Prelude.{◌≡◌, ◌+◌, ◌^◌, ◌+ℤ◌, pos, ◌<◌, ◌≤◌, true, IfOk, IfErr, IfSome, MatchOption};
ghost use Rattle.life_quad.specs.Words.{IdValue, depth, is_blank_tree, population, IsBoundingBoxOfTree, value_of_id, IsMemory};

use crate::distances::{Side, least_distance};
use crate::id_map::IdMap;
use crate::moves::{Quarters, divide, is_blank_at};
use crate::runs::half_side;
use crate::{Id, SharedSquares, Squares};
use life_base::{Bounds, Kind};
use std::alloc::Global;

/// How many cells have a state other than 0. Each shared square is visited once.
///
/// # Errors
///
/// `Memory`, and nothing else.
pub fn population<S: SharedSquares>(alloc: Global, squares: &S, id: Id) -> Result<u128, Kind>
    requires known { S.knows squares.now id }
    requires high { 1 ≤ depth (S.content squares.now id) }
    ensures number { IfOk result (λ n. n ≡ population (S.content squares.now id)) }
    ensures refusals { IfErr result IsMemory }
{
    let mut known = IdMap::new(alloc, 0);
    count(squares, squares.level(id), id, &mut known)
}

/// The number of cells with a state in a square of level 3, if the store gives its cells; `None` says nothing.
#[inline(always)]
fn count_leaf<S: Squares>(squares: &S, id: Id) -> Option<u128>
    requires { S.knows squares.now id }
    ensures { IfSome result (λ n. n ≡ population (S.content squares.now id)) }
{
    let leaf = squares.leaf_cells(id)?;
    Some(u128::from(leaf.count_ones()))
}

/// The number of cells with a state in a square of a level, each of whose squares is visited as often as it occurs.
fn count_cells<S: Squares>(squares: &S, level: u8, id: Id) -> u128
    requires known { S.knows squares.now id }
    requires level { level ≡ depth (S.content squares.now id) }
    ensures { result ≡ population (S.content squares.now id) }
{
    if let Some(cells) = squares.small_cells(id) {
        return u128::from(cells.count_ones());
    }
    if let Some(state) = squares.state(id) {
        return if state == 0 { 0 } else { 1 };
    }
    let Quarters { nw, ne, sw, se } = divide(squares, id);
    let a = count_cells(squares, level - 1, nw);
    let b = count_cells(squares, level - 1, ne);
    let c = count_cells(squares, level - 1, sw);
    let d = count_cells(squares, level - 1, se);
    a + b + c + d
}

/// How many cells of a square of a level have a state other than 0, as `population` counts them, but without memory: each of its squares is visited as
/// often as it occurs. So this is for squares of few levels, as those of leaf lines.
pub fn leaf_population<S: Squares>(squares: &S, level: u8, id: Id) -> u128
    requires known { S.knows squares.now id }
    requires level { level ≡ depth (S.content squares.now id) }
    ensures { result ≡ population (S.content squares.now id) }
{
    match count_leaf(squares, id) {
        Some(number) => number,
        None => count_cells(squares, level, id),
    }
}

/// The number of cells with a state in a square of a level, where `known` has the numbers of squares that were visited, and 0 for others:
/// no square that isn't blank has that number.
fn count<S: Squares>(squares: &S, level: u8, id: Id, known: &mut IdMap<u128>) -> Result<u128, Kind>
    requires known { S.knows squares.now id }
    requires level { level ≡ depth (S.content squares.now id) }
    requires right { (q : IdValue) → 0 < value_of_id known.old q
        → value_of_id known.old q ≡ population (S.content squares.now q) }
    ensures number { IfOk result (λ n. n ≡ population (S.content squares.now id)) }
    ensures right { (q : IdValue) → 0 < value_of_id known.new q
        → value_of_id known.new q ≡ population (S.content squares.now q) }
    ensures refusals { IfErr result IsMemory }
{
    if let Some(number) = count_leaf(squares, id) {
        return Ok(number);
    }
    if let Some(cells) = squares.small_cells(id) {
        return Ok(u128::from(cells.count_ones()));
    }
    if let Some(state) = squares.state(id) {
        return Ok(if state == 0 { 0 } else { 1 });
    }
    let number = known.get(id);
    if number != 0 {
        return Ok(number);
    }
    if is_blank_at(squares, level, id) {
        return Ok(0);
    }
    let Quarters { nw, ne, sw, se } = divide(squares, id);
    let a = count(squares, level - 1, nw, known)?;
    let b = count(squares, level - 1, ne, known)?;
    let c = count(squares, level - 1, sw, known)?;
    let d = count(squares, level - 1, se, known)?;
    let sum = a + b + c + d;
    known.set(id, sum)?;
    Ok(sum)
}

/// The bounding box of the cells with a state other than 0, or `None` if there are none. From each side inwards the squares are
/// visited that reach nearest to it, each shared one once.
///
/// # Errors
///
/// `Memory`, and nothing else.
pub fn bounds<S: SharedSquares>(alloc: Global, squares: &S, id: Id) -> Result<Option<Bounds>, Kind>
    requires known { S.knows squares.now id }
    requires high { 1 ≤ depth (S.content squares.now id) }
    ensures least { IfOk result (λ o. MatchOption o
        (is_blank_tree (S.content squares.now id) ≡ true)
        (λ b. IsBoundingBoxOfTree (S.content squares.now id) b)) }
    ensures refusals { IfErr result IsMemory }
{
    let Some(west) = least_distance(alloc, squares, Side::West, id)? else {
        return Ok(None);
    };
    let Some(north) = least_distance(alloc, squares, Side::North, id)? else {
        return Ok(None);
    };
    let Some(east) = least_distance(alloc, squares, Side::East, id)? else {
        return Ok(None);
    };
    let Some(south) = least_distance(alloc, squares, Side::South, id)? else {
        return Ok(None);
    };
    let half = half_side(squares.level(id));
    Ok(Some(Bounds {
        left: coordinate(west, half),
        top: coordinate(north, half),
        right: coordinate(half + half - 1 - east, half),
        bottom: coordinate(half + half - 1 - south, half),
    }))
}

/// The coordinate of a column or row.
fn coordinate(distance: u64, half: u64) -> i64
    requires small { half ≤ 2 ^ 61 }
    requires within { distance < half + half }
    ensures { (result +ℤ pos half) ≡ pos distance }
{
    distance as i64 - half as i64
}
