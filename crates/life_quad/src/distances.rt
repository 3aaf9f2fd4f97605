//! How far from the sides of a square its nonzero cells lie.
ghost use Rattle.std.specs.Prelude.{◌≡◌, ◌≢◌, ◌⊎◌, ◌≤◌, Option, IfOk, IfErr, OnErr};
ghost use Rattle.life_quad.specs.Words.{IdValue, depth, HasCellAt, HasCellInTwo, IsLeastOf, AreLeast, Faces, lesser_of, AreQuarters, value_of_id, IsMemory};

use crate::id_map::IdMap;
use crate::moves::{Quarters, divide, is_blank_at};
use crate::runs::half_side;
use crate::{Id, SharedSquares, Squares};
use life_base::Kind;
use std::alloc::Global;

/// A side of a square.
#[derive(Clone, Copy)]
pub(crate) enum Side {
    North,
    South,
    West,
    East,
}

/// A least distance, or none, or why it was not found.
type Found = Result<Option<u64>, Kind>;

/// What the table has for a square that was not visited: no square is so large.
pub(crate) const UNKNOWN: u64 = u64::MAX;

/// The least level of squares whose distances are kept. In lower ones few squares are visited, and a pattern of a few leaves asks for no memory.
const LEAST_KEPT: u8 = 6;

/// The least distance of a nonzero cell from a side, in columns or rows: 0 for a cell that touches it. A blank square has none. At most
/// the squares that reach nearest to the side are visited, and each shared one once.
pub(crate) fn least_distance<S: SharedSquares>(
    alloc: Global,
    squares: &S,
    side: Side,
    id: Id,
) -> Found
    requires known { S.knows squares.now id }
    ensures least { IfOk result (IsLeastOf (HasCellAt side (S.content squares.now id))) }
    ensures refusals { IfErr result IsMemory }
{
    let mut known = IdMap::new(alloc, UNKNOWN);
    find(squares, side, squares.level(id), id, &mut known)
}

/// The quarters of a square as they are seen with a side in the north.
fn facing<S: Squares>(squares: &S, side: Side, id: Id) -> Quarters
    requires known { S.knows squares.now id }
    requires deep { 1 ≤ depth (S.content squares.now id) }
    ensures faces { Faces side (S.content squares.now id) (S.content squares.now result.nw)
        (S.content squares.now result.ne) (S.content squares.now result.sw)
        (S.content squares.now result.se) }
    ensures quarters { AreQuarters (S.knows squares.now) (S.content squares.now)
        (S.content squares.now id) result }
{
    let Quarters { nw, ne, sw, se } = divide(squares, id);
    match side {
        Side::North => Quarters { nw, ne, sw, se },
        Side::South => Quarters {
            nw: sw,
            ne: se,
            sw: nw,
            se: ne,
        },
        Side::West => Quarters {
            nw,
            ne: sw,
            sw: ne,
            se,
        },
        Side::East => Quarters {
            nw: ne,
            ne: se,
            sw: nw,
            se: sw,
        },
    }
}

/// The lesser of two distances, of which either may be none.
fn lesser(a: Option<u64>, b: Option<u64>) -> Option<u64>
    ensures { result ≡ lesser_of a b }
{
    match (a, b) {
        (None, _) => b,
        (_, None) => a,
        (Some(a), Some(b)) => Some(a.min(b)),
    }
}

/// The distance that is kept for a square of a level, or none.
fn kept(known: &IdMap<u64>, level: u8, id: Id) -> u64
    ensures { result ≢ UNKNOWN → result ≡ value_of_id known.now id }
{
    if level < LEAST_KEPT {
        UNKNOWN
    } else {
        known.get(id)
    }
}

/// Keeps the distance of a square of a level, unless that is too low.
fn keep(known: &mut IdMap<u64>, level: u8, id: Id, distance: u64) -> Result<(), Kind>
    ensures only { (q : IdValue) → (value_of_id known.new q ≡ value_of_id known.old q)
        ⊎ ((q ≡ id) × (value_of_id known.new q ≡ distance)) }
    ensures same { OnErr result ((q : IdValue) → value_of_id known.new q
        ≡ value_of_id known.old q) }
    ensures refusals { IfErr result IsMemory }
{
    if level < LEAST_KEPT {
        return Ok(());
    }
    known.set(id, distance)
}

/// The least distance in a square of a level, where `known` has those of squares that were visited.
#[cycle(find)]
fn find<S: Squares>(squares: &S, side: Side, level: u8, id: Id, known: &mut IdMap<u64>) -> Found
    requires known { S.knows squares.now id }
    requires level { level ≡ depth (S.content squares.now id) }
    requires right { AreLeast side (S.content squares.now) (value_of_id known.old) }
    ensures least { IfOk result (IsLeastOf (HasCellAt side (S.content squares.now id))) }
    ensures right { AreLeast side (S.content squares.now) (value_of_id known.new) }
    ensures refusals { IfErr result IsMemory }
{
    if is_blank_at(squares, level, id) {
        return Ok(None);
    }
    if level == 0 {
        return Ok(Some(0));
    }
    let distance = kept(known, level, id);
    if distance != UNKNOWN {
        return Ok(Some(distance));
    }
    let Quarters { nw, ne, sw, se } = facing(squares, side, id);
    if let Some(distance) = find_in_two(squares, side, level - 1, nw, ne, known)? {
        keep(known, level, id, distance)?;
        return Ok(Some(distance));
    }
    let Some(distance) = find_in_two(squares, side, level - 1, sw, se, known)? else {
        return Ok(None);
    };
    let distance = distance + half_side(level);
    keep(known, level, id, distance)?;
    Ok(Some(distance))
}

/// The least distance in two squares of a level side by side. Where a cell of the first touches the side, the second isn't visited.
#[cycle(find)]
fn find_in_two<S: Squares>(
    squares: &S,
    side: Side,
    level: u8,
    first: Id,
    second: Id,
    known: &mut IdMap<u64>,
) -> Found
    requires first { S.knows squares.now first }
    requires second { S.knows squares.now second }
    requires first_level { level ≡ depth (S.content squares.now first) }
    requires second_level { level ≡ depth (S.content squares.now second) }
    requires right { AreLeast side (S.content squares.now) (value_of_id known.old) }
    ensures least { IfOk result (IsLeastOf
        (HasCellInTwo side (S.content squares.now first) (S.content squares.now second))) }
    ensures right { AreLeast side (S.content squares.now) (value_of_id known.new) }
    ensures refusals { IfErr result IsMemory }
{
    let nearest = find(squares, side, level, first, known)?;
    if let Some(0) = nearest {
        return Ok(nearest);
    }
    let other = find(squares, side, level, second, known)?;
    Ok(lesser(nearest, other))
}
