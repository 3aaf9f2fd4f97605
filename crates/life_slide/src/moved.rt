//! Squares, moved on the plane.
ghost use Rattle.std.specs.Prelude.{◌≡◌, ◌⊎◌, pos, neg_ℤ, ◌+ℤ◌, ◌<ℤ◌, ◌≤ℤ◌, ◌+◌, ◌-◌, ◌^◌, ◌<◌, ◌≤◌, IfOk, IfErr, OnErr};
ghost use Rattle.life_slide.specs.Words.{MAX_LEVEL, SomePart, depth, IsBoundingBoxOfTree, plane_from, root_from, side_origin, side_start, IsNearMiddle, AddsOnly, KeepsStore, IsShortageIn};

use crate::plane::{in_corner, square_at};
use life_base::{Bounds, Kind, MAX_LEVEL};
use life_quad::{Id, SharedSquares, Squares};
use std::alloc::Global;

/// The first coordinate past the plane.
const HALF_PLANE: i64 = 1 << 61;

// The least level from this one on of a square with this column, counted from 0.
fn level_of_side(last: u64, level: u8) -> u8
    requires low { level ≤ 61 }
    requires near { last < 2 ^ 61 }
    ensures from { level ≤ result }
    ensures high { result ≤ 61 }
    ensures fits { last < 2 ^ result }
    ensures least { (result ≡ level) ⊎ (2 ^ (result - 1) ≤ last) }
{
    if last < 1 << level {
        return level;
    }
    level_of_side(last, level + 1)
}

// How far the second of two coordinates is from the first.
fn distance(low: i64, high: i64) -> u64
    requires order { low ≤ℤ high }
    requires near { high <ℤ (low +ℤ pos (2 ^ 61)) }
    ensures distance { low +ℤ pos result ≡ high }
    ensures near { result < 2 ^ 61 }
{
    (high - low) as u64
}

// The greater of two numbers.
fn greater(a: u64, b: u64) -> u64
    ensures first { a ≤ result }
    ensures second { b ≤ result }
    ensures one { (result ≡ a) ⊎ (result ≡ b) }
{
    if a < b { b } else { a }
}

// How many columns a square of this level has.
fn side_length(level: u8) -> i64
    requires { level ≤ 61 }
    ensures side { result ≡ pos (2 ^ level) }
    ensures some { pos 1 ≤ℤ result }
    ensures most { result ≤ℤ pos (2 ^ 61) }
{
    1 << level
}

// Where a side of a square begins that has the beginning of a side of a box at its beginning, or the end at its end.
fn start_at(last: bool, low: i64, high: i64, level: u8) -> i64
    requires level { level ≤ 61 }
    requires low { neg_ℤ (pos (2 ^ 61)) ≤ℤ low }
    requires order { low ≤ℤ high }
    requires high { high <ℤ pos (2 ^ 61) }
    ensures { result ≡ side_start last low high level }
{
    if last {
        high + 1 - side_length(level)
    } else {
        low
    }
}

/// The root of a square's cells, moved so that their bounding box has a corner at the middle of the plane, in another store: the plane of the moved cells,
/// trimmed, but not below this level. Columns begin at 0, or end at -1 if `columns` is true, and so do rows. Each square that is stored there is that root
/// or a part of it.
///
/// # Errors
///
/// `Full` if the other store holds its limit and lacks such a square, or `Memory`. After an error each Id has its square.
pub fn moved_to_middle<S: SharedSquares, T: Squares>(
    alloc: Global,
    from: &S,
    to: &mut T,
    id: Id,
    found: &Bounds,
    columns: bool,
    rows: bool,
    least: u8,
) -> Result<Id, Kind>
    requires known { S.knows from.now id }
    requires bounds { IsBoundingBoxOfTree (S.content from.now id) found.now }
    requires columns { found.now.right <ℤ (found.now.left +ℤ pos (2 ^ 61)) }
    requires rows { found.now.bottom <ℤ (found.now.top +ℤ pos (2 ^ 61)) }
    requires positive { 1 ≤ least }
    requires high { least ≤ depth (S.content from.now id) }
    ensures known { IfOk result (T.knows to.new) }
    ensures square { IfOk result (λ r. T.content to.new r
        ≡ root_from (S.content from.now id) (side_origin columns found.now.left found.now.right)
        (side_origin rows found.now.top found.now.bottom) least) }
    ensures keeps { KeepsStore T.Squares to.old to.new }
    ensures refusals { IfErr result (IsShortageIn T.Squares to.new) }
    ensures needed { OnErr result (SomePart (T.needs_node to.new)
        (root_from (S.content from.now id) (side_origin columns found.now.left found.now.right)
        (side_origin rows found.now.top found.now.bottom) least)) }
    ensures adds { AddsOnly T.stored (λ P. SomePart P
        (root_from (S.content from.now id) (side_origin columns found.now.left found.now.right)
        (side_origin rows found.now.top found.now.bottom) least)) to.old to.new }
{
    let width = distance(found.left, found.right);
    let height = distance(found.top, found.bottom);
    let level = level_of_side(greater(width, height), least - 1);
    let x = start_at(columns, found.left, found.right, level);
    let y = start_at(rows, found.top, found.bottom, level);
    let quarter = square_at(alloc, from, to, id, level, x, y)?;
    let four = in_corner(!columns, !rows, quarter, to.empty(level));
    to.join(four.nw, four.ne, four.sw, four.se)
}

/// The square of the whole plane whose cells are those of another one, moved so many columns east and rows south, as far as they stay on the plane; in
/// another store. Each square that is stored there is part of that one.
///
/// # Errors
///
/// `Full` if the other store holds its limit and lacks a part of that square, or `Memory`. After an error each Id has its square.
pub fn moved_on_plane<S: SharedSquares, T: Squares>(
    alloc: Global,
    from: &S,
    to: &mut T,
    id: Id,
    columns: i64,
    rows: i64,
) -> Result<Id, Kind>
    requires known { S.knows from.now id }
    requires whole { depth (S.content from.now id) ≡ MAX_LEVEL }
    requires column { IsNearMiddle MAX_LEVEL (neg_ℤ (pos (2 ^ 61)) +ℤ neg_ℤ columns) }
    requires row { IsNearMiddle MAX_LEVEL (neg_ℤ (pos (2 ^ 61)) +ℤ neg_ℤ rows) }
    ensures known { IfOk result (T.knows to.new) }
    ensures square { IfOk result (λ r. T.content to.new r
        ≡ plane_from (S.content from.now id) (neg_ℤ columns) (neg_ℤ rows)) }
    ensures keeps { KeepsStore T.Squares to.old to.new }
    ensures refusals { IfErr result (IsShortageIn T.Squares to.new) }
    ensures needed { OnErr result (SomePart (T.needs_node to.new)
        (plane_from (S.content from.now id) (neg_ℤ columns) (neg_ℤ rows))) }
    ensures adds { AddsOnly T.stored (λ P. SomePart P
        (plane_from (S.content from.now id) (neg_ℤ columns) (neg_ℤ rows))) to.old to.new }
{
    square_at(
        alloc,
        from,
        to,
        id,
        MAX_LEVEL,
        -HALF_PLANE - columns,
        -HALF_PLANE - rows,
    )
}
