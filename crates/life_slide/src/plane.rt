//! A square of the plane of a square.
ghost use Rattle.std.specs.Prelude.{◌≡◌, ◌≢◌, ℕ, ℤ, pos, neg_ℤ, ◌+ℤ◌, ◌<ℤ◌, suc, ◌+◌, ◌-◌, ◌^◌, ◌<◌, ◌≤◌, true, false, IfOk, IfErr, IfSome, OnErr};
ghost use Rattle.life_slide.specs.Words.{MAX_LEVEL, SomePart, depth, tree_cell, HasBlockAt, InBlock, IsPiece, IsOfLevel, eight, own_square_at, in_corner, IsNearMiddle, AddsOnly, KeepsStore, IsShortageIn};

use crate::leaf::leaf_of_block;
use crate::margins::half_side;
use crate::slide::{Offset, slid, window};
use life_base::{Kind, MAX_LEVEL};
use life_quad::{Id, Quarters, SharedSquares, Squares};
use std::alloc::Global;

/// The level of a leaf.
const LEAF: u8 = 3;

// Where a coordinate is in two squares side by side, of which one is about the middle of the plane: whether that is the second, and how far the
// coordinate is from where the first begins.
fn placed(place: i64, level: u8) -> (bool, u64)
    requires low { 1 ≤ level }
    requires high { level ≤ MAX_LEVEL }
    requires near { IsNearMiddle level place }
    ensures first { result.0 ≡ false → pos result.1 ≡ (place +ℤ pos (2 ^ (level - 1))) }
    ensures second { result.0 ≡ true
        → pos result.1 ≡ (place +ℤ pos (2 ^ (level - 1) + 2 ^ (level - 1) + 2 ^ (level - 1))) }
    ensures within { result.1 < 2 ^ level }
{
    let half = half_side(level) as i64;
    let from = place + half;
    if from < 0 {
        (true, (from + half + half) as u64)
    } else {
        (false, from as u64)
    }
}

// A square in one corner of four, two by two, and another square everywhere else.
pub(crate) fn in_corner(east: bool, south: bool, id: Id, other: Id) -> Quarters
    ensures { result ≡ in_corner east south id other }
{
    Quarters {
        nw: if !east && !south { id } else { other },
        ne: if east && !south { id } else { other },
        sw: if !east && south { id } else { other },
        se: if east && south { id } else { other },
    }
}

// The square of a level of the plane of a square's cells that begins in the column x and the row y: how far it begins from the first of four squares of
// that level, two by two, as far as their side length leaves of these numbers, and the four.
fn block_at<S: Squares>(squares: &S, id: Id, level: u8, x: i64, y: i64) -> (Offset, Quarters)
    requires known { S.knows squares.now id }
    requires high { 1 ≤ depth (S.content squares.now id) }
    requires low { level ≤ depth (S.content squares.now id) }
    requires column { IsNearMiddle (depth (S.content squares.now id)) x }
    requires row { IsNearMiddle (depth (S.content squares.now id)) y }
    ensures known { InBlock (IsOfLevel (S.knows squares.now) (S.content squares.now) level)
        result.1 }
    ensures begins { HasBlockAt (S.content squares.now) (tree_cell (S.content squares.now id))
        result.0.columns result.0.rows level x y result.1 }
{
    let whole = squares.level(id);
    let blank = squares.empty(whole);
    let column = placed(x, whole);
    let row = placed(y, whole);
    let around = in_corner(column.0, row.0, id, blank);
    let offset = Offset {
        columns: column.1,
        rows: row.1,
    };
    let block = window(squares, offset, whole, level, &around);
    (offset, block)
}

/// The square of a level of the plane of a square's cells that begins in the column x and the row y, in another store. Each square that is stored there is
/// part of that one.
///
/// # Errors
///
/// `Full` if the other store holds its limit and lacks a part of that square, or `Memory`. After an error each Id has its square.
pub fn square_at<S: SharedSquares, T: Squares>(
    alloc: Global,
    from: &S,
    to: &mut T,
    id: Id,
    level: u8,
    x: i64,
    y: i64,
) -> Result<Id, Kind>
    requires known { S.knows from.now id }
    requires high { 1 ≤ depth (S.content from.now id) }
    requires low { level ≤ depth (S.content from.now id) }
    requires column { IsNearMiddle (depth (S.content from.now id)) x }
    requires row { IsNearMiddle (depth (S.content from.now id)) y }
    ensures at { IfOk result (IsOfLevel (T.knows to.new) (T.content to.new) level) }
    ensures square { IfOk result
        (λ r. IsPiece (tree_cell (S.content from.now id)) x y (T.content to.new r)) }
    ensures keeps { KeepsStore T.Squares to.old to.new }
    ensures refusals { IfErr result (IsShortageIn T.Squares to.new) }
    ensures needed { OnErr result (SomePart (T.needs_node to.new)
        (own_square_at (S.content from.now id) level x y)) }
    ensures adds { AddsOnly T.stored
        (λ P. SomePart P (own_square_at (S.content from.now id) level x y)) to.old to.new }
{
    let (offset, block) = block_at(from, id, level, x, y);
    slid(alloc, from, to, offset, level, &block)
}

/// The cells of the square of level 3 of the plane of a square's cells that begins in the column x and the row y, as `Squares::leaf` takes them, where the
/// store gives those of the squares of level 3. No square is made.
pub fn leaf_at<S: Squares>(squares: &S, id: Id, x: i64, y: i64) -> Option<u64>
    requires known { S.knows squares.now id }
    requires high { 3 ≤ depth (S.content squares.now id) }
    requires column { IsNearMiddle (depth (S.content squares.now id)) x }
    requires row { IsNearMiddle (depth (S.content squares.now id)) y }
    ensures { IfSome result
        (λ leaf. eight leaf ≡ own_square_at (S.content squares.now id) 3 x y) }
{
    let (offset, block) = block_at(squares, id, LEAF, x, y);
    leaf_of_block(squares, offset, LEAF, &block)
}
