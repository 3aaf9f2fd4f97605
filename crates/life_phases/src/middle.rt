//! Patterns, moved to the middle of the plane.
ghost use Rattle.std.specs.Prelude.{◌≡◌, true, ◌-◌, ◌≤◌, ◌^◌, pos, neg_ℤ, ◌+ℤ◌, ◌<ℤ◌, ◌≤ℤ◌, IfOk, IfErr};
ghost use Rattle.life_phases.specs.Words.{depth, tree_cell, IsBoundingBoxOfTree, IsBoxOnPlane, IsMiddleSide, IsSquareInMiddle, AreAsLarge, IsMiddleWay, IsMovedBy, KeepsStore, IsShortageIn};

use life_base::{Bounds, Kind};
use life_quad::laws::trimming_keeps_cells;
use life_quad::{Id, SharedSquares, Squares, trim};
use life_slide::square_at;
use std::alloc::Global;

/// The least level to which a square in the middle is trimmed. The next generation requires this level or more.
pub(crate) const LEAST_LEVEL: u8 = 3;

/// How far cells move: so many columns east and so many rows south.
#[derive(Clone, Copy, Debug, PartialEq, Eq)]
pub struct Shift {
    pub columns: i64,
    pub rows: i64,
}

/// How far a side of a box moves until it has as many coordinates below 0 as from 0 on, or one fewer there.
fn side_to_middle(low: i64, high: i64) -> i64
    requires low { neg_ℤ (pos (2 ^ 61)) ≤ℤ low }
    requires order { low ≤ℤ high }
    requires high { high <ℤ pos (2 ^ 61) }
    ensures { IsMiddleSide (low +ℤ result) (high +ℤ result) }
{
    let half = ((high - low) as u64 + 1) / 2;
    0 - low - half as i64
}

/// How far a box moves to the middle of the plane.
pub fn way_to_middle(found: &Bounds) -> Shift
    requires plane { IsBoxOnPlane found.now }
    requires columns { found.now.left ≤ℤ found.now.right }
    requires rows { found.now.top ≤ℤ found.now.bottom }
    ensures { IsMiddleWay found.now result }
{
    Shift {
        columns: side_to_middle(found.left, found.right),
        rows: side_to_middle(found.top, found.bottom),
    }
}

/// Whether two boxes on the plane have as many columns, and as many rows.
pub(crate) fn are_as_large(a: &Bounds, b: &Bounds) -> bool
    requires a { IsBoxOnPlane a.now }
    requires b { IsBoxOnPlane b.now }
    ensures { AreAsLarge a.now b.now → result ≡ true }
{
    a.right - a.left == b.right - b.left && a.bottom - a.top == b.bottom - b.top
}

/// Half of the side of a square of this level.
fn half_side(level: u8) -> i64
    requires low { 1 ≤ level }
    requires high { level ≤ 62 }
    ensures { result ≡ pos (2 ^ (level - 1)) }
{
    1 << (level - 1)
}

/// The cells of a square, moved to the middle of the plane and without blank outer parts, in another store. `found` is their bounding box, and `way` is how
/// far it moves.
///
/// # Errors
///
/// `Full` if the other store has reached its limit, and `Memory` if memory ran out. After an error each Id still has its square.
pub fn in_middle<S: SharedSquares, T: Squares>(
    alloc: Global,
    from: &S,
    to: &mut T,
    id: Id,
    found: &Bounds,
    way: Shift,
) -> Result<Id, Kind>
    requires known { S.knows from.now id }
    requires low { 3 ≤ depth (S.content from.now id) }
    requires bounds { IsBoundingBoxOfTree (S.content from.now id) found.now }
    requires way { IsMiddleWay found.now way }
    ensures known { IfOk result (T.knows to.new) }
    ensures middle { IfOk result (λ r. IsSquareInMiddle (T.content to.new r)) }
    ensures moved { IfOk result (λ r. IsMovedBy way.columns way.rows
        (tree_cell (S.content from.now id)) (tree_cell (T.content to.new r))) }
    ensures keeps { KeepsStore T.Squares to.old to.new }
    ensures refusals { IfErr result (IsShortageIn T.Squares to.new) }
{
    trimming_keeps_cells();
    let level = from.level(id);
    let corner = 0 - half_side(level);
    let x = corner - way.columns;
    let y = corner - way.rows;
    let square = square_at(alloc, from, to, id, level, x, y)?;
    trim(to, square, LEAST_LEVEL)
}
