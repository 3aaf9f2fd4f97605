//! Cells, moved into their place, square by square.

ghost use Rattle.std.specs.Prelude.{◌≡◌, ◌⊎◌, ◌^◌, ◌≤◌, ◌+ℤ◌, ◌≤ℤ◌, ◌<ℤ◌, ℕ, pos, neg_ℤ, true, false, IfOk, MatchOption};
ghost use Rattle.life_forms.specs.Words.{MAX_LEVEL, Rule, IsOrdered, square_universe, IsInPlace, IsNearMiddle, depth, is_blank_tree, image, opposite_coordinate, turn_of, turned_tree, IsSquareBox, IsMovedRoot, SomeOfMovedRoot};
ghost use Rattle.life_quad.specs.Grows.{Grows};

use life_base::{Bounds, Kind};
use life_pattern::laws::{centred_squares_tell_cells, squares_are_centred};
use life_quad::{Id, SharedSquares, Squares};
use life_slide::{moved_on_plane, moved_to_middle};
use std::alloc::Global;

/// The first coordinate past the plane.
const EDGE: i64 = 1 << 61;

/// Whether a side of a box fits into half of the plane.
fn is_short(low: i64, high: i64) -> bool
    requires { IsOrdered low high }
    ensures short { result ≡ true → high <ℤ (low +ℤ pos (2 ^ 61)) }
    ensures long { result ≡ false → (low +ℤ pos (2 ^ 61)) ≤ℤ high }
{
    high - low < EDGE
}

/// How far a side of a box moves into its place.
fn side_way(low: i64, high: i64) -> i64
    requires { IsOrdered low high }
    ensures place { IsInPlace MAX_LEVEL (low +ℤ result) (high +ℤ result) }
    ensures near { IsNearMiddle MAX_LEVEL (neg_ℤ (pos (2 ^ 61)) +ℤ neg_ℤ result) }
{
    if high - low < EDGE {
        0 - low
    } else {
        EDGE - 1 - high
    }
}

/// How far a side of a box moves so that it is in its place once it is counted from the other side or not.
fn counted_way(last: bool, low: i64, high: i64) -> i64
    requires { IsOrdered low high }
    ensures place { last ≡ false → IsInPlace MAX_LEVEL (low +ℤ result) (high +ℤ result) }
    ensures opposite { last ≡ true → IsInPlace MAX_LEVEL (opposite_coordinate (high +ℤ result))
        (opposite_coordinate (low +ℤ result)) }
    ensures near { IsNearMiddle MAX_LEVEL (neg_ℤ (pos (2 ^ 61)) +ℤ neg_ℤ result) }
{
    if last {
        0 - side_way(-1 - high, -1 - low)
    } else {
        side_way(low, high)
    }
}

/// Whether both sides of a box fit into a quarter of the plane.
fn fits_quarter(found: &Bounds) -> bool
    requires columns { IsOrdered found.now.left found.now.right }
    requires rows { IsOrdered found.now.top found.now.bottom }
    ensures short { result ≡ true → (found.now.right <ℤ (found.now.left +ℤ pos (2 ^ 61)))
        × (found.now.bottom <ℤ (found.now.top +ℤ pos (2 ^ 61))) }
    ensures long { result ≡ false → ((found.now.left +ℤ pos (2 ^ 61)) ≤ℤ found.now.right)
        ⊎ ((found.now.top +ℤ pos (2 ^ 61)) ≤ℤ found.now.bottom) }
{
    if is_short(found.left, found.right) {
        return is_short(found.top, found.bottom);
    }
    false
}

/// The root of the cells of a square that has this bounding box, moved so that their image is in its place, in another store.
fn move_box<S: SharedSquares, T: Squares>(
    alloc: Global,
    from: &S,
    to: &mut T,
    root: Id,
    found: &Bounds,
    columns: bool,
    rows: bool,
    least: u8,
) -> Result<Id, Kind>
    requires known { S.knows from.now root }
    requires positive { 1 ≤ least }
    requires high { least ≤ depth (S.content from.now root) }
    requires bounds { IsSquareBox (S.content from.now root) found.now }
    ensures known { IfOk result (T.knows to.new) }
    ensures moved { IfOk result (λ id. (rule : Rule) (generation : ℕ) → IsMovedRoot
        (image (turn_of false columns rows)
        (square_universe rule generation (S.content from.now root)))
        least (turned_tree (turn_of false columns rows) (T.content to.new id))) }
    ensures grows { Grows T.Squares to.old to.new result (λ P. (rule : Rule) (generation : ℕ)
        → SomeOfMovedRoot (λ t. P (turned_tree (turn_of false columns rows) t))
        (image (turn_of false columns rows)
        (square_universe rule generation (S.content from.now root))) least) }
{
    squares_are_centred();
    centred_squares_tell_cells();
    if fits_quarter(found) {
        return moved_to_middle(alloc, from, to, root, found, columns, rows, least);
    }
    let x = counted_way(columns, found.left, found.right);
    let y = counted_way(rows, found.top, found.bottom);
    moved_on_plane(alloc, from, to, root, x, y)
}

/// The root of the cells of a square, moved so that their image with columns and rows counted from the other side or not is in its place, in another store:
/// the square of the whole plane, trimmed down to this least level at most. `found` is the bounding box of the cells. The image is not made.
///
/// # Errors
///
/// `Full` where the other store holds its limit and lacks the root or a part of it, and `Memory`. After either each Id has its square.
pub(crate) fn moved_root<S: SharedSquares, T: Squares>(
    alloc: Global,
    from: &S,
    to: &mut T,
    root: Id,
    found: &Option<Bounds>,
    columns: bool,
    rows: bool,
    least: u8,
) -> Result<Id, Kind>
    requires known { S.knows from.now root }
    requires positive { 1 ≤ least }
    requires high { least ≤ depth (S.content from.now root) }
    requires bounds { MatchOption found.now (is_blank_tree (S.content from.now root) ≡ true)
        (IsSquareBox (S.content from.now root)) }
    ensures known { IfOk result (T.knows to.new) }
    ensures moved { IfOk result (λ id. (rule : Rule) (generation : ℕ) → IsMovedRoot
        (image (turn_of false columns rows)
        (square_universe rule generation (S.content from.now root)))
        least (turned_tree (turn_of false columns rows) (T.content to.new id))) }
    ensures grows { Grows T.Squares to.old to.new result (λ P. (rule : Rule) (generation : ℕ)
        → SomeOfMovedRoot (λ t. P (turned_tree (turn_of false columns rows) t))
        (image (turn_of false columns rows)
        (square_universe rule generation (S.content from.now root))) least) }
{
    squares_are_centred();
    centred_squares_tell_cells();
    match found {
        None => Ok(to.empty(least)),
        Some(found) => move_box(alloc, from, to, root, found, columns, rows, least),
    }
}
