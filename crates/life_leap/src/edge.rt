//! The next generation of the whole plane, where a pattern reaches its edge: the quarters of the plane amid twelve blank squares give nine squares of the next
//! generation. If one of the squares of level 60 around the plane isn't blank, a cell has left the plane.
ghost use Rattle.std.specs.Prelude.{◌≡◌, ℕ, ℤ, ◌+◌, ◌-◌, ◌^◌, ◌<◌, ◌≤◌, ◌⊎◌, ◌&&◌, false, IfOk, IfErr};
ghost use Rattle.life_leap.specs.Words.{after, AreThreeSquares, AreNineSquares, AreTripleFrom, has_digit, HasCellOutside, IsInBox, IsInRing, is_blank_tree, OutOfPlane, step_ahead, TestsBlank, three_ahead, tree_cell, AreSixteenSquares, InRow, IsBlankSquareBeyond, IsPiece, step_back, IsOfLevel, InTriple, InFourIds, IsMiddleOfBlock, IsMiddleOfNine, OuterTotalistic, KeepsStore, IsShortageIn};

use crate::grid::{Nine, Row, Sixteen, Triple};
use crate::leap::{inner_block, nine_after};
use life_base::{Kind, LifeRule, MAX_LEVEL};
use life_quad::{Id, IdMap, Quarters, SharedSquares, Squares, divide, is_blank_at};
use std::alloc::Global;

/// The square in the middle of a block of two by two squares of this level, in the same generation.
fn centre<S: Squares>(squares: &mut S, level: u8, block: &Quarters) -> Result<Id, Kind>
    requires known { InFourIds (IsOfLevel (S.knows squares.old)
        (S.content squares.old) level) block.now }
    requires low { 3 ≤ level }
    requires high { level < MAX_LEVEL }
    ensures at { IfOk result (IsOfLevel (S.knows squares.new) (S.content squares.new) level) }
    ensures later { IfOk result (λ r. (rule : OuterTotalistic) → IsMiddleOfBlock rule 0
        (2 ^ (level - 1)) (S.content squares.old) level block.now (S.content squares.new r)) }
    ensures keeps { KeepsStore S.Squares squares.old squares.new }
    ensures refusals { IfErr result (IsShortageIn S.Squares squares.new) }
{
    let inner = inner_block(&*squares, level, block);
    squares.join(inner.nw, inner.ne, inner.sw, inner.se)
}

/// The square in the middle of nine squares of this level, one level higher and in the same generation.
pub(crate) fn inner_of_nine<S: Squares>(squares: &mut S, level: u8, nine: &Nine) -> Result<Id, Kind>
    requires known { InTriple (InTriple (IsOfLevel (S.knows squares.old)
        (S.content squares.old) level)) nine.now }
    requires low { 3 ≤ level }
    requires high { level < MAX_LEVEL }
    ensures at { IfOk result (IsOfLevel (S.knows squares.new) (S.content squares.new) (level + 1)) }
    ensures later { IfOk result (λ r. (rule : OuterTotalistic) → IsMiddleOfNine rule 0
        (2 ^ (level - 1)) (S.content squares.old) level nine.now (S.content squares.new r)) }
    ensures keeps { KeepsStore S.Squares squares.old squares.new }
    ensures refusals { IfErr result (IsShortageIn S.Squares squares.new) }
{
    let north_west = nine.first.western(&nine.second);
    let north_east = nine.first.eastern(&nine.second);
    let south_west = nine.second.western(&nine.third);
    let south_east = nine.second.eastern(&nine.third);
    let nw = centre(squares, level, &north_west)?;
    let ne = centre(squares, level, &north_east)?;
    let sw = centre(squares, level, &south_west)?;
    let se = centre(squares, level, &south_east)?;
    squares.join(nw, ne, sw, se)
}

/// The quarters of a square amid twelve blank squares. The square is one level above this one.
pub(crate) fn amid_blank<S: Squares>(squares: &S, level: u8, id: Id) -> Sixteen
    requires known { IsOfLevel (S.knows squares.now) (S.content squares.now) (level + 1) id }
    requires high { level < MAX_LEVEL }
    ensures known { InRow (InRow (IsOfLevel (S.knows squares.now)
        (S.content squares.now) level)) result }
    ensures pieces { (cells : ℤ → ℤ → ℕ) (start : ℤ)
        → IsPiece cells start start (S.content squares.now id)
        → IsBlankSquareBeyond cells start (2 ^ (level + 1))
        → AreSixteenSquares (S.content squares.now) cells (2 ^ level) (step_back start (2 ^ level))
        (step_back start (2 ^ level)) result }
{
    let Quarters { nw, ne, sw, se } = divide(squares, id);
    let b = squares.empty(level);
    let blank = Row {
        first: b,
        second: b,
        third: b,
        fourth: b,
    };
    let north = Row {
        first: b,
        second: nw,
        third: ne,
        fourth: b,
    };
    let south = Row {
        first: b,
        second: sw,
        third: se,
        fourth: b,
    };
    Row {
        first: blank,
        second: north,
        third: south,
        fourth: blank,
    }
}

/// Whether two squares of this level are blank.
fn are_two_blank<S: Squares>(squares: &S, level: u8, a: Id, b: Id) -> bool
    requires a { IsOfLevel (S.knows squares.now) (S.content squares.now) level a }
    requires b { IsOfLevel (S.knows squares.now) (S.content squares.now) level b }
    ensures { result ≡ (is_blank_tree (S.content squares.now a) && is_blank_tree
        (S.content squares.now b)) }
{
    is_blank_at(squares, level, a) && is_blank_at(squares, level, b)
}

/// Whether both tests passed.
fn both(first: bool, second: bool) -> bool
    ensures { result ≡ (first && second) }
{
    first && second
}

/// Whether the northern half of each of three squares side by side is blank. The squares are one level above this one.
fn are_north_halves_blank<S: Squares>(squares: &S, level: u8, row: &Triple<Id>) -> bool
    requires { InTriple (IsOfLevel (S.knows squares.now) (S.content squares.now)
        (level + 1)) row.now }
    ensures { (cells : ℤ → ℤ → ℕ) (x y : ℤ)
        → AreThreeSquares (S.content squares.now) cells (2 ^ (level + 1)) x y row.now
        → TestsBlank cells (IsInBox x y (three_ahead x (2 ^ (level + 1))) (step_ahead y
        (2 ^ level))) result }
{
    let west = divide(squares, row.first);
    let middle = divide(squares, row.second);
    let east = divide(squares, row.third);
    let first = are_two_blank(squares, level, west.nw, west.ne);
    let second = are_two_blank(squares, level, middle.nw, middle.ne);
    let third = are_two_blank(squares, level, east.nw, east.ne);
    both(first, both(second, third))
}

/// The same for their southern halves.
fn are_south_halves_blank<S: Squares>(squares: &S, level: u8, row: &Triple<Id>) -> bool
    requires { InTriple (IsOfLevel (S.knows squares.now) (S.content squares.now)
        (level + 1)) row.now }
    ensures { (cells : ℤ → ℤ → ℕ) (x y : ℤ)
        → AreThreeSquares (S.content squares.now) cells (2 ^ (level + 1)) x y row.now
        → TestsBlank cells (IsInBox x (step_ahead y (2 ^ level)) (three_ahead x (2 ^ (level + 1)))
        (step_ahead y (2 ^ (level + 1)))) result }
{
    let west = divide(squares, row.first);
    let middle = divide(squares, row.second);
    let east = divide(squares, row.third);
    let first = are_two_blank(squares, level, west.sw, west.se);
    let second = are_two_blank(squares, level, middle.sw, middle.se);
    let third = are_two_blank(squares, level, east.sw, east.se);
    both(first, both(second, third))
}

/// Whether the western half of each of three squares one below the other is blank. The squares are one level above this one.
fn are_west_halves_blank<S: Squares>(squares: &S, level: u8, column: &Triple<Id>) -> bool
    requires { InTriple (IsOfLevel (S.knows squares.now) (S.content squares.now)
        (level + 1)) column.now }
    ensures { (cells : ℤ → ℤ → ℕ) (x y : ℤ)
        → AreTripleFrom (λ row id. IsPiece cells x row (S.content squares.now id))
        (2 ^ (level + 1)) y column.now
        → TestsBlank cells (IsInBox x y (step_ahead x (2 ^ level)) (three_ahead y (2 ^
        (level + 1)))) result }
{
    let north = divide(squares, column.first);
    let middle = divide(squares, column.second);
    let south = divide(squares, column.third);
    let first = are_two_blank(squares, level, north.nw, north.sw);
    let second = are_two_blank(squares, level, middle.nw, middle.sw);
    let third = are_two_blank(squares, level, south.nw, south.sw);
    both(first, both(second, third))
}

/// The same for their eastern halves.
fn are_east_halves_blank<S: Squares>(squares: &S, level: u8, column: &Triple<Id>) -> bool
    requires { InTriple (IsOfLevel (S.knows squares.now) (S.content squares.now)
        (level + 1)) column.now }
    ensures { (cells : ℤ → ℤ → ℕ) (x y : ℤ)
        → AreTripleFrom (λ row id. IsPiece cells x row (S.content squares.now id))
        (2 ^ (level + 1)) y column.now
        → TestsBlank cells (IsInBox (step_ahead x (2 ^ level)) y (step_ahead x (2 ^ (level + 1)))
        (three_ahead y (2 ^ (level + 1)))) result }
{
    let north = divide(squares, column.first);
    let middle = divide(squares, column.second);
    let south = divide(squares, column.third);
    let first = are_two_blank(squares, level, north.ne, north.se);
    let second = are_two_blank(squares, level, middle.ne, middle.se);
    let third = are_two_blank(squares, level, south.ne, south.se);
    both(first, both(second, third))
}

/// Whether the ring of squares of this level around a square is blank. The ring is the outer halves of the outer ones of nine squares, which are one level
/// higher, and the square is what their inner halves make with the square in the middle.
fn is_ring_blank<S: Squares>(squares: &S, level: u8, nine: &Nine) -> bool
    requires { InTriple (InTriple (IsOfLevel (S.knows squares.now) (S.content squares.now)
        (level + 1))) nine.now }
    ensures { (cells : ℤ → ℤ → ℕ) (start : ℤ)
        → AreNineSquares (S.content squares.now) cells (2 ^ (level + 1))
        (step_back start (2 ^ level)) (step_back start (2 ^ level)) nine.now
        → TestsBlank cells (IsInRing start (2 ^ (level + 2)) (2 ^ level)) result }
{
    let western = Triple {
        first: nine.first.first,
        second: nine.second.first,
        third: nine.third.first,
    };
    let eastern = Triple {
        first: nine.first.third,
        second: nine.second.third,
        third: nine.third.third,
    };
    let north = are_north_halves_blank(squares, level, &nine.first);
    let south = are_south_halves_blank(squares, level, &nine.third);
    let west = are_west_halves_blank(squares, level, &western);
    let east = are_east_halves_blank(squares, level, &eastern);
    both(north, both(south, both(west, east)))
}

/// The next generation of the square of the whole plane.
///
/// # Errors
///
/// `OutOfPlane` if a cell outside the plane would not be 0. `Full` if the store has reached its limit, and `Memory` if memory ran out, before that is known.
pub(crate) fn next_of_plane<S: SharedSquares>(
    alloc: Global,
    squares: &mut S,
    rule: &LifeRule,
    id: Id,
) -> Result<Id, Kind>
    requires known { IsOfLevel (S.knows squares.old) (S.content squares.old) MAX_LEVEL id }
    requires states { (x y : ℤ) → tree_cell (S.content squares.old id) x y < 2 }
    requires quiet { has_digit rule.now.sets.births 0 ≡ false }
    ensures at { IfOk result (IsOfLevel (S.knows squares.new) (S.content squares.new) MAX_LEVEL) }
    ensures later { IfOk result (λ r. (x y : ℤ) → tree_cell (S.content squares.new r) x y
        ≡ after rule.now 1 (tree_cell (S.content squares.old id)) x y) }
    ensures stays { IfOk result
        (λ _. ¬ (HasCellOutside (after rule.now 1 (tree_cell (S.content squares.old id))))) }
    ensures keeps { KeepsStore S.Squares squares.old squares.new }
    ensures refusals { IfErr result (λ kind. IsShortageIn S.Squares squares.new kind
        ⊎ ((kind ≡ OutOfPlane) × HasCellOutside (after rule.now 1 (tree_cell
        (S.content squares.old id))))) }
{
    let level = MAX_LEVEL - 1;
    let sixteen = amid_blank(&*squares, level, id);
    let mut memory = IdMap::new(alloc, None);
    let nine = nine_after(squares, &mut memory, rule, 0, level, &sixteen, &None)?;
    if is_ring_blank(&*squares, level - 1, &nine) {
        return inner_of_nine(squares, level, &nine);
    }
    Err(Kind::OutOfPlane)
}
