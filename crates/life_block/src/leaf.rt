//! The next states of squares of level 3 amid others, and of a square of level 2 or 3 alone, by words of their cells.
ghost use Rattle.std.specs.Prelude.{◌≡◌, ◌+◌, ◌*◌, ℕ, ℤ, ◌<◌, ◌≤◌, IfOk, IfErr, OnErr};
ghost use Rattle.life_block.specs.Words.{tree_cell, depth, SomePart, next_life, next_square, HasRows, AreFourRows, leaf_of_cells, square_of_leaves, SomeOfSixteen, IsPiece, IsBinary, IsOfLevel, InFour, InSixteen, AreFour, AreSixteen, AddsOnly, KeepsStore, IsShortageIn};

use crate::leaf_words::{next_leaves, next_of_eight, next_of_four};
use life_base::{Kind, LifeRule};
use life_lanes::by_rows;
use life_pieces::{Four, Sixteen, cells_of_leaf, cells_of_small};
use life_quad::{Id, Squares};

// The cells of four squares of level 2 as `Squares::leaf` takes them.
fn leaf_number(cells: &Four<u16>) -> u64
    ensures number { result ≡ ((cells.now.first * 65536 + cells.now.second) * 65536
        + cells.now.third) * 65536 + cells.now.fourth }
    ensures fits { InFour (λ n. n < 65536) cells.now }
{
    let north = u64::from(cells.first) * 0x1_0000 + u64::from(cells.second);
    let south = u64::from(cells.third) * 0x1_0000 + u64::from(cells.fourth);
    north * 0x1_0000_0000 + south
}

// The square of four squares of level 2 with these cells.
fn leaf_of_cells<S: Squares>(squares: &mut S, cells: &Four<u16>) -> Result<Id, Kind>
    ensures at { IfOk result (IsOfLevel (S.knows squares.new) (S.content squares.new) 3) }
    ensures square { IfOk result (λ r. S.content squares.new r ≡ leaf_of_cells cells.now) }
    ensures keeps { KeepsStore S.Squares squares.old squares.new }
    ensures refusals { IfErr result (IsShortageIn S.Squares squares.new) }
    ensures needed { OnErr result (SomePart (S.needs_node squares.new) (leaf_of_cells cells.now)) }
    ensures adds { AddsOnly S.stored (λ P. SomePart P (leaf_of_cells cells.now)) squares.old
        squares.new }
{
    squares.leaf(leaf_number(cells))
}

// The square of four squares of level 3, each of four squares of level 2 with these cells.
fn square_of_leaves<S: Squares>(squares: &mut S, leaves: &Four<Four<u16>>) -> Result<Id, Kind>
    ensures at { IfOk result (IsOfLevel (S.knows squares.new) (S.content squares.new) 4) }
    ensures square { IfOk result (λ r. S.content squares.new r ≡ square_of_leaves leaves.now) }
    ensures keeps { KeepsStore S.Squares squares.old squares.new }
    ensures refusals { IfErr result (IsShortageIn S.Squares squares.new) }
    ensures needed { OnErr result
        (SomePart (S.needs_node squares.new) (square_of_leaves leaves.now)) }
    ensures adds { AddsOnly S.stored (λ P. SomePart P (square_of_leaves leaves.now)) squares.old
        squares.new }
{
    let nw = leaf_of_cells(squares, &leaves.first)?;
    let ne = leaf_of_cells(squares, &leaves.second)?;
    let sw = leaf_of_cells(squares, &leaves.third)?;
    let se = leaf_of_cells(squares, &leaves.fourth)?;
    squares.join(nw, ne, sw, se)
}

// The eight rows of cells of a square of level 3.
fn rows_of<S: Squares>(squares: &S, id: Id) -> u64
    requires { IsOfLevel (S.knows squares.now) (S.content squares.now) 3 id }
    ensures { (cells : ℤ → ℤ → ℕ) (x y : ℤ) → IsBinary cells
        → IsPiece cells x y (S.content squares.now id) → HasRows cells x y result }
{
    by_rows(cells_of_leaf(squares, id))
}

// The same of four squares.
fn rows_of_four<S: Squares>(squares: &S, four: &Four<Id>) -> Four<u64>
    requires { InFour (IsOfLevel (S.knows squares.now) (S.content squares.now) 3) four.now }
    ensures { (cells : ℤ → ℤ → ℕ) (x y : ℤ) → IsBinary cells
        → AreFour (S.content squares.now) cells 8 x y four.now
        → AreFourRows cells x y result }
{
    Four::of(
        rows_of(squares, four.first),
        rows_of(squares, four.second),
        rows_of(squares, four.third),
        rows_of(squares, four.fourth),
    )
}

/// The next states of the four squares of level 3 amid twelve others, as one square.
pub(crate) fn next_of_leaves<S: Squares>(
    squares: &mut S,
    rule: &LifeRule,
    sixteen: &Sixteen,
) -> Result<Id, Kind>
    requires { InSixteen (IsOfLevel (S.knows squares.old) (S.content squares.old) 3) sixteen.now }
    ensures at { IfOk result (IsOfLevel (S.knows squares.new) (S.content squares.new) 4) }
    ensures next { IfOk result (λ r. (cells : ℤ → ℤ → ℕ) (x y : ℤ) → IsBinary cells
        → AreSixteen (S.content squares.old) cells 8 x y sixteen.now
        → IsPiece (next_life rule.now cells) x y (S.content squares.new r)) }
    ensures keeps { KeepsStore S.Squares squares.old squares.new }
    ensures refusals { IfErr result (IsShortageIn S.Squares squares.new) }
    ensures needed { OnErr result (SomeOfSixteen (S.needs_node squares.new) rule.now
        (S.content squares.old) 3 sixteen.now) }
    ensures adds { AddsOnly S.stored
        (λ P. SomeOfSixteen P rule.now (S.content squares.old) 3 sixteen.now) squares.old
        squares.new }
{
    let rows = Four::of(
        rows_of_four(squares, &sixteen.first),
        rows_of_four(squares, &sixteen.second),
        rows_of_four(squares, &sixteen.third),
        rows_of_four(squares, &sixteen.fourth),
    );
    square_of_leaves(squares, &next_leaves(&rows, rule))
}

/// The next states of a square of level 2 or 3 about the middle of the plane and of the cells around it, as a square one level higher.
pub(crate) fn next_of_small<S: Squares>(
    squares: &mut S,
    rule: &LifeRule,
    id: Id,
) -> Result<Id, Kind>
    requires known { S.knows squares.old id }
    requires high { 2 ≤ depth (S.content squares.old id) }
    requires low { depth (S.content squares.old id) ≤ 3 }
    requires states { (x y : ℤ) → tree_cell (S.content squares.old id) x y < 2 }
    ensures known { IfOk result (S.knows squares.new) }
    ensures square { IfOk result
        (λ r. S.content squares.new r ≡ next_square rule.now (S.content squares.old id)) }
    ensures keeps { KeepsStore S.Squares squares.old squares.new }
    ensures refusals { IfErr result (IsShortageIn S.Squares squares.new) }
    ensures needed { OnErr result
        (SomePart (S.needs_node squares.new) (next_square rule.now (S.content squares.old id))) }
    ensures adds { AddsOnly S.stored
        (λ P. SomePart P (next_square rule.now (S.content squares.old id))) squares.old
        squares.new }
{
    if squares.level(id) == 2 {
        let cells = cells_of_small(squares, id);
        return leaf_of_cells(squares, &next_of_four(cells, rule));
    }
    let cells = cells_of_leaf(squares, id);
    square_of_leaves(squares, &next_of_eight(cells, rule))
}
