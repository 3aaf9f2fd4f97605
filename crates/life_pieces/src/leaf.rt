//! The cells of small squares, which have the states 0 and 1 and are pieces of a plane.
ghost use Rattle.std.specs.Prelude.{◌<◌};
ghost use Rattle.life_pieces.specs.Words.{IsOfLevel, IsWhereBinary, eight, four, point, two};

use life_quad::{Id, Quarters, Squares, divide};

/// The state of a square of level 0. Its only cell is 0 or 1.
fn one_cell<S: Squares>(squares: &S, id: Id) -> u16
    requires { IsOfLevel (S.knows squares.now) (S.content squares.now) 0 id }
    ensures small { result < 2 }
    ensures square { IsWhereBinary (S.content squares.now id) (point result) }
{
    match squares.state(id) {
        Some(state) => u16::from(state) % 2,
        None => unreachable!(),
    }
}

/// The cells of a square of level 1. The north-western cell is the highest bit.
fn two_by_two<S: Squares>(squares: &S, id: Id) -> u16
    requires { IsOfLevel (S.knows squares.now) (S.content squares.now) 1 id }
    ensures small { result < 16 }
    ensures square { IsWhereBinary (S.content squares.now id) (two result) }
{
    let Quarters { nw, ne, sw, se } = divide(squares, id);
    one_cell(squares, nw) * 8
        + one_cell(squares, ne) * 4
        + one_cell(squares, sw) * 2
        + one_cell(squares, se)
}

/// The cells of a square of level 2, read one by one. It is never inlined, so that the usual path through `Squares::small_cells` stays short.
#[inline(never)]
fn four_by_four<S: Squares>(squares: &S, id: Id) -> u16
    requires { IsOfLevel (S.knows squares.now) (S.content squares.now) 2 id }
    ensures { IsWhereBinary (S.content squares.now id) (four result) }
{
    let Quarters { nw, ne, sw, se } = divide(squares, id);
    two_by_two(squares, nw) * 4096
        + two_by_two(squares, ne) * 256
        + two_by_two(squares, sw) * 16
        + two_by_two(squares, se)
}

/// The cells of a square of level 2, in the order of `Squares::small_cells`, if they have the states 0 and 1. Of any other square the answer means nothing.
pub fn cells_of_small<S: Squares>(squares: &S, id: Id) -> u64
    requires { IsOfLevel (S.knows squares.now) (S.content squares.now) 2 id }
    ensures small { result < 65536 }
    ensures square { IsWhereBinary (S.content squares.now id) (four result) }
{
    match squares.small_cells(id) {
        Some(cells) => u64::from(cells),
        None => u64::from(four_by_four(squares, id)),
    }
}

/// The cells of a square of level 3, read by quarters. It is never inlined, so that the usual path through `Squares::leaf_cells` stays short.
#[inline(never)]
fn eight_by_eight<S: Squares>(squares: &S, id: Id) -> u64
    requires { IsOfLevel (S.knows squares.now) (S.content squares.now) 3 id }
    ensures { IsWhereBinary (S.content squares.now id) (eight result) }
{
    let Quarters { nw, ne, sw, se } = divide(squares, id);
    let a = cells_of_small(squares, nw);
    let b = cells_of_small(squares, ne);
    let c = cells_of_small(squares, sw);
    let d = cells_of_small(squares, se);
    ((a * 65_536 + b) * 65_536 + c) * 65_536 + d
}

/// The cells of a square of level 3, in the order of `Squares::leaf_cells`, if they have the states 0 and 1. Of any other square the answer means nothing.
pub fn cells_of_leaf<S: Squares>(squares: &S, id: Id) -> u64
    requires { IsOfLevel (S.knows squares.now) (S.content squares.now) 3 id }
    ensures { IsWhereBinary (S.content squares.now id) (eight result) }
{
    match squares.leaf_cells(id) {
        Some(cells) => cells,
        None => eight_by_eight(squares, id),
    }
}
