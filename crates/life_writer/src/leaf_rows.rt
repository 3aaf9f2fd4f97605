//! The rows of a leaf's cells, each cell looked up once.

ghost use Rattle.std.specs.Prelude.{◌≡◌, ◌+◌, ◌*◌, ◌<◌, ◌∷◌, ◌++◌, [], ℕ, slice_index, IfSome};
ghost use Rattle.life_writer.specs.Words.{depth, state_at, HasStatesUpTo, rows_of, four, row_of_two, row_of_four, rows_side_by_side, square_of_bits};

use crate::orientation::Orientation;
use life_lanes::by_rows;
use life_quad::{Id, Quarters, Squares};

/// The state of a cell.
fn bit<S: Squares, O: Orientation>(squares: &S, orientation: &O, id: Id) -> u8
    requires known { S.knows squares.now id }
    requires level { depth (O.seen orientation.now (S.content squares.now id)) ≡ 0 }
    requires states { HasStatesUpTo 1 (O.seen orientation.now (S.content squares.now id)) }
    ensures state { result ≡ state_at (O.seen orientation.now (S.content squares.now id)) 0 0 }
    ensures bit { result < 2 }
{
    orientation.state(squares, id).unwrap_or(0)
}

/// The two rows of a square of level 1.
fn two_rows<S: Squares, O: Orientation>(squares: &S, orientation: &O, id: Id) -> [u8; 2]
    requires known { S.knows squares.now id }
    requires level { depth (O.seen orientation.now (S.content squares.now id)) ≡ 1 }
    requires states { HasStatesUpTo 1 (O.seen orientation.now (S.content squares.now id)) }
    ensures rows { result ≡ row_of_two (O.seen orientation.now (S.content squares.now id)) 0
        ∷ row_of_two (O.seen orientation.now (S.content squares.now id)) 1 ∷ [] }
    ensures small { (y : ℕ) → slice_index result y < 4 }
{
    let Quarters { nw, ne, sw, se } = orientation.quarters(squares, id);
    [
        2 * bit(squares, orientation, nw) + bit(squares, orientation, ne),
        2 * bit(squares, orientation, sw) + bit(squares, orientation, se),
    ]
}

/// The four rows of the square of level 2 with these cells, as `Squares::small_cells` gives them.
#[inline(always)]
fn rows_of_cells(cells: u16) -> [u8; 4]
    ensures rows { result ≡ row_of_four (four cells) 0 ∷ row_of_four (four cells) 1
        ∷ row_of_four (four cells) 2 ∷ row_of_four (four cells) 3 ∷ [] }
    ensures small { (y : ℕ) → slice_index result y < 16 }
{
    let nw = (cells / 4096) as u8;
    let ne = (cells / 256 % 16) as u8;
    let sw = (cells / 16 % 16) as u8;
    let se = (cells % 16) as u8;
    [
        nw / 4 * 4 + ne / 4,
        nw % 4 * 4 + ne % 4,
        sw / 4 * 4 + se / 4,
        sw % 4 * 4 + se % 4,
    ]
}

/// The four rows of a square of level 2.
#[inline(never)]
fn four_rows<S: Squares, O: Orientation>(squares: &S, orientation: &O, id: Id) -> [u8; 4]
    requires known { S.knows squares.now id }
    requires level { depth (O.seen orientation.now (S.content squares.now id)) ≡ 2 }
    requires states { HasStatesUpTo 1 (O.seen orientation.now (S.content squares.now id)) }
    ensures rows { result ≡ row_of_four (O.seen orientation.now (S.content squares.now id)) 0
        ∷ row_of_four (O.seen orientation.now (S.content squares.now id)) 1
        ∷ row_of_four (O.seen orientation.now (S.content squares.now id)) 2
        ∷ row_of_four (O.seen orientation.now (S.content squares.now id)) 3 ∷ [] }
    ensures small { (y : ℕ) → slice_index result y < 16 }
{
    if let Some(cells) = orientation.small_cells(squares, id) {
        return rows_of_cells(cells);
    }
    let Quarters { nw, ne, sw, se } = orientation.quarters(squares, id);
    let nw = two_rows(squares, orientation, nw);
    let ne = two_rows(squares, orientation, ne);
    let sw = two_rows(squares, orientation, sw);
    let se = two_rows(squares, orientation, se);
    [
        4 * nw[0] + ne[0],
        4 * nw[1] + ne[1],
        4 * sw[0] + se[0],
        4 * sw[1] + se[1],
    ]
}

/// The rows of eight cells, by the four in the west and the four in the east of each.
#[inline(always)]
fn adjacent(west: [u8; 4], east: [u8; 4]) -> [u8; 4]
    requires west { (y : ℕ) → slice_index west y < 16 }
    requires east { (y : ℕ) → slice_index east y < 16 }
    ensures { result ≡ (16 * slice_index west 0 + slice_index east 0)
        ∷ (16 * slice_index west 1 + slice_index east 1)
        ∷ (16 * slice_index west 2 + slice_index east 2)
        ∷ (16 * slice_index west 3 + slice_index east 3) ∷ [] }
{
    [
        16 * west[0] + east[0],
        16 * west[1] + east[1],
        16 * west[2] + east[2],
        16 * west[3] + east[3],
    ]
}

/// The rows of eight cells of two squares of level 2 side by side, each cell looked up.
fn rows_adjacent<S: Squares, O: Orientation>(
    squares: &S,
    orientation: &O,
    west: Id,
    east: Id,
) -> [u8; 4]
    requires west { S.knows squares.now west }
    requires west_level { depth (O.seen orientation.now (S.content squares.now west)) ≡ 2 }
    requires west_states { HasStatesUpTo 1 (O.seen orientation.now (S.content squares.now west)) }
    requires east { S.knows squares.now east }
    requires east_level { depth (O.seen orientation.now (S.content squares.now east)) ≡ 2 }
    requires east_states { HasStatesUpTo 1 (O.seen orientation.now (S.content squares.now east)) }
    ensures { result ≡ rows_side_by_side (O.seen orientation.now (S.content squares.now west))
        (O.seen orientation.now (S.content squares.now east)) }
{
    adjacent(
        four_rows(squares, orientation, west),
        four_rows(squares, orientation, east),
    )
}

/// The eight rows of four squares of level 2, two by two, each cell looked up. It is never inlined: a store of few squares gives their cells.
#[inline(never)]
fn rows_of_quarters<S: Squares, O: Orientation>(
    squares: &S,
    orientation: &O,
    parts: &Quarters,
) -> [u8; 8]
    requires nw { S.knows squares.now parts.now.nw }
    requires nw_level { depth (O.seen orientation.now (S.content squares.now parts.now.nw)) ≡ 2 }
    requires nw_states { HasStatesUpTo 1
        (O.seen orientation.now (S.content squares.now parts.now.nw)) }
    requires ne { S.knows squares.now parts.now.ne }
    requires ne_level { depth (O.seen orientation.now (S.content squares.now parts.now.ne)) ≡ 2 }
    requires ne_states { HasStatesUpTo 1
        (O.seen orientation.now (S.content squares.now parts.now.ne)) }
    requires sw { S.knows squares.now parts.now.sw }
    requires sw_level { depth (O.seen orientation.now (S.content squares.now parts.now.sw)) ≡ 2 }
    requires sw_states { HasStatesUpTo 1
        (O.seen orientation.now (S.content squares.now parts.now.sw)) }
    requires se { S.knows squares.now parts.now.se }
    requires se_level { depth (O.seen orientation.now (S.content squares.now parts.now.se)) ≡ 2 }
    requires se_states { HasStatesUpTo 1
        (O.seen orientation.now (S.content squares.now parts.now.se)) }
    ensures { result
        ≡ rows_side_by_side (O.seen orientation.now (S.content squares.now parts.now.nw))
        (O.seen orientation.now (S.content squares.now parts.now.ne))
        ++ rows_side_by_side (O.seen orientation.now (S.content squares.now parts.now.sw))
        (O.seen orientation.now (S.content squares.now parts.now.se)) }
{
    let north = rows_adjacent(squares, orientation, parts.nw, parts.ne);
    let south = rows_adjacent(squares, orientation, parts.sw, parts.se);
    [
        north[0], north[1], north[2], north[3], south[0], south[1], south[2], south[3],
    ]
}

/// The cells of four squares of level 2, two by two, as `Squares::small_cells` gives them, those of the north-western one highest, if the
/// store gives all of them.
#[inline(always)]
fn cells_of<S: Squares, O: Orientation>(
    squares: &S,
    orientation: &O,
    parts: &Quarters,
) -> Option<u64>
    requires nw { S.knows squares.now parts.now.nw }
    requires ne { S.knows squares.now parts.now.ne }
    requires sw { S.knows squares.now parts.now.sw }
    requires se { S.knows squares.now parts.now.se }
    ensures { IfSome result
        (λ cells. (O.seen orientation.now (S.content squares.now parts.now.nw)
        ≡ square_of_bits cells 48)
        × (O.seen orientation.now (S.content squares.now parts.now.ne) ≡ square_of_bits cells 32)
        × (O.seen orientation.now (S.content squares.now parts.now.sw) ≡ square_of_bits cells 16)
        × (O.seen orientation.now (S.content squares.now parts.now.se) ≡ square_of_bits cells 0)) }
{
    let nw = orientation.small_cells(squares, parts.nw)?;
    let ne = orientation.small_cells(squares, parts.ne)?;
    let sw = orientation.small_cells(squares, parts.sw)?;
    let se = orientation.small_cells(squares, parts.se)?;
    let north = u64::from(nw) * 0x1_0000 + u64::from(ne);
    let south = u64::from(sw) * 0x1_0000 + u64::from(se);
    Some(north * 0x1_0000_0000 + south)
}

/// The eight rows of four squares of level 2, two by two, from their cells.
#[inline(always)]
fn rows_of_word(cells: u64) -> [u8; 8]
    ensures { result ≡ rows_side_by_side (square_of_bits cells 48) (square_of_bits cells 32)
        ++ rows_side_by_side (square_of_bits cells 16) (square_of_bits cells 0) }
{
    by_rows(cells).to_be_bytes()
}

/// The eight rows of a square of level 3 as bytes, the western cell the highest bit. If the store gives the cells of its quarters, no further square
/// is looked up.
#[inline(always)]
pub(crate) fn eight_rows<S: Squares, O: Orientation>(
    squares: &S,
    orientation: &O,
    id: Id,
) -> [u8; 8]
    requires known { S.knows squares.now id }
    requires level { depth (O.seen orientation.now (S.content squares.now id)) ≡ 3 }
    requires states { HasStatesUpTo 1 (O.seen orientation.now (S.content squares.now id)) }
    ensures { result ≡ rows_of (O.seen orientation.now (S.content squares.now id)) }
{
    let parts = orientation.quarters(squares, id);
    if let Some(cells) = cells_of(squares, orientation, &parts) {
        return rows_of_word(cells);
    }
    rows_of_quarters(squares, orientation, &parts)
}
