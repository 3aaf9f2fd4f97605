//! The nonzero cells of a square, row by row.
//!
//! A band is a row of squares of one level, from the west to the east, without blank ones. Its upper half, and then its lower
//! half, are bands of the level below; a band of level 0 is a row of cells. So no cell is sorted and no blank square is
//! entered, and each band has at most as many squares as there are cells. If the list has capacity for all cells that a band of level 2
//! may have, its four rows are taken from its squares at once.
ghost use Rattle.std.specs.Prelude.{◌≡◌, ◌⊎◌, ◌+◌, ◌-◌, ◌^◌, ◌<◌, ◌≤◌, ◌+ℤ◌, ◌≤ℤ◌, pos, neg_ℤ, [], ◌∷◌, ◌++◌, length, take, All, Err, OnOk, IfOk, IfErr};
ghost use Rattle.life_quad.specs.Words.{Memory, TooManyCells, depth, state_at, IsCellList, population, InBand, IsPlaced, pieces, piece_unless_blank, northern, southern, upper, lower, row_cells, band_cells, pair_of, row_states, live_cells, part_cells, two, four, IsMemory};

use crate::moves::{Quarters, divide, is_blank_at};
use crate::runs::half_side;
use crate::{Id, Squares};
use life_base::{Cell, Kind, MAX_LEVEL, State};
use std::alloc::Global;

/// A square and the column of its western side.
#[derive(Clone, Copy)]
struct Placed {
    square: Id,
    column: i64,
}

/// Whether squares or cells were added to a list, or why they were not.
type Listed = Result<(), Kind>;

/// The cells with a state other than 0, row by row.
///
/// # Errors
///
/// `TooManyCells` where there are more than `limit`, and `Memory`.
pub fn cells<S: Squares>(alloc: Global, squares: &S, id: Id, limit: u64) -> Result<Vec<Cell>, Kind>
    requires known { S.knows squares.now id }
    requires high { 1 ≤ depth (S.content squares.now id) }
    ensures cells { IfOk result (λ v. IsCellList (S.content squares.now id) v.items) }
    ensures number { IfOk result (λ v. length v.items ≡ population (S.content squares.now id)) }
    ensures few { IfOk result (λ v. length v.items ≤ limit) }
    ensures many { IfErr result
        (λ e. e ≡ TooManyCells → limit < population (S.content squares.now id)) }
    ensures refusals { IfErr result (λ e. (e ≡ TooManyCells) ⊎ (e ≡ Memory)) }
{
    let level = squares.level(id);
    let west = least_coordinate(level);
    let mut band = Vec::new(alloc);
    keep(squares, &mut band, level, id, west)?;
    let mut list = Vec::new(alloc);
    append_band(alloc, squares, band, level, west, limit, &mut list)?;
    Ok(list)
}

/// The least column and row of a square.
fn least_coordinate(level: u8) -> i64
    requires low { 1 ≤ level }
    requires high { level ≤ MAX_LEVEL }
    ensures half { result ≡ neg_ℤ (pos (2 ^ (level - 1))) }
    ensures west { neg_ℤ (pos (2 ^ 61)) ≤ℤ result }
    ensures east { (result +ℤ pos (2 ^ level)) ≤ℤ pos (2 ^ 61) }
{
    -(half_side(level) as i64)
}

/// The column or row that is half a side further.
fn further(coordinate: i64, level: u8) -> i64
    requires low { 1 ≤ level }
    requires high { level ≤ MAX_LEVEL }
    requires west { neg_ℤ (pos (2 ^ 61)) ≤ℤ coordinate }
    requires east { (coordinate +ℤ pos (2 ^ level)) ≤ℤ pos (2 ^ 61) }
    ensures { result ≡ (coordinate +ℤ pos (2 ^ (level - 1))) }
{
    coordinate + half_side(level) as i64
}

/// One more square at the end of a band.
fn place(band: &mut Vec<Placed>, square: Id, column: i64) -> Listed
    ensures ok { OnOk result
        (band.new.items ≡ band.old.items ++ (record { square = square; column = column }) ∷ []) }
    ensures refusals { IfErr result IsMemory }
{
    band.push(Placed { square, column })?;
    Ok(())
}

/// The same, unless the square is blank.
fn keep<S: Squares>(
    squares: &S,
    band: &mut Vec<Placed>,
    level: u8,
    square: Id,
    column: i64,
) -> Listed
    requires known { S.knows squares.now square }
    requires level { depth (S.content squares.now square) ≡ level }
    requires west { neg_ℤ (pos (2 ^ 61)) ≤ℤ column }
    requires east { (column +ℤ pos (2 ^ level)) ≤ℤ pos (2 ^ 61) }
    requires each { All (IsPlaced (S.knows squares.now) (S.content squares.now) level)
        band.old.items }
    ensures each { OnOk result
        (All (IsPlaced (S.knows squares.now) (S.content squares.now) level) band.new.items) }
    ensures pieces { OnOk result (pieces (S.content squares.now) band.new.items
        ≡ pieces (S.content squares.now) band.old.items
        ++ piece_unless_blank (S.content squares.now square) column) }
    ensures refusals { IfErr result IsMemory }
{
    if is_blank_at(squares, level, square) {
        return Ok(());
    }
    place(band, square, column)
}

/// The northern quarters of a square at the end of one band, and its southern ones at the end of another.
fn split<S: Squares>(
    squares: &S,
    placed: Placed,
    level: u8,
    north: &mut Vec<Placed>,
    south: &mut Vec<Placed>,
) -> Listed
    requires low { 1 ≤ level }
    requires placed { IsPlaced (S.knows squares.now) (S.content squares.now) level placed }
    requires north { All (IsPlaced (S.knows squares.now) (S.content squares.now) (level - 1))
        north.old.items }
    requires south { All (IsPlaced (S.knows squares.now) (S.content squares.now) (level - 1))
        south.old.items }
    ensures north { OnOk result
        (All (IsPlaced (S.knows squares.now) (S.content squares.now) (level - 1)) north.new.items) }
    ensures south { OnOk result
        (All (IsPlaced (S.knows squares.now) (S.content squares.now) (level - 1)) south.new.items) }
    ensures northern { OnOk result (pieces (S.content squares.now) north.new.items
        ≡ pieces (S.content squares.now) north.old.items
        ++ northern (2 ^ (level - 1)) (S.content squares.now placed.square) placed.column) }
    ensures southern { OnOk result (pieces (S.content squares.now) south.new.items
        ≡ pieces (S.content squares.now) south.old.items
        ++ southern (2 ^ (level - 1)) (S.content squares.now placed.square) placed.column) }
    ensures refusals { IfErr result IsMemory }
{
    let Quarters { nw, ne, sw, se } = divide(squares, placed.square);
    let west = placed.column;
    let east = further(west, level);
    keep(squares, north, level - 1, nw, west)?;
    keep(squares, north, level - 1, ne, east)?;
    keep(squares, south, level - 1, sw, west)?;
    keep(squares, south, level - 1, se, east)
}

/// The upper and the lower half of a band.
fn halves<S: Squares>(
    alloc: Global,
    squares: &S,
    band: &[Placed],
    level: u8,
) -> Result<(Vec<Placed>, Vec<Placed>), Kind>
    requires low { 1 ≤ level }
    requires each { All (IsPlaced (S.knows squares.now) (S.content squares.now) level) band.now }
    ensures north { IfOk result
        (λ r. All (IsPlaced (S.knows squares.now) (S.content squares.now) (level - 1)) r.0.items) }
    ensures south { IfOk result
        (λ r. All (IsPlaced (S.knows squares.now) (S.content squares.now) (level - 1)) r.1.items) }
    ensures upper { IfOk result (λ r. pieces (S.content squares.now) r.0.items
        ≡ upper (2 ^ (level - 1)) (pieces (S.content squares.now) band.now)) }
    ensures lower { IfOk result (λ r. pieces (S.content squares.now) r.1.items
        ≡ lower (2 ^ (level - 1)) (pieces (S.content squares.now) band.now)) }
    ensures refusals { IfErr result IsMemory }
{
    let mut north = Vec::new(alloc);
    let mut south = Vec::new(alloc);
    for placed in band {
        split(squares, *placed, level, &mut north, &mut south)?;
    }
    Ok((north, south))
}

/// The cells of a band of level 0 at the end of a list.
fn append_row<S: Squares>(squares: &S, band: &[Placed], row: i64, list: &mut Vec<Cell>) -> Listed
    requires each { All (IsPlaced (S.knows squares.now) (S.content squares.now) 0) band.now }
    ensures cells { OnOk result (list.new.items ≡ list.old.items ++ row_cells row
        (pieces (S.content squares.now) band.now)) }
    ensures refusals { IfErr result IsMemory }
{
    for placed in band {
        let Some(state) = squares.state(placed.square) else {
            unreachable!();
        };
        let cell = Cell {
            x: placed.column,
            y: row,
            state,
        };
        list.push(cell)?;
    }
    Ok(())
}

/// The states of a row of the square of level 1 of a digit: of the lower one, or of the upper one.
#[inline(always)]
fn digit_states(digit: u16, low: bool) -> [State; 2]
    requires { digit < 16 }
    ensures { result ≡ pair_of low (two digit) }
{
    if low {
        [(digit / 2 % 2) as u8, (digit % 2) as u8]
    } else {
        [(digit / 8) as u8, (digit / 4 % 2) as u8]
    }
}

/// The states of a row of the square of level 2 with these cells, as `Squares::small_cells` gives them: in the southern or in the northern half,
/// the lower or the upper one.
#[inline(always)]
fn small_states(cells: u16, south: bool, low: bool) -> (State, State, State, State)
    ensures { result.0 ∷ result.1 ∷ result.2 ∷ result.3 ∷ [] ≡ row_states south low (four cells) }
{
    let (west, east) = if south {
        (cells / 16 % 16, cells % 16)
    } else {
        (cells / 4096, cells / 256 % 16)
    };
    let west = digit_states(west, low);
    let east = digit_states(east, low);
    (west[0], west[1], east[0], east[1])
}

/// The state of a square of level 0.
fn state_of<S: Squares>(squares: &S, id: Id) -> State
    requires known { S.knows squares.now id }
    requires level { depth (S.content squares.now id) ≡ 0 }
    ensures { result ≡ state_at (S.content squares.now id) 0 0 }
{
    squares.state(id).unwrap_or(0)
}

/// The states of a row of a square of level 1: of the lower one, or of the upper one.
fn pair_of<S: Squares>(squares: &S, id: Id, low: bool) -> [State; 2]
    requires known { S.knows squares.now id }
    requires level { depth (S.content squares.now id) ≡ 1 }
    ensures { result ≡ pair_of low (S.content squares.now id) }
{
    let Quarters { nw, ne, sw, se } = divide(squares, id);
    if low {
        [state_of(squares, sw), state_of(squares, se)]
    } else {
        [state_of(squares, nw), state_of(squares, ne)]
    }
}

/// The states of a row of a square of level 2: in the southern or in the northern half, the lower or the upper one.
#[inline(always)]
fn row_of<S: Squares>(squares: &S, id: Id, south: bool, low: bool) -> (State, State, State, State)
    requires known { S.knows squares.now id }
    requires level { depth (S.content squares.now id) ≡ 2 }
    ensures { result.0 ∷ result.1 ∷ result.2 ∷ result.3 ∷ []
        ≡ row_states south low (S.content squares.now id) }
{
    if let Some(cells) = squares.small_cells(id) {
        return small_states(cells, south, low);
    }
    let Quarters { nw, ne, sw, se } = divide(squares, id);
    let (west, east) = if south { (sw, se) } else { (nw, ne) };
    let west = pair_of(squares, west, low);
    let east = pair_of(squares, east, low);
    (west[0], west[1], east[0], east[1])
}

/// How many cells are gathered at most before they are added to a list.
const GATHERED: usize = 16;

/// A cell after those that were gathered, unless its state is 0. Returns how many are gathered then. Which states are 0 can't be foreseen, so the cell is
/// put there in any case and counted without a branch.
#[inline(always)]
fn gather_cell(gathered: &mut [Cell; GATHERED], count: usize, x: i64, y: i64, state: State) -> usize
    requires { count < 16 }
    ensures cells { take result gathered.new
        ≡ take count gathered.old ++ live_cells x y (state ∷ []) }
    ensures most { result ≤ count + 1 }
{
    gathered[count] = Cell { x, y, state };
    if state == 0 { count } else { count + 1 }
}

/// The cells of four states side by side after those that were gathered, without those of state 0. Returns how many are gathered then.
#[inline(always)]
fn gather_states(
    gathered: &mut [Cell; GATHERED],
    count: usize,
    x: i64,
    y: i64,
    states: (State, State, State, State),
) -> usize
    requires space { count + 4 ≤ 16 }
    requires west { neg_ℤ (pos (2 ^ 61)) ≤ℤ x }
    requires east { (x +ℤ pos 4) ≤ℤ pos (2 ^ 61) }
    ensures cells { take result gathered.new ≡ take count gathered.old ++ live_cells x y
        (states.0 ∷ states.1 ∷ states.2 ∷ states.3 ∷ []) }
    ensures most { result ≤ count + 4 }
{
    let one = gather_cell(gathered, count, x, y, states.0);
    let two = gather_cell(gathered, one, x + 1, y, states.1);
    let three = gather_cell(gathered, two, x + 2, y, states.2);
    gather_cell(gathered, three, x + 3, y, states.3)
}

/// Adds the cells that were gathered to a list, if there is no space for four more. Returns how many are gathered then.
#[inline(always)]
fn make_space(
    list: &mut Vec<Cell>,
    gathered: &[Cell; GATHERED],
    count: usize,
) -> Result<usize, Kind>
    requires { count ≤ 16 }
    ensures cells { IfOk result (λ left. list.new.items ++ take left gathered.now
        ≡ list.old.items ++ take count gathered.now) }
    ensures space { IfOk result (λ left. left + 4 ≤ 16) }
    ensures refusals { IfErr result IsMemory }
{
    if count + 4 <= GATHERED {
        return Ok(count);
    }
    list.extend_from_slice(&gathered[..count])?;
    Ok(0)
}

/// The cells of a row of a band of level 2 at the end of a list: in the southern or in the northern half, the lower or the upper row.
/// Inlined, it is made for each of the four rows.
#[inline(always)]
fn append_part<S: Squares>(
    squares: &S,
    band: &[Placed],
    south: bool,
    low: bool,
    y: i64,
    list: &mut Vec<Cell>,
) -> Listed
    requires each { All (IsPlaced (S.knows squares.now) (S.content squares.now) 2) band.now }
    ensures cells { OnOk result (list.new.items ≡ list.old.items ++ part_cells south low y
        (pieces (S.content squares.now) band.now)) }
    ensures refusals { IfErr result IsMemory }
{
    let none = Cell {
        x: 0,
        y: 0,
        state: 0,
    };
    let mut gathered = [none; GATHERED];
    let mut count: usize = 0;
    for placed in band {
        let left = make_space(list, &gathered, count)?;
        let states = row_of(squares, placed.square, south, low);
        count = gather_states(&mut gathered, left, placed.column, y, states);
    }
    list.extend_from_slice(&gathered[..count])?;
    Ok(())
}

/// The cells of a band of level 2 at the end of a list.
fn append_rows<S: Squares>(squares: &S, band: &[Placed], row: i64, list: &mut Vec<Cell>) -> Listed
    requires each { All (IsPlaced (S.knows squares.now) (S.content squares.now) 2) band.now }
    requires band { InBand 2 (pieces (S.content squares.now) band.now) }
    requires north { neg_ℤ (pos (2 ^ 61)) ≤ℤ row }
    requires south { (row +ℤ pos 4) ≤ℤ pos (2 ^ 61) }
    ensures cells { OnOk result (list.new.items ≡ list.old.items ++ band_cells 2 row
        (pieces (S.content squares.now) band.now)) }
    ensures refusals { IfErr result IsMemory }
{
    append_part(squares, band, false, false, row, list)?;
    append_part(squares, band, false, true, row + 1, list)?;
    append_part(squares, band, true, false, row + 2, list)?;
    append_part(squares, band, true, true, row + 3, list)
}

/// The cells of a band at the end of a list that may have at most `limit`.
fn append_band<S: Squares>(
    alloc: Global,
    squares: &S,
    band: Vec<Placed>,
    level: u8,
    row: i64,
    limit: u64,
    list: &mut Vec<Cell>,
) -> Listed
    requires top { level ≤ MAX_LEVEL }
    requires each { All (IsPlaced (S.knows squares.now) (S.content squares.now) level) band.items }
    requires band { InBand level (pieces (S.content squares.now) band.items) }
    requires north { neg_ℤ (pos (2 ^ 61)) ≤ℤ row }
    requires south { (row +ℤ pos (2 ^ level)) ≤ℤ pos (2 ^ 61) }
    requires few { length list.old.items ≤ limit }
    ensures cells { OnOk result (list.new.items ≡ list.old.items ++ band_cells level row
        (pieces (S.content squares.now) band.items)) }
    ensures few { OnOk result (length list.new.items ≤ limit) }
    ensures many { IfErr result (λ e. e ≡ TooManyCells
        → limit < length list.old.items
        + length (band_cells level row (pieces (S.content squares.now) band.items))) }
    ensures refusals { IfErr result (λ e. (e ≡ TooManyCells) ⊎ (e ≡ Memory)) }
{
    let free = limit - list.len() as u64;
    if free < band.len() as u64 {
        return Err(Kind::TooManyCells);
    }
    if band.is_empty() {
        return Ok(());
    }
    if level == 0 {
        return append_row(squares, &band, row, list);
    }
    if level == 2 && band.len() as u64 <= free / 16 {
        return append_rows(squares, &band, row, list);
    }
    let (north, south) = halves(alloc, squares, &band, level)?;
    drop(band);
    let middle = further(row, level);
    append_band(alloc, squares, north, level - 1, row, limit, list)?;
    append_band(alloc, squares, south, level - 1, middle, limit, list)
}
