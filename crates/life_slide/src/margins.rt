//! Columns and rows along the sides of a square in which it has no cell.
ghost use Rattle.std.specs.Prelude.{◌≡◌, ◌+◌, ◌-◌, ◌^◌, ◌<◌, ◌≤◌, min, true, IfOk, IfSome};
ghost use Rattle.life_slide.specs.Words.{MAX_LEVEL, Tree, IdValue, IsOfLevel, AreMarginsOfFour, AreMargins, AreMarginsOf, Misses, IsSeenOrOther};

use crate::grid::has;
use crate::slide::Offset;
use life_base::{Kind, MAX_LEVEL};
use life_quad::{Id, IdNumbers, Squares, divide, is_blank_at};
use std::alloc::Global;

/// So many columns or rows along each side of a square have no cell with a state other than 0.
#[derive(Clone, Copy)]
pub(crate) struct Margins {
    pub(crate) west: u64,
    pub(crate) north: u64,
    pub(crate) east: u64,
    pub(crate) south: u64,
}

/// Margins of squares, by their Ids.
#[derive(Drop)]
pub(crate) struct MarginTable {
    pub(crate) numbers: IdNumbers,
    /// In the order of the numbers.
    pub(crate) margins: Vec<Margins>,
}

/// The least level of squares whose margins are found. Lower ones are visited as fast.
pub(crate) const LEAST_LEVEL: u8 = 4;

/// No margins.
const NONE: Margins = Margins {
    west: 0,
    north: 0,
    east: 0,
    south: 0,
};

/// The side length of the plane.
const WIDEST: u64 = 1 << MAX_LEVEL;

/// The margins of a blank square, whatever its level.
const ALL: Margins = Margins {
    west: WIDEST,
    north: WIDEST,
    east: WIDEST,
    south: WIDEST,
};

impl MarginTable {
    /// No margins. It takes no memory.
    pub(crate) fn new(alloc: Global) -> MarginTable
        ensures { (content : IdValue → Tree) → AreMargins content result }
    {
        MarginTable {
            numbers: IdNumbers::growing(alloc),
            margins: Vec::new(alloc),
        }
    }
}

// The margins of a square, where the table has them.
fn found(table: &MarginTable, id: Id) -> Option<Margins>
    ensures { IfSome result (λ m. (content : IdValue → Tree) → AreMargins content table.now
        → AreMarginsOf (content id) m) }
{
    let number = table.numbers.get(id)?;
    match table.margins.get((number - 1) as usize) {
        Some(margins) => Some(*margins),
        None => None,
    }
}

// Adds the margins of a square to the table. The error is always `Memory`.
fn put(table: &mut MarginTable, id: Id, margins: Margins) -> Result<(), Kind>
    ensures { (content : IdValue → Tree) → AreMargins content table.old
        → AreMarginsOf (content id) margins → AreMargins content table.new }
{
    if table.numbers.get(id).is_some() {
        return Err(Kind::Memory);
    }
    let number = table.numbers.push(id)?;
    if table.margins.len() as u64 + 1 != number {
        return Err(Kind::Memory);
    }
    table.margins.push(margins)?;
    Ok(())
}

/// Half of the side of a square of a level.
pub(crate) fn half_side(level: u8) -> u64
    requires low { 1 ≤ level }
    requires high { level ≤ MAX_LEVEL }
    ensures half { result ≡ 2 ^ (level - 1) }
    ensures small { result ≤ 2 ^ 61 }
    ensures whole { result + result ≡ 2 ^ level }
{
    1 << (level - 1)
}

// A margin of four squares, two by two, whose side length is `half`. The two along that side have a margin of at least `near`, and the other two one of
// at least `far`.
fn along(half: u64, near: u64, far: u64) -> u64
    requires { half ≤ 2 ^ 61 }
    ensures near { min result half ≤ near }
    ensures far { result ≤ half + far }
{
    if near < half {
        near
    } else {
        half + far.min(half)
    }
}

// The margins of four squares, two by two, whose side length is `half`.
fn margins_of_four(half: u64, nw: &Margins, ne: &Margins, sw: &Margins, se: &Margins) -> Margins
    requires { half ≤ 2 ^ 61 }
    ensures { AreMarginsOfFour half nw.now ne.now sw.now se.now result }
{
    Margins {
        west: along(half, nw.west.min(sw.west), ne.west.min(se.west)),
        north: along(half, nw.north.min(ne.north), sw.north.min(se.north)),
        east: along(half, ne.east.min(se.east), nw.east.min(sw.east)),
        south: along(half, sw.south.min(se.south), nw.south.min(ne.south)),
    }
}

// The margins of a square of a level, where `known` has those of squares that were visited.
fn find<S: Squares>(
    squares: &S,
    level: u8,
    id: Id,
    known: &mut MarginTable,
) -> Result<Margins, Kind>
    requires at { IsOfLevel (S.knows squares.now) (S.content squares.now) level id }
    requires high { level ≤ MAX_LEVEL }
    requires right { AreMargins (S.content squares.now) known.old }
    ensures margins { IfOk result (AreMarginsOf (S.content squares.now id)) }
    ensures right { AreMargins (S.content squares.now) known.new }
{
    if is_blank_at(squares, level, id) {
        return Ok(ALL);
    }
    if level < LEAST_LEVEL {
        return Ok(NONE);
    }
    if let Some(margins) = found(known, id) {
        return Ok(margins);
    }
    let below = level - 1;
    let quarters = divide(squares, id);
    // Of a square without a blank quarter they are narrow, and not worth a visit to its quarters.
    if !has(&quarters, squares.empty(below)) {
        return Ok(NONE);
    }
    let nw = find(squares, below, quarters.nw, known)?;
    let ne = find(squares, below, quarters.ne, known)?;
    let sw = find(squares, below, quarters.sw, known)?;
    let se = find(squares, below, quarters.se, known)?;
    let margins = margins_of_four(half_side(level), &nw, &ne, &sw, &se);
    put(known, id, margins)?;
    Ok(margins)
}

/// The margins of a square of a level, or none where they aren't wanted or memory is refused.
pub(crate) fn margins_of<S: Squares>(
    squares: &S,
    level: u8,
    id: Id,
    known: &mut MarginTable,
    are_wanted: bool,
) -> Margins
    requires at { IsOfLevel (S.knows squares.now) (S.content squares.now) level id }
    requires high { level ≤ MAX_LEVEL }
    requires right { AreMargins (S.content squares.now) known.old }
    ensures margins { AreMarginsOf (S.content squares.now id) result }
    ensures right { AreMargins (S.content squares.now) known.new }
{
    if !are_wanted {
        return NONE;
    }
    match find(squares, level, id, known) {
        Ok(margins) => margins,
        Err(_) => NONE,
    }
}

// Whether, of two squares of a side length side by side, the square that begins so far in the first sees nothing but a margin of the last, or of the first.
fn misses(last: bool, offset: u64, side: u64, before: u64, after: u64) -> bool
    requires { offset < side }
    ensures { result ≡ true → Misses last offset side before after }
{
    if last {
        offset <= before
    } else {
        side - offset <= after
    }
}

/// The square in one corner of four, or another one for it, if the square that begins so far in the first of the four sees nothing but a margin of it.
pub(crate) fn seen_or_other(
    inside: Offset,
    side: u64,
    east: bool,
    south: bool,
    margins: &Margins,
    id: Id,
    other: Id,
) -> Id
    requires columns { inside.columns < side }
    requires rows { inside.rows < side }
    ensures { IsSeenOrOther east south inside.columns inside.rows side margins.now id other result }
{
    if misses(east, inside.columns, side, margins.west, margins.east) {
        return other;
    }
    if misses(south, inside.rows, side, margins.north, margins.south) {
        return other;
    }
    id
}
