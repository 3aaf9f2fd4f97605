//! Squares of which the same part is seen.
ghost use Rattle.std.specs.Prelude.{◌≡◌, ◌⊎◌, ℕ, ℤ, ◌^◌, ◌≤◌, ◌<◌};
ghost use Rattle.life_slide.specs.Words.{MAX_LEVEL, IdValue, KeyValue, IsOfLevel, InBlock, IsBlock, IsSeenAs, AreFirstsByFour, ArePartsOf, IsLike, TableGives, quad};

use crate::grid::are_all;
use crate::sides::Side;
use crate::slide::{Offset, digit};
use crate::table::{Key, Table};
use life_base::MAX_LEVEL;
use life_quad::{Id, Quarters, Seed, Squares, divide};
use std::alloc::Global;

/// Of the squares of which the same part is seen, the one that was visited first.
#[derive(Drop)]
pub(crate) struct Parts {
    /// By a square that was visited.
    pub(crate) known: Table,
    /// By the first squares of its quarters.
    pub(crate) firsts: Table,
}

impl Parts {
    /// No squares. It takes no memory.
    pub(crate) fn new(alloc: Global, seed: Seed) -> Parts
        ensures known { (key : KeyValue) (id : IdValue) → ¬ TableGives result.known key id }
        ensures firsts { (key : KeyValue) (id : IdValue) → ¬ TableGives result.firsts key id }
    {
        Parts {
            known: Table::new(alloc, seed),
            firsts: Table::new(alloc, seed),
        }
    }
}

// Of the squares of four quarters of which the same is seen, the first that was visited, if not this one.
fn first_of<S: Squares>(
    squares: &S,
    firsts: &mut Table,
    offset: Offset,
    columns: Side,
    rows: Side,
    quarters: &Quarters,
    id: Id,
) -> Id
    requires right { AreFirstsByFour (S.knows squares.now) (S.content squares.now) offset.columns
        offset.rows firsts.old }
    requires like { IsLike (S.knows squares.now) (S.content squares.now) offset.columns
        offset.rows columns rows (quad (S.content squares.now quarters.now.nw)
        (S.content squares.now quarters.now.ne) (S.content squares.now quarters.now.sw)
        (S.content squares.now quarters.now.se)) id }
    ensures like { IsLike (S.knows squares.now) (S.content squares.now) offset.columns
        offset.rows columns rows (quad (S.content squares.now quarters.now.nw)
        (S.content squares.now quarters.now.ne) (S.content squares.now quarters.now.sw)
        (S.content squares.now quarters.now.se)) result }
    ensures right { AreFirstsByFour (S.knows squares.now) (S.content squares.now) offset.columns
        offset.rows firsts.new }
{
    let key = Key::of(columns, rows, quarters);
    if let Some(first) = firsts.get(&key) {
        return first;
    }
    firsts.put(key, id);
    id
}

// A square, or a blank one, if nothing is seen of its quarters, which have this level.
fn own_or_blank<S: Squares>(squares: &S, level: u8, quarters: &Quarters, id: Id) -> Id
    requires { level < MAX_LEVEL }
    ensures { (result ≡ id) ⊎ (S.knows squares.now result × (S.content squares.now result
        ≡ quad (S.content squares.now quarters.now.nw) (S.content squares.now quarters.now.ne)
        (S.content squares.now quarters.now.sw) (S.content squares.now quarters.now.se))) }
{
    if are_all(quarters, squares.empty(level)) {
        return squares.empty(level + 1);
    }
    id
}

// Four times one square.
fn four_times(id: Id) -> Quarters
    ensures { result ≡ record { nw = id; ne = id; sw = id; se = id } }
{
    Quarters {
        nw: id,
        ne: id,
        sw: id,
        se: id,
    }
}

// A square without quarters, or a blank one, if it isn't seen.
fn part_of_cell<S: Squares>(squares: &S, columns: Side, rows: Side, id: Id) -> Id
    requires { IsOfLevel (S.knows squares.now) (S.content squares.now) 0 id }
    ensures { (east south : ℕ) → IsLike (S.knows squares.now) (S.content squares.now) east south
        columns rows (S.content squares.now id) result }
{
    if columns.is_until() || rows.is_until() {
        return squares.empty(0);
    }
    id
}

// Of the squares with the same cells in those columns and rows that are seen, the first that was visited.
fn part<S: Squares>(
    squares: &S,
    parts: &mut Parts,
    offset: Offset,
    level: u8,
    columns: Side,
    rows: Side,
    id: Id,
) -> Id
    requires at { IsOfLevel (S.knows squares.now) (S.content squares.now) level id }
    requires high { level ≤ MAX_LEVEL }
    requires right { ArePartsOf (S.knows squares.now) (S.content squares.now) offset.columns
        offset.rows parts.old }
    ensures alike { IsLike (S.knows squares.now) (S.content squares.now) offset.columns
        offset.rows columns rows (S.content squares.now id) result }
    ensures right { ArePartsOf (S.knows squares.now) (S.content squares.now) offset.columns
        offset.rows parts.new }
{
    let blank = squares.empty(level);
    if columns.is_nothing() || rows.is_nothing() {
        return blank;
    }
    if id == blank || (columns.is_all() && rows.is_all()) {
        return id;
    }
    if level == 0 {
        return part_of_cell(squares, columns, rows, id);
    }
    let key = Key::of(columns, rows, &four_times(id));
    if let Some(first) = parts.known.get(&key) {
        return first;
    }
    let below = level - 1;
    let east = digit(offset.columns, below);
    let south = digit(offset.rows, below);
    let four = divide(squares, id);
    let (west, north) = (columns.first(east), rows.first(south));
    let (east, south) = (columns.second(east), rows.second(south));
    let nw = part(squares, parts, offset, below, west, north, four.nw);
    let ne = part(squares, parts, offset, below, east, north, four.ne);
    let sw = part(squares, parts, offset, below, west, south, four.sw);
    let se = part(squares, parts, offset, below, east, south, four.se);
    let quarters = Quarters { nw, ne, sw, se };
    let own = own_or_blank(squares, below, &quarters, id);
    let first = first_of(
        squares,
        &mut parts.firsts,
        offset,
        columns,
        rows,
        &quarters,
        own,
    );
    parts.known.put(key, first);
    first
}

/// For each of four squares the first of those of which the square that begins so far in sees the same.
pub(crate) fn with_firsts<S: Squares>(
    squares: &S,
    parts: &mut Parts,
    offset: Offset,
    level: u8,
    block: &Quarters,
) -> Quarters
    requires known { InBlock (IsOfLevel (S.knows squares.now) (S.content squares.now) level)
        block.now }
    requires high { level ≤ MAX_LEVEL }
    requires right { ArePartsOf (S.knows squares.now) (S.content squares.now) offset.columns
        offset.rows parts.old }
    ensures known { InBlock (IsOfLevel (S.knows squares.now) (S.content squares.now) level) result }
    ensures seen { (cells : ℤ → ℤ → ℕ) (x y : ℤ)
        → IsBlock (S.content squares.now) cells (2 ^ level) x y block.now
        → IsSeenAs (S.content squares.now) cells offset.columns offset.rows level x y result }
    ensures right { ArePartsOf (S.knows squares.now) (S.content squares.now) offset.columns
        offset.rows parts.new }
{
    let nw = part(
        squares,
        parts,
        offset,
        level,
        Side::From,
        Side::From,
        block.nw,
    );
    let ne = part(
        squares,
        parts,
        offset,
        level,
        Side::Until,
        Side::From,
        block.ne,
    );
    let sw = part(
        squares,
        parts,
        offset,
        level,
        Side::From,
        Side::Until,
        block.sw,
    );
    let se = part(
        squares,
        parts,
        offset,
        level,
        Side::Until,
        Side::Until,
        block.se,
    );
    Quarters { nw, ne, sw, se }
}
