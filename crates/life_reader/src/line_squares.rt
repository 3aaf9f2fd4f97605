//! Squares of a store, made from node lines.

ghost use Rattle.std.specs.Prelude.{◌≡◌, ◌+◌, ◌-◌, ◌/◌, ◌%◌, ◌^◌, ◌<◌, ◌≤◌, IfOk, OnOk, max};
ghost use Rattle.life_reader.specs.Words.{RuleValue, depth, tree_cell, leaf_cell, level_of, IsSquare, is_quarter, tree_at, tree_of, line_tree, leaf_tree, LineValue, four, SomePart, AreSquaresIn, CanJoin, ForLines, HasGrown, NamesFirst, quad_of, SomeGrown, SomeOfLine, GrowsOnly};
ghost use Rattle.std.specs.Prelude.{List, map, true, ℤ};

use life_base::{Kind, MAX_LEVEL};
use life_lanes::by_quarters;
use life_mc::Line;
use life_quad::{Id, Quarters, Squares, grow};

/// The cells of the four squares of level 2 of a leaf, as `Squares::small` takes them: of the north-western, the north-eastern, the south-western and
/// the south-eastern one.
#[inline(always)]
fn leaf_cells(rows: &[u8; 8]) -> (u16, u16, u16, u16)
    ensures nw { four result.0 ≡ tree_at (leaf_cell rows.now) 2 0 0 }
    ensures ne { four result.1 ≡ tree_at (leaf_cell rows.now) 2 4 0 }
    ensures sw { four result.2 ≡ tree_at (leaf_cell rows.now) 2 0 4 }
    ensures se { four result.3 ≡ tree_at (leaf_cell rows.now) 2 4 4 }
{
    let cells = by_quarters(u64::from_be_bytes(*rows));
    (
        ((cells >> 48) % 0x1_0000) as u16,
        ((cells >> 32) % 0x1_0000) as u16,
        ((cells >> 16) % 0x1_0000) as u16,
        (cells % 0x1_0000) as u16,
    )
}

/// The quarters of the square of a leaf.
#[inline(always)]
fn leaf_quarters<S: Squares>(squares: &mut S, rows: &[u8; 8]) -> Result<Quarters, Kind>
    ensures can_join { IfOk result (CanJoin (S.knows squares.new) (S.content squares.new)) }
    ensures square { IfOk result
        (λ quarters. quad_of (S.content squares.new) quarters ≡ leaf_tree rows.now) }
    ensures grows { GrowsOnly S.Squares squares.old squares.new result
        (λ P. SomePart P (leaf_tree rows.now)) }
{
    let (nw, ne, sw, se) = leaf_cells(rows);
    let nw = squares.small(nw)?;
    let ne = squares.small(ne)?;
    let sw = squares.small(sw)?;
    let se = squares.small(se)?;
    Ok(Quarters { nw, ne, sw, se })
}

/// The square that a number represents in a line of the next level: a cell's state, the blank square, or the square of an
/// earlier line.
fn quarter<S: Squares>(squares: &S, ids: &[Id], level: u8, number: u64) -> Id
    requires level { level < MAX_LEVEL }
    requires quarter { (lines : List LineValue)
        × ((rule : RuleValue) × (is_quarter rule (map level_of lines) (level + 1) number ≡ true))
        × AreSquaresIn S.Squares squares.now lines ids.now }
    ensures known { S.knows squares.now result }
    ensures level { depth (S.content squares.now result) ≡ level }
    ensures square { (lines : List LineValue) (rule : RuleValue)
        → is_quarter rule (map level_of lines) (level + 1) number ≡ true
        → AreSquaresIn S.Squares squares.now lines ids.now
        → S.content squares.now result ≡ tree_of lines level number }
{
    if level == 0 {
        return squares.cell(number as u8);
    }
    if number == 0 {
        return squares.empty(level);
    }
    ids[(number - 1) as usize]
}

/// Whether each number of a node line that is that of a line is at most this.
pub(crate) fn names_first(count: u64, line: Line) -> bool
    ensures { result ≡ true → NamesFirst count line }
{
    match line {
        Line::Leaf(_) => true,
        Line::Quad {
            level,
            nw,
            ne,
            sw,
            se,
        } => level == 1 || (nw <= count && ne <= count && sw <= count && se <= count),
    }
}

/// The quarters of the square of a node line, where these are the squares of the lines before it.
#[inline(always)]
pub(crate) fn line_quarters<S: Squares>(
    squares: &mut S,
    ids: &[Id],
    line: Line,
) -> Result<Quarters, Kind>
    requires line { (lines : List LineValue)
        × ((rule : RuleValue) × IsSquare MAX_LEVEL rule (map level_of lines) line)
        × AreSquaresIn S.Squares squares.old lines ids.now }
    ensures can_join { IfOk result (CanJoin (S.knows squares.new) (S.content squares.new)) }
    ensures square { ForLines S.Squares squares.old ids.now line (λ lines. IfOk result
        (λ quarters. quad_of (S.content squares.new) quarters
        ≡ line_tree (tree_of lines (level_of line - 1)) line)) }
    ensures grows { GrowsOnly S.Squares squares.old squares.new result
        (λ P. ForLines S.Squares squares.old ids.now line (λ lines. SomeOfLine P lines line)) }
{
    match line {
        Line::Leaf(rows) => leaf_quarters(squares, &rows),
        Line::Quad {
            level,
            nw,
            ne,
            sw,
            se,
        } => {
            let nw = quarter(squares, ids, level - 1, nw);
            let ne = quarter(squares, ids, level - 1, ne);
            let sw = quarter(squares, ids, level - 1, sw);
            let se = quarter(squares, ids, level - 1, se);
            Ok(Quarters { nw, ne, sw, se })
        }
    }
}

/// The square of at least this level with the same cells.
pub(crate) fn grow_to<S: Squares>(squares: &mut S, id: Id, level: u8) -> Result<Id, Kind>
    requires known { S.knows squares.old id }
    requires low { 1 ≤ depth (S.content squares.old id) }
    requires high { level ≤ MAX_LEVEL }
    ensures known { IfOk result (S.knows squares.new) }
    ensures level { IfOk result
        (λ r. depth (S.content squares.new r) ≡ max level (depth (S.content squares.old id))) }
    ensures cells { IfOk result (λ r. (x y : ℤ)
        → tree_cell (S.content squares.new r) x y ≡ tree_cell (S.content squares.old id) x y) }
    ensures grown { OnOk result (HasGrown S.Squares squares.new (S.content squares.old id) level) }
    ensures grows { GrowsOnly S.Squares squares.old squares.new result
        (λ P. SomeGrown P (S.content squares.old id) level) }
{
    if level <= squares.level(id) {
        return Ok(id);
    }
    let larger = grow(squares, id)?;
    grow_to(squares, larger, level)
}
