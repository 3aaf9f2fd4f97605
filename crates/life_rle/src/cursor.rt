//! The place of the next item.

ghost use Rattle.std.specs.Prelude.{◌≡◌, ◌≤◌, List, IfErr};
ghost use Rattle.life_rle.specs.Words.{most_count, item_fault, IsNear, start_of, cursor_after_item, item_count, row_limit, Cells, RowEnds, Rule, Run, TakesItem};

use crate::item::Item;
use crate::plane::{EDGE, is_state_of};
use crate::position::Position;
use life_base::{Kind, MAX_LEVEL, Rule, State};

/// The column at which rows begin, and the column and row of the next item.
#[derive(Clone, Copy, Debug, PartialEq, Eq)]
pub struct Cursor {
    pub left: i64,
    pub x: i64,
    pub y: i64,
}

/// The place of the first item.
pub(crate) fn start_of(position: Position) -> Cursor
    ensures { result ≡ start_of position }
{
    Cursor {
        left: position.x,
        x: position.x,
        y: position.y,
    }
}

/// The column up to which a row may have cells: the edge of the plane, and below the plane one west of every column.
#[inline(always)]
pub(crate) fn row_limit(y: i64) -> i64
    ensures { result ≡ row_limit MAX_LEVEL y }
{
    if y < EDGE { EDGE } else { i64::MIN }
}

/// Which rule is broken by cells at this place, in a row with this limit.
#[inline(always)]
pub(crate) fn cells_fault(
    rule: &Rule,
    cursor: Cursor,
    limit: i64,
    count: u64,
    state: State,
) -> Option<Kind>
    requires near { IsNear MAX_LEVEL cursor }
    requires limit { limit ≡ row_limit MAX_LEVEL cursor.y }
    requires count { count ≤ most_count MAX_LEVEL }
    ensures { result ≡ item_fault MAX_LEVEL rule.now cursor.y cursor.x (Cells count state) }
{
    if !is_state_of(rule, state) {
        return Some(Kind::StateRange);
    }
    let inside = cursor.x + count as i64 <= limit;
    if inside { None } else { Some(Kind::OutOfPlane) }
}

/// The place after an item.
#[inline(always)]
pub(crate) fn cursor_after(cursor: Cursor, item: Item) -> Cursor
    requires near { IsNear MAX_LEVEL cursor }
    requires count { item_count item ≤ most_count MAX_LEVEL }
    ensures { result ≡ cursor_after_item cursor item }
{
    match item {
        Item::Cells { count, .. } => Cursor {
            left: cursor.left,
            x: cursor.x + count as i64,
            y: cursor.y,
        },
        Item::RowEnds { count } => Cursor {
            left: cursor.left,
            x: cursor.left,
            y: cursor.y + count as i64,
        },
    }
}

/// The place after ends of rows, unless it is further down than the row below the plane's last one.
#[inline(always)]
pub(crate) fn end_rows(cursor: Cursor, count: u64) -> Result<Cursor, Kind>
    requires near { IsNear MAX_LEVEL cursor }
    requires count { count ≤ most_count MAX_LEVEL }
    ensures takes { (rule : Rule) (runs : List Run)
        → TakesItem MAX_LEVEL rule cursor (RowEnds count) runs runs result }
    ensures outside { IfErr result (λ kind. kind ≡ Kind.OutOfPlane) }
{
    if cursor.y + count as i64 <= EDGE {
        Ok(cursor_after(cursor, Item::RowEnds { count }))
    } else {
        Err(Kind::OutOfPlane)
    }
}
