//! Cells that can be written.

ghost use Rattle.std.specs.Prelude.{◌≡◌};
ghost use Rattle.life_rle.specs.Words.{are_sorted_cells, is_live_cell, rises};

use crate::plane::{is_coordinate, is_state_of};
use life_base::{Cell, MAX_LEVEL, Rule};

/// Whether a cell is in the plane, of a nonzero state under the rule.
fn is_live_cell(rule: &Rule, cell: &Cell) -> bool
    ensures { result ≡ is_live_cell MAX_LEVEL rule.now cell.now }
{
    is_coordinate(cell.x)
        && is_coordinate(cell.y)
        && cell.state > 0
        && is_state_of(rule, cell.state)
}

/// Whether the second cell is in a later row, or after the first in one row.
fn rises(first: &Cell, second: &Cell) -> bool
    ensures { result ≡ rises first.now second.now }
{
    first.y < second.y || (first.y == second.y && first.x < second.x)
}

/// Whether `write_rle` can write the cells under the rule: they are in the plane, of nonzero states of the rule, and rise strictly by
/// row and column. It takes no memory.
pub fn sorted_cells(rule: &Rule, cells: &[Cell]) -> bool
    ensures { result ≡ are_sorted_cells MAX_LEVEL rule.now cells.now }
{
    for (i, cell) in cells.iter().enumerate() {
        if !is_live_cell(rule, cell) {
            return false;
        }
        if i + 1 < cells.len() && !rises(cell, &cells[i + 1]) {
            return false;
        }
    }
    true
}
