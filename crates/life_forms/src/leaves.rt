//! Leaves, turned.

ghost use Rattle.std.specs.Prelude.{◌≡◌, false};
ghost use Rattle.life_forms.specs.Words.{eight, rows_of, turned_tree, turn_of};

use life_lanes::{by_rows, exchange};
use life_quad::Turn;

/// The cells of a leaf with columns counted from the other side, if they are to be: in each square the western quarters are exchanged with the eastern ones.
fn with_columns(counted: bool, cells: u64) -> u64
    ensures { eight result ≡ turned_tree (turn_of false counted false) (eight cells) }
{
    if !counted {
        return cells;
    }
    let halves = exchange(cells, 0x0000_FFFF_0000_FFFF, 16);
    let quarters = exchange(halves, 0x0F0F_0F0F_0F0F_0F0F, 4);
    exchange(quarters, 0x5555_5555_5555_5555, 1)
}

/// The same with rows: the northern quarters with the southern ones.
fn with_rows(counted: bool, cells: u64) -> u64
    ensures { eight result ≡ turned_tree (turn_of false false counted) (eight cells) }
{
    if !counted {
        return cells;
    }
    let halves = exchange(cells, 0x0000_0000_FFFF_FFFF, 32);
    let quarters = exchange(halves, 0x00FF_00FF_00FF_00FF, 8);
    exchange(quarters, 0x3333_3333_3333_3333, 2)
}

/// The cells of a leaf with columns and rows exchanged, if they are to be: the north-eastern quarters with the south-western ones.
fn with_exchange(exchanged: bool, cells: u64) -> u64
    ensures { eight result ≡ turned_tree (turn_of exchanged false false) (eight cells) }
{
    if !exchanged {
        return cells;
    }
    let halves = exchange(cells, 0x0000_0000_FFFF_0000, 16);
    let quarters = exchange(halves, 0x00F0_00F0_00F0_00F0, 4);
    exchange(quarters, 0x2222_2222_2222_2222, 1)
}

/// The cells of a leaf, turned, as `Squares::leaf` takes them.
pub(crate) fn turned_leaf(turn: Turn, cells: u64) -> u64
    ensures { eight result ≡ turned_tree turn (eight cells) }
{
    let columns = with_columns(turn.columns, cells);
    let rows = with_rows(turn.rows, columns);
    with_exchange(turn.exchange, rows)
}

/// The eight rows of a leaf as bytes, the western cell the highest bit.
pub(crate) fn leaf_rows(cells: u64) -> [u8; 8]
    ensures { result ≡ rows_of (eight cells) }
{
    by_rows(cells).to_be_bytes()
}
