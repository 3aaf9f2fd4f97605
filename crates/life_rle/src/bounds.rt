//! Boxes around cells.

ghost use Rattle.std.specs.Prelude.{◌≡◌};
ghost use Rattle.life_rle.specs.Words.{int_min, int_max, box_of, box_of_cell};

use life_base::{Bounds, Cell};

/// The box of one cell.
fn bounds_of_cell(cell: &Cell) -> Bounds
    ensures { result ≡ box_of_cell cell.now }
{
    Bounds {
        left: cell.x,
        top: cell.y,
        right: cell.x,
        bottom: cell.y,
    }
}

/// The bounding box of a box and a cell.
fn bounds_with(bounds: Bounds, cell: &Cell) -> Bounds
    ensures left { result.left ≡ int_min bounds.left cell.now.x }
    ensures top { result.top ≡ int_min bounds.top cell.now.y }
    ensures right { result.right ≡ int_max bounds.right cell.now.x }
    ensures bottom { result.bottom ≡ int_max bounds.bottom cell.now.y }
{
    Bounds {
        left: bounds.left.min(cell.x),
        top: bounds.top.min(cell.y),
        right: bounds.right.max(cell.x),
        bottom: bounds.bottom.max(cell.y),
    }
}

/// The bounding box of a cell and more cells.
pub(crate) fn bounds_of(first: &Cell, cells: &[Cell]) -> Bounds
    ensures { result ≡ box_of first.now cells.now }
{
    let mut bounds = bounds_of_cell(first);
    for cell in cells {
        bounds = bounds_with(bounds, cell);
    }
    bounds
}
