//! The plane, its cells and their states.

/// The greatest level of a square: the plane is the square of this level, and its coordinates go from -2^61 to 2^61 - 1.
/// It may be 62 at most, so that coordinates and counts fit their types.
pub const MAX_LEVEL: u8 = 62;

/// A state of a cell: 0 is dead, and a B/S rule has 0 and 1 alone.
pub type State = u8;

/// A cell of the plane and its state: column `x`, row `y`, which grows downwards.
#[derive(Clone, Copy, Debug, PartialEq, Eq)]
pub struct Cell {
    /// The column.
    pub x: i64,
    /// The row.
    pub y: i64,
    /// The state; 0 where the cell is dead.
    pub state: State,
}

/// Cells of one state, side by side in a row: from the cell `x`, `y` on, eastwards.
#[derive(Clone, Copy, Debug, PartialEq, Eq)]
pub struct Run {
    /// The column of the first cell.
    pub x: i64,
    /// The row.
    pub y: i64,
    /// How many cells.
    pub len: u64,
    /// Their state.
    pub state: State,
}
