//! Laws over the definitions alone.

ghost use Rattle.life_quad.specs.Words.{BlankByCells, EqualByCells, EqualByPlane, CellsLieInside, GrowingKeepsCells, TrimmingKeepsCells, TrimmingIgnoresGrowth, TrimmedIsFixed, TrimmingStops, TrimmedByCells, TrimmedIsLowest, CellsAreListed, ListIsPopulation, KnownSquaresAreFull, EqualSquaresHaveOneId};

/// A square is blank exactly if each of its cells has state 0.
pub fn blank_by_cells()
    ensures { BlankByCells }
{}

/// Full squares of one level with the same cells are equal.
pub fn equal_by_cells()
    ensures { EqualByCells }
{}

/// Full squares of one level with the same state for every pair of whole numbers are equal.
pub fn equal_by_plane()
    ensures { EqualByPlane }
{}

/// The nonzero cells of a square lie less than half a side from its middle.
pub fn cells_lie_inside()
    ensures { CellsLieInside }
{}

/// A square one level higher has the same cells.
pub fn growing_keeps_cells()
    ensures { GrowingKeepsCells }
{}

/// A trimmed square has the same cells.
pub fn trimming_keeps_cells()
    ensures { TrimmingKeepsCells }
{}

/// A square one level higher has the same trimmed form.
pub fn trimming_ignores_growth()
    ensures { TrimmingIgnoresGrowth }
{}

/// A trimmed square is its own trimmed form.
pub fn trimmed_is_fixed()
    ensures { TrimmedIsFixed }
{}

/// Trimming ends at the least level, leaves a square that is not above it, and makes none larger.
pub fn trimming_stops()
    ensures { TrimmingStops }
{}

/// Squares of any levels from the least one on have one trimmed form exactly if they have the same cells.
pub fn trimmed_by_cells()
    ensures { TrimmedByCells }
{}

/// No square from the least level on with the same cells is lower than the trimmed one.
pub fn trimmed_is_lowest()
    ensures { TrimmedIsLowest }
{}

/// A square has one list of its nonzero cells, row by row.
pub fn cells_are_listed()
    ensures { CellsAreListed }
{}

/// The list of the nonzero cells is as long as their number.
pub fn list_is_population()
    ensures { ListIsPopulation }
{}

/// An Id that a store knows represents a full square of the greatest level at most.
pub fn known_squares_are_full()
    ensures { KnownSquaresAreFull }
{}

/// Where no node is there twice, two known Ids of one square are equal.
pub fn equal_squares_have_one_id()
    ensures { EqualSquaresHaveOneId }
{}
