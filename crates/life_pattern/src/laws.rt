//! Laws of files, and of the patterns that were read from them.

ghost use Rattle.life_pattern.specs.Words.{MAX_LEVEL, FormatsDiffer, FilesAreUnique, FilesAreOnPlane, BlankOutside, FaultsAreUnique, RefusalsHaveKinds, TrimmingIgnoresGrowth, SquaresAreCentred, CentredSquaresTellCells, PatternsFit, PatternsStay, PatternsTellFiles};

/// No lines are a file of both formats.
pub fn formats_differ()
    ensures { FormatsDiffer MAX_LEVEL }
{}

/// A file says one rule, one generation and one state of each cell.
pub fn files_are_unique()
    ensures { FilesAreUnique MAX_LEVEL }
{}

/// What a file says fits the plane: a rule, a generation below 2^64, states of the rule, and state 0 outside.
pub fn files_are_on_plane()
    ensures { FilesAreOnPlane MAX_LEVEL }
{}

/// Every cell outside the plane has state 0.
pub fn blank_outside()
    ensures { BlankOutside MAX_LEVEL }
{}

/// Lines that are no file have one fault: one place and one kind.
pub fn faults_are_unique()
    ensures { FaultsAreUnique MAX_LEVEL }
{}

/// A refusal of a file has one of the kinds of files, and names a line.
pub fn refusals_have_kinds()
    ensures { RefusalsHaveKinds MAX_LEVEL }
{}

/// Trimming ignores growth: a square one level higher, with blank squares around it, has the same least square.
pub fn trimming_ignores_growth()
    ensures { TrimmingIgnoresGrowth }
{}

/// A full square of level 1 or more is the square about (0, 0) of its own cells, and all cells outside are 0.
pub fn squares_are_centred()
    ensures { SquaresAreCentred }
{}

/// Two planes that are blank outside the squares of one level about (0, 0) have the same cells, if these squares are equal.
pub fn centred_squares_tell_cells()
    ensures { CentredSquaresTellCells }
{}

/// A pattern that was read may be numbered, and has the cells of the file.
pub fn patterns_fit()
    ensures { PatternsFit MAX_LEVEL }
{}

/// What was read into a store stays read after each call that keeps the store's squares.
pub fn patterns_stay()
    ensures { PatternsStay MAX_LEVEL }
{}

/// Two patterns that were read into one store have one rule, one generation and one root exactly if their files are the same pattern.
pub fn patterns_tell_files()
    ensures { PatternsTellFiles MAX_LEVEL }
{}
