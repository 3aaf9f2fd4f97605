//! Laws of the macrocell format, over the definitions alone.

ghost use Rattle.life_mc.specs.Words.{MAX_LEVEL, MacrocellsAreValid, LinesAreValid, MacrocellsAreBlankOutside, NodeLinesCounted, MacrocellGrammarsAgree, MacrocellsAreUnique, MacrocellFaultsAreUnique, MacrocellPrefixesAreUnbroken, MacrocellPrefixesAreFiles, MacrocellKindsNameLines, LongMacrocellLinesBreak, MacrocellRefusalsHaveKinds, WiderPlanesKeepMacrocells, MacrocellLinesBreakByKinds, LinesStandForSquares, TextsReadBack};

/// The format defined as a whole and the format defined by the rule that a line breaks accept the same lines, with the same
/// meaning.
pub fn grammars_agree()
    ensures { MacrocellGrammarsAgree MAX_LEVEL }
{}

/// The lines of a file say one rule, one generation and one list of squares.
pub fn files_are_unique()
    ensures { MacrocellsAreUnique MAX_LEVEL }
{}

/// Lines that are no file have one fault: one place and one kind.
pub fn faults_are_unique()
    ensures { MacrocellFaultsAreUnique MAX_LEVEL }
{}

/// Lines can be continued to a file exactly if none of them breaks a rule.
pub fn prefixes_are_unbroken()
    ensures { MacrocellPrefixesAreUnbroken MAX_LEVEL }
{}

/// One or more lines are the prefix of a file exactly if they are a file.
pub fn prefixes_are_files()
    ensures { MacrocellPrefixesAreFiles MAX_LEVEL }
{}

/// A line is refused as too long exactly if it has more than 2^20 bytes.
pub fn long_lines_break()
    ensures { LongMacrocellLinesBreak MAX_LEVEL }
{}

/// A line that breaks a rule breaks it with one of the kinds of the format.
pub fn lines_break_by_kinds()
    ensures { MacrocellLinesBreakByKinds MAX_LEVEL }
{}

/// Each kind of the format names a line.
pub fn kinds_name_lines()
    ensures { MacrocellKindsNameLines }
{}

/// Lines that are no file are refused with one of the kinds of the format.
pub fn refusals_have_kinds()
    ensures { MacrocellRefusalsHaveKinds MAX_LEVEL }
{}

/// The rule, the generation and the squares that the bytes of a file say are valid.
pub fn files_are_valid()
    ensures { MacrocellsAreValid MAX_LEVEL }
{}

/// The rule, the generation and the squares that the lines of a file say are valid.
pub fn lines_are_valid()
    ensures { LinesAreValid MAX_LEVEL }
{}

/// Every cell outside the plane has state 0.
pub fn blank_outside()
    ensures { MacrocellsAreBlankOutside MAX_LEVEL }
{}

/// The text of each valid file of fewer than 10^64 node lines says that file.
pub fn texts_read_back()
    ensures { TextsReadBack MAX_LEVEL }
{}

/// Each node line of a valid file represents one square, and the cells of the file are those of the root's square.
pub fn lines_stand_for_squares()
    ensures { LinesStandForSquares MAX_LEVEL }
{}

/// The number of node lines of a file counts those of its bytes, whether the root reaches them or not.
pub fn node_lines_counted()
    ensures { NodeLinesCounted MAX_LEVEL }
{}

/// Every macrocell file of a plane is one of each wider plane, and says the same there.
pub fn wider_planes_keep_files()
    ensures { WiderPlanesKeepMacrocells }
{}
