//! Laws of canonical texts, and of texts in RLE.

ghost use Rattle.life_writer.specs.Words.{MAX_LEVEL, TextsTellUniverses, TextsTellPatterns, TextsAreFiles, TextsKeepPatterns, RleTextsAreFiles, RleTextsKeepPatterns, TextsAreFixed, CanonicalIsLeast, SquaresHavePlaces, WiderPlaneKeepsTexts, WiderPlanesKeepFiles};

/// Two patterns have one canonical text exactly if they are the same.
pub fn texts_tell_universes()
    ensures { TextsTellUniverses MAX_LEVEL }
{}

/// Two files have one canonical text exactly if they are the same pattern.
pub fn texts_tell_patterns()
    ensures { TextsTellPatterns MAX_LEVEL }
{}

/// The canonical text of a pattern is a macrocell file of the same pattern.
pub fn texts_are_files()
    ensures { TextsAreFiles MAX_LEVEL }
{}

/// The canonical text of a file is the same pattern as the file.
pub fn texts_keep_patterns()
    ensures { TextsKeepPatterns MAX_LEVEL }
{}

/// The text in extended RLE of the cells of a pattern is an RLE file of the same pattern.
pub fn rle_texts_are_files()
    ensures { RleTextsAreFiles MAX_LEVEL }
{}

/// The text in extended RLE of a file is the same pattern as the file.
pub fn rle_texts_keep_patterns()
    ensures { RleTextsKeepPatterns MAX_LEVEL }
{}

/// The canonical text of a canonical text is itself.
pub fn texts_are_fixed()
    ensures { TextsAreFixed MAX_LEVEL }
{}

/// No macrocell file of a pattern has fewer node lines than its canonical one; under a name, none without leaf lines.
pub fn canonical_is_least()
    ensures { CanonicalIsLeast MAX_LEVEL }
{}

/// Each square of a canonical file has a node line in every macrocell file of the pattern, no two of them one line; under a name, in every one
/// without leaf lines.
pub fn squares_have_places()
    ensures { SquaresHavePlaces MAX_LEVEL }
{}

/// On every wider plane, up to level 62, a pattern has the same canonical text, and the text is a file of it there too.
pub fn wider_plane_keeps_texts()
    ensures { WiderPlaneKeepsTexts }
{}

/// Every file of a plane is one of each wider plane, up to level 62, says the same there, and has the same canonical text.
pub fn wider_planes_keep_files()
    ensures { WiderPlanesKeepFiles }
{}
