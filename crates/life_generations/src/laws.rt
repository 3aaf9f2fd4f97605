//! Laws of later generations. Each function states one as its contract, and does nothing.

ghost use Rattle.life_generations.specs.Words.{LaterAdds, LaterTextsAreUnique, NoGenerationIsCanonical, OneGenerationIsStep};

use life_pattern::laws::{files_are_on_plane, files_are_unique};
use life_writer::laws::{texts_are_files, texts_tell_universes};

/// A file has one text so many generations later.
pub fn later_texts_are_unique()
    ensures { LaterTextsAreUnique }
{
    files_are_on_plane();
    files_are_unique();
    texts_tell_universes();
}

/// No generation later the text is the canonical text of the file, and no file is refused.
pub fn no_generation_is_canonical()
    ensures { NoGenerationIsCanonical }
{
    files_are_on_plane();
    texts_are_files();
    texts_tell_universes();
}

/// One generation later the text is that of `step_life`, wherever that has one.
pub fn one_generation_is_step()
    ensures { OneGenerationIsStep }
{
    files_are_on_plane();
}

/// So many generations, and so many after those, add up.
pub fn later_generations_add()
    ensures { LaterAdds }
{}
