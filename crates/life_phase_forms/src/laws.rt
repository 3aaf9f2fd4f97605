//! Laws of phases and of their texts. The contract of each function states a law. Calling it gives the law to the prover; at run time the call does nothing.
ghost use Rattle.life_phase_forms.specs.Words.{CoursesKeepPeriods, GenerationsKeepTurns, PhasesTextsAreFiles, PhasesTextsTellFiles};

use life_pattern::laws::{files_are_on_plane, files_are_unique};
use life_writer::laws::{texts_are_files, texts_tell_universes};

/// The generations of the image of a pattern are the images of its generations.
pub fn generations_keep_turns()
    ensures { GenerationsKeepTurns }
{}

/// A pattern with a period, and what a turn and a shift make of it some generations later, have the same periods.
pub fn courses_keep_periods()
    ensures { CoursesKeepPeriods }
{}

/// Two files have one text exactly if their patterns are the same but for places, orientations and phases.
pub fn phases_texts_tell_files()
    ensures { PhasesTextsTellFiles }
{
    files_are_on_plane();
    files_are_unique();
    texts_tell_universes();
}

/// The text of a file is a canonical file of one of its phases, and the only text of that file.
pub fn phases_texts_are_files()
    ensures { PhasesTextsAreFiles }
{
    files_are_on_plane();
    texts_are_files();
    texts_tell_universes();
}
