//! Theorems that speak of no call.

ghost use Rattle.theorems.specs.Words.{PatternsHaveFiles, PatternsOfFilesFit};

use life_pattern::laws::files_are_on_plane;
use life_writer::laws::texts_are_files;

/// Each pattern whose rule is that of its own text, whose generation is below 2^64, whose states are those of the rule, and
/// that has state 0 outside the plane, is the pattern of some file.
pub fn patterns_have_files()
    ensures { PatternsHaveFiles }
{
    texts_are_files();
}

/// The pattern of each file has such a rule, such a generation, such states, and state 0 outside the plane.
pub fn patterns_of_files_fit()
    ensures { PatternsOfFilesFit }
{
    files_are_on_plane();
}
