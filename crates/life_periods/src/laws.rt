//! Laws of the periods of files. The contract of each function states a law, and the function does nothing.
ghost use Rattle.life_periods.specs.Words.{FilesHaveOnePeriod};

use life_pattern::laws::{files_are_on_plane, files_are_unique};

/// A file has one answer up to a greatest period.
pub fn files_have_one_period()
    ensures { FilesHaveOnePeriod }
{
    files_are_on_plane();
    files_are_unique();
}
