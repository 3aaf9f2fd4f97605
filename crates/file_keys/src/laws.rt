//! Laws over the definitions alone.

ghost use Rattle.file_keys.specs.Words.{GroupsAreByKey};

/// Two files of a run are in one group exactly if both have a key and the keys are equal. A group has all files with some key, and more than one;
/// no file is in two groups.
pub fn groups_are_by_key()
    ensures { GroupsAreByKey }
{}
