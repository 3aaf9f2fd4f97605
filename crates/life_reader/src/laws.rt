//! Laws of files that come in pieces.

ghost use Rattle.life_reader.specs.Words.{MAX_LEVEL, ReadersStand, FaultsStay, LengthsStay, LengthHidesNoFault, FewSquares, LimitSuffices, PrefixesHold};

/// A reader that was lent a store may be lent it again while each Id that the reader keeps names the square that it named; the other Ids don't matter.
pub fn readers_stand()
    ensures { ReadersStand }
{}

/// A fault stays: what can be reported of a prefix of an input is the fault of every longer input, whatever bytes follow.
pub fn faults_stay()
    ensures { FaultsStay MAX_LEVEL }
{}

/// What is too long stays too long: an input of which more bytes came than may be read is never read to its end with more bytes after it.
pub fn lengths_stay()
    ensures { LengthsStay }
{}

/// The length of an input hides no fault: what can be reported of its first bytes, as many as may be read, is the fault of the whole, and the fault
/// of a line that ends in them can be reported of them.
pub fn length_hides_no_fault()
    ensures { LengthHidesNoFault MAX_LEVEL }
{}

/// A file of n bytes needs at most 14 n + 264 squares that aren't blank.
pub fn few_squares()
    ensures { FewSquares }
{}

/// A store that lacks a square of a file, and holds only squares of a list and squares of the file, each once, holds fewer than the list has and
/// 14 n + 264 more: so it is not full, if its limit allows these.
pub fn limit_suffices()
    ensures { LimitSuffices }
{}

/// What a store holds besides a list, while a file comes in pieces, are squares of the lines that have ended, and so squares of the file.
pub fn prefixes_hold()
    ensures { PrefixesHold }
{}
