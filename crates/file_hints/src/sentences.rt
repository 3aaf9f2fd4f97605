//! The sentences.

ghost use Rattle.std.specs.Prelude.{◌≡◌};
ghost use Rattle.file_hints.specs.Sentences.{sentence_of};

use life_base::Kind;

/// What a fault of this kind means, as the man page says it. `Spent`, which the program never reports, has a sentence too.
pub fn sentence(kind: Kind) -> &'static str
    ensures { result.now ≡ sentence_of kind }
{
    match kind {
        Kind::NoHeader => {
            "The file begins with no header, neither [M2] nor x = .., or it ends before one."
        }
        Kind::BadHeader => "The header isn't x = .., y = .., rule = ..",
        Kind::BadRule => {
            "The rule is empty, has more than 255 bytes, or has a byte that no rule has."
        }
        Kind::BoundedGrid => "The rule has a :, for a bounded grid.",
        Kind::UnsupportedRule => concat!(
            "The rule is of a kind that the program doesn't know: it has a / and no form of B/S, or names ",
            "neighbours that aren't supported.",
        ),
        Kind::BirthOnZero => "The rule lets a cell be born that has no live neighbour.",
        Kind::BadNumber => "A position or the generation isn't a number.",
        Kind::TooLarge => "The generation is 2^64 or more, or a count of RLE is above 2^62.",
        Kind::BadItem => "The data contain something that isn't a count, a state, $ or !.",
        Kind::ZeroCount => "A count is 0.",
        Kind::StateRange => {
            "A state is above 1 under a B/S rule, or above 255 in a macrocell file."
        }
        Kind::OutOfPlane => concat!(
            "A position, a run or a row of RLE is outside the plane, which goes from -2^61 to 2^61 - 1. ",
            "Where no line is named, a cell outside the plane wouldn't stay 0 in a later generation.",
        ),
        Kind::LateHeader => concat!(
            "A line #CXRLE comes between the header and the ! of RLE, or a line #R or #G after a square of a ",
            "macrocell file.",
        ),
        Kind::SecondHeader => "A second header follows.",
        Kind::BadNode => "A line is neither a leaf nor five numbers.",
        Kind::BadLevel => "The level of a square isn't from 1 to 62.",
        Kind::BadChild => "A child number doesn't refer to an earlier square one level down.",
        Kind::BadLeaf => "A leaf has another byte than . * $, or more than 8 rows or columns.",
        Kind::Timeline => "The file holds several patterns, with lines #FRAME.",
        Kind::LineTooLong => "A line of the file, or of the rule table, has more than 2^20 bytes.",
        Kind::Full => {
            "The command needs more than 2^31 different squares, or a form has more than 2^21."
        }
        Kind::Memory => "Memory was refused.",
        Kind::Spent => "A reader that has refused was used again.",
        Kind::NoRuleLine => "The table begins with no line @RULE NAME.",
        Kind::NoTable => "There is no line @TABLE.",
        Kind::BadDescriptor => concat!(
            "One of the lines n_states, neighborhood and symmetries is missing, given twice or too late, or is ",
            "wrong, or a line has another word before a :.",
        ),
        Kind::UnsupportedNeighborhood => "The neighbourhood is neither vonNeumann nor Moore.",
        Kind::UnsupportedSymmetry => "The neighbourhood has no such symmetries.",
        Kind::BadVariable => "A line var isn't of its form.",
        Kind::BadTransition => "A transition isn't of its form.",
        Kind::UnboundOutput => {
            "The new state of a line is a variable that isn't an input of the line."
        }
        Kind::NotQuiet => "A cell of state 0 among cells of state 0 doesn't stay 0.",
        Kind::RuleMismatch => "The rule of the pattern isn't the name of the rule table.",
        Kind::NeedsTable => "The rule is a name, and step was given no rule table.",
        Kind::Ambiguous => {
            "The line of the table that fits a cell of the pattern gives it two states."
        }
        Kind::TooManyCells => {
            "More than 2^20 cells aren't 0: too many for convert --to rle and for step."
        }
        Kind::GenerationTooLarge => {
            "The step leads beyond generation 2^64 - 1, the last one that a file can name."
        }
        Kind::StateBeyondTable => "A cell of the pattern has a state that the rule table lacks.",
        Kind::ReadFault => "A file can't be opened or read, or the system gives no random bytes.",
        Kind::WriteFault => "The output can't be written.",
        Kind::InputTooLong => "A file has more than 2^30 bytes.",
    }
}
