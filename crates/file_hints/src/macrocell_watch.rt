//! What is known of a macrocell file by its bytes so far, to warn of one that was probably damaged.

ghost use Rattle.std.specs.Prelude.{◌≡◌, ◌++◌, ◌∷◌, ℕ, List, [], IsTrue};
ghost use Rattle.file_hints.specs.Words.{is_neighbour_count, is_set_letter, warning_in_macrocell};

use crate::warnings::Warning;
use life_base::is_whitespace;

/// Where in a macrocell file the bytes so far end, which begin with `[M2]`.
#[derive(Clone, Copy)]
pub(crate) enum Place {
    /// In the first line, which has no carriage return so far.
    FirstLine,
    /// In the first line, whose first carriage return came last, or several did.
    FirstReturn,
    /// After a carriage return inside the first line.
    Return,
    /// At the beginning of a line, before any line of squares.
    LineStart,
    /// In a line that has whitespace alone so far.
    Spaces,
    /// In a line that is `#` so far.
    Hash,
    /// In a line that is `#R` so far.
    RuleMark,
    /// In a line that is `#R` and digits of counts so far.
    Counts,
    /// In a line that is `#R` and `B` or `S` so far, of either case.
    Sets,
    /// In a line that is `#G` so far.
    Generation,
    /// In a comment.
    Comment,
    /// In a comment that would be a rule or a generation if it had a space.
    Meant,
    /// After such a comment.
    Missed,
    /// After a line of squares, or in it.
    Squares,
}

/// Whether a byte is a count of neighbours.
fn is_neighbour_count(byte: u8) -> bool
    ensures { result ≡ is_neighbour_count byte }
{
    matches!(byte, b'0'..=b'8')
}

/// Whether a byte begins the births or the survivals of a rule.
fn is_set_letter(byte: u8) -> bool
    ensures { result ≡ is_set_letter byte }
{
    matches!(byte, b'B' | b'b' | b'S' | b's')
}

impl Place {
    /// What is known after a byte more of a line.
    pub(crate) fn after_byte(self, byte: u8) -> Place
        ensures { (text : List ℕ) (lines : List (List ℕ))
            → warning_in_macrocell result text lines
            ≡ warning_in_macrocell self (byte ∷ text) lines }
    {
        match self {
            Place::FirstLine if byte == b'\r' => Place::FirstReturn,
            Place::FirstReturn if byte != b'\r' => Place::Return,
            Place::LineStart if byte == b'#' => Place::Hash,
            Place::Spaces if byte == b'#' => Place::Comment,
            Place::LineStart | Place::Spaces if is_whitespace(byte) => Place::Spaces,
            Place::LineStart | Place::Spaces => Place::Squares,
            Place::Hash if byte == b'R' => Place::RuleMark,
            Place::Hash if byte == b'G' => Place::Generation,
            Place::RuleMark if is_set_letter(byte) => Place::Sets,
            Place::RuleMark | Place::Counts if is_neighbour_count(byte) => Place::Counts,
            Place::RuleMark | Place::Counts if byte == b'/' => Place::Meant,
            Place::Sets if is_neighbour_count(byte) => Place::Meant,
            Place::Generation if byte.is_ascii_digit() => Place::Meant,
            Place::Hash | Place::RuleMark | Place::Counts | Place::Sets | Place::Generation =>
                Place::Comment,
            _ => self,
        }
    }

    /// Whether the rest of the file doesn't matter.
    pub(crate) fn is_known(self) -> bool
        ensures { IsTrue result → (text others : List ℕ) (lines more : List (List ℕ))
            → warning_in_macrocell self text lines ≡ warning_in_macrocell self others more }
    {
        matches!(self, Place::Return | Place::Missed | Place::Squares)
    }

    /// What is known after more of a line.
    pub(crate) fn after_text(self, text: &[u8]) -> Place
        ensures { (rest : List ℕ) (lines : List (List ℕ))
            → warning_in_macrocell result rest lines
            ≡ warning_in_macrocell self (text.now ++ rest) lines }
    {
        let mut place = self;
        let mut left = text;
        while let [first, others @ ..] = left {
            place = place.after_byte(*first);
            left = others;
        }
        place
    }

    /// What is known after the end of a line.
    pub(crate) fn after_feed(self) -> Place
        ensures { (text : List ℕ) (lines : List (List ℕ))
            → warning_in_macrocell result text lines
            ≡ warning_in_macrocell self [] (text ∷ lines) }
    {
        match self {
            Place::Return | Place::Missed | Place::Squares => self,
            Place::Meant => Place::Missed,
            _ => Place::LineStart,
        }
    }

    /// The warning if the file ends here.
    pub(crate) fn at_end(self) -> Option<Warning>
        ensures { result ≡ warning_in_macrocell self [] [] }
    {
        match self {
            Place::Return => Some(Warning::Return),
            Place::Missed => Some(Warning::Comment),
            Place::Squares => None,
            _ => Some(Warning::NoSquares),
        }
    }
}
