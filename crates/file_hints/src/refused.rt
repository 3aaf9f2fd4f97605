//! What is said of a refused file.

ghost use Rattle.std.specs.Prelude.{◌≡◌};
ghost use Rattle.file_hints.specs.Words.{advice_on, advice_words, foreign_on};

use crate::foreign::Foreign;
use crate::recognizing::recognize;
use life_base::Kind;

/// What is said of a file where a fault of this kind is reported: nothing where the fault isn't one of the bytes of the file.
pub fn foreign_on(kind: Kind, foreign: Option<Foreign>) -> Option<Foreign>
    ensures { result ≡ foreign_on kind foreign }
{
    match kind {
        Kind::ReadFault | Kind::Full | Kind::Memory | Kind::Spent => None,
        _ => foreign,
    }
}

/// The sentence on what a file is, and what to do; no byte for a file of which nothing is said.
pub fn advice_words(foreign: Option<Foreign>) -> &'static [u8]
    ensures { result.now ≡ advice_words foreign }
{
    match foreign {
        Some(foreign) => foreign.advice().as_bytes(),
        None => b"",
    }
}

/// The sentence on a file with these bytes that is refused with a fault of this kind. `is_table` says whether a rule table was wanted.
pub fn advice_on(kind: Kind, bytes: &[u8], is_table: bool) -> &'static [u8]
    ensures { result.now ≡ advice_on kind is_table bytes.now }
{
    advice_words(foreign_on(kind, recognize(bytes, is_table)))
}
