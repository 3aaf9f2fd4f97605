//! The calls that say what a file is instead of a pattern, and what seems damaged in one that is accepted.

ghost use Rattle.std.specs.Prelude.{◌≡◌};
ghost use Rattle.library_calls.specs.Words.{ReturnsText, sentence_of_warning, warning_of};

use crate::reported::{Reported, give};
use file_hints::Warning;

/// The sentence of a warning, and no byte for none.
pub(crate) fn sentence_of_warning(warning: Option<Warning>) -> &'static [u8]
    ensures { result.now ≡ sentence_of_warning warning }
{
    match warning {
        Some(warning) => warning.sentence().as_bytes(),
        None => b"",
    }
}

/// The sentence of the warning of a file with these bytes, if it is accepted, and no byte for a file without a warning.
pub fn warning(bytes: &[u8], out: &mut [u8]) -> Reported
    ensures text { ReturnsText (sentence_of_warning (warning_of bytes.now)) out.old out.new
        result }
    ensures line { result.line ≡ 0 }
{
    give(sentence_of_warning(file_hints::warning_of(bytes)), out)
}
