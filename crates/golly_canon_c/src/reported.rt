//! The result of a call, put where the caller wants it.

ghost use Rattle.std.specs.Prelude.{◌≡◌};
ghost use Rattle.golly_canon_c.specs.Words.{comparison_of, reply};

use library_calls::{Compared, Reported};

/// Puts the length and the line of a result into `needed` and `line`, and returns the status.
pub(crate) fn tell(answer: Reported, needed: &mut usize, line: &mut u64) -> u32
    ensures { answer ≡ reply result needed.new line.new }
{
    *needed = answer.needed;
    *line = answer.line;
    answer.status
}

/// Puts the length of a sentence into `needed`, and returns the status.
pub(crate) fn tell_sentence(answer: Reported, needed: &mut usize) -> u32
    requires { answer.line ≡ 0 }
    ensures { answer ≡ reply result needed.new 0 }
{
    *needed = answer.needed;
    answer.status
}

/// The same of a comparison.
pub(crate) fn tell_compared(answer: Compared, is_same: &mut u32, line: &mut u64) -> u32
    ensures { answer ≡ comparison_of result is_same.new line.new }
{
    *is_same = answer.is_same;
    *line = answer.line;
    answer.status
}
