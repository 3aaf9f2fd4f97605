//! The calls that give the text of a file in a form, or its key.

ghost use Rattle.std.specs.Prelude.{◌≡◌};
ghost use Rattle.library_calls.specs.Words.{AnswersInForm, Fits, SomeToRead, TellsText, reply, form_numbered, IsTextInForm, IsKeyInForm};

use crate::options::Options;
use crate::reported::{Reported, give, refuse};
use crate::texts::{Output, answer, text_of_file};
use life_base::Form;
use sha2::{Digest, Sha256};
use std::alloc::Global;

/// The status of a call with a number that is that of no form.
pub const NO_FORM: u32 = 65;

/// The least number of a form for all phases. The form whose period is sought up to `most` generations has the number `PHASES + most`.
pub const PHASES: u32 = 1 << 31;

/// The form with this number, if one has it.
pub(crate) fn form_of(number: u32) -> Option<Form>
    ensures { result ≡ form_numbered number }
{
    match number {
        0 => Some(Form::Placed),
        1 => Some(Form::Moved),
        2 => Some(Form::Turned),
        _ if number >= PHASES => Some(Form::Phases(u64::from(number - PHASES))),
        _ => None,
    }
}

/// The result if no form has the number.
fn no_form() -> Reported
    ensures { result ≡ reply 65 0 0 }
{
    Reported {
        status: NO_FORM,
        needed: 0,
        line: 0,
    }
}

/// The canonical text of the pattern of a file of either format, in the form with this number: 0 placed, 1 moved, 2 turned, and `PHASES + most` for all phases,
/// with a period of up to `most` generations.
pub fn canon_form(
    alloc: Global,
    bytes: &[u8],
    form: u32,
    options: Options,
    out: &mut [u8],
) -> Reported
    ensures answers { AnswersInForm IsTextInForm form options.limit bytes.now out.old out.new
        result }
    ensures fits { TellsText result → Fits (SomeToRead bytes.now) options.limit }
{
    let Some(form) = form_of(form) else {
        return no_form();
    };
    answer(alloc, bytes, Output::Canonical(form), options, out)
}

/// The key of the pattern of a file of either format, in the form with this number: the SHA-256 of the text that `canon_form` gives, 32 bytes.
pub fn key(alloc: Global, bytes: &[u8], form: u32, options: Options, out: &mut [u8]) -> Reported
    ensures answers { AnswersInForm IsKeyInForm form options.limit bytes.now out.old out.new
        result }
    ensures fits { TellsText result → Fits (SomeToRead bytes.now) options.limit }
{
    let Some(form) = form_of(form) else {
        return no_form();
    };
    match text_of_file(alloc, bytes, Output::Canonical(form), options) {
        Ok(text) => give(&Sha256::digest(text.as_slice()), out),
        Err(fault) => refuse(&fault),
    }
}
