//! What a refused file is instead of a pattern, and what seems damaged in an accepted one, in sentences.

ghost use Rattle.std.specs.Prelude.{◌≡◌, ◌≢◌, ◌==◌, not, []};
ghost use Rattle.golly_canon_c.specs.Words.{advice_on, KindValue, kind_number, ReturnsText, reply, sentence_of_stream, sentence_of_warning, session_of, status_advice, warning_of};

use crate::names::{kind_of, tell_name};
use crate::reported::tell_sentence;
use file_hints::advice_on;
use library_calls::{Stream, stream_warning, warning};
use std::alloc::Global;

/// What a file is that is refused with this status, in a sentence, and no byte for a status of no kind.
fn advice_of(number: u32, bytes: &[u8], is_table: bool) -> &'static [u8]
    ensures { result.now ≡ status_advice number is_table bytes.now }
{
    match kind_of(number) {
        Some(kind) => advice_on(kind, bytes, is_table),
        None => b"",
    }
}

/// What a file is that was refused with this status, if it is something else than a pattern, or than a rule table where `is_table` isn't 0: a sentence that
/// says so, and what to do. No byte, if nothing is known of it.
#[unsafe(no_mangle)]
pub extern "C" fn golly_canon_advice(
    number: u32,
    bytes: &[u8],
    is_table: u32,
    out: &mut [u8],
    needed: &mut usize,
) -> u32
    ensures kind { (kind : KindValue) → number ≡ kind_number kind
        → ReturnsText (advice_on kind (not (is_table == 0)) bytes.now) out.old out.new
        (reply result needed.new 0) }
    ensures none { ((kind : KindValue) → number ≢ kind_number kind)
        → ReturnsText [] out.old out.new (reply result needed.new 0) }
{
    tell_name(advice_of(number, bytes, is_table != 0), out, needed)
}

/// What seems damaged in a file that is accepted, in a sentence, and no byte where nothing does.
#[unsafe(no_mangle)]
pub extern "C" fn golly_canon_warning(bytes: &[u8], out: &mut [u8], needed: &mut usize) -> u32
    ensures { ReturnsText (sentence_of_warning (warning_of bytes.now)) out.old out.new
        (reply result needed.new 0) }
{
    tell_sentence(warning(bytes, out), needed)
}

/// What seems damaged in the file that a stream has read to its end, in a sentence. No byte where nothing does, and for a stream that has not ended, or that
/// has refused its file, or is closed.
#[unsafe(no_mangle)]
pub extern "C" fn golly_canon_stream_warning(
    alloc: Global,
    stream: &mut Stream,
    out: &mut [u8],
    needed: &mut usize,
) -> u32
    ensures stream { session_of stream.new ≡ session_of stream.old }
    ensures text { ReturnsText (sentence_of_stream (session_of stream.old)) out.old out.new
        (reply result needed.new 0) }
{
    tell_sentence(stream_warning(alloc, stream, out), needed)
}
