//! The calls on streams: a file in pieces, and one answer at its end.

ghost use Rattle.std.specs.Prelude.{◌≡◌, None, IfSome, MatchOption};
ghost use Rattle.golly_canon_c.specs.Words.{form_numbered, session_of, OpensStream, Feeds, Finishes, IsSpent, TellsPiece, TellsNothing, TellsEnd, TellsKey, TellsText, reply, FormValue, OutputValue};

use crate::reported::tell;
use library_calls::{
    Form, Options, Output, Stream, close, feed, finish, finish_key, open, open_canon_form,
};
use std::alloc::Global;

/// Opens a stream whose end gives the canonical text, and closes it first where it is open.
#[unsafe(no_mangle)]
pub extern "C" fn golly_canon_open_canon(
    alloc: Global,
    stream: &mut Stream,
    limit: u64,
    seed: u64,
) -> u32
    ensures { OpensStream (OutputValue.Canonical FormValue.Placed) limit result
        (session_of stream.new) }
{
    open(
        alloc,
        stream,
        Output::Canonical(Form::Placed),
        Options { limit, seed },
    )
}

/// Opens a stream whose end gives what `golly_canon_canon_form` gives in the form with this number, and closes it first where it is open.
#[unsafe(no_mangle)]
pub extern "C" fn golly_canon_open_canon_form(
    alloc: Global,
    stream: &mut Stream,
    form: u32,
    limit: u64,
    seed: u64,
) -> u32
    ensures { MatchOption (form_numbered form) ((result ≡ 65) × (session_of stream.new ≡ None))
        (λ form. OpensStream (OutputValue.Canonical form) limit result (session_of stream.new)) }
{
    open_canon_form(alloc, stream, form, Options { limit, seed })
}

/// Opens a stream whose end gives the pattern in extended RLE, and closes it first where it is open.
#[unsafe(no_mangle)]
pub extern "C" fn golly_canon_open_to_rle(
    alloc: Global,
    stream: &mut Stream,
    limit: u64,
    seed: u64,
) -> u32
    ensures { OpensStream OutputValue.Rle limit result (session_of stream.new) }
{
    open(alloc, stream, Output::Rle, Options { limit, seed })
}

/// Opens a stream whose end gives five lines on the pattern, and closes it first where it is open.
#[unsafe(no_mangle)]
pub extern "C" fn golly_canon_open_show(
    alloc: Global,
    stream: &mut Stream,
    limit: u64,
    seed: u64,
) -> u32
    ensures { OpensStream OutputValue.Lines limit result (session_of stream.new) }
{
    open(alloc, stream, Output::Lines, Options { limit, seed })
}

/// Opens a stream whose end gives the canonical text of the next generation under the file's B/S rule, and closes it first where it is open.
#[unsafe(no_mangle)]
pub extern "C" fn golly_canon_open_step(
    alloc: Global,
    stream: &mut Stream,
    limit: u64,
    seed: u64,
) -> u32
    ensures { OpensStream OutputValue.Next limit result (session_of stream.new) }
{
    open(alloc, stream, Output::Next, Options { limit, seed })
}

/// Opens a stream whose end gives the canonical text so many generations later under the file's B/S rule, and closes it first where it is open.
#[unsafe(no_mangle)]
pub extern "C" fn golly_canon_open_step_generations(
    alloc: Global,
    stream: &mut Stream,
    generations: u64,
    limit: u64,
    seed: u64,
) -> u32
    ensures { OpensStream (OutputValue.Later generations) limit result (session_of stream.new) }
{
    open(
        alloc,
        stream,
        Output::Later(generations),
        Options { limit, seed },
    )
}

/// Takes the next piece of the file. The fault of a line that it reports is that of the whole file, whatever bytes follow (`faults_stay` of
/// `life_reader`).
#[unsafe(no_mangle)]
pub extern "C" fn golly_canon_feed(
    alloc: Global,
    stream: &mut Stream,
    piece: &[u8],
    line: &mut u64,
) -> u32
    ensures closed { session_of stream.old ≡ None
        → (session_of stream.new ≡ None) × IsSpent result line.new }
    ensures feeds { Feeds piece.now (session_of stream.old) (session_of stream.new) }
    ensures tells { IfSome (session_of stream.new) (TellsPiece result line.new) }
{
    let answer = feed(alloc, stream, piece);
    *line = answer.line;
    answer.status
}

/// Ends the file, and gives its text or its fault, as often as it is called.
#[unsafe(no_mangle)]
pub extern "C" fn golly_canon_finish(
    alloc: Global,
    stream: &mut Stream,
    out: &mut [u8],
    needed: &mut usize,
    line: &mut u64,
) -> u32
    ensures closed { session_of stream.old ≡ None
        → (session_of stream.new ≡ None)
        × TellsNothing out.old out.new (reply result needed.new line.new) }
    ensures finishes { Finishes (session_of stream.old) (session_of stream.new) }
    ensures tells { IfSome (session_of stream.new)
        (TellsEnd out.old out.new (reply result needed.new line.new)) }
{
    tell(finish(alloc, stream, out), needed, line)
}

/// Ends the file, and gives the key of the text that `golly_canon_finish` gives, or its fault, as often as it is called: the SHA-256 of the text, in 64
/// hex digits.
#[unsafe(no_mangle)]
pub extern "C" fn golly_canon_finish_key(
    alloc: Global,
    stream: &mut Stream,
    out: &mut [u8],
    needed: &mut usize,
    line: &mut u64,
) -> u32
    ensures closed { session_of stream.old ≡ None
        → (session_of stream.new ≡ None)
        × TellsNothing out.old out.new (reply result needed.new line.new) }
    ensures finishes { Finishes (session_of stream.old) (session_of stream.new) }
    ensures tells { IfSome (session_of stream.new)
        (TellsKey out.old out.new (reply result needed.new line.new)) }
    ensures digits { TellsText (reply result needed.new line.new) → needed.new ≡ 64 }
{
    tell(finish_key(alloc, stream, out), needed, line)
}

/// Closes a stream.
#[unsafe(no_mangle)]
pub extern "C" fn golly_canon_close(alloc: Global, stream: &mut Stream)
    ensures { session_of stream.new ≡ None }
{
    close(alloc, stream);
}
