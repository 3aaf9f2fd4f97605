//! The calls on streams: a file in pieces, and one answer at its end.

ghost use Rattle.std.specs.Prelude.{◌≡◌, None, Some, IfSome, MatchOption};
ghost use Rattle.library_calls.specs.Words.{form_numbered, session_of, OpensStream, Feeds, Finishes, IsSpent, TellsPiece, TellsNothing, TellsEnd, TellsText, ReturnsText, key_digits, TellsKey, sentence_of_session, sentence_of_stream};

use crate::feeding::Feeding;
use crate::hints::sentence_of_warning;
use crate::in_form::{NO_FORM, form_of};
use crate::options::Options;
use crate::reported::{Reported, give, refuse};
use crate::session::{Session, after_end, after_piece};
use crate::stream::{Stream, put, take};
use crate::texts::Output;
use life_base::{Fault, Kind};
use sha2::{Digest, Sha256};
use std::alloc::Global;
use std::mem;

/// Opens a stream whose end gives this output, and closes it first where it is open. The answer is the status.
pub fn open(alloc: Global, stream: &mut Stream, output: Output, options: Options) -> u32
    ensures { OpensStream output options.limit result (session_of stream.new) }
{
    close(alloc, stream);
    let feeding = Feeding::new(alloc, output, options);
    match Box::new(alloc, Session::Reading(feeding)) {
        Ok(session) => {
            put(stream, session);
            0
        }
        Err(_) => Kind::Memory.number() as u32,
    }
}

/// Opens a stream whose end gives what `canon_form` gives in the form with this number, and closes it first where it is open. The answer is the status.
pub fn open_canon_form(alloc: Global, stream: &mut Stream, form: u32, options: Options) -> u32
    ensures { MatchOption (form_numbered form) ((result ≡ 65) × (session_of stream.new ≡ None))
        (λ form. OpensStream (Output.Canonical form) options.limit result (session_of stream.new)) }
{
    close(alloc, stream);
    match form_of(form) {
        Some(form) => open(alloc, stream, Output::Canonical(form), options),
        None => NO_FORM,
    }
}

/// Reports that the call doesn't fit its stream.
fn spent() -> Reported
    ensures spent { IsSpent result.status result.line }
    ensures needed { result.needed ≡ 0 }
{
    refuse(&Fault::of(Kind::Spent))
}

/// Reports what a piece made of the session.
fn tell_piece(session: &Session) -> Reported
    ensures tells { TellsPiece result.status result.line session.now }
    ensures needed { result.needed ≡ 0 }
{
    match session {
        Session::Reading(_) => Reported {
            status: 0,
            needed: 0,
            line: 0,
        },
        Session::Written(_) => spent(),
        Session::Refused(fault) => refuse(fault),
    }
}

/// Reports what the end made of the session.
fn tell_end(session: &Session, out: &mut [u8]) -> Reported
    ensures { TellsEnd out.old out.new result session.now }
{
    match session {
        Session::Reading(_) => spent(),
        Session::Written(finished) => give(&finished.text, out),
        Session::Refused(why) => refuse(why),
    }
}

/// Gives the key of a text.
fn give_key(text: &[u8], out: &mut [u8]) -> Reported
    ensures gives { ReturnsText (key_digits text.now) out.old out.new result }
    ensures line { result.line ≡ 0 }
    ensures digits { result.needed ≡ 64 }
{
    let mut digits = [0; 64];
    let _ = hex::encode_to_slice(&Sha256::digest(text), &mut digits);
    give(&digits, out)
}

/// Reports the key of the text that the end made of the session, or its fault.
fn tell_key(session: &Session, out: &mut [u8]) -> Reported
    ensures tells { TellsKey out.old out.new result session.now }
    ensures digits { TellsText result → result.needed ≡ 64 }
{
    match session {
        Session::Reading(_) => spent(),
        Session::Written(finished) => give_key(&finished.text, out),
        Session::Refused(why) => refuse(why),
    }
}

/// Takes the next piece of the file. The fault of a line that it reports is that of the whole file, whatever bytes follow (`faults_stay` of
/// `life_reader`).
pub fn feed(alloc: Global, stream: &mut Stream, piece: &[u8]) -> Reported
    ensures closed { session_of stream.old ≡ None
        → (session_of stream.new ≡ None) × IsSpent result.status result.line }
    ensures feeds { Feeds piece.now (session_of stream.old) (session_of stream.new) }
    ensures tells { IfSome (session_of stream.new) (TellsPiece result.status result.line) }
    ensures needed { result.needed ≡ 0 }
{
    let Some(mut session) = take(alloc, stream) else {
        return spent();
    };
    let before = mem::replace(&mut *session, Session::Refused(Fault::of(Kind::Spent)));
    *session = after_piece(before, piece);
    let reported = tell_piece(&session);
    put(stream, session);
    reported
}

/// Ends the file of a session.
fn end(alloc: Global, session: &mut Session)
    ensures { Finishes (Some session.old) (Some session.new) }
{
    let before = mem::replace(session, Session::Refused(Fault::of(Kind::Spent)));
    *session = after_end(before, alloc);
}

/// Ends the file, and gives its text or its fault, as often as it is called.
pub fn finish(alloc: Global, stream: &mut Stream, out: &mut [u8]) -> Reported
    ensures closed { session_of stream.old ≡ None
        → (session_of stream.new ≡ None) × TellsNothing out.old out.new result }
    ensures finishes { Finishes (session_of stream.old) (session_of stream.new) }
    ensures tells { IfSome (session_of stream.new) (TellsEnd out.old out.new result) }
{
    let Some(mut session) = take(alloc, stream) else {
        return spent();
    };
    end(alloc, &mut session);
    let reported = tell_end(&session, out);
    put(stream, session);
    reported
}

/// Ends the file, and gives the key of the text that `finish` gives, or its fault, as often as it is called: the SHA-256 of the text, in 64 hex
/// digits. Whichever of the two ended the file, both can be called after it, and `feed` is refused.
pub fn finish_key(alloc: Global, stream: &mut Stream, out: &mut [u8]) -> Reported
    ensures closed { session_of stream.old ≡ None
        → (session_of stream.new ≡ None) × TellsNothing out.old out.new result }
    ensures finishes { Finishes (session_of stream.old) (session_of stream.new) }
    ensures tells { IfSome (session_of stream.new) (TellsKey out.old out.new result) }
    ensures digits { TellsText result → result.needed ≡ 64 }
{
    let Some(mut session) = take(alloc, stream) else {
        return spent();
    };
    end(alloc, &mut session);
    let reported = tell_key(&session, out);
    put(stream, session);
    reported
}

/// The sentence of the warning of a file that was read to its end, and no byte for one without a warning, or that was refused, or has not ended.
fn sentence_of_session(session: &Session) -> &'static [u8]
    ensures { result.now ≡ sentence_of_session session.now }
{
    match session {
        Session::Written(finished) => sentence_of_warning(finished.warning),
        _ => b"",
    }
}

/// The sentence of the warning of the file that a stream has read to its end, and no byte for a file without a warning, and for a stream that has not
/// ended, or has refused its file, or is closed.
pub fn stream_warning(alloc: Global, stream: &mut Stream, out: &mut [u8]) -> Reported
    ensures stream { session_of stream.new ≡ session_of stream.old }
    ensures text { ReturnsText (sentence_of_stream (session_of stream.old)) out.old out.new
        result }
    ensures line { result.line ≡ 0 }
{
    let Some(session) = take(alloc, stream) else {
        return give(b"", out);
    };
    let reported = give(sentence_of_session(&session), out);
    put(stream, session);
    reported
}

/// Closes a stream.
pub fn close(alloc: Global, stream: &mut Stream)
    ensures { session_of stream.new ≡ None }
{
    let _ = take(alloc, stream);
}
