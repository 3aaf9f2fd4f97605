//! The objects that the command `keys` writes with `--json`.

ghost use Rattle.std.specs.Prelude.{◌≡◌, ◌++◌};
ghost use Rattle.file_keys.specs.Words.{LeavesSink, WritesText, fault_members, key_members, kind_member, line_member, members_text, object_head, object_text, reason_member};

use super::lines::reason;
use super::outcome::Outcome;
use super::refusal::{FileRefusal, lead};
use crate::json::{Piece, write_pieces};
use crate::text_sink::TextSink;
use file_hints::{Foreign, advice_words, sentence};
use itoa::Buffer;
use life_base::{Kind, Sink, write_text, write_texts};
use std::alloc::Global;

/// Writes the beginning of an object, up to the name of the file.
fn write_head<W: Sink>(out: &mut W, name: &[u8]) -> Result<(), Kind>
    requires { W.failures out.old ≡ 0 }
    ensures text { WritesText (W.contents out.old) (W.contents out.new) (object_head name.now)
        result }
    ensures sink { LeavesSink W.failures W.stalled out.old out.new result }
{
    write_pieces(out, &[Piece::Plain(b"{\"name\":\""), Piece::Name(name)])
}

/// Writes the rest of the object of a file with this key.
fn write_key_members<W: Sink>(out: &mut W, key: &[u8; 32]) -> Result<(), Kind>
    requires { W.failures out.old ≡ 0 }
    ensures text { WritesText (W.contents out.old) (W.contents out.new) (key_members key.now)
        result }
    ensures sink { LeavesSink W.failures W.stalled out.old out.new result }
{
    let mut digits = [0; 64];
    let _ = hex::encode_to_slice(key, &mut digits);
    write_pieces(
        out,
        &[
            Piece::Plain(b"\",\"key\":\""),
            Piece::Text(&digits),
            Piece::Plain(b"\"}\n"),
        ],
    )
}

/// Writes the kind of a fault.
fn write_kind<W: Sink>(out: &mut W, kind: &[u8]) -> Result<(), Kind>
    requires { W.failures out.old ≡ 0 }
    ensures text { WritesText (W.contents out.old) (W.contents out.new) (kind_member kind.now)
        result }
    ensures sink { LeavesSink W.failures W.stalled out.old out.new result }
{
    write_pieces(
        out,
        &[
            Piece::Plain(b"\",\"kind\":\""),
            Piece::Text(kind),
            Piece::Plain(b"\""),
        ],
    )
}

/// Writes the line of a fault, unless that is 0.
fn write_line<W: Sink>(out: &mut W, line: u64) -> Result<(), Kind>
    requires { W.failures out.old ≡ 0 }
    ensures text { WritesText (W.contents out.old) (W.contents out.new) (line_member line)
        result }
    ensures sink { LeavesSink W.failures W.stalled out.old out.new result }
{
    if line == 0 {
        return Ok(());
    }
    let mut buffer = Buffer::new();
    write_texts(out, &[b",\"line\":", buffer.format(line).as_bytes()])
}

/// Writes why a file has no key, and the end of its object.
fn write_reason<W: Sink>(out: &mut W, reason: &[u8], foreign: Option<Foreign>) -> Result<(), Kind>
    requires { W.failures out.old ≡ 0 }
    ensures text { WritesText (W.contents out.old) (W.contents out.new)
        (reason_member reason.now foreign) result }
    ensures sink { LeavesSink W.failures W.stalled out.old out.new result }
{
    write_pieces(
        out,
        &[
            Piece::Plain(b",\"reason\":\""),
            Piece::Text(reason),
            Piece::Text(lead(foreign)),
            Piece::Text(advice_words(foreign)),
            Piece::Plain(b"\"}\n"),
        ],
    )
}

/// Writes the line of a fault, unless that is 0, and then why the file has no key.
fn write_line_and_reason<W: Sink>(
    out: &mut W,
    line: u64,
    reason: &[u8],
    foreign: Option<Foreign>,
) -> Result<(), Kind>
    requires { W.failures out.old ≡ 0 }
    ensures text { WritesText (W.contents out.old) (W.contents out.new)
        (line_member line ++ reason_member reason.now foreign) result }
    ensures sink { LeavesSink W.failures W.stalled out.old out.new result }
{
    write_line(out, line)?;
    write_reason(out, reason, foreign)
}

/// Writes the rest of the object of a file without a key.
fn write_fault_members<W: Sink>(
    out: &mut W,
    kind: &[u8],
    line: u64,
    reason: &[u8],
    foreign: Option<Foreign>,
) -> Result<(), Kind>
    requires { W.failures out.old ≡ 0 }
    ensures text { WritesText (W.contents out.old) (W.contents out.new)
        (fault_members kind.now line reason.now foreign) result }
    ensures sink { LeavesSink W.failures W.stalled out.old out.new result }
{
    write_kind(out, kind)?;
    write_line_and_reason(out, line, reason, foreign)
}

/// Writes the rest of the object of a file.
fn write_members<W: Sink>(out: &mut W, outcome: &Outcome) -> Result<(), Kind>
    requires { W.failures out.old ≡ 0 }
    ensures text { WritesText (W.contents out.old) (W.contents out.new) (members_text outcome.now)
        result }
    ensures sink { LeavesSink W.failures W.stalled out.old out.new result }
{
    match outcome {
        Outcome::Key(key) => write_key_members(out, key),
        Outcome::Refused(FileRefusal { fault, foreign }) => write_fault_members(
            out,
            fault.kind.name().as_bytes(),
            fault.place.line,
            sentence(fault.kind).as_bytes(),
            *foreign,
        ),
        Outcome::Unopened(kind) => {
            write_fault_members(out, b"ReadFault", 0, reason(*kind).as_bytes(), None)
        }
    }
}

/// Writes the object of a file, piece by piece.
fn write_object<W: Sink>(out: &mut W, name: &[u8], outcome: &Outcome) -> Result<(), Kind>
    requires { W.failures out.old ≡ 0 }
    ensures text { WritesText (W.contents out.old) (W.contents out.new)
        (object_text name.now outcome.now) result }
    ensures sink { LeavesSink W.failures W.stalled out.old out.new result }
{
    write_head(out, name)?;
    write_members(out, outcome)
}

/// Writes the object of a file, as one text where there is memory for it, and else piece by piece.
pub(super) fn write_object_whole<W: Sink>(
    alloc: Global,
    out: &mut W,
    name: &[u8],
    outcome: &Outcome,
) -> Result<(), Kind>
    requires { W.failures out.old ≡ 0 }
    ensures text { WritesText (W.contents out.old) (W.contents out.new)
        (object_text name.now outcome.now) result }
    ensures sink { LeavesSink W.failures W.stalled out.old out.new result }
{
    let mut object = TextSink::new(alloc);
    match write_object(&mut object, name, outcome) {
        Ok(()) => write_text(out, object.as_bytes()),
        Err(_) => write_object(out, name, outcome),
    }
}
