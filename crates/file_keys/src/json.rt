//! Strings of JSON.

ghost use Rattle.std.specs.Prelude.{◌≡◌, ◌<◌, ◌++◌};
ghost use Rattle.file_keys.specs.Words.{LeavesSink, WritesText, control_text, hex_digits, json_byte, json_text, json_name, piece_text, pieces_text, replacement_of};

use life_base::{Kind, Sink, write_text, write_texts};

/// A piece of a text that is written.
#[derive(Clone, Copy)]
pub enum Piece<'a> {
    /// Bytes, as they are.
    Plain(&'a [u8]),
    /// What is within a string of JSON.
    Text(&'a [u8]),
    /// The same of a name, which may be no UTF-8 text.
    Name(&'a [u8]),
}

/// The digits of a byte in hex.
fn hex_digits(byte: u8) -> [u8; 2]
    ensures { result ≡ hex_digits byte }
{
    let digits = b"0123456789abcdef";
    [
        digits[usize::from(byte / 16)],
        digits[usize::from(byte % 16)],
    ]
}

/// Writes a byte below 32 within a string of JSON.
fn write_control<W: Sink>(out: &mut W, byte: u8) -> Result<(), Kind>
    requires works { W.failures out.old ≡ 0 }
    requires control { byte < 32 }
    ensures text { WritesText (W.contents out.old) (W.contents out.new) (control_text byte) result }
    ensures sink { LeavesSink W.failures W.stalled out.old out.new result }
{
    match byte {
        8 => write_text(out, b"\\b"),
        9 => write_text(out, b"\\t"),
        10 => write_text(out, b"\\n"),
        12 => write_text(out, b"\\f"),
        13 => write_text(out, b"\\r"),
        _ => write_texts(out, &[b"\\u00", &hex_digits(byte)]),
    }
}

/// Writes a byte within a string of JSON.
fn write_byte<W: Sink>(out: &mut W, byte: u8) -> Result<(), Kind>
    requires { W.failures out.old ≡ 0 }
    ensures text { WritesText (W.contents out.old) (W.contents out.new) (json_byte byte) result }
    ensures sink { LeavesSink W.failures W.stalled out.old out.new result }
{
    match byte {
        0..=31 => write_control(out, byte),
        b'"' | b'\\' => write_text(out, &[b'\\', byte]),
        _ => write_text(out, &[byte]),
    }
}

/// Writes a text within a string of JSON.
fn write_string<W: Sink>(out: &mut W, text: &[u8]) -> Result<(), Kind>
    requires { W.failures out.old ≡ 0 }
    ensures text { WritesText (W.contents out.old) (W.contents out.new) (json_text text.now)
        result }
    ensures sink { LeavesSink W.failures W.stalled out.old out.new result }
{
    for byte in text {
        write_byte(out, *byte)?;
    }
    Ok(())
}

/// What is written in place of bytes of a name that are no UTF-8 text: U+FFFD, if there are any.
fn replacement(bytes: &[u8]) -> &'static [u8]
    ensures { result.now ≡ replacement_of bytes.now }
{
    if bytes.is_empty() {
        b""
    } else {
        b"\xEF\xBF\xBD"
    }
}

/// Writes two texts, one after the other, within a string of JSON.
fn write_both<W: Sink>(out: &mut W, first: &[u8], second: &[u8]) -> Result<(), Kind>
    requires { W.failures out.old ≡ 0 }
    ensures text { WritesText (W.contents out.old) (W.contents out.new)
        (json_text (first.now ++ second.now)) result }
    ensures sink { LeavesSink W.failures W.stalled out.old out.new result }
{
    write_string(out, first)?;
    write_string(out, second)
}

/// Writes a name within a string of JSON.
fn write_name<W: Sink>(out: &mut W, name: &[u8]) -> Result<(), Kind>
    requires { W.failures out.old ≡ 0 }
    ensures text { WritesText (W.contents out.old) (W.contents out.new) (json_name name.now)
        result }
    ensures sink { LeavesSink W.failures W.stalled out.old out.new result }
{
    for chunk in name.utf8_chunks() {
        let second = replacement(chunk.invalid());
        write_both(out, chunk.valid().as_bytes(), second)?;
    }
    Ok(())
}

/// Writes a piece.
fn write_piece<W: Sink>(out: &mut W, piece: Piece<'_>) -> Result<(), Kind>
    requires { W.failures out.old ≡ 0 }
    ensures text { WritesText (W.contents out.old) (W.contents out.new) (piece_text piece.entry)
        result }
    ensures sink { LeavesSink W.failures W.stalled out.old out.new result }
{
    match piece {
        Piece::Plain(bytes) => write_text(out, bytes),
        Piece::Text(text) => write_string(out, text),
        Piece::Name(name) => write_name(out, name),
    }
}

/// Writes pieces, one after another.
pub(crate) fn write_pieces<W: Sink>(out: &mut W, pieces: &[Piece<'_>]) -> Result<(), Kind>
    requires { W.failures out.old ≡ 0 }
    ensures text { WritesText (W.contents out.old) (W.contents out.new) (pieces_text pieces.now)
        result }
    ensures sink { LeavesSink W.failures W.stalled out.old out.new result }
{
    for piece in pieces {
        write_piece(out, *piece)?;
    }
    Ok(())
}
