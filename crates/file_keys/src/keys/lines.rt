//! The lines of the command `keys`.

ghost use Rattle.std.specs.Prelude.{◌≡◌, ◌<◌, ◌≤◌, ◌⊎◌, [], ◌∷◌, ◌++◌, OnOk, IfErr, Some, true, codes, length, drop, take, slice_index, nat_lt};
ghost use Rattle.file_keys.specs.Words.{list_any, LeavesSink, WritesText, error_line, escaped_name, escaped_byte, fault_text, is_special, key_line, name_mark, reason_of, refused_line, unopened_line, IsMemory, warning_line, warning_sentence};

use super::outcome::Outcome;
use super::refusal::{FileRefusal, lead};
use file_hints::{Warning, advice_words, sentence};
use itoa::Buffer;
use life_base::{Kind, Sink, append, write_text, write_texts};
use memchr::memchr3;
use std::io::ErrorKind;

/// How many bytes at the beginning of a name are written as they are: those before the first backslash, LF or CR.
fn plain_prefix(name: &[u8]) -> usize
    ensures plain { escaped_name (take result name.now) ≡ take result name.now }
    ensures within { result ≤ length name.now }
    ensures next { result < length name.now → is_special (slice_index name.now result) ≡ true }
    ensures any { list_any is_special name.now ≡ nat_lt result (length name.now) }
{
    match memchr3(b'\\', b'\n', b'\r', name) {
        Some(at) => at,
        None => name.len(),
    }
}

/// How a byte is written that isn't written as it is.
fn escape(byte: u8) -> &'static [u8]
    requires { is_special byte ≡ true }
    ensures { result.now ≡ escaped_byte byte }
{
    match byte {
        b'\n' => b"\\n",
        b'\r' => b"\\r",
        _ => b"\\\\",
    }
}

/// The first piece of a name as it is written, and how many of its bytes that is.
fn first_piece(name: &[u8]) -> (&[u8], usize)
    requires { 0 < length name.now }
    ensures count { (0 < result.1) × (result.1 ≤ length name.now) }
    ensures piece { escaped_name name.now ≡ result.0.now ++ escaped_name (drop result.1 name.now) }
{
    match plain_prefix(name) {
        0 => (escape(name[0]), 1),
        count => (&name[..count], count),
    }
}

/// Adds a name, with backslash, LF and CR escaped.
fn append_escaped(line: &mut Vec<u8>, name: &[u8]) -> Result<(), Kind>
    ensures ok { OnOk result (line.new.items ≡ line.old.items ++ escaped_name name.now) }
    ensures kind { IfErr result IsMemory }
{
    let mut rest = name;
    while !rest.is_empty() {
        let (piece, count) = first_piece(rest);
        append(line, piece)?;
        rest = &rest[count..];
    }
    Ok(())
}

/// Writes a name, with backslash, LF and CR escaped.
pub(crate) fn write_escaped<E: Sink>(err: &mut E, name: &[u8]) -> Result<(), Kind>
    requires { E.failures err.old ≡ 0 }
    ensures text { WritesText (E.contents err.old) (E.contents err.new) (escaped_name name.now)
        result }
    ensures sink { LeavesSink E.failures E.stalled err.old err.new result }
{
    let mut rest = name;
    while !rest.is_empty() {
        let (piece, count) = first_piece(rest);
        write_text(err, piece)?;
        rest = &rest[count..];
    }
    Ok(())
}

/// The mark before a line whose name is escaped.
fn mark(name: &[u8]) -> &'static [u8]
    ensures { result.now ≡ name_mark name.now }
{
    if plain_prefix(name) < name.len() {
        b"\\"
    } else {
        b""
    }
}

/// Adds the line of a key, which ends in LF.
fn append_plain_line(line: &mut Vec<u8>, digits: &[u8], name: &[u8]) -> Result<(), Kind>
    ensures ok { OnOk result (line.new.items ≡ line.old.items ++ (name_mark name.now
        ++ (digits.now ++ (codes "  " ++ (escaped_name name.now ++ codes "\n"))))) }
    ensures kind { IfErr result IsMemory }
{
    append(line, mark(name))?;
    append(line, digits)?;
    append(line, b"  ")?;
    append_escaped(line, name)?;
    append(line, b"\n")
}

/// Adds the line of a key, which ends in NUL.
fn append_zero_line(line: &mut Vec<u8>, digits: &[u8], name: &[u8]) -> Result<(), Kind>
    ensures ok { OnOk result (line.new.items
        ≡ line.old.items ++ (digits.now ++ (codes "  " ++ (name.now ++ 0 ∷ [])))) }
    ensures kind { IfErr result IsMemory }
{
    append(line, digits)?;
    append(line, b"  ")?;
    append(line, name)?;
    append(line, b"\0")
}

/// Adds the line of a key.
pub(super) fn append_key_line(
    line: &mut Vec<u8>,
    key: &[u8; 32],
    name: &[u8],
    zero: bool,
) -> Result<(), Kind>
    ensures ok { OnOk result (line.new.items ≡ line.old.items ++ key_line zero key.now name.now) }
    ensures kind { IfErr result IsMemory }
{
    let mut digits = [0; 64];
    let _ = hex::encode_to_slice(key, &mut digits);
    if zero {
        append_zero_line(line, &digits, name)
    } else {
        append_plain_line(line, &digits, name)
    }
}

/// Writes a name and the mark after it.
fn write_name<E: Sink>(err: &mut E, name: &[u8]) -> Result<(), Kind>
    requires { E.failures err.old ≡ 0 }
    ensures text { WritesText (E.contents err.old) (E.contents err.new)
        (escaped_name name.now ++ codes ": ") result }
    ensures sink { LeavesSink E.failures E.stalled err.old err.new result }
{
    write_escaped(err, name)?;
    write_text(err, b": ")
}

/// Writes the report of a fault.
fn write_fault<E: Sink>(err: &mut E, refusal: &FileRefusal) -> Result<(), Kind>
    requires { E.failures err.old ≡ 0 }
    ensures text { WritesText (E.contents err.old) (E.contents err.new) (fault_text refusal.now)
        result }
    ensures sink { LeavesSink E.failures E.stalled err.old err.new result }
{
    let FileRefusal { fault, foreign } = *refusal;
    let kind = fault.kind.name().as_bytes();
    let meaning = sentence(fault.kind).as_bytes();
    let (lead, words) = (lead(foreign), advice_words(foreign));
    if fault.place.line == 0 {
        return write_texts(err, &[kind, b": ", meaning, lead, words, b"\n"]);
    }
    let mut buffer = Buffer::new();
    let line = buffer.format(fault.place.line).as_bytes();
    write_texts(
        err,
        &[
            b"line ", line, b": ", kind, b": ", meaning, lead, words, b"\n",
        ],
    )
}

/// Writes the line of a file that is refused: its name, the line of the fault where it names one, the kind, a sentence on it, and what the file is if that
/// is known.
fn write_refused<E: Sink>(err: &mut E, name: &[u8], refusal: &FileRefusal) -> Result<(), Kind>
    requires { E.failures err.old ≡ 0 }
    ensures text { WritesText (E.contents err.old) (E.contents err.new)
        (refused_line name.now refusal.now) result }
    ensures sink { LeavesSink E.failures E.stalled err.old err.new result }
{
    write_name(err, name)?;
    write_fault(err, refusal)
}

/// Why a file isn't opened, in words.
pub(super) fn reason(kind: ErrorKind) -> &'static str
    ensures { result.now ≡ reason_of kind }
{
    match kind {
        ErrorKind::NotFound => "no such file",
        ErrorKind::PermissionDenied => "permission denied",
        ErrorKind::IsADirectory => "is a folder",
        ErrorKind::InvalidData => "the name isn't UTF-8 text (collection.py reads such files)",
        _ => "can't be opened",
    }
}

/// Writes why a file isn't opened.
fn write_reason<E: Sink>(err: &mut E, kind: ErrorKind) -> Result<(), Kind>
    requires { E.failures err.old ≡ 0 }
    ensures text { WritesText (E.contents err.old) (E.contents err.new)
        (reason_of kind ++ codes "\n") result }
    ensures sink { LeavesSink E.failures E.stalled err.old err.new result }
{
    write_texts(err, &[reason(kind).as_bytes(), b"\n"])
}

/// Writes the line of a file that can't be opened.
fn write_unopened<E: Sink>(err: &mut E, name: &[u8], kind: ErrorKind) -> Result<(), Kind>
    requires { E.failures err.old ≡ 0 }
    ensures text { WritesText (E.contents err.old) (E.contents err.new)
        (unopened_line name.now kind) result }
    ensures sink { LeavesSink E.failures E.stalled err.old err.new result }
{
    write_name(err, name)?;
    write_reason(err, kind)
}

/// Writes the sentence of a warning.
fn write_sentence<E: Sink>(err: &mut E, warning: Warning) -> Result<(), Kind>
    requires { E.failures err.old ≡ 0 }
    ensures text { WritesText (E.contents err.old) (E.contents err.new)
        (codes ": warning: " ++ (warning_sentence warning ++ codes "\n")) result }
    ensures sink { LeavesSink E.failures E.stalled err.old err.new result }
{
    write_texts(err, &[b": warning: ", warning.sentence().as_bytes(), b"\n"])
}

/// Writes the line of a warning.
pub(super) fn write_warning<E: Sink>(err: &mut E, name: &[u8], warning: Warning) -> Result<(), Kind>
    requires { E.failures err.old ≡ 0 }
    ensures text { WritesText (E.contents err.old) (E.contents err.new)
        (warning_line name.now (Some warning)) result }
    ensures sink { LeavesSink E.failures E.stalled err.old err.new result }
{
    write_escaped(err, name)?;
    write_sentence(err, warning)
}

/// Writes why a file has no key.
pub(super) fn write_error_line<E: Sink>(
    err: &mut E,
    name: &[u8],
    outcome: &Outcome,
) -> Result<(), Kind>
    requires { E.failures err.old ≡ 0 }
    ensures text { WritesText (E.contents err.old) (E.contents err.new)
        (error_line name.now outcome.now) result }
    ensures sink { LeavesSink E.failures E.stalled err.old err.new result }
{
    match outcome {
        Outcome::Key(_) => Ok(()),
        Outcome::Refused(refusal) => write_refused(err, name, refusal),
        Outcome::Unopened(kind) => write_unopened(err, name, *kind),
    }
}
