//! Names and lines of files as they are written, so that each is one line, and none does anything to a terminal.

use std::alloc::AllocError;

/// The hexadecimal digits.
const DIGITS: &[u8; 16] = b"0123456789abcdef";

/// A byte as `\x` and its two digits.
pub(crate) fn hexadecimal(byte: u8) -> [u8; 4] {
    [
        b'\\',
        b'x',
        DIGITS[usize::from(byte / 16)],
        DIGITS[usize::from(byte % 16)],
    ]
}

/// Adds pieces of text, one after the other.
pub(crate) fn push_all(text: &mut Vec<u8>, pieces: &[&[u8]]) -> Result<(), AllocError> {
    for piece in pieces {
        text.extend_from_slice(piece)?;
    }
    Ok(())
}

/// Adds bytes that are not written as they are: backslash, LF and CR after a backslash, and each other one as `\xHH`.
fn push_escaped(text: &mut Vec<u8>, bytes: &[u8]) -> Result<(), AllocError> {
    for byte in bytes {
        let digits = hexadecimal(*byte);
        let escaped: &[u8] = match byte {
            b'\\' => b"\\\\",
            b'\n' => b"\\n",
            b'\r' => b"\\r",
            _ => &digits,
        };
        text.extend_from_slice(escaped)?;
    }
    Ok(())
}

/// Adds a name as the command `keys` writes it, with backslash, LF and CR escaped.
pub(crate) fn push_name(text: &mut Vec<u8>, name: &str) -> Result<(), AllocError> {
    for byte in name.as_bytes() {
        match byte {
            b'\\' | b'\n' | b'\r' => push_escaped(text, &[*byte])?,
            _ => text.extend_from_slice(&[*byte])?,
        }
    }
    Ok(())
}

/// Whether a character turns the direction of text, or ends a line of it, and so changes what is read on a terminal.
fn turns_text(character: char) -> bool {
    matches!(
        character,
        '\u{61C}' | '\u{200E}' | '\u{200F}' | '\u{2028}'..='\u{202E}' | '\u{2066}'..='\u{2069}'
    )
}

/// Adds characters, of which backslash, control characters and those that turn the direction of text are escaped.
fn push_characters(text: &mut Vec<u8>, characters: &str) -> Result<(), AllocError> {
    for character in characters.chars() {
        let mut buffer = [0; 4];
        let bytes = character.encode_utf8(&mut buffer).as_bytes();
        if character == '\\' || character.is_control() || turns_text(character) {
            push_escaped(text, bytes)?;
        } else {
            text.extend_from_slice(bytes)?;
        }
    }
    Ok(())
}

/// Adds text without control characters: backslash, LF and CR are escaped as in a name. Each other control character, each one that turns the direction of text
/// or ends a line, and what is no UTF-8 text is written as `\xHH`, byte by byte.
pub(crate) fn push_visible(text: &mut Vec<u8>, bytes: &[u8]) -> Result<(), AllocError> {
    for chunk in bytes.utf8_chunks() {
        push_characters(text, chunk.valid())?;
        push_escaped(text, chunk.invalid())?;
    }
    Ok(())
}
