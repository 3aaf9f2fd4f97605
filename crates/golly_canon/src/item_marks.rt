//! A mark under the first thing in a line of RLE that isn't an item.

use crate::rereading::SHOWN;
use life_base::{leading_number, trimmed_start};
use std::alloc::AllocError;

/// How many digits a text begins with.
fn digits(text: &[u8]) -> usize {
    let (_, count) = leading_number(text);
    count
}

/// What follows the item that a text begins with: its count, and its state or `$`. Nothing where no item is.
fn after_item(text: &[u8]) -> Option<&[u8]> {
    let [first, rest @ ..] = text.get(digits(text)..)? else {
        return None;
    };
    let last = match *first {
        b'$' | b'b' | b'.' | b'o' | b'A'..=b'X' => return Some(rest),
        b'p'..=b'x' => b'X',
        b'y' => b'O',
        _ => return None,
    };
    match rest {
        [second, others @ ..] if *second >= b'A' && *second <= last => Some(others),
        _ => None,
    }
}

/// What follows the items that a line begins with, and the whitespace after them.
fn after_items(line: &[u8]) -> &[u8] {
    let mut rest = trimmed_start(line);
    for _ in 0..line.len() {
        match after_item(rest) {
            Some(others) => rest = trimmed_start(others),
            None => break,
        }
    }
    rest
}

/// What comes before the first thing that isn't an item. Nothing where all are items up to the end of the line or to a `!`, where too little is known of a
/// line that goes on, or where that thing isn't shown.
fn before_bad_item(line: &[u8]) -> Option<&[u8]> {
    let rest = after_items(line);
    let is_cut = line.len() > SHOWN && rest.len() <= digits(rest).saturating_add(1);
    if is_cut || rest.is_empty() || rest.starts_with(b"!") {
        return None;
    }
    let place = line.len().saturating_sub(rest.len());
    if place < SHOWN {
        line.get(..place)
    } else {
        None
    }
}

/// Adds a line with a `^` under the first thing that isn't an item, where that is shown.
pub(crate) fn push_item_mark(text: &mut Vec<u8>, line: &[u8]) -> Result<(), AllocError> {
    let Some(prefix) = before_bad_item(line) else {
        return Ok(());
    };
    text.extend_from_slice(b"    ")?;
    for byte in prefix {
        let space: &[u8] = match byte {
            b'\t' => b"    ",
            b'\r' => b"  ",
            _ => b" ",
        };
        text.extend_from_slice(space)?;
    }
    text.extend_from_slice(b"^\n")
}
