//! Parts of a line.

ghost use Rattle.std.specs.Prelude.{◌≡◌, ◌<◌, ◌==◌, ◌∷◌, position, length, IfSome, bytes_eq};
ghost use Rattle.life_table.specs.Words.{list_any, before_first, after_first, slice_split, byte, line_content, is_section_line, is_table_line, is_passed_over, number_below, parts_left};

use life_base::{begins_with, is_blank, is_whitespace, read_u64, trimmed};

/// The first place of a byte.
fn first_place(text: &[u8], mark: u8) -> Option<usize>
    ensures { result ≡ position (λ b. b == mark) text.now }
{
    text.iter().position(|byte| *byte == mark)
}

/// Whether the text has a byte.
pub(crate) fn has_byte(text: &[u8], mark: u8) -> bool
    ensures { result ≡ list_any (λ b. b == mark) text.now }
{
    text.contains(&mark)
}

/// Whether the text is this word.
pub(crate) fn is_word(text: &[u8], word: &[u8]) -> bool
    ensures { result ≡ bytes_eq text.now word.now }
{
    text == word
}

/// The number that a digit text writes, if it is below a limit.
pub(crate) fn number_below(word: &[u8], limit: u64) -> Option<u64>
    ensures { result ≡ number_below limit word.now }
{
    match read_u64(word) {
        Ok(number) if number < limit => Some(number),
        _ => None,
    }
}

/// What is before the first of these bytes, and what is after it.
pub(crate) fn split_at_byte(text: &[u8], mark: u8) -> (&[u8], &[u8])
    ensures before { result.0.now ≡ before_first (λ b. b == mark) text.now }
    ensures behind { result.1.now ≡ after_first (λ b. b == mark) text.now }
{
    match first_place(text, mark) {
        Some(end) => (&text[..end], &text[end + 1..]),
        None => (text, &[]),
    }
}

/// What is before the first comma, and what is after it, if there is one.
pub(crate) fn first_part(text: &[u8]) -> (&[u8], Option<&[u8]>)
    ensures parts { slice_split (λ b. b == byte ",") text.now ≡ result.0.now ∷ parts_left result.1 }
    ensures shorter { IfSome result.1 (λ rest. length rest.now < length text.now) }
{
    match first_place(text, b',') {
        Some(end) => (&text[..end], Some(&text[end + 1..])),
        None => (text, None),
    }
}

/// What a line of a table says: the line without its comment and the whitespace at its ends.
pub(crate) fn content(line: &[u8]) -> &[u8]
    ensures { result.now ≡ line_content line.now }
{
    trimmed(split_at_byte(line, b'#').0)
}

/// Whether the line is passed over before the rule line.
pub(crate) fn is_passed_over(line: &[u8]) -> bool
    ensures { result ≡ is_passed_over line.now }
{
    is_blank(line) || begins_with(line, b"#")
}

/// Whether a section begins with the line.
pub(crate) fn is_section_line(line: &[u8]) -> bool
    ensures { result ≡ is_section_line line.now }
{
    begins_with(line, b"@")
}

/// Whether the table begins with the line.
pub(crate) fn is_table_line(line: &[u8]) -> bool
    ensures { result ≡ is_table_line line.now }
{
    match line {
        [b'@', b'T', b'A', b'B', b'L', b'E', rest @ ..] => match rest {
            [] => true,
            [next, ..] => is_whitespace(*next),
        },
        _ => false,
    }
}
