//! The words of a text, which whitespace separates.

ghost use Rattle.std.specs.Prelude.{◌≡◌, ◌+◌, ◌≤◌, length, position};
ghost use Rattle.life_base.specs.Words.{is_whitespace, words_of, with_word};

use crate::text::{is_whitespace, trimmed_start};

/// The place of the first whitespace.
fn word_end(text: &[u8]) -> Option<usize>
    ensures { result ≡ position is_whitespace text.now }
{
    text.iter().position(|byte| is_whitespace(*byte))
}

/// The first word of a text and what is after it; an empty word, if there is none.
pub fn split_word(text: &[u8]) -> (&[u8], &[u8])
    ensures words { words_of text.now ≡ with_word result.0.now (words_of result.1.now) }
    ensures shorter { length result.0.now + length result.1.now ≤ length text.now }
{
    let text = trimmed_start(text);
    match word_end(text) {
        Some(end) => (&text[..end], &text[end..]),
        None => (text, &[]),
    }
}
