//! The numbers of a quarter line, of any length.

ghost use Rattle.std.specs.Prelude.{◌≡◌, ◌∷◌, ◌<◌, ◌≤◌, ◌+◌, ◌-◌, ◌^◌, List, ℕ, Some, true, false, length, take, drop, IfSome, MatchOption};
ghost use Rattle.life_mc.specs.Words.{is_ascii_digit, capped_number, is_blank, is_digit_text, value_of, words_of, is_empty, begins_with_number, quad_words, option_map, IsLastNumber, IsSpacedNumber, Quad, WritesBetween};

use life_base::{is_whitespace, leading_number, trimmed_start};

/// Whether no word goes on in a text: it begins with whitespace, or is empty.
fn is_word_end(text: &[u8]) -> bool
    ensures { result ≡ is_blank (take 1 text.now) }
{
    match text {
        [] => true,
        [first, ..] => is_whitespace(*first),
    }
}

/// A number is read at once if it has fewer digits than this. They are taken in parts of `PART` bytes.
const FEW: usize = 12;

/// After one look at the length so many bytes are taken.
const PART: usize = 4;

/// The value of a digit. It is more than 9 for another byte.
#[inline(always)]
fn digit_of(byte: u8) -> u64
    ensures { result ≤ 9 → (is_ascii_digit byte ≡ true) × (result ≡ byte - 48) }
{
    u64::from(byte).wrapping_sub(48)
}

/// The number from a place on, and the place after the space that ends it, where its digits before another place write `begun`. It is
/// taken byte by byte.
#[inline(always)]
fn spaced_rest(text: &[u8], from: usize, at: usize, begun: u64) -> Option<(u64, usize)>
    requires begun { WritesBetween text.now from at begun }
    requires few { length text.now - from < FEW }
    ensures { IfSome result (IsSpacedNumber text.now from) }
{
    let mut number = begun;
    for i in at..text.len() {
        let byte = text[i];
        let digit = digit_of(byte);
        if digit > 9 {
            return if i > from && byte == b' ' {
                Some((number, i + 1))
            } else {
                None
            };
        }
        number = number * 10 + digit;
    }
    None
}

/// The number from a place on, and the place after the space that ends it, if it has few digits.
#[inline(always)]
fn spaced_number(text: &[u8], from: usize) -> Option<(u64, usize)>
    requires { from ≤ length text.now }
    ensures { IfSome result (IsSpacedNumber text.now from) }
{
    let mut number = 0u64;
    for count in 0..FEW {
        let at = from + count;
        if count % PART == 0 && text.len() - from < count + PART {
            return spaced_rest(text, from, at, number);
        }
        let byte = text[at];
        let digit = digit_of(byte);
        if digit > 9 {
            return if count > 0 && byte == b' ' {
                Some((number, at + 1))
            } else {
                None
            };
        }
        number = number * 10 + digit;
    }
    None
}

/// The number from a place on, if it ends the text, where its digits before another place write `begun`. It is taken byte by byte.
#[inline(always)]
fn last_rest(text: &[u8], from: usize, at: usize, begun: u64) -> Option<u64>
    requires begun { WritesBetween text.now from at begun }
    requires few { length text.now - from < FEW }
    ensures { IfSome result (IsLastNumber text.now from) }
{
    let mut number = begun;
    for i in at..text.len() {
        let digit = digit_of(text[i]);
        if digit > 9 {
            return None;
        }
        number = number * 10 + digit;
    }
    if from == text.len() {
        None
    } else {
        Some(number)
    }
}

/// The number from a place on, if it ends the text and has few digits.
#[inline(always)]
fn last_number(text: &[u8], from: usize) -> Option<u64>
    requires { from ≤ length text.now }
    ensures { IfSome result (IsLastNumber text.now from) }
{
    let mut number = 0u64;
    for count in 0..FEW {
        let at = from + count;
        if count % PART == 0 && text.len() - from < count + PART {
            return last_rest(text, from, at, number);
        }
        let digit = digit_of(text[at]);
        if digit > 9 {
            return None;
        }
        number = number * 10 + digit;
    }
    None
}

/// The first number of a text and what follows it, if the first word is a digit text.
fn next_number(text: &[u8]) -> Option<(u64, &[u8])>
    ensures { MatchOption result (begins_with_number (words_of text.now) ≡ false)
        (λ p. (word : List ℕ) × (words_of text.now ≡ word ∷ words_of p.1.now)
        × (is_digit_text word ≡ true) × (p.0 ≡ capped_number (value_of word))) }
{
    let text = trimmed_start(text);
    let (number, count) = leading_number(text);
    if count == 0 {
        return None;
    }
    let rest = &text[count..];
    if !is_word_end(rest) {
        return None;
    }
    Some((number, rest))
}

/// Whether a text has no word.
fn has_no_word(text: &[u8]) -> bool
    ensures { result ≡ is_empty (words_of text.now) }
{
    trimmed_start(text).is_empty()
}

/// The five numbers of a quarter line, if each has few digits and there is one space between two.
#[inline(always)]
fn few_numbers(text: &[u8]) -> Option<(u64, u64, u64, u64, u64)>
    ensures { IfSome result
        (λ n. quad_words (words_of text.now) ≡ Some (Quad n.0 n.1 n.2 n.3 n.4)) }
{
    let (level, rest) = spaced_number(text, 0)?;
    let (nw, rest) = spaced_number(text, rest)?;
    let (ne, rest) = spaced_number(text, rest)?;
    let (sw, rest) = spaced_number(text, rest)?;
    let se = last_number(text, rest)?;
    Some((level, nw, ne, sw, se))
}

/// The five numbers of a quarter line, however they are written. It is never inlined: `few_numbers` reads most lines.
#[inline(never)]
fn spelled_numbers(text: &[u8]) -> Option<(u64, u64, u64, u64, u64)>
    ensures { option_map (λ n. Quad n.0 n.1 n.2 n.3 n.4) result ≡ quad_words (words_of text.now) }
{
    let (level, rest) = next_number(text)?;
    let (nw, rest) = next_number(rest)?;
    let (ne, rest) = next_number(rest)?;
    let (sw, rest) = next_number(rest)?;
    let (se, rest) = next_number(rest)?;
    if !has_no_word(rest) {
        return None;
    }
    Some((level, nw, ne, sw, se))
}

/// The five numbers of a quarter line as they are written, if it has exactly five and nothing else: the level, and the quarters in the
/// north-west, north-east, south-west and south-east. A number above the type's greatest gives that.
#[inline(always)]
pub(crate) fn read_numbers(text: &[u8]) -> Option<(u64, u64, u64, u64, u64)>
    ensures { option_map (λ n. Quad n.0 n.1 n.2 n.3 n.4) result ≡ quad_words (words_of text.now) }
{
    match few_numbers(text) {
        Some(found) => Some(found),
        None => spelled_numbers(text),
    }
}
