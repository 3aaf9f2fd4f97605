//! Lines, whitespace and numbers.

ghost use Rattle.std.specs.Prelude.{◌≡◌, ◌<◌, ◌^◌, ◌-◌, ◌≤◌, pos, neg_ℤ, Ok, Err};
ghost use Rattle.life_base.specs.Words.{is_ascii_digit, list_all, number_up_to, u64_of, i64_of, lines_of, numbered_from, trim, trim_start, trim_end, begins_with, is_blank, is_digit_text, is_whitespace};

use crate::kind::Kind;
use crate::line_iterator::Lines;

/// Whether a byte is whitespace: a space, a tab or a carriage return.
pub fn is_whitespace(byte: u8) -> bool
    ensures { result ≡ is_whitespace byte }
{
    byte == b' ' || byte == b'\t' || byte == b'\r'
}

/// Whether the text has whitespace alone, or nothing.
pub fn is_blank(text: &[u8]) -> bool
    ensures { result ≡ is_blank text.now }
{
    text.iter().all(|byte| is_whitespace(*byte))
}

/// Whether the text begins with these bytes.
pub fn begins_with(text: &[u8], prefix: &[u8]) -> bool
    ensures { result ≡ begins_with text.now prefix.now }
{
    text.starts_with(prefix)
}

/// The text without the whitespace at its beginning.
pub fn trimmed_start(text: &[u8]) -> &[u8]
    ensures { result.now ≡ trim_start text.now }
{
    let mut rest = text;
    while let [first, others @ ..] = rest {
        if !is_whitespace(*first) {
            break;
        }
        rest = others;
    }
    rest
}

/// The text without the whitespace at its end.
fn trimmed_end(text: &[u8]) -> &[u8]
    ensures { result.now ≡ trim_end text.now }
{
    let mut rest = text;
    while let [others @ .., last] = rest {
        if !is_whitespace(*last) {
            break;
        }
        rest = others;
    }
    rest
}

/// The text without the whitespace at its ends.
pub fn trimmed(text: &[u8]) -> &[u8]
    ensures { result.now ≡ trim text.now }
{
    trimmed_end(trimmed_start(text))
}

/// Whether each byte is one of `0` to `9`.
fn are_digits(text: &[u8]) -> bool
    ensures { result ≡ list_all is_ascii_digit text.now }
{
    text.iter().all(|byte| byte.is_ascii_digit())
}

/// Whether the text is a digit text: one or more of `0` to `9`.
pub fn is_digit_text(text: &[u8]) -> bool
    ensures { result ≡ is_digit_text text.now }
{
    !text.is_empty() && are_digits(text)
}

/// The number that a digit text writes, with leading zeros or without. Another text is `BadNumber`, a number of 2^64 or more
/// `TooLarge`.
pub fn read_u64(text: &[u8]) -> Result<u64, Kind>
    ensures { result ≡ u64_of text.now }
{
    if !is_digit_text(text) {
        return Err(Kind::BadNumber);
    }
    let Ok(digits) = std::str::from_utf8(text) else {
        return Err(Kind::BadNumber);
    };
    match digits.parse::<u64>() {
        Ok(number) => Ok(number),
        Err(_) => Err(Kind::TooLarge),
    }
}

/// The number that a digit text writes, up to a greatest one.
fn read_up_to(text: &[u8], most: u64) -> Result<u64, Kind>
    ensures { result ≡ number_up_to most text.now }
{
    let number = read_u64(text)?;
    if number > most {
        return Err(Kind::TooLarge);
    }
    Ok(number)
}

/// The number below 0 of this size.
fn negated(size: u64) -> i64
    requires { size ≤ 2 ^ 63 }
    ensures { result ≡ neg_ℤ (pos size) }
{
    if size == 1 << 63 {
        return i64::MIN;
    }
    -(size as i64)
}

/// The number that a digit text writes, after an optional `-`: from -2^63 to 2^63 - 1. Another number is `TooLarge`, another text
/// `BadNumber`.
pub fn read_i64(text: &[u8]) -> Result<i64, Kind>
    ensures { result ≡ i64_of text.now }
{
    match text {
        [b'-', digits @ ..] => Ok(negated(read_up_to(digits, 1 << 63)?)),
        _ => Ok(read_up_to(text, (1 << 63) - 1)? as i64),
    }
}

/// The lines of an input, numbered from 1, each without its line feed.
pub fn lines(bytes: &[u8]) -> Lines<'_>
    ensures { result ≡ numbered_from 1 (lines_of bytes.now) }
{
    Lines {
        rest: bytes,
        number: 1,
    }
}
