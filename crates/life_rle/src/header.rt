//! The header line.

ghost use Rattle.std.specs.Prelude.{◌≡◌, Option, Some, None};
ghost use Rattle.life_rle.specs.Words.{option_map, Answers, after_word, after_number, rule_part, header_form, header_of};

use life_base::{Kind, Rule, begins_with, leading_number, trimmed_start};
use std::alloc::Global;

/// What follows a word and the whitespace after it.
fn after_word<'a>(word: &[u8], bytes: &'a [u8]) -> Option<&'a [u8]>
    ensures { option_map (λ rest. rest.now) result ≡ after_word word.now bytes.now }
{
    if !begins_with(bytes, word) {
        return None;
    }
    Some(trimmed_start(&bytes[word.len()..]))
}

/// What follows a digit text and the whitespace after it.
fn after_number(bytes: &[u8]) -> Option<&[u8]>
    ensures { option_map (λ rest. rest.now) result ≡ after_number bytes.now }
{
    let (_, count) = leading_number(bytes);
    if count == 0 {
        return None;
    }
    Some(trimmed_start(&bytes[count..]))
}

/// The text of the rule, if there is one.
fn rule_part(bytes: &[u8]) -> Option<Option<&[u8]>>
    ensures { option_map (λ part. option_map (λ rest. rest.now) part) result ≡ rule_part bytes.now }
{
    if bytes.is_empty() {
        return Some(None);
    }
    let rest = after_word(b",", bytes)?;
    let rest = after_word(b"rule", rest)?;
    let rest = after_word(b"=", rest)?;
    Some(Some(rest))
}

/// The rule part of a header line, where the line has the form of one.
fn header_form(line: &[u8]) -> Option<Option<&[u8]>>
    ensures { option_map (λ part. option_map (λ rest. rest.now) part) result
        ≡ header_form line.now }
{
    let rest = after_word(b"x", line)?;
    let rest = after_word(b"=", rest)?;
    let rest = after_number(rest)?;
    let rest = after_word(b",", rest)?;
    let rest = after_word(b"y", rest)?;
    let rest = after_word(b"=", rest)?;
    let rest = after_number(rest)?;
    rule_part(rest)
}

/// The rule that a header line gives.
pub(crate) fn header_of(alloc: Global, line: &[u8]) -> Result<Rule, Kind>
    ensures { Answers result (header_of line.now) }
{
    match header_form(line) {
        None => Err(Kind::BadHeader),
        Some(None) => Ok(Rule::default_rule()),
        Some(Some(text)) => Rule::parse(alloc, text),
    }
}
