//! Rules, read from texts.

ghost use Rattle.std.specs.Prelude.{◌≡◌, ◌<◌, ◌^◌, ◌==◌, ◌+◌, map, take, codes, bytes_eq, if◌then◌else◌, ◌&&◌, ◌∷◌, [], IfOk, IfErr, Some, None, Ok, Err, false, true, is_some};
ghost use Rattle.life_base.specs.Words.{list_any, list_all, is_ascii_graphic, to_ascii_uppercase, byte, is_count_digit, digit_set, digit_groups, marks, AreSets, sets_in, life_form, life_sets, up_to_four, four_sets, most_neighbours, names_other_neighbours, is_bad_text, life_rule, other_rule, four_or_other, rule_of_trimmed, rule_of, Answers, IsMemory};

use crate::kind::Kind;
use crate::rule::{LifeRule, Name, Near, Rule};
use crate::text::trimmed;
use std::alloc::{AllocError, Global};

/// Whether a byte is one of `0` to `8`.
fn is_count_digit(byte: u8) -> bool
    ensures { result ≡ is_count_digit byte }
{
    b'0' <= byte && byte <= b'8'
}

/// The bit of a digit that a text names, else 0.
fn digit_bit(text: &[u8], digit: u8) -> u16
    requires { digit < 9 }
    ensures { result ≡ (if list_any (λ b. b == byte "0" + digit) text.now then 2 ^ digit else 0) }
{
    if text.contains(&(b'0' + digit)) {
        1 << digit
    } else {
        0
    }
}

/// The set of the digits that a text names.
fn digit_set(text: &[u8]) -> u16
    ensures set { result ≡ digit_set text.now }
    ensures bound { result < 512 }
{
    let mut set = 0;
    for digit in 0..9u8 {
        set += digit_bit(text, digit);
    }
    set
}

/// The digits before, between and after the bytes that are no digits.
fn digit_groups(alloc: Global, text: &[u8]) -> Result<Vec<&[u8]>, AllocError>
    ensures { IfOk result
        (λ groups. map (λ group. group.now) groups.items ≡ digit_groups text.now) }
{
    text.split(|b| !is_count_digit(*b)).collect(alloc)
}

/// The bytes that are no digits, letters in upper case.
fn marks(alloc: Global, text: &[u8]) -> Result<Vec<u8>, AllocError>
    ensures { IfOk result (λ found. found.items ≡ marks text.now) }
{
    text.iter()
        .filter(|b| !is_count_digit(**b))
        .map(|b| b.to_ascii_uppercase())
        .collect(alloc)
}

/// The births and the survivals of two texts of digits, by the two letters around a slash.
fn form_with_slash(marks: &[u8], first: &[u8], second: &[u8]) -> Option<(u16, u16)>
    ensures { AreSets 512 (life_form ([] ∷ first.now ∷ [] ∷ second.now ∷ []) marks.now) result }
{
    match marks {
        b"B/S" => Some((digit_set(first), digit_set(second))),
        b"S/B" => Some((digit_set(second), digit_set(first))),
        _ => None,
    }
}

/// The same, by the two letters alone.
fn form_without_slash(marks: &[u8], first: &[u8], second: &[u8]) -> Option<(u16, u16)>
    ensures { AreSets 512 (life_form ([] ∷ first.now ∷ second.now ∷ []) marks.now) result }
{
    match marks {
        b"BS" => Some((digit_set(first), digit_set(second))),
        b"SB" => Some((digit_set(second), digit_set(first))),
        _ => None,
    }
}

/// The births and the survivals of a text of one of the five forms, by its digits and its marks.
fn life_form(groups: &[&[u8]], marks: &[u8]) -> Option<(u16, u16)>
    ensures { AreSets 512 (life_form (map (λ group. group.now) groups.now) marks.now) result }
{
    match groups {
        [[], first, [], second] => form_with_slash(marks, first, second),
        [[], first, second] => form_without_slash(marks, first, second),
        [first, second] => match marks {
            b"/" => Some((digit_set(second), digit_set(first))),
            _ => None,
        },
        _ => None,
    }
}

/// The births and the survivals of a text of one of the five forms.
fn life_sets(alloc: Global, text: &[u8]) -> Result<Option<(u16, u16)>, Kind>
    ensures ok { IfOk result (AreSets 512 (life_sets text.now)) }
    ensures err { IfErr result IsMemory }
{
    let groups = digit_groups(alloc, text)?;
    let marks = marks(alloc, text)?;
    Ok(life_form(&groups, &marks))
}

/// The births and the survivals, if no digit is above 4.
fn up_to_four(found: Option<(u16, u16)>) -> Option<(u16, u16)>
    ensures { AreSets 32 (up_to_four (sets_in found)) result }
{
    match found {
        Some((births, survivals)) if births < 32 && survivals < 32 => Some((births, survivals)),
        _ => None,
    }
}

/// Whether the first byte is `B` or `b`.
fn begins_with_b(text: &[u8]) -> bool
    ensures { result ≡ bytes_eq (map to_ascii_uppercase (take 1 text.now)) (codes "B") }
{
    match text {
        [b'B' | b'b', ..] => true,
        _ => false,
    }
}

/// The births and the survivals of a text of a von Neumann rule.
fn four_sets(alloc: Global, text: &[u8]) -> Result<Option<(u16, u16)>, Kind>
    ensures ok { IfOk result (AreSets 32 (four_sets text.now)) }
    ensures err { IfErr result IsMemory }
{
    match text {
        [prefix @ .., b'V' | b'v'] if begins_with_b(prefix) => Ok(up_to_four(life_sets(
            alloc, prefix,
        )?)),
        _ => Ok(None),
    }
}

/// Whether a text is a B/S text followed by `V`, `v`, `H` or `h`.
fn names_other_neighbours(alloc: Global, text: &[u8]) -> Result<bool, Kind>
    ensures ok { IfOk result (λ yes. yes ≡ names_other_neighbours text.now) }
    ensures err { IfErr result IsMemory }
{
    match text {
        [prefix @ .., b'V' | b'v' | b'H' | b'h'] => Ok(life_sets(alloc, prefix)?.is_some()),
        _ => Ok(false),
    }
}

/// Whether no rule has this text.
fn is_bad_text(text: &[u8]) -> bool
    ensures { result ≡ is_bad_text text.now }
{
    text.is_empty() || 255 < text.len() || !is_visible(text)
}

/// Whether each byte is a visible ASCII character.
fn is_visible(text: &[u8]) -> bool
    ensures { result ≡ list_all is_ascii_graphic text.now }
{
    text.iter().all(|byte| byte.is_ascii_graphic())
}

/// The B/S rule of two sets, unless cells are born on 0.
fn life_rule(near: Near, births: u16, survivals: u16) -> Result<Rule, Kind>
    requires births { births < 2 ^ (most_neighbours near + 1) }
    requires survivals { survivals < 2 ^ (most_neighbours near + 1) }
    ensures { result ≡ life_rule near (record { births = births; survivals = survivals }) }
{
    if births & 1 == 1 {
        return Err(Kind::BirthOnZero);
    }
    Ok(Rule::Life(LifeRule {
        births,
        survivals,
        near,
    }))
}

/// The rule of a text that is no B/S text: a name, unless it names other neighbours or has a slash.
fn other_rule(alloc: Global, text: &[u8]) -> Result<Rule, Kind>
    requires shape { is_bad_text text.now ≡ false }
    requires unbounded { list_any (λ b. b == byte ":") text.now ≡ false }
    requires counted { life_sets text.now ≡ None }
    requires named { four_sets text.now ≡ None }
    ensures { Answers result (other_rule text.now) }
{
    if names_other_neighbours(alloc, text)? {
        return Err(Kind::UnsupportedRule);
    }
    if text.contains(&b'/') {
        return Err(Kind::UnsupportedRule);
    }
    let text = Vec::from_slice(alloc, text)?;
    Ok(Rule::Named(Name { text }))
}

/// The rule of a text of none of the five forms: by the four neighbours, or another.
fn four_or_other(alloc: Global, text: &[u8]) -> Result<Rule, Kind>
    requires shape { is_bad_text text.now ≡ false }
    requires unbounded { list_any (λ b. b == byte ":") text.now ≡ false }
    requires counted { life_sets text.now ≡ None }
    ensures { Answers result (four_or_other text.now (four_sets text.now)) }
{
    match four_sets(alloc, text)? {
        Some((births, survivals)) => life_rule(Near::VonNeumann, births, survivals),
        None => other_rule(alloc, text),
    }
}

/// The rule of a text without whitespace at its ends.
fn trimmed_rule(alloc: Global, text: &[u8]) -> Result<Rule, Kind>
    ensures { Answers result (rule_of_trimmed text.now) }
{
    if is_bad_text(text) {
        return Err(Kind::BadRule);
    }
    if text.contains(&b':') {
        return Err(Kind::BoundedGrid);
    }
    match life_sets(alloc, text)? {
        Some((births, survivals)) => life_rule(Near::Moore, births, survivals),
        None => four_or_other(alloc, text),
    }
}

/// Whether a text is that of the rule that most files have.
fn is_usual(text: &[u8]) -> bool
    ensures { result ≡ bytes_eq text.now (codes "B3/S23") }
{
    text == b"B3/S23".as_slice()
}

/// The rule of a text without whitespace at its ends. That of most files is known at sight.
fn usual_or_other(alloc: Global, text: &[u8]) -> Result<Rule, Kind>
    ensures { Answers result (rule_of_trimmed text.now) }
{
    if is_usual(text) {
        return Ok(Rule::default_rule());
    }
    trimmed_rule(alloc, text)
}

impl Rule {
    /// The rule of a text, taken without whitespace at its ends. It is refused as `BadRule`, `BoundedGrid`, `UnsupportedRule` or
    /// `BirthOnZero`, and as `Memory`.
    pub fn parse(alloc: Global, text: &[u8]) -> Result<Rule, Kind>
        ensures { Answers result (rule_of text.now) }
    {
        usual_or_other(alloc, trimmed(text))
    }
}
