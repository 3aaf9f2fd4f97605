//! Variables of a rule table.

ghost use Rattle.std.specs.Prelude.{◌≡◌, ◌≤◌, length, MatchOption, IfOk, IfErr, true, false};
ghost use Rattle.life_table.specs.Words.{list_all, is_variable_line, is_name_byte, is_variable_name, is_list, within_braces, variable_states, variable_of, IsMemory};

use crate::by_name::Variables;
use crate::entries::Scope;
use crate::table::Var;
use crate::words::{has_byte, split_at_byte};
use life_base::{Items, Kind, is_whitespace, trimmed};
use std::alloc::Global;

/// Whether a line is `var` and whitespace, followed by more.
pub(crate) fn is_variable_line(text: &[u8]) -> bool
    ensures { result ≡ is_variable_line text.now }
{
    match text {
        [b'v', b'a', b'r', next, ..] => is_whitespace(*next),
        _ => false,
    }
}

/// Whether a variable's name may have the byte.
fn is_name_byte(byte: u8) -> bool
    ensures { result ≡ is_name_byte byte }
{
    matches!(byte, b'!'..=b'~') && !has_byte(b",={}:#@", byte)
}

/// Whether each byte may be part of a variable's name.
fn are_name_bytes(word: &[u8]) -> bool
    ensures { result ≡ list_all is_name_byte word.now }
{
    word.iter().all(|byte| is_name_byte(*byte))
}

/// Whether a word may name a variable.
fn is_variable_name(word: &[u8]) -> bool
    ensures { result ≡ is_variable_name word.now }
{
    match word {
        [] => false,
        [first, ..] => are_name_bytes(word) && !first.is_ascii_digit(),
    }
}

/// What is between the braces of a list.
fn within_braces(text: &[u8]) -> Option<&[u8]>
    ensures { MatchOption result (is_list text.now ≡ false)
        (λ within. (is_list text.now ≡ true) × (within.now ≡ within_braces text.now)) }
{
    match text {
        [b'{', within @ .., b'}'] => Some(within),
        _ => None,
    }
}

/// The states of a new variable with this name and list, if both are of their form.
#[tactic(auto, unfolding(crate::specs::Reading::variable_states))]
fn variable_states(n_states: u16, vars: &Variables, name: &[u8], list: &[u8]) -> Option<[u64; 4]>
    requires most { n_states ≤ 256 }
    ensures { result ≡ variable_states n_states vars.now name.now list.now }
{
    if !is_variable_name(name) {
        return None;
    }
    if vars.number_of(name).is_some() {
        return None;
    }
    let within = within_braces(list)?;
    Scope { n_states, vars }.states_listed(within)
}

/// The variable that a line writes after these variables, if it writes one.
pub(crate) fn variable_of(
    alloc: Global,
    n_states: u16,
    vars: &Variables,
    text: &[u8],
) -> Result<Option<Var>, Kind>
    requires most { n_states ≤ 256 }
    requires long { 3 ≤ length text.now }
    ensures ok { IfOk result (λ found. found ≡ variable_of n_states vars.now text.now) }
    ensures err { IfErr result IsMemory }
{
    let (before, behind) = split_at_byte(&text[3..], b'=');
    let name = trimmed(before);
    let Some(states) = variable_states(n_states, vars, name, trimmed(behind)) else {
        return Ok(None);
    };
    let bytes = Vec::from_slice(alloc, name)?;
    Ok(Some(Var {
        name: Items::from_vec(bytes),
        states,
    }))
}
