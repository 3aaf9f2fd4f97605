//! The items of a line.

ghost use Rattle.std.specs.Prelude.{◌≡◌, ◌≢◌, ◌<◌, None, true, false, ℕ, List, length, slice_index, OnOk, IfErr};
ghost use Rattle.life_rle.specs.Words.{is_ascii_digit, byte, capped_number, is_digit_text, value_of, single_state, prefixed_state, Broken, item_after, item_with_digits, IsCount, IsCountRead, IsItemAt, IsTokenAt};

use crate::plane::MOST_COUNT;
use life_base::{Kind, MAX_LEVEL, State, is_whitespace, leading_number};

/// Cells of one state side by side, or ends of rows, each with its count.
#[derive(Clone, Copy, Debug, PartialEq, Eq)]
pub enum Item {
    Cells { count: u64, state: State },
    RowEnds { count: u64 },
}

/// What is at a place of a line: whitespace, the mark `!`, an item and the place after it, or none of these.
#[derive(Clone, Copy)]
pub(crate) enum Token {
    Space,
    Mark,
    Spelled(Item, usize),
    Broken(Kind),
}

/// Represents no state in the table below.
const NONE: u8 = 255;

/// The state that each byte names by itself.
static STATES: [u8; 256] = [
    255, 255, 255, 255, 255, 255, 255, 255, 255, 255, 255, 255, 255, 255, 255, 255, 255, 255, 255,
    255, 255, 255, 255, 255, 255, 255, 255, 255, 255, 255, 255, 255, 255, 255, 255, 255, 255, 255,
    255, 255, 255, 255, 255, 255, 255, 255, 0, 255, 255, 255, 255, 255, 255, 255, 255, 255, 255,
    255, 255, 255, 255, 255, 255, 255, 255, 1, 2, 3, 4, 5, 6, 7, 8, 9, 10, 11, 12, 13, 14, 15, 16,
    17, 18, 19, 20, 21, 22, 23, 24, 255, 255, 255, 255, 255, 255, 255, 255, 255, 0, 255, 255, 255,
    255, 255, 255, 255, 255, 255, 255, 255, 255, 1, 255, 255, 255, 255, 255, 255, 255, 255, 255,
    255, 255, 255, 255, 255, 255, 255, 255, 255, 255, 255, 255, 255, 255, 255, 255, 255, 255, 255,
    255, 255, 255, 255, 255, 255, 255, 255, 255, 255, 255, 255, 255, 255, 255, 255, 255, 255, 255,
    255, 255, 255, 255, 255, 255, 255, 255, 255, 255, 255, 255, 255, 255, 255, 255, 255, 255, 255,
    255, 255, 255, 255, 255, 255, 255, 255, 255, 255, 255, 255, 255, 255, 255, 255, 255, 255, 255,
    255, 255, 255, 255, 255, 255, 255, 255, 255, 255, 255, 255, 255, 255, 255, 255, 255, 255, 255,
    255, 255, 255, 255, 255, 255, 255, 255, 255, 255, 255, 255, 255, 255, 255, 255, 255, 255, 255,
    255, 255, 255, 255, 255, 255, 255, 255, 255, 255, 255, 255, 255, 255, 255, 255, 255, 255, 255,
    255, 255,
];

/// The state that one byte names.
#[inline(always)]
pub(crate) fn single_state(byte: u8) -> Option<State>
    ensures { result ≡ single_state byte }
{
    let state = STATES[usize::from(byte)];
    if state == NONE { None } else { Some(state) }
}

/// The state that a prefix and a letter name.
#[inline(always)]
pub(crate) fn prefixed_state(prefix: u8, letter: u8) -> Option<State>
    ensures { result ≡ prefixed_state prefix letter }
{
    if prefix < b'p' || prefix > b'y' || letter < b'A' || letter > b'X' {
        return None;
    }
    let number = 24 * u16::from(prefix - b'o') + u16::from(letter - b'@');
    if number <= 255 {
        Some(number as u8)
    } else {
        None
    }
}

/// Checks the count of an item.
fn check_count(count: u64) -> Result<(), Kind>
    ensures ok { OnOk result ((digits bytes : List ℕ) → is_digit_text digits ≡ true
        → count ≡ capped_number (value_of digits)
        → item_with_digits MAX_LEVEL digits bytes ≡ item_after count bytes) }
    ensures err { IfErr result (λ kind. (digits bytes : List ℕ) → is_digit_text digits ≡ true
        → count ≡ capped_number (value_of digits) → item_with_digits MAX_LEVEL digits bytes
        ≡ Broken kind) }
{
    if count == 0 {
        return Err(Kind::ZeroCount);
    }
    if count > MOST_COUNT {
        return Err(Kind::TooLarge);
    }
    Ok(())
}

/// The count that digits write from a place on, and the place after them. It stays out of the loop over the items, few of which have more
/// than one digit.
#[cold]
#[inline(never)]
fn long_count(line: &[u8], at: usize) -> Result<(u64, usize), Kind>
    requires inside { at < length line.now }
    requires digit { is_ascii_digit (slice_index line.now at) ≡ true }
    ensures { IsCountRead MAX_LEVEL line.now at result }
{
    let (count, digits) = leading_number(&line[at..]);
    check_count(count)?;
    if at + digits == line.len() {
        return Err(Kind::BadItem);
    }
    Ok((count, at + digits))
}

/// The same, its answer taken apart, so that it needs no place in memory.
#[inline(always)]
fn any_count(line: &[u8], at: usize) -> Result<(u64, usize), Kind>
    requires inside { at < length line.now }
    requires digit { is_ascii_digit (slice_index line.now at) ≡ true }
    ensures { IsCountRead MAX_LEVEL line.now at result }
{
    let (count, place) = long_count(line, at)?;
    Ok((count, place))
}

/// The count at a place, which is 1 without digits, and the place after it, unless a digit is there: then there may be more of them.
#[inline(always)]
fn count_at(line: &[u8], at: usize) -> (u64, usize)
    requires { at < length line.now }
    ensures inside { result.1 < length line.now }
    ensures count { is_ascii_digit (slice_index line.now result.1) ≡ false
        → IsCount MAX_LEVEL line.now at result.0 result.1 }
    ensures digit { is_ascii_digit (slice_index line.now result.1) ≡ true
        → is_ascii_digit (slice_index line.now at) ≡ true }
{
    let first = line[at];
    if first < b'1' || first > b'9' || at + 1 == line.len() {
        return (1, at);
    }
    (u64::from(first - b'0'), at + 1)
}

/// The item with this count whose state is the two bytes at a place.
#[inline(always)]
fn prefixed_item(line: &[u8], count: u64, place: usize) -> Token
    requires inside { place < length line.now }
    requires row_end { slice_index line.now place ≢ byte "$" }
    requires single { single_state (slice_index line.now place) ≡ None }
    ensures { IsItemAt line.now count place result }
{
    if place + 1 == line.len() {
        return Token::Broken(Kind::BadItem);
    }
    match prefixed_state(line[place], line[place + 1]) {
        Some(state) => Token::Spelled(Item::Cells { count, state }, place + 2),
        None => Token::Broken(Kind::BadItem),
    }
}

/// What is at a place whose count ends at another.
#[inline(always)]
fn behind_count(line: &[u8], at: usize, count: u64, place: usize) -> Token
    requires inside { place < length line.now }
    requires count { IsCount MAX_LEVEL line.now at count place }
    ensures { IsTokenAt MAX_LEVEL line.now at result }
{
    let byte = line[place];
    if let Some(state) = single_state(byte) {
        return Token::Spelled(Item::Cells { count, state }, place + 1);
    }
    match byte {
        b'$' => Token::Spelled(Item::RowEnds { count }, place + 1),
        b'!' if place == at => Token::Mark,
        _ if place == at && is_whitespace(byte) => Token::Space,
        _ => prefixed_item(line, count, place),
    }
}

/// What is at a place that has a digit, which another one may follow.
#[inline(always)]
fn behind_digits(line: &[u8], at: usize) -> Token
    requires inside { at < length line.now }
    requires digit { is_ascii_digit (slice_index line.now at) ≡ true }
    ensures { IsTokenAt MAX_LEVEL line.now at result }
{
    match any_count(line, at) {
        Ok((count, place)) => behind_count(line, at, count, place),
        Err(kind) => Token::Broken(kind),
    }
}

/// What is at a place of a line.
#[inline(always)]
pub(crate) fn token_at(line: &[u8], at: usize) -> Token
    requires { at < length line.now }
    ensures { IsTokenAt MAX_LEVEL line.now at result }
{
    let (count, place) = count_at(line, at);
    let byte = line[place];
    // Most items are cells whose state is one byte, so that is asked first.
    if single_state(byte).is_some() {
        return behind_count(line, at, count, place);
    }
    if byte.is_ascii_digit() {
        return behind_digits(line, at);
    }
    behind_count(line, at, count, place)
}
