//! One node line.

ghost use Rattle.std.specs.Prelude.{◌≡◌, ◌<◌, ◌≤◌, ◌-◌, ◌^◌, ◌∷◌, [], length, Some, None, MatchResult, List, ℕ, slice_index, true, false};
ghost use Rattle.life_mc.specs.Words.{largest_state, is_child, is_quarter, broken_by_square, broken_by_node, is_ascii_digit, is_leaf_byte, is_node_line, square_of_text, Quad, list_all, trim};

use crate::leaf::read_leaf;
use crate::line::Line;
use crate::numbers::read_numbers;
use life_base::{Kind, MAX_LEVEL, Rule, trimmed};

/// The greatest state under a rule.
fn largest_state(rule: &Rule) -> u64
    ensures { result ≡ largest_state rule.now }
{
    match rule {
        Rule::Life(_) => 1,
        Rule::Named(_) => 255,
    }
}

/// Whether a number is 0 or that of an earlier square of this level.
fn is_child(levels: &[u8], level: u8, number: u64) -> bool
    ensures { result ≡ is_child levels.now level number }
{
    if number == 0 {
        return true;
    }
    match levels.get((number - 1) as usize) {
        Some(found) => *found == level,
        None => false,
    }
}

/// Whether a number may represent a quarter of a square of this level.
fn is_quarter(rule: &Rule, levels: &[u8], level: u8, number: u64) -> bool
    requires { 1 ≤ level }
    ensures { result ≡ is_quarter rule.now levels.now level number }
{
    if level == 1 {
        number <= largest_state(rule)
    } else {
        is_child(levels, level - 1, number)
    }
}

/// Whether four numbers may represent the quarters of a square of this level.
fn are_quarters(rule: &Rule, levels: &[u8], level: u8, quarters: [u64; 4]) -> bool
    requires { 1 ≤ level }
    ensures { result ≡ list_all (is_quarter rule.now levels.now level) quarters }
{
    let [nw, ne, sw, se] = quarters;
    is_quarter(rule, levels, level, nw)
        && is_quarter(rule, levels, level, ne)
        && is_quarter(rule, levels, level, sw)
        && is_quarter(rule, levels, level, se)
}

/// The square of a level and four quarters, where the squares before it have these levels.
fn square_of_numbers(
    rule: &Rule,
    levels: &[u8],
    numbers: (u64, u64, u64, u64, u64),
) -> Result<Line, Kind>
    ensures { MatchResult result (λ square. (square ≡ Quad numbers.0 numbers.1 numbers.2
        numbers.3 numbers.4)
        × (broken_by_square MAX_LEVEL rule.now levels.now (Some square) ≡ None))
        (λ kind. broken_by_square MAX_LEVEL rule.now levels.now
        (Some (Quad numbers.0 numbers.1 numbers.2 numbers.3 numbers.4)) ≡ Some kind) }
{
    let (level, nw, ne, sw, se) = numbers;
    if level < 1 || u64::from(MAX_LEVEL) < level {
        return Err(Kind::BadLevel);
    }
    let level = level as u8;
    if are_quarters(rule, levels, level, [nw, ne, sw, se]) {
        return Ok(Line::Quad {
            level,
            nw,
            ne,
            sw,
            se,
        });
    }
    if level == 1 {
        Err(Kind::StateRange)
    } else {
        Err(Kind::BadChild)
    }
}

/// Whether a line begins as a leaf.
pub(crate) fn is_leaf_line(text: &[u8]) -> bool
    ensures byte { result ≡ is_leaf_byte (slice_index text.now 0) }
    ensures node { result ≡ true → is_node_line text.now ≡ true }
    ensures leaf { result ≡ true → is_leaf_byte (slice_index (trim text.now) 0) ≡ true }
{
    match text {
        [first, ..] => *first == b'.' || *first == b'*' || *first == b'$',
        [] => false,
    }
}

/// Whether a line begins with a digit.
pub(crate) fn begins_with_digit(line: &[u8]) -> bool
    ensures digit { result ≡ is_ascii_digit (slice_index line.now 0) }
    ensures node { result ≡ true → is_node_line line.now ≡ true }
    ensures quad { result ≡ true → is_leaf_byte (slice_index (trim line.now) 0) ≡ false }
{
    match line {
        [first, ..] => first.is_ascii_digit(),
        [] => false,
    }
}

/// The square of a node line that doesn't begin as a leaf.
#[inline(always)]
pub(crate) fn read_quad(rule: &Rule, levels: &[u8], line: &[u8]) -> Result<Line, Kind>
    requires space { length levels.now < 2 ^ 64 - 1 }
    requires quad { is_leaf_byte (slice_index (trim line.now) 0) ≡ false }
    ensures { MatchResult result (λ square. (square_of_text (trim line.now) ≡ Some square)
        × (broken_by_node MAX_LEVEL rule.now levels.now (trim line.now) ≡ None))
        (λ kind. broken_by_node MAX_LEVEL rule.now levels.now (trim line.now) ≡ Some kind) }
{
    match read_numbers(line) {
        Some(numbers) => square_of_numbers(rule, levels, numbers),
        None => Err(Kind::BadNode),
    }
}

/// The square of a leaf line.
#[inline(always)]
pub(crate) fn read_leaf_line(line: &[u8]) -> Result<Line, Kind>
    requires { is_leaf_byte (slice_index (trim line.now) 0) ≡ true }
    ensures { (rule : Rule) (levels : List ℕ) → MatchResult result
        (λ square. (square_of_text (trim line.now) ≡ Some square)
        × (broken_by_node MAX_LEVEL rule levels (trim line.now) ≡ None))
        (λ kind. broken_by_node MAX_LEVEL rule levels (trim line.now) ≡ Some kind) }
{
    match read_leaf(trimmed(line)) {
        Some(rows) => Ok(Line::Leaf(rows)),
        None => Err(Kind::BadLeaf),
    }
}

/// The square of a node line, without the whitespace at its ends.
pub(crate) fn read_node(rule: &Rule, levels: &[u8], line: &[u8]) -> Result<Line, Kind>
    requires { length levels.now < 2 ^ 64 - 1 }
    ensures { MatchResult result (λ square. (square_of_text (trim line.now) ≡ Some square)
        × (broken_by_node MAX_LEVEL rule.now levels.now (trim line.now) ≡ None))
        (λ kind. broken_by_node MAX_LEVEL rule.now levels.now (trim line.now) ≡ Some kind) }
{
    if is_leaf_line(trimmed(line)) {
        return read_leaf_line(line);
    }
    read_quad(rule, levels, line)
}
