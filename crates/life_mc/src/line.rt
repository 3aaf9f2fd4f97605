//! The lines of a macrocell file: what one is, and the square that a node line writes.

ghost use Rattle.std.specs.Prelude.{◌≡◌, ◌<◌, ◌-◌, ◌^◌, length, true, None, Some, Err, List, ℕ, MatchResult, slice_index, false, ◌⊎◌};
ghost use Rattle.life_mc.specs.Words.{trim, value_of, u64_of, Memory, result_err, is_leaf_byte, is_letter_command, is_node_line, broken_after, IsCommandRead, IsParsed, NodeLine};

use crate::node::{read_leaf_line, read_node, read_quad};
use life_base::{Kind, MAX_LEVEL, Rule, begins_with, is_blank, is_whitespace, read_u64, trimmed};
use std::alloc::Global;

/// A square, as a node line writes it.
#[derive(Clone, Copy, Debug, PartialEq, Eq)]
pub enum Line {
    /// A square of level 3, eight cells wide and high. Byte r is row r from the north, and bit 7 - c of it is column c from
    /// the west: 1 for a live cell.
    Leaf([u8; 8]),
    /// A square of a level, 2^level cells wide and high: the level, and the quarters in the north-west, north-east, south-west and
    /// south-east. At level 1 they are four states; above, each is 0, the empty square, or the number of an earlier line, counted from 1.
    Quad {
        level: u8,
        nw: u64,
        ne: u64,
        sw: u64,
        se: u64,
    },
}

/// What a line after the header is. One that is blank or a comment is nothing.
#[derive(Drop)]
pub(crate) enum ParsedLine {
    Nothing,
    RuleLine(Rule),
    GenerationLine(u64),
    NodeLine(Line),
}

/// Whether a line is `#` and the letter, followed by whitespace or by its end.
fn is_command(letter: u8, line: &[u8]) -> bool
    ensures { result ≡ is_letter_command letter line.now }
{
    match line {
        [first, second] => *first == b'#' && *second == letter,
        [first, second, third, ..] => *first == b'#' && *second == letter && is_whitespace(*third),
        _ => false,
    }
}

/// The generation after `#G`.
fn read_generation(text: &[u8]) -> Result<u64, Kind>
    ensures { MatchResult result
        (λ n. (n ≡ value_of (trim text.now)) × (result_err (u64_of (trim text.now)) ≡ None))
        (λ kind. result_err (u64_of (trim text.now)) ≡ Some kind) }
{
    read_u64(trimmed(text))
}

/// What a line after the header is, where this is the rule and these the levels so far; None of a node line.
fn parse_command(
    alloc: Global,
    rule: &Rule,
    levels: &[u8],
    line: &[u8],
) -> Result<Option<ParsedLine>, Kind>
    ensures { IsCommandRead MAX_LEVEL rule.now levels.now line.now result }
{
    if is_blank(line) {
        return Ok(Some(ParsedLine::Nothing));
    }
    if begins_with(line, b"#FRAME") {
        return Err(Kind::Timeline);
    }
    if is_command(b'R', line) {
        if !levels.is_empty() {
            return Err(Kind::LateHeader);
        }
        return Ok(Some(ParsedLine::RuleLine(Rule::parse(alloc, &line[2..])?)));
    }
    if is_command(b'G', line) {
        if !levels.is_empty() {
            return Err(Kind::LateHeader);
        }
        return Ok(Some(ParsedLine::GenerationLine(read_generation(&line[2..])?)));
    }
    if begins_with(line, b"#") {
        return Ok(Some(ParsedLine::Nothing));
    }
    Ok(None)
}

/// The square of a quarter line, where this is the rule and these the levels so far.
#[inline(always)]
pub(crate) fn parse_quad(rule: &Rule, levels: &[u8], line: &[u8]) -> Result<Line, Kind>
    requires space { length levels.now < 2 ^ 64 - 1 }
    requires node { is_node_line line.now ≡ true }
    requires quad { is_leaf_byte (slice_index (trim line.now) 0) ≡ false }
    ensures { MatchResult result (λ square. IsParsed line.now (NodeLine square)
        × (broken_after MAX_LEVEL rule.now levels.now line.now ≡ None))
        (λ kind. broken_after MAX_LEVEL rule.now levels.now line.now ≡ Some kind) }
{
    read_quad(rule, levels, line)
}

/// The square of a leaf line. The rule and the levels don't matter.
#[inline(always)]
pub(crate) fn parse_leaf(line: &[u8]) -> Result<Line, Kind>
    requires node { is_node_line line.now ≡ true }
    requires leaf { is_leaf_byte (slice_index (trim line.now) 0) ≡ true }
    ensures { (rule : Rule) (levels : List ℕ) → MatchResult result
        (λ square. IsParsed line.now (NodeLine square)
        × (broken_after MAX_LEVEL rule levels line.now ≡ None))
        (λ kind. broken_after MAX_LEVEL rule levels line.now ≡ Some kind) }
{
    read_leaf_line(line)
}

/// What a line after the header is, where this is the rule and these the levels so far. It is never inlined: most lines begin as node lines,
/// for which there is `parse_quad` and `parse_leaf`.
#[inline(never)]
pub(crate) fn parse_line(
    alloc: Global,
    rule: &Rule,
    levels: &[u8],
    line: &[u8],
) -> Result<ParsedLine, Kind>
    requires { length levels.now < 2 ^ 64 - 1 }
    ensures { MatchResult result (λ parsed. IsParsed line.now parsed
        × (broken_after MAX_LEVEL rule.now levels.now line.now ≡ None))
        (λ kind. (kind ≡ Memory)
        ⊎ (broken_after MAX_LEVEL rule.now levels.now line.now ≡ Some kind)) }
{
    match parse_command(alloc, rule, levels, line)? {
        Some(parsed) => Ok(parsed),
        None => Ok(ParsedLine::NodeLine(read_node(rule, levels, line)?)),
    }
}
