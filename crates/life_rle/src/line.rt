//! What a line is, before the header and after it.

ghost use Rattle.std.specs.Prelude.{◌≡◌};
ghost use Rattle.life_rle.specs.Words.{Answers, opening_of, later_of};

use crate::header::header_of;
use crate::position::{Position, is_position_line, position_of};
use life_base::{Kind, MAX_LEVEL, Rule, begins_with, is_blank, is_too_long};
use std::alloc::Global;

/// What a line is before the header: a comment (or blank), a position line, or the header.
#[derive(Drop)]
pub enum Opening {
    Comment,
    PositionLine(Position),
    Header(Rule),
}

/// What a line is after the header: passed over, or data.
#[derive(Clone, Copy, Debug, PartialEq, Eq)]
pub enum Later {
    Passed,
    Data,
}

/// What a line is before the header, or why it can't be there.
pub(crate) fn opening_of(alloc: Global, line: &[u8]) -> Result<Opening, Kind>
    ensures { Answers result (opening_of MAX_LEVEL line.now) }
{
    if is_too_long(line) {
        return Err(Kind::LineTooLong);
    }
    if is_blank(line) {
        return Ok(Opening::Comment);
    }
    if is_position_line(line) {
        return Ok(Opening::PositionLine(position_of(line)?));
    }
    if begins_with(line, b"#") {
        return Ok(Opening::Comment);
    }
    if begins_with(line, b"x") {
        return Ok(Opening::Header(header_of(alloc, line)?));
    }
    Err(Kind::NoHeader)
}

/// What a line is after the header, or why it can't be there.
pub(crate) fn later_of(line: &[u8]) -> Result<Later, Kind>
    ensures { result ≡ later_of line.now }
{
    if is_too_long(line) {
        return Err(Kind::LineTooLong);
    }
    if is_blank(line) {
        return Ok(Later::Passed);
    }
    if is_position_line(line) {
        return Err(Kind::LateHeader);
    }
    if begins_with(line, b"#") {
        return Ok(Later::Passed);
    }
    if begins_with(line, b"x ") || begins_with(line, b"x=") {
        return Err(Kind::SecondHeader);
    }
    Ok(Later::Data)
}
