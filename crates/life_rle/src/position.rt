//! Position lines.

ghost use Rattle.std.specs.Prelude.{◌≡◌, ◌==◌, true, ◌≤◌, ◌<◌, ◌^◌, ◌-◌, Option, Ok, position, IfSome, pos, neg_ℤ, ◌≤ℤ◌};
ghost use Rattle.life_rle.specs.Words.{before_first, after_first, u64_of, words_of, is_position_line, signed_number, corner_in, field_of, position_with_field, and_then, position_with, position_of, Generation, IsNumberRead};

use crate::plane::is_coordinate;
use bstr::ByteSlice;
use life_base::{Kind, MAX_LEVEL, begins_with, is_whitespace, read_i64, read_u64, split_word};

/// Where the upper left cell of a pattern is, and in which generation the pattern is.
#[derive(Clone, Copy, Debug, PartialEq, Eq)]
pub struct Position {
    pub x: i64,
    pub y: i64,
    pub generation: u64,
}

/// Whether a line is a position line.
pub(crate) fn is_position_line(line: &[u8]) -> bool
    ensures { result ≡ is_position_line line.now }
{
    begins_with(line, b"#CXRLE") && (line.len() == 6 || is_whitespace(line[6]))
}

/// The place of the first comma.
fn comma_place(text: &[u8]) -> Option<usize>
    ensures { result ≡ position (λ b. b == 44) text.now }
{
    text.find_byte(b',')
}

/// The text before the first comma, and the text after it.
fn split_at_comma(text: &[u8]) -> (&[u8], &[u8])
    ensures before { result.0.now ≡ before_first (λ b. b == 44) text.now }
    ensures after { result.1.now ≡ after_first (λ b. b == 44) text.now }
{
    match comma_place(text) {
        Some(comma) => (&text[..comma], &text[comma + 1..]),
        None => (text, &[]),
    }
}

/// The number that a text writes. A number beyond the type, which is far outside the plane, gives the type's greatest.
fn signed_number(text: &[u8]) -> Option<i64>
    ensures value { IsNumberRead MAX_LEVEL result (signed_number text.now) }
    ensures small { IfSome result (λ z. (neg_ℤ (pos (2 ^ 63)) ≤ℤ z) × (z ≤ℤ pos (2 ^ 63 - 1))) }
{
    match read_i64(text) {
        Ok(number) => Some(number),
        Err(kind) => match kind {
            Kind::TooLarge => Some(i64::MAX),
            _ => None,
        },
    }
}

/// The position with the corner that a text gives for its own.
fn with_corner(position: Position, text: &[u8]) -> Result<Position, Kind>
    ensures { result ≡ and_then (corner_in MAX_LEVEL text.now)
        (λ found. Ok (position_with_field position found)) }
{
    let (x, y) = split_at_comma(text);
    let Some(x) = signed_number(x) else {
        return Err(Kind::BadNumber);
    };
    let Some(y) = signed_number(y) else {
        return Err(Kind::BadNumber);
    };
    if !is_coordinate(x) {
        return Err(Kind::OutOfPlane);
    }
    if !is_coordinate(y) {
        return Err(Kind::OutOfPlane);
    }
    Ok(Position { x, y, ..position })
}

/// The position with the generation that a text gives for its own.
fn with_generation(position: Position, text: &[u8]) -> Result<Position, Kind>
    ensures { result ≡ and_then (and_then (u64_of text.now) (λ n. Ok (Generation n)))
        (λ found. Ok (position_with_field position found)) }
{
    let generation = read_u64(text)?;
    Ok(Position {
        generation,
        ..position
    })
}

/// The position with what a field gives.
fn with_field(position: Position, field: &[u8]) -> Result<Position, Kind>
    ensures { result ≡ and_then (field_of MAX_LEVEL field.now)
        (λ found. Ok (position_with_field position found)) }
{
    if begins_with(field, b"Pos=") {
        return with_corner(position, &field[4..]);
    }
    if begins_with(field, b"Gen=") {
        return with_generation(position, &field[4..]);
    }
    Ok(position)
}

/// The position with what the fields of a text give.
fn position_with(position: Position, text: &[u8]) -> Result<Position, Kind>
    ensures { result ≡ position_with MAX_LEVEL position (words_of text.now) }
{
    let mut position = position;
    let mut rest = text;
    loop {
        let (field, behind) = split_word(rest);
        if field.is_empty() {
            return Ok(position);
        }
        position = with_field(position, field)?;
        rest = behind;
    }
}

/// The position that a position line gives.
pub(crate) fn position_of(line: &[u8]) -> Result<Position, Kind>
    requires { is_position_line line.now ≡ true }
    ensures { result ≡ position_of MAX_LEVEL line.now }
{
    let start = Position {
        x: 0,
        y: 0,
        generation: 0,
    };
    position_with(start, &line[6..])
}
