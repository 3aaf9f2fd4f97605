//! Node lines as texts, written in place.

ghost use Rattle.std.specs.Prelude.{◌≡◌, ◌++◌, ◌∷◌, ◌+◌, ◌-◌, ◌<◌, ◌≤◌, take, drop, length, flat_map, decimal, codes, vec_len, vec_capacity, OnOk, OnErr, IfErr};
ghost use Rattle.life_mc.specs.Words.{Quad, node_text, row_text, IsMemory};

use crate::line::Line;
use itoa::write_digits;
use life_base::Kind;

/// The most bytes of a node line: five numbers of 20 digits, the four spaces between them, and a line feed.
pub const LONGEST_NODE_LINE: usize = 105;

/// The most bytes of a line of four quarters: a level of three digits, four numbers of 20 digits, a space before each of these, and a line feed.
const LONGEST_QUAD: usize = 88;

/// The text of the eight cells of each row, `.` or `*` for each, the western one in the lowest byte.
static ROW_WORDS: [u64; 256] = [
    0x2E2E_2E2E_2E2E_2E2E,
    0x2A2E_2E2E_2E2E_2E2E,
    0x2E2A_2E2E_2E2E_2E2E,
    0x2A2A_2E2E_2E2E_2E2E,
    0x2E2E_2A2E_2E2E_2E2E,
    0x2A2E_2A2E_2E2E_2E2E,
    0x2E2A_2A2E_2E2E_2E2E,
    0x2A2A_2A2E_2E2E_2E2E,
    0x2E2E_2E2A_2E2E_2E2E,
    0x2A2E_2E2A_2E2E_2E2E,
    0x2E2A_2E2A_2E2E_2E2E,
    0x2A2A_2E2A_2E2E_2E2E,
    0x2E2E_2A2A_2E2E_2E2E,
    0x2A2E_2A2A_2E2E_2E2E,
    0x2E2A_2A2A_2E2E_2E2E,
    0x2A2A_2A2A_2E2E_2E2E,
    0x2E2E_2E2E_2A2E_2E2E,
    0x2A2E_2E2E_2A2E_2E2E,
    0x2E2A_2E2E_2A2E_2E2E,
    0x2A2A_2E2E_2A2E_2E2E,
    0x2E2E_2A2E_2A2E_2E2E,
    0x2A2E_2A2E_2A2E_2E2E,
    0x2E2A_2A2E_2A2E_2E2E,
    0x2A2A_2A2E_2A2E_2E2E,
    0x2E2E_2E2A_2A2E_2E2E,
    0x2A2E_2E2A_2A2E_2E2E,
    0x2E2A_2E2A_2A2E_2E2E,
    0x2A2A_2E2A_2A2E_2E2E,
    0x2E2E_2A2A_2A2E_2E2E,
    0x2A2E_2A2A_2A2E_2E2E,
    0x2E2A_2A2A_2A2E_2E2E,
    0x2A2A_2A2A_2A2E_2E2E,
    0x2E2E_2E2E_2E2A_2E2E,
    0x2A2E_2E2E_2E2A_2E2E,
    0x2E2A_2E2E_2E2A_2E2E,
    0x2A2A_2E2E_2E2A_2E2E,
    0x2E2E_2A2E_2E2A_2E2E,
    0x2A2E_2A2E_2E2A_2E2E,
    0x2E2A_2A2E_2E2A_2E2E,
    0x2A2A_2A2E_2E2A_2E2E,
    0x2E2E_2E2A_2E2A_2E2E,
    0x2A2E_2E2A_2E2A_2E2E,
    0x2E2A_2E2A_2E2A_2E2E,
    0x2A2A_2E2A_2E2A_2E2E,
    0x2E2E_2A2A_2E2A_2E2E,
    0x2A2E_2A2A_2E2A_2E2E,
    0x2E2A_2A2A_2E2A_2E2E,
    0x2A2A_2A2A_2E2A_2E2E,
    0x2E2E_2E2E_2A2A_2E2E,
    0x2A2E_2E2E_2A2A_2E2E,
    0x2E2A_2E2E_2A2A_2E2E,
    0x2A2A_2E2E_2A2A_2E2E,
    0x2E2E_2A2E_2A2A_2E2E,
    0x2A2E_2A2E_2A2A_2E2E,
    0x2E2A_2A2E_2A2A_2E2E,
    0x2A2A_2A2E_2A2A_2E2E,
    0x2E2E_2E2A_2A2A_2E2E,
    0x2A2E_2E2A_2A2A_2E2E,
    0x2E2A_2E2A_2A2A_2E2E,
    0x2A2A_2E2A_2A2A_2E2E,
    0x2E2E_2A2A_2A2A_2E2E,
    0x2A2E_2A2A_2A2A_2E2E,
    0x2E2A_2A2A_2A2A_2E2E,
    0x2A2A_2A2A_2A2A_2E2E,
    0x2E2E_2E2E_2E2E_2A2E,
    0x2A2E_2E2E_2E2E_2A2E,
    0x2E2A_2E2E_2E2E_2A2E,
    0x2A2A_2E2E_2E2E_2A2E,
    0x2E2E_2A2E_2E2E_2A2E,
    0x2A2E_2A2E_2E2E_2A2E,
    0x2E2A_2A2E_2E2E_2A2E,
    0x2A2A_2A2E_2E2E_2A2E,
    0x2E2E_2E2A_2E2E_2A2E,
    0x2A2E_2E2A_2E2E_2A2E,
    0x2E2A_2E2A_2E2E_2A2E,
    0x2A2A_2E2A_2E2E_2A2E,
    0x2E2E_2A2A_2E2E_2A2E,
    0x2A2E_2A2A_2E2E_2A2E,
    0x2E2A_2A2A_2E2E_2A2E,
    0x2A2A_2A2A_2E2E_2A2E,
    0x2E2E_2E2E_2A2E_2A2E,
    0x2A2E_2E2E_2A2E_2A2E,
    0x2E2A_2E2E_2A2E_2A2E,
    0x2A2A_2E2E_2A2E_2A2E,
    0x2E2E_2A2E_2A2E_2A2E,
    0x2A2E_2A2E_2A2E_2A2E,
    0x2E2A_2A2E_2A2E_2A2E,
    0x2A2A_2A2E_2A2E_2A2E,
    0x2E2E_2E2A_2A2E_2A2E,
    0x2A2E_2E2A_2A2E_2A2E,
    0x2E2A_2E2A_2A2E_2A2E,
    0x2A2A_2E2A_2A2E_2A2E,
    0x2E2E_2A2A_2A2E_2A2E,
    0x2A2E_2A2A_2A2E_2A2E,
    0x2E2A_2A2A_2A2E_2A2E,
    0x2A2A_2A2A_2A2E_2A2E,
    0x2E2E_2E2E_2E2A_2A2E,
    0x2A2E_2E2E_2E2A_2A2E,
    0x2E2A_2E2E_2E2A_2A2E,
    0x2A2A_2E2E_2E2A_2A2E,
    0x2E2E_2A2E_2E2A_2A2E,
    0x2A2E_2A2E_2E2A_2A2E,
    0x2E2A_2A2E_2E2A_2A2E,
    0x2A2A_2A2E_2E2A_2A2E,
    0x2E2E_2E2A_2E2A_2A2E,
    0x2A2E_2E2A_2E2A_2A2E,
    0x2E2A_2E2A_2E2A_2A2E,
    0x2A2A_2E2A_2E2A_2A2E,
    0x2E2E_2A2A_2E2A_2A2E,
    0x2A2E_2A2A_2E2A_2A2E,
    0x2E2A_2A2A_2E2A_2A2E,
    0x2A2A_2A2A_2E2A_2A2E,
    0x2E2E_2E2E_2A2A_2A2E,
    0x2A2E_2E2E_2A2A_2A2E,
    0x2E2A_2E2E_2A2A_2A2E,
    0x2A2A_2E2E_2A2A_2A2E,
    0x2E2E_2A2E_2A2A_2A2E,
    0x2A2E_2A2E_2A2A_2A2E,
    0x2E2A_2A2E_2A2A_2A2E,
    0x2A2A_2A2E_2A2A_2A2E,
    0x2E2E_2E2A_2A2A_2A2E,
    0x2A2E_2E2A_2A2A_2A2E,
    0x2E2A_2E2A_2A2A_2A2E,
    0x2A2A_2E2A_2A2A_2A2E,
    0x2E2E_2A2A_2A2A_2A2E,
    0x2A2E_2A2A_2A2A_2A2E,
    0x2E2A_2A2A_2A2A_2A2E,
    0x2A2A_2A2A_2A2A_2A2E,
    0x2E2E_2E2E_2E2E_2E2A,
    0x2A2E_2E2E_2E2E_2E2A,
    0x2E2A_2E2E_2E2E_2E2A,
    0x2A2A_2E2E_2E2E_2E2A,
    0x2E2E_2A2E_2E2E_2E2A,
    0x2A2E_2A2E_2E2E_2E2A,
    0x2E2A_2A2E_2E2E_2E2A,
    0x2A2A_2A2E_2E2E_2E2A,
    0x2E2E_2E2A_2E2E_2E2A,
    0x2A2E_2E2A_2E2E_2E2A,
    0x2E2A_2E2A_2E2E_2E2A,
    0x2A2A_2E2A_2E2E_2E2A,
    0x2E2E_2A2A_2E2E_2E2A,
    0x2A2E_2A2A_2E2E_2E2A,
    0x2E2A_2A2A_2E2E_2E2A,
    0x2A2A_2A2A_2E2E_2E2A,
    0x2E2E_2E2E_2A2E_2E2A,
    0x2A2E_2E2E_2A2E_2E2A,
    0x2E2A_2E2E_2A2E_2E2A,
    0x2A2A_2E2E_2A2E_2E2A,
    0x2E2E_2A2E_2A2E_2E2A,
    0x2A2E_2A2E_2A2E_2E2A,
    0x2E2A_2A2E_2A2E_2E2A,
    0x2A2A_2A2E_2A2E_2E2A,
    0x2E2E_2E2A_2A2E_2E2A,
    0x2A2E_2E2A_2A2E_2E2A,
    0x2E2A_2E2A_2A2E_2E2A,
    0x2A2A_2E2A_2A2E_2E2A,
    0x2E2E_2A2A_2A2E_2E2A,
    0x2A2E_2A2A_2A2E_2E2A,
    0x2E2A_2A2A_2A2E_2E2A,
    0x2A2A_2A2A_2A2E_2E2A,
    0x2E2E_2E2E_2E2A_2E2A,
    0x2A2E_2E2E_2E2A_2E2A,
    0x2E2A_2E2E_2E2A_2E2A,
    0x2A2A_2E2E_2E2A_2E2A,
    0x2E2E_2A2E_2E2A_2E2A,
    0x2A2E_2A2E_2E2A_2E2A,
    0x2E2A_2A2E_2E2A_2E2A,
    0x2A2A_2A2E_2E2A_2E2A,
    0x2E2E_2E2A_2E2A_2E2A,
    0x2A2E_2E2A_2E2A_2E2A,
    0x2E2A_2E2A_2E2A_2E2A,
    0x2A2A_2E2A_2E2A_2E2A,
    0x2E2E_2A2A_2E2A_2E2A,
    0x2A2E_2A2A_2E2A_2E2A,
    0x2E2A_2A2A_2E2A_2E2A,
    0x2A2A_2A2A_2E2A_2E2A,
    0x2E2E_2E2E_2A2A_2E2A,
    0x2A2E_2E2E_2A2A_2E2A,
    0x2E2A_2E2E_2A2A_2E2A,
    0x2A2A_2E2E_2A2A_2E2A,
    0x2E2E_2A2E_2A2A_2E2A,
    0x2A2E_2A2E_2A2A_2E2A,
    0x2E2A_2A2E_2A2A_2E2A,
    0x2A2A_2A2E_2A2A_2E2A,
    0x2E2E_2E2A_2A2A_2E2A,
    0x2A2E_2E2A_2A2A_2E2A,
    0x2E2A_2E2A_2A2A_2E2A,
    0x2A2A_2E2A_2A2A_2E2A,
    0x2E2E_2A2A_2A2A_2E2A,
    0x2A2E_2A2A_2A2A_2E2A,
    0x2E2A_2A2A_2A2A_2E2A,
    0x2A2A_2A2A_2A2A_2E2A,
    0x2E2E_2E2E_2E2E_2A2A,
    0x2A2E_2E2E_2E2E_2A2A,
    0x2E2A_2E2E_2E2E_2A2A,
    0x2A2A_2E2E_2E2E_2A2A,
    0x2E2E_2A2E_2E2E_2A2A,
    0x2A2E_2A2E_2E2E_2A2A,
    0x2E2A_2A2E_2E2E_2A2A,
    0x2A2A_2A2E_2E2E_2A2A,
    0x2E2E_2E2A_2E2E_2A2A,
    0x2A2E_2E2A_2E2E_2A2A,
    0x2E2A_2E2A_2E2E_2A2A,
    0x2A2A_2E2A_2E2E_2A2A,
    0x2E2E_2A2A_2E2E_2A2A,
    0x2A2E_2A2A_2E2E_2A2A,
    0x2E2A_2A2A_2E2E_2A2A,
    0x2A2A_2A2A_2E2E_2A2A,
    0x2E2E_2E2E_2A2E_2A2A,
    0x2A2E_2E2E_2A2E_2A2A,
    0x2E2A_2E2E_2A2E_2A2A,
    0x2A2A_2E2E_2A2E_2A2A,
    0x2E2E_2A2E_2A2E_2A2A,
    0x2A2E_2A2E_2A2E_2A2A,
    0x2E2A_2A2E_2A2E_2A2A,
    0x2A2A_2A2E_2A2E_2A2A,
    0x2E2E_2E2A_2A2E_2A2A,
    0x2A2E_2E2A_2A2E_2A2A,
    0x2E2A_2E2A_2A2E_2A2A,
    0x2A2A_2E2A_2A2E_2A2A,
    0x2E2E_2A2A_2A2E_2A2A,
    0x2A2E_2A2A_2A2E_2A2A,
    0x2E2A_2A2A_2A2E_2A2A,
    0x2A2A_2A2A_2A2E_2A2A,
    0x2E2E_2E2E_2E2A_2A2A,
    0x2A2E_2E2E_2E2A_2A2A,
    0x2E2A_2E2E_2E2A_2A2A,
    0x2A2A_2E2E_2E2A_2A2A,
    0x2E2E_2A2E_2E2A_2A2A,
    0x2A2E_2A2E_2E2A_2A2A,
    0x2E2A_2A2E_2E2A_2A2A,
    0x2A2A_2A2E_2E2A_2A2A,
    0x2E2E_2E2A_2E2A_2A2A,
    0x2A2E_2E2A_2E2A_2A2A,
    0x2E2A_2E2A_2E2A_2A2A,
    0x2A2A_2E2A_2E2A_2A2A,
    0x2E2E_2A2A_2E2A_2A2A,
    0x2A2E_2A2A_2E2A_2A2A,
    0x2E2A_2A2A_2E2A_2A2A,
    0x2A2A_2A2A_2E2A_2A2A,
    0x2E2E_2E2E_2A2A_2A2A,
    0x2A2E_2E2E_2A2A_2A2A,
    0x2E2A_2E2E_2A2A_2A2A,
    0x2A2A_2E2E_2A2A_2A2A,
    0x2E2E_2A2E_2A2A_2A2A,
    0x2A2E_2A2E_2A2A_2A2A,
    0x2E2A_2A2E_2A2A_2A2A,
    0x2A2A_2A2E_2A2A_2A2A,
    0x2E2E_2E2A_2A2A_2A2A,
    0x2A2E_2E2A_2A2A_2A2A,
    0x2E2A_2E2A_2A2A_2A2A,
    0x2A2A_2E2A_2A2A_2A2A,
    0x2E2E_2A2A_2A2A_2A2A,
    0x2A2E_2A2A_2A2A_2A2A,
    0x2E2A_2A2A_2A2A_2A2A,
    0x2A2A_2A2A_2A2A_2A2A,
];

/// How many bytes the text of each row has: one for each cell up to the last live one, and `$`.
static ROW_LENGTHS: [u8; 256] = [
    1, 9, 8, 9, 7, 9, 8, 9, 6, 9, 8, 9, 7, 9, 8, 9, 5, 9, 8, 9, 7, 9, 8, 9, 6, 9, 8, 9, 7, 9, 8, 9,
    4, 9, 8, 9, 7, 9, 8, 9, 6, 9, 8, 9, 7, 9, 8, 9, 5, 9, 8, 9, 7, 9, 8, 9, 6, 9, 8, 9, 7, 9, 8, 9,
    3, 9, 8, 9, 7, 9, 8, 9, 6, 9, 8, 9, 7, 9, 8, 9, 5, 9, 8, 9, 7, 9, 8, 9, 6, 9, 8, 9, 7, 9, 8, 9,
    4, 9, 8, 9, 7, 9, 8, 9, 6, 9, 8, 9, 7, 9, 8, 9, 5, 9, 8, 9, 7, 9, 8, 9, 6, 9, 8, 9, 7, 9, 8, 9,
    2, 9, 8, 9, 7, 9, 8, 9, 6, 9, 8, 9, 7, 9, 8, 9, 5, 9, 8, 9, 7, 9, 8, 9, 6, 9, 8, 9, 7, 9, 8, 9,
    4, 9, 8, 9, 7, 9, 8, 9, 6, 9, 8, 9, 7, 9, 8, 9, 5, 9, 8, 9, 7, 9, 8, 9, 6, 9, 8, 9, 7, 9, 8, 9,
    3, 9, 8, 9, 7, 9, 8, 9, 6, 9, 8, 9, 7, 9, 8, 9, 5, 9, 8, 9, 7, 9, 8, 9, 6, 9, 8, 9, 7, 9, 8, 9,
    4, 9, 8, 9, 7, 9, 8, 9, 6, 9, 8, 9, 7, 9, 8, 9, 5, 9, 8, 9, 7, 9, 8, 9, 6, 9, 8, 9, 7, 9, 8, 9,
];

/// How many bytes the text of a row has.
#[inline(always)]
fn row_length(row: u8) -> usize
    ensures text { result ≡ length (row_text row) }
    ensures within { result ≤ 9 }
{
    usize::from(ROW_LENGTHS[usize::from(row)])
}

/// Writes a row of a leaf from a place on, and returns where it ends. Up to nine bytes from that place on are overwritten.
#[inline(always)]
fn write_row(space: &mut [u8], at: usize, row: u8) -> usize
    requires { at + 9 ≤ length space.old }
    ensures written { take result space.new ≡ take at space.old ++ row_text row }
    ensures behind { drop (at + 9) space.new ≡ drop (at + 9) space.old }
    ensures end { result ≤ at + 9 }
{
    space[at..at + 8].copy_from_slice(&ROW_WORDS[usize::from(row)].to_le_bytes());
    let end = at + row_length(row);
    space[end - 1] = b'$';
    end
}

/// Writes the line of a leaf from a place on, and returns where it ends. Bytes after it are overwritten.
#[inline(always)]
fn write_leaf(text: &mut [u8], at: usize, rows: &[u8; 8]) -> usize
    requires { at + 105 ≤ length text.old }
    ensures written { take result text.new
        ≡ take at text.old ++ (flat_map row_text rows.now ++ codes "\n") }
    ensures behind { drop (at + 105) text.new ≡ drop (at + 105) text.old }
    ensures end { result ≤ at + 105 }
{
    let mut end = at;
    for row in rows {
        end = write_row(text, end, *row);
    }
    text[end] = b'\n';
    end + 1
}

/// Writes a byte before a place, and returns its place.
#[inline(always)]
fn write_byte(text: &mut [u8], end: usize, byte: u8) -> usize
    requires { (1 ≤ end) × (end ≤ length text.old) }
    ensures written { drop result text.new ≡ byte ∷ drop end text.old }
    ensures before { take result text.new ≡ take result text.old }
    ensures start { result + 1 ≡ end }
{
    text[end - 1] = byte;
    end - 1
}

/// Writes a space and a number before a place, and returns where they start.
#[inline(always)]
fn write_quarter(text: &mut [u8], end: usize, number: u64) -> usize
    requires { (21 ≤ end) × (end ≤ length text.old) }
    ensures written { drop result text.new ≡ codes " " ++ decimal number ++ drop end text.old }
    ensures before { take result text.new ≡ take result text.old }
    ensures start { (result ≤ end) × (end ≤ result + 21) }
{
    let start = write_digits(number, text, end);
    write_byte(text, start, b' ')
}

/// Writes a level before a place, and returns where it starts. Most levels have one digit.
#[inline(always)]
fn write_level(text: &mut [u8], end: usize, level: u8) -> usize
    requires { (3 ≤ end) × (end ≤ length text.old) }
    ensures written { drop result text.new ≡ decimal level ++ drop end text.old }
    ensures before { take result text.new ≡ take result text.old }
    ensures start { (result ≤ end) × (end ≤ result + 3) }
{
    if level < 10 {
        return write_byte(text, end, b'0' + level);
    }
    write_digits(u64::from(level), text, end)
}

/// Writes the line of a square of four quarters so that it ends at a place, from its last number to its first, and returns where it starts.
#[inline(always)]
fn write_quad_before(
    text: &mut [u8],
    end: usize,
    level: u8,
    nw: u64,
    ne: u64,
    sw: u64,
    se: u64,
) -> usize
    requires { (88 ≤ end) × (end ≤ length text.old) }
    ensures written { drop result text.new ≡ node_text (Quad level nw ne sw se)
        ++ drop end text.old }
    ensures before { take result text.new ≡ take result text.old }
    ensures start { (result ≤ end) × (end ≤ result + 88) }
{
    let end = write_byte(text, end, b'\n');
    let end = write_quarter(text, end, se);
    let end = write_quarter(text, end, sw);
    let end = write_quarter(text, end, ne);
    let end = write_quarter(text, end, nw);
    write_level(text, end, level)
}

/// Copies a block of bytes to another place, of which only the first `count` matter, and returns where these end there.
#[inline(always)]
fn copy_block<const N: usize>(text: &mut [u8], from: usize, to: usize, count: usize) -> usize
    requires count { count ≤ N }
    requires from { from + N ≤ length text.old }
    requires to { to + N ≤ length text.old }
    ensures written { take result text.new ≡ take to text.old ++ take count (drop from text.old) }
    ensures behind { drop (to + N) text.new ≡ drop (to + N) text.old }
    ensures end { result ≡ to + count }
{
    let mut block = [0; N];
    block.copy_from_slice(&text[from..from + N]);
    text[to..to + N].copy_from_slice(&block);
    to + count
}

/// Copies the bytes between two places to an earlier place, and returns where they end there. Bytes after them are overwritten, because a block of a fixed
/// size is copied in a few steps.
#[inline(always)]
fn copy_line(text: &mut [u8], from: usize, end: usize, to: usize) -> usize
    requires earlier { to ≤ from }
    requires ordered { from ≤ end }
    requires space { end + 16 ≤ length text.old }
    ensures written { take result text.new
        ≡ take to text.old ++ take (end - from) (drop from text.old) }
    ensures behind { drop (end + 16) text.new ≡ drop (end + 16) text.old }
    ensures end { result ≡ to + (end - from) }
{
    let count = end - from;
    if count <= 16 {
        return copy_block::<16>(text, from, to, count);
    }
    if count <= 32 {
        return copy_block::<32>(text, from, to, count);
    }
    if count <= 48 {
        return copy_block::<48>(text, from, to, count);
    }
    text.copy_within(from..end, to);
    to + count
}

/// Writes the line of a square of four quarters from a place on, and returns where it ends. Bytes after it are overwritten.
#[inline(always)]
fn write_quad(text: &mut [u8], at: usize, level: u8, nw: u64, ne: u64, sw: u64, se: u64) -> usize
    requires { at + 105 ≤ length text.old }
    ensures written { take result text.new ≡ take at text.old
        ++ node_text (Quad level nw ne sw se) }
    ensures behind { drop (at + 105) text.new ≡ drop (at + 105) text.old }
    ensures end { result ≤ at + 105 }
{
    let end = at + LONGEST_QUAD;
    let start = write_quad_before(text, end, level, nw, ne, sw, se);
    copy_line(text, start, end, at)
}

/// Writes the line of a square, ended by a line feed, from a place on, and returns where it ends. Up to [`LONGEST_NODE_LINE`] bytes from that
/// place on are overwritten.
#[inline(always)]
pub fn write_line(text: &mut [u8], at: usize, line: &Line) -> usize
    requires { at + 105 ≤ length text.old }
    ensures written { take result text.new ≡ take at text.old ++ node_text line.now }
    ensures behind { drop (at + 105) text.new ≡ drop (at + 105) text.old }
    ensures end { result ≤ at + 105 }
{
    match line {
        Line::Leaf(rows) => write_leaf(text, at, rows),
        Line::Quad {
            level,
            nw,
            ne,
            sw,
            se,
        } => write_quad(text, at, *level, *nw, *ne, *sw, *se),
    }
}

/// Adds the line of a square at the end, ended by a line feed. A refusal leaves the vector as it was; if there is capacity for
/// [`LONGEST_NODE_LINE`] more bytes, none comes.
///
/// # Errors
///
/// `Memory`, and nothing else.
pub fn append_line(out: &mut Vec<u8>, line: &Line) -> Result<(), Kind>
    ensures ok { OnOk result (out.new.items ≡ out.old.items ++ node_text line.now) }
    ensures err { OnErr result (out.new.items ≡ out.old.items) }
    ensures kind { IfErr result IsMemory }
    ensures full { OnErr result (vec_capacity out.old < vec_len out.old + 105) }
    ensures capacity { vec_capacity out.old ≤ vec_capacity out.new }
{
    let at = out.len();
    out.resize(at + LONGEST_NODE_LINE, 0)?;
    let end = write_line(out, at, line);
    out.truncate(end);
    Ok(())
}
