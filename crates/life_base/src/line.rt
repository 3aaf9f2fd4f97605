//! Where lines end, and how long they may be.

ghost use Rattle.life_base.specs.Words.{byte, is_too_long};
ghost use Rattle.std.specs.Prelude.{◌≡◌, ◌==◌, ◌+◌, ◌^◌, nat_le, position};

use bstr::ByteSlice;

/// The greatest length of a line in bytes, without its line feed: 2^20.
pub const LONGEST_LINE: usize = 1 << 20;

/// Whether the line is longer than a line may be. A carriage return counts, the line feed does not.
pub fn is_too_long(line: &[u8]) -> bool
    ensures { result ≡ is_too_long line.now }
{
    line.len() > LONGEST_LINE
}

/// Whether a line of `kept` bytes, with `more` bytes after them, is no longer than a line may be.
pub fn line_fits(kept: u64, more: u64) -> bool
    ensures { result ≡ nat_le (kept + more) (2 ^ 20) }
{
    let longest = LONGEST_LINE as u64;
    kept <= longest && more <= longest - kept
}

/// The place of the first line feed.
pub fn line_end(bytes: &[u8]) -> Option<usize>
    ensures { result ≡ position (λ b. b == byte "\n") bytes.now }
{
    bytes.find_byte(b'\n')
}
