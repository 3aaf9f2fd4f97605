//! The digits at the beginning of a text.

ghost use Rattle.std.specs.Prelude.{◌≡◌, ◌+◌, ◌*◌, ◌≤◌, length, take_while};
ghost use Rattle.life_base.specs.Words.{is_ascii_digit, prefix_len, capped_number, value_of};

/// A number with one digit more after it, or the greatest of the type.
fn with_digit(number: u64, digit: u8) -> u64
    requires { digit ≤ 9 }
    ensures { result ≡ capped_number (number * 10 + digit) }
{
    if number < u64::MAX / 10 {
        return number * 10 + u64::from(digit);
    }
    number.saturating_mul(10).saturating_add(u64::from(digit))
}

/// The number that the digits at the beginning of a text write, and how many digits these are; a number of 2^64 or more gives 2^64 - 1.
/// Both are 0 if the text begins with no digit.
pub fn leading_number(text: &[u8]) -> (u64, usize)
    ensures number { result.0 ≡ capped_number (value_of (take_while is_ascii_digit text.now)) }
    ensures count { result.1 ≡ prefix_len is_ascii_digit text.now }
    ensures within { result.1 ≤ length text.now }
{
    let mut number = 0u64;
    for (i, byte) in text.iter().enumerate() {
        if !byte.is_ascii_digit() {
            return (number, i);
        }
        number = with_digit(number, *byte - b'0');
    }
    (number, text.len())
}
