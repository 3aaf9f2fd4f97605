//! The bytes of an input, as a row writes them.

ghost use Rattle.std.specs.Prelude.{◌<◌};

use crate::answer::Answer;
use std::alloc::Global;

/// Most times that a byte is repeated.
const MOST: u32 = 1 << 22;

/// What was read of the way that a byte is written.
#[derive(Clone, Copy)]
enum Escape {
    /// Nothing.
    Between,
    /// A backslash.
    Backslash,
    /// A backslash and `x`.
    Hexadecimal,
    /// The first digit of two after these.
    HighDigit(u8),
    /// A backslash and a number.
    Number,
}

/// The value of a hexadecimal digit.
fn digit_of(out: &mut Answer, byte: u8) -> u8
    ensures { result < 16 }
{
    match byte {
        b'0'..=b'9' => byte - b'0',
        b'a'..=b'f' => byte - b'a' + 10,
        _ => {
            out.is_bad = true;
            0
        }
    }
}

/// Bytes that are read one after another.
#[derive(Drop)]
struct Bytes {
    read: Vec<u8>,
    state: Escape,
    /// How many times the next byte is repeated.
    times: u32,
}

impl Bytes {
    /// Adds a byte, as often as was said before it.
    fn put(&mut self, out: &mut Answer, byte: u8) -> Escape {
        for _ in 0..self.times {
            if self.read.push(byte).is_err() {
                out.is_cut = true;
            }
        }
        self.times = 1;
        Escape::Between
    }

    /// Takes a byte of the text.
    fn take(&mut self, out: &mut Answer, byte: u8) {
        self.state = match (self.state, byte) {
            (Escape::Between, b'\\') => Escape::Backslash,
            (Escape::Between, b';') => self.put(out, b'\n'),
            (Escape::Between, _) | (Escape::Backslash, b'\\') => self.put(out, byte),
            (Escape::Backslash, b't') => self.put(out, b'\t'),
            (Escape::Backslash, b'r') => self.put(out, b'\r'),
            (Escape::Backslash, b'x') => Escape::Hexadecimal,
            (Escape::Backslash, _) => {
                self.times = u32::from(digit_of(out, byte));
                Escape::Number
            }
            (Escape::Hexadecimal, _) => Escape::HighDigit(digit_of(out, byte)),
            (Escape::HighDigit(high), _) => {
                let low = digit_of(out, byte);
                self.put(out, (high << 4) | low)
            }
            (Escape::Number, b'*') => Escape::Between,
            (Escape::Number, _) => {
                let digit = u32::from(digit_of(out, byte));
                self.times = self
                    .times
                    .saturating_mul(10)
                    .saturating_add(digit)
                    .min(MOST);
                Escape::Number
            }
        };
    }
}

/// The bytes that a text writes.
pub(crate) fn bytes_of(alloc: Global, out: &mut Answer, text: &[u8]) -> Vec<u8> {
    let mut bytes = Bytes {
        read: Vec::new(alloc),
        state: Escape::Between,
        times: 1,
    };
    if bytes.read.reserve(text.len()).is_err() {
        out.is_cut = true;
    }
    for byte in text {
        bytes.take(out, *byte);
    }
    if bytes.times != 1 || !matches!(bytes.state, Escape::Between) {
        out.is_bad = true;
    }
    bytes.read
}
