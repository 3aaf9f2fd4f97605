//! The answer of a row, and how values are written in it.

use life_base::{Fault, Kind};
use std::alloc::Global;

/// An answer that is being written.
#[derive(Drop)]
pub(crate) struct Answer {
    text: String,
    /// Whether the answer, or the input of its row, got no memory.
    pub(crate) is_cut: bool,
    /// Whether the row isn't one.
    pub(crate) is_bad: bool,
    /// Whether no further step of the row is taken.
    pub(crate) is_over: bool,
}

impl Answer {
    /// An answer without text, with memory for so many bytes.
    pub(crate) fn with_capacity(alloc: Global, bytes: usize) -> Answer {
        let (text, is_cut) = match String::with_capacity(alloc, bytes) {
            Ok(text) => (text, false),
            Err(_) => (String::new(alloc), true),
        };
        Answer {
            text,
            is_cut,
            is_bad: false,
            is_over: false,
        }
    }

    /// The line that is printed.
    pub(crate) fn line(&self) -> &str {
        if self.is_cut {
            "no memory"
        } else if self.is_bad {
            "no row"
        } else {
            self.text.as_str()
        }
    }

    /// Adds a text.
    pub(crate) fn text(&mut self, text: &str) {
        if self.text.push_str(text).is_err() {
            self.is_cut = true;
        }
    }

    /// Adds a number.
    pub(crate) fn number(&mut self, number: u128) {
        if write!(self.text, "{number}").is_err() {
            self.is_cut = true;
        }
    }

    /// Adds a number of either sign.
    fn signed(&mut self, number: i64) {
        if write!(self.text, "{number}").is_err() {
            self.is_cut = true;
        }
    }

    /// Adds a byte by its number.
    fn escape(&mut self, byte: u8) {
        if write!(self.text, "\\x{byte:02x}").is_err() {
            self.is_cut = true;
        }
    }

    /// Adds a byte as a row writes it.
    fn byte(&mut self, byte: u8) {
        match byte {
            b'\n' => self.text(";"),
            b'\t' => self.text("\\t"),
            b'\r' => self.text("\\r"),
            b'\\' => self.text("\\\\"),
            b';' => self.text("\\x3b"),
            0x20..=0x7e => {
                if self.text.push(char::from(byte)).is_err() {
                    self.is_cut = true;
                }
            }
            _ => self.escape(byte),
        }
    }

    /// Adds bytes as a row writes them.
    pub(crate) fn bytes(&mut self, bytes: &[u8]) {
        for byte in bytes {
            self.byte(*byte);
        }
    }

    /// Adds the name of a kind of refusal. Out of memory, a row takes no further step.
    pub(crate) fn refused(&mut self, kind: Kind) {
        self.text(kind.name());
        if kind == Kind::Memory {
            self.is_over = true;
        }
    }
}

/// What is written in an answer.
pub(crate) trait Show {
    /// Adds it to the answer.
    fn show(&self, out: &mut Answer);
}

impl Show for bool {
    fn show(&self, out: &mut Answer) {
        out.text(if *self { "true" } else { "false" });
    }
}

impl Show for u8 {
    fn show(&self, out: &mut Answer) {
        out.number(u128::from(*self));
    }
}

impl Show for u64 {
    fn show(&self, out: &mut Answer) {
        out.number(u128::from(*self));
    }
}

impl Show for i64 {
    fn show(&self, out: &mut Answer) {
        out.signed(*self);
    }
}

impl Show for Vec<u8> {
    fn show(&self, out: &mut Answer) {
        out.bytes(self);
    }
}

impl Show for Kind {
    fn show(&self, out: &mut Answer) {
        out.refused(*self);
    }
}

impl Show for Fault {
    /// The line and the kind.
    fn show(&self, out: &mut Answer) {
        self.place.line.show(out);
        out.text(" ");
        out.refused(self.kind);
    }
}

impl<T: Show> Show for Option<T> {
    fn show(&self, out: &mut Answer) {
        match self {
            Some(found) => found.show(out),
            None => out.text("none"),
        }
    }
}

impl<T: Show, E: Show> Show for Result<T, E> {
    fn show(&self, out: &mut Answer) {
        match self {
            Ok(made) => made.show(out),
            Err(why) => why.show(out),
        }
    }
}

/// Adds each of these after a mark, the first one after another mark.
pub(crate) fn show_list<T: Show>(out: &mut Answer, first: &str, mark: &str, items: &[T]) {
    let mut before = first;
    for item in items {
        out.text(before);
        item.show(out);
        before = mark;
    }
}

/// Adds what came of a call, which is dropped.
pub(crate) fn show_dropped<T: Show + Drop>(out: &mut Answer, made: T) {
    made.show(out);
}

/// Adds a word, or why a call was refused.
pub(crate) fn show_outcome<T: Drop>(out: &mut Answer, word: &str, outcome: Result<T, Fault>) {
    match outcome {
        Ok(_) => out.text(word),
        Err(fault) => fault.show(out),
    }
}
