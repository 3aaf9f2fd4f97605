//! Standard output, whose reader may leave before the end; standard error, to which that isn't reported; and what a terminal gets of both.

ghost use Rattle.std.specs.Io.{WritesAtMost};

use crate::counting::NameCount;
use crate::escaping::hexadecimal;
use crate::progress::TerminalLine;
use std::cell::Cell;
use std::io::{ErrorKind, Result, Write};

/// Whether a call failed because nobody reads the pipe that it wrote to.
pub(crate) fn is_broken_pipe<T>(answer: &Result<T>) -> bool {
    match answer {
        Ok(_) => false,
        Err(error) => matches!(error.kind(), ErrorKind::BrokenPipe),
    }
}

/// What the output of a run over files shows of it.
#[derive(Drop)]
pub(crate) struct Listed {
    /// The names in the output.
    pub names: NameCount,
    /// Set by a flush, which comes after all names.
    pub is_whole: Cell<bool>,
    /// Whether the output is objects of JSON.
    pub json: bool,
    /// Set by an object of JSON that says that its file has no key.
    pub is_refused: Cell<bool>,
}

/// What comes in an object of JSON before the kind of its file's fault. A quote in a name is escaped, so that no name has this text.
const KIND: &[u8] = b",\"kind\":\"";

/// Whether an object of JSON is that of a file without a key.
fn has_kind(object: &[u8]) -> bool {
    for bytes in object.windows(9) {
        if bytes == KIND {
            return true;
        }
    }
    false
}

impl Listed {
    /// Looks at a text that is written next.
    fn look(&self, text: &[u8]) {
        if self.json && has_kind(text) {
            self.is_refused.set(true);
        }
    }
}

/// Standard output, or what is written to it by way of another writer.
#[derive(Drop)]
pub(crate) struct Output<'a, W> {
    pub stream: W,
    /// Set as soon as a write finds that nobody reads the output any more.
    pub is_left: &'a Cell<bool>,
    /// What is seen of the output of a run over files.
    pub listed: Option<&'a Listed>,
    /// The line that is cleared before anything is written, if there may be one.
    pub line: Option<&'a TerminalLine>,
}

impl<'a, W: Write> Write for Output<'a, W> {
    fn write(&mut self, buf: &[u8]) -> Result<usize> {
        if let Some(line) = self.line {
            line.clear();
        }
        if let Some(listed) = self.listed {
            listed.look(buf);
        }
        let written = self.stream.write(buf);
        match (&written, self.listed) {
            (Ok(count), Some(listed)) => listed.names.take(&buf[..*count]),
            _ => self
                .is_left
                .set(self.is_left.get() || is_broken_pipe(&written)),
        }
        written
    }

    fn flush(&mut self) -> Result<()> {
        let flushed = self.stream.flush();
        match (&flushed, self.listed) {
            (Ok(_), Some(listed)) => listed.is_whole.set(true),
            _ => self
                .is_left
                .set(self.is_left.get() || is_broken_pipe(&flushed)),
        }
        flushed
    }
}

/// Standard error. What is written after the reader of standard output has left is dropped.
#[derive(Drop)]
pub(crate) struct Errors<'a, W> {
    pub stream: W,
    pub is_left: &'a Cell<bool>,
    /// Counts the lines, also those that are dropped.
    pub lines: &'a NameCount,
}

impl<'a, W: Write> Write for Errors<'a, W> {
    fn write(&mut self, buf: &[u8]) -> Result<usize> {
        let count = if self.is_left.get() {
            buf.len()
        } else {
            self.stream.write(buf)?
        };
        self.lines.take(&buf[..count]);
        Ok(count)
    }

    fn flush(&mut self) -> Result<()> {
        self.stream.flush()
    }
}

/// How many bytes the character has that a text begins with, if a terminal might act on it or it turns the direction of text, or 0 if it is another one. A
/// line feed ends a line, and a NUL does nothing.
fn control_length(text: &[u8]) -> usize {
    match text {
        [0xC2, 0x80..=0x9F, ..] | [0xD8, 0x9C, ..] => 2,
        [0xE2, 0x80, 0x8E | 0x8F | 0xA8..=0xAE, ..] | [0xE2, 0x81, 0xA6..=0xA9, ..] => 3,
        [b'\n' | b'\0', ..] => 0,
        [byte, ..] if byte.is_ascii_control() => 1,
        _ => 0,
    }
}

/// How many bytes at the beginning of a text belong to such a character that began in the two bytes before it.
fn continued_length(before: [u8; 2], text: &[u8]) -> usize {
    let next = [text.first(), text.get(1)].map(|byte| byte.copied().unwrap_or(0));
    if control_length(&[before[0], before[1], next[0]]) == 3 {
        return 1;
    }
    control_length(&[before[1], next[0], next[1]]).saturating_sub(1)
}

/// A standard stream whose lines come in place of the line of progress. If it is a terminal, its control characters, and those that turn the direction of
/// text or end a line, are written as `\xHH`, byte by byte.
#[derive(Drop)]
pub(crate) struct Visible<'a, W> {
    stream: W,
    is_terminal: bool,
    /// The line of progress, if it is on the terminal of the stream.
    progress: Option<&'a TerminalLine>,
    /// The last two bytes that the terminal got as they are, in which a character may have begun.
    before: [u8; 2],
}

impl<'a, W: Write> Visible<'a, W> {
    /// A stream to which nothing was written.
    pub(crate) fn new(
        stream: W,
        is_terminal: bool,
        progress: Option<&'a TerminalLine>,
    ) -> Visible<'a, W> {
        Visible {
            stream,
            is_terminal,
            progress,
            before: [0; 2],
        }
    }

    /// Writes so many bytes at the beginning of a text as `\xHH`.
    fn write_escaped(&mut self, text: &[u8], count: usize) -> Result<()> {
        for byte in text.iter().take(count) {
            self.stream.write_all(&hexadecimal(*byte))?;
        }
        self.before = [0; 2];
        Ok(())
    }

    /// Writes a text as it is.
    fn write_plain(&mut self, text: &[u8]) -> Result<usize>
        ensures bound { WritesAtMost result text.now }
    {
        let count = self.stream.write(text)?;
        for byte in text.iter().take(count) {
            self.before = [self.before[1], *byte];
        }
        Ok(count)
    }
}

impl<'a, W: Write> Write for Visible<'a, W> {
    fn write(&mut self, buf: &[u8]) -> Result<usize> {
        if let Some(progress) = self.progress {
            progress.clear();
        }
        if !self.is_terminal {
            return self.stream.write(buf);
        }
        let continued = continued_length(self.before, buf).min(buf.len());
        if continued > 0 {
            self.write_escaped(buf, continued)?;
            return Ok(continued);
        }
        for at in 0..buf.len() {
            let count = control_length(&buf[at..]);
            if count > 0 && at > 0 {
                return self.write_plain(&buf[..at]);
            }
            if count > 0 {
                self.write_escaped(buf, count)?;
                return Ok(count.min(buf.len()));
            }
        }
        self.write_plain(buf)
    }

    fn flush(&mut self) -> Result<()> {
        self.stream.flush()
    }
}
