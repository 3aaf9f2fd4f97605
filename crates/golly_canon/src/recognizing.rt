//! Inputs whose first bytes are looked at before they are read, to see whether the file is something else than a pattern.

use file_hints::{Foreign, HEAD, recognize};
use std::io::{Error, Read, Result as IoResult};

/// An input, and its first bytes, which are read from it once more.
#[derive(Drop)]
pub(crate) struct Recognized<R> {
    input: R,
    head: [u8; HEAD],
    // Where the first bytes that were not read once more begin in `head`, and where they end.
    at: usize,
    end: usize,
    // Why the first bytes can't be read, until that was returned.
    failure: Option<Error>,
}

impl<R: Read> Recognized<R> {
    /// Reads the first bytes of an input, as many as one read gives.
    pub(crate) fn new(input: R) -> Recognized<R> {
        let mut input = input;
        let mut head = [0; HEAD];
        let (end, failure) = match input.read(&mut head) {
            Ok(count) => (count, None),
            Err(error) => (0, Some(error)),
        };
        Recognized {
            input,
            head,
            at: 0,
            end,
            failure,
        }
    }

    /// What the file is, if it is something that the program doesn't read.
    pub(crate) fn foreign(&self) -> Option<Foreign> {
        recognize(self.head.get(..self.end)?, false)
    }
}

impl<R: Read> Read for Recognized<R> {
    fn read(&mut self, buf: &mut [u8]) -> IoResult<usize> {
        if let Some(error) = self.failure.take() {
            return Err(error);
        }
        let Some(left) = self.head.get(self.at..self.end) else {
            return self.input.read(buf);
        };
        if left.is_empty() {
            return self.input.read(buf);
        }
        let count = left.len().min(buf.len());
        buf[..count].copy_from_slice(&left[..count]);
        self.at += count;
        Ok(count)
    }
}
