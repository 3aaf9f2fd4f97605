//! A text in memory that is read as from a source.

ghost use Rattle.std.specs.Prelude.{◌≡◌, ◌≤◌, Some};
ghost use Rattle.std.proofs.Common.{rules};

use life_base::{Kind, Source};
use std::io::Read;

/// A text whose bytes are read one after another. No read of it fails.
#[derive(Drop)]
pub struct TextSource<'a> {
    rest: &'a [u8],
}

impl<'a> TextSource<'a> {
    /// A text of which nothing was read.
    pub(crate) fn new(text: &'a [u8]) -> TextSource<'a>
        ensures { result.rest.now ≡ text.now }
    {
        TextSource { rest: text }
    }
}

impl<'a> Source for TextSource<'a> {
    ghost failures = { λ _. 0 };

    ghost remaining = { λ s. Some s.rest.now };

    ghost at_most_one = { λ _. Prim.search rules };

    fn failed(&self) -> bool {
        false
    }

    fn expected(&self) -> u64 {
        self.rest.len() as u64
    }

    fn read(&mut self, buf: &mut [u8]) -> Result<usize, Kind> {
        match self.rest.read(buf) {
            Ok(count) => Ok(count),
            Err(_) => unreachable!(),
        }
    }
}
