//! A text in memory that is written as to a sink.

ghost use Rattle.std.specs.Prelude.{◌≡◌, ◌≤◌, false, true, [], Some};
ghost use Rattle.std.proofs.Common.{rules};
ghost use Rattle.file_keys.specs.Words.{flag_count};

use life_base::{Kind, Sink, append};
use std::alloc::Global;

/// A text that grows by what is written to it. A write fails where memory is refused.
#[derive(Drop)]
pub struct TextSink {
    text: Vec<u8>,
    failed: bool,
    flushed: bool,
}

impl TextSink {
    /// A text without a byte.
    pub(crate) fn new(alloc: Global) -> TextSink
        ensures text { result.text.items ≡ [] }
        ensures failed { result.failed ≡ false }
    {
        TextSink {
            text: Vec::new(alloc),
            failed: false,
            flushed: false,
        }
    }

    /// The bytes of the text.
    pub(crate) fn as_bytes(&self) -> &[u8]
        ensures { result.now ≡ self.now.text.items }
    {
        self.text.as_slice()
    }
}

impl Sink for TextSink {
    ghost failures = { λ s. flag_count s.failed };

    ghost contents = { λ s. Some s.text.items };

    ghost stalled = { λ _. false };

    ghost flushed = { λ s. s.flushed };

    ghost at_most_one = { λ s. elim s.failed as (λ f. flag_count f ≤ 1) [ true ↦ Prim.search rules | false ↦ Prim.search rules ] };

    fn failed(&self) -> bool {
        self.failed
    }

    fn write(&mut self, buf: &[u8]) -> Result<usize, Kind> {
        self.flushed = false;
        match append(&mut self.text, buf) {
            Ok(()) => Ok(buf.len()),
            Err(_) => {
                self.failed = true;
                Err(Kind::WriteFault)
            }
        }
    }

    fn flush(&mut self) -> Result<(), Kind> {
        self.flushed = true;
        Ok(())
    }
}
