//! The piece of a stream that was begun and has not ended.

ghost use Rattle.std.specs.Prelude.{◌≡◌, ◌++◌, [], ℕ, List, IsTrue, ◌↔◌};
ghost use Rattle.file_keys.specs.Words.{HoldsPiece, IsOutcomeOfPiece, LacksNul, warning_with};

use crate::keys::files::source_outcome;
use crate::keys::outcome::Outcome;
use crate::keys::refusal::FileRefusal;
use crate::text_source::TextSource;
use command_line::KeyForm;
use file_hints::{Warning, recognize, warning_of};
use life_base::{Fault, Kind, append};
use pattern_sources::Seeds;
use std::alloc::Global;

/// The most bytes of a piece, as of a file.
const LONGEST_PIECE: usize = 1 << 30;

/// What is held of the bytes of a piece.
#[derive(Drop)]
pub struct HeldPiece {
    /// The bytes so far, at most 2^30 of them.
    pub bytes: Vec<u8>,
    /// Whether the piece has more bytes than that.
    pub is_long: bool,
    /// Whether memory was refused for some of them.
    pub lacks_memory: bool,
}

/// The warning of a file with these bytes that comes to this.
fn warning_on(outcome: &Outcome, bytes: &[u8]) -> Option<Warning>
    ensures { result ≡ warning_with outcome.now bytes.now }
{
    match outcome {
        Outcome::Key(_) => warning_of(bytes),
        _ => None,
    }
}

impl HeldPiece {
    /// A piece without a byte.
    pub(super) fn new(alloc: Global) -> HeldPiece
        ensures { HoldsPiece result [] }
    {
        HeldPiece {
            bytes: Vec::new(alloc),
            is_long: false,
            lacks_memory: false,
        }
    }

    /// Begins the next piece, in the same memory.
    pub(super) fn clear(&mut self)
        ensures { HoldsPiece self.new [] }
    {
        self.bytes.clear();
        self.is_long = false;
        self.lacks_memory = false;
    }

    /// Adds bytes to the piece, none of which is NUL.
    pub(super) fn add(&mut self, more: &[u8])
        requires { LacksNul more.now }
        ensures { (piece : List ℕ) → HoldsPiece self.old piece
            → HoldsPiece self.new (piece ++ more.now) }
    {
        if more.is_empty() || self.lacks_memory {
            return;
        }
        let space = LONGEST_PIECE.saturating_sub(self.bytes.len());
        let mut kept = more;
        if more.len() > space {
            self.is_long = true;
            kept = &more[..space];
        }
        if append(&mut self.bytes, kept).is_err() {
            self.lacks_memory = true;
        }
    }

    /// Whether the piece has no byte.
    pub(super) fn is_empty(&self) -> bool
        ensures { (piece : List ℕ) → HoldsPiece self.now piece → IsTrue result ↔ (piece ≡ []) }
    {
        self.bytes.is_empty() && !self.lacks_memory
    }

    /// What comes of the piece, and its warning.
    pub(super) fn processed(
        &self,
        alloc: Global,
        seeds: &Seeds,
        form: KeyForm,
    ) -> (Outcome, Option<Warning>)
        ensures { (piece : List ℕ) → HoldsPiece self.now piece
            → IsOutcomeOfPiece form piece result.0 × (result.1 ≡ warning_with result.0 piece) }
    {
        if self.lacks_memory {
            let refusal = FileRefusal::of(Fault::of(Kind::Memory));
            return (Outcome::Refused(refusal), None);
        }
        let bytes = self.bytes.as_slice();
        let foreign = recognize(bytes, false);
        if self.is_long {
            let fault = Fault::of(Kind::InputTooLong);
            return (Outcome::Refused(FileRefusal { fault, foreign }), None);
        }
        let mut source = TextSource::new(bytes);
        let outcome = source_outcome(alloc, seeds, form, &mut source, foreign);
        let warning = warning_on(&outcome, bytes);
        (outcome, warning)
    }
}
