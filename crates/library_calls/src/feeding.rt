//! A file that is read in pieces, and the text that its end gives.

ghost use Rattle.std.specs.Prelude.{◌≡◌, ◌++◌, ℕ, [], IfOk, IfErr, OnOk};
ghost use Rattle.library_calls.specs.Words.{FaultValue, Fits, RefusesPrefix, SomeToRead, squares_of_limit, IsOutputText, RefusesTextOf, RefusesPiece, warning_of};

use crate::options::Options;
use crate::texts::{Output, text_of_read};
use file_hints::{Warning, Watch};
use life_base::{Fault, MAX_LEVEL};
use life_quad::Shared;
use life_reader::Reader;
use life_reader::laws::prefixes_hold;
use std::alloc::Global;
use std::marker::Model;

/// A reader, the store of its squares, which text its end gives, and what is known of the file to warn of.
#[derive(Drop)]
pub struct Feeding {
    reader: Reader,
    store: Shared,
    output: Output,
    watch: Watch,
}

impl Model for Feeding {
    ghost use Rattle.std.specs.Prelude.{◌≡◌, ◌++◌, ℕ, List, [], false};
    ghost use Rattle.file_hints.specs.Damage.{warning_of};
    ghost use Rattle.file_hints.specs.Watching.{warning_after};
    ghost use Rattle.life_reader.specs.Feeding.{Stands};
    ghost use Rattle.life_reader.specs.Space.{HoldsPrefix};
    ghost use Rattle.library_calls.specs.Outputs.{Piecewise};

    ghost Value = { Piecewise };

    ghost view = { λ f. record { output = f.output; space = f.store.limit; bytes = f.reader.bytes } };

    // The store holds no squares but those of the lines that have ended. The bytes that came were watched.
    ghost invariant = { λ f. (f.reader.spent ≡ false) × Stands f.store f.reader
        × HoldsPrefix [] f.reader.bytes f.store
        × ((rest : List ℕ) → warning_after f.watch rest ≡ warning_of (f.reader.bytes ++ rest)) };
}

impl Feeding {
    /// A file of which no byte came, and the text that its end gives. Its store has this limit.
    pub(crate) fn new(alloc: Global, output: Output, options: Options) -> Feeding
        ensures { result ≡ record {
          output = output;
          space = squares_of_limit options.limit;
          bytes = [];
        } }
    {
        Feeding {
            reader: Reader::new(alloc),
            store: options.new_store(alloc),
            output,
            watch: Watch::new(),
        }
    }

    /// The same after the next piece.
    pub(crate) fn with_piece(self, piece: &[u8]) -> Result<Feeding, Fault>
        ensures fed { IfOk result (λ r. r ≡ record
            { output = self.output; space = self.space; bytes = self.bytes ++ piece.now }) }
        ensures prefix { OnOk result
            ((fault : FaultValue) → ¬ RefusesPrefix MAX_LEVEL (self.bytes ++ piece.now) fault) }
        ensures fault { IfErr result (λ fault. (limit : ℕ) → self.space ≡ squares_of_limit limit
            → RefusesPiece limit (self.bytes ++ piece.now) fault) }
    {
        prefixes_hold();
        let Feeding {
            mut reader,
            mut store,
            output,
            watch,
        } = self;
        let consumed = reader.feed(&mut store, piece);
        // Its contract says that a store holds each square once, and none that is blank. The proof counts them.
        let _ = store.len();
        consumed?;
        Ok(Feeding {
            reader,
            store,
            output,
            watch: watch.after(piece),
        })
    }

    /// The warning of the file whose pieces came.
    pub(crate) fn warning(&self) -> Option<Warning>
        ensures { result ≡ warning_of self.now.bytes }
    {
        self.watch.warning()
    }

    /// The text of the file whose pieces came.
    pub(crate) fn text(self, alloc: Global) -> Result<Vec<u8>, Fault>
        ensures text { IfOk result (λ text. (limit : ℕ) → self.space ≡ squares_of_limit limit
            → IsOutputText self.output limit self.bytes text.items) }
        ensures fits { OnOk result ((limit : ℕ) → self.space ≡ squares_of_limit limit
            → Fits (SomeToRead self.bytes) limit) }
        ensures fault { IfErr result (λ fault. (limit : ℕ) → self.space ≡ squares_of_limit limit
            → RefusesTextOf self.output limit self.bytes fault) }
    {
        prefixes_hold();
        let Feeding {
            reader,
            mut store,
            output,
            watch: _,
        } = self;
        let found = reader.finish(&mut store);
        // As in `with_piece`.
        let _ = store.len();
        let pattern = found?;
        text_of_read(alloc, &mut store, pattern, output)
    }
}
