//! A file of either format that comes in pieces.

ghost use Rattle.std.specs.Prelude.{◌≡◌, ◌⊎◌, ◌++◌, [], true, false, IfOk, IfErr, OnOk, OnErr};
ghost use Rattle.life_reader.specs.Words.{Spent, FaultValue, fault_of, Nodes, FeedsInto, EndsInto, RefusesPrefix, IsOverAt, Stands, IsRead, IsShortageOf, RefusesIn};

use crate::prefix::FilePrefix;
use life_base::{Fault, Kind, MAX_LEVEL};
use life_pattern::Pattern;
use life_quad::Shared;
use std::alloc::Global;
use std::marker::Model;

/// Takes a file of either format in pieces, cut anywhere, and puts each line into a store as the line ends. It keeps at most
/// 2^20 bytes of an unfinished line, and none after the line that holds `!`.
///
/// One store serves all calls: it must have each square that the reader keeps.
#[derive(Drop)]
pub struct Reader {
    prefix: FilePrefix,
    spent: bool,
}

impl Model for Reader {
    ghost use Rattle.std.specs.Prelude.{◌≡◌, ◌≤◌, ◌^◌, false, length};
    ghost use Rattle.life_reader.specs.Feeding.{Fed};
    ghost use Rattle.life_reader.specs.Taking.{IsFilePrefixOf, bytes_of};

    ghost Value = { Fed };

    ghost view = { λ r. record { bytes = bytes_of r.prefix.pieces.lines; kept = r.prefix.kept.items; spent = r.spent; progress = r.prefix.progress } };

    ghost invariant = { λ r. (length r.prefix.kept.items ≤ 2 ^ 20) × (r.spent ≡ false → IsFilePrefixOf r.prefix) };
}

impl Reader {
    /// A reader that no byte came to. It takes no memory.
    pub fn new(alloc: Global) -> Reader
        ensures bytes { result.bytes ≡ [] }
        ensures spent { result.spent ≡ false }
        ensures stands { (store : Nodes) → Stands store result }
    {
        Reader {
            prefix: FilePrefix::new(alloc),
            spent: false,
        }
    }

    /// Takes the next piece of the file.
    ///
    /// # Errors
    ///
    /// The fault of a line that ends in this piece, or `LineTooLong` where the line's byte 2^20 + 1 comes in it: either is the fault of
    /// the whole file, whatever bytes follow (`laws::faults_stay`); `Full` or `Memory`. After an error each later call answers `Spent`, and
    /// each Id of the store names the square that it named.
    ///
    /// The calls of one reader aren't `Full` where the limit of the store is `14 * length + 264` squares above those that it held before the
    /// first byte and those that other calls have stored since, or more, with the length of all bytes that are fed (`laws::prefixes_hold`).
    pub fn feed(&mut self, store: &mut Shared, piece: &[u8]) -> Result<(), Fault>
        requires { self.old.spent ≡ false → Stands store.old self.old }
        ensures bytes { OnOk result (self.new.bytes ≡ self.old.bytes ++ piece.now) }
        ensures open { OnOk result ((self.old.spent ≡ false) × (self.new.spent ≡ false)) }
        ensures stands { OnOk result (Stands store.new self.new) }

        // A line's fault is reported by the call in which the line ends or grows too long, and by no later one.
        ensures prefix { OnOk result
            ((fault : FaultValue) → RefusesPrefix MAX_LEVEL self.new.bytes fault → ⊥) }
        ensures fault { self.old.spent ≡ false
            → IfErr result (λ fault. IsShortageOf store.new fault
            ⊎ RefusesPrefix MAX_LEVEL (self.old.bytes ++ piece.now) fault) }
        ensures feeds { FeedsInto self.old.bytes piece.now store.old store.new result }
        ensures refused { OnErr result (self.new.spent ≡ true) }
        ensures spent { self.old.spent ≡ true → IfErr result (λ fault. fault ≡ fault_of Spent) }

        // After the line that holds `!` no byte is kept.
        ensures over { OnOk result (IsOverAt MAX_LEVEL self.new.bytes → self.new.kept ≡ []) }
    {
        if self.spent {
            return Err(Fault::of(Kind::Spent));
        }
        self.spent = true;
        match self.prefix.take_piece(store, piece) {
            Ok(()) => {
                self.spent = false;
                Ok(())
            }
            Err(fault) => {
                // Its contract says that a store holds each square once, and none that is blank. The proof counts them.
                let _ = store.len();
                Err(fault)
            }
        }
    }

    /// The pattern of the file whose pieces came.
    ///
    /// # Errors
    ///
    /// The fault of the last line where no line feed ends it, or `NoHeader` where the file lacks a header; `Full` or `Memory`;
    /// `Spent` after an error of `feed`. After an error too each Id of the store names the square that it named. A limit of
    /// `14 * length + 264` squares more suffices, as in `feed`.
    pub fn finish(self, store: &mut Shared) -> Result<Pattern, Fault>
        requires { self.spent ≡ false → Stands store.old self }
        ensures pattern { IfOk result
            (λ pattern. (self.spent ≡ false) × IsRead MAX_LEVEL self.bytes store.new pattern) }
        ensures fault { self.spent ≡ false
            → IfErr result (RefusesIn MAX_LEVEL self.bytes store.new) }
        ensures ends { EndsInto self.bytes store.old store.new result }
        ensures spent { self.spent ≡ true → IfErr result (λ fault. fault ≡ fault_of Spent) }
    {
        let Reader { prefix, spent } = self;
        if spent {
            return Err(Fault::of(Kind::Spent));
        }
        let answer = prefix.finish(store);
        // As in `feed`.
        let _ = store.len();
        answer
    }
}
