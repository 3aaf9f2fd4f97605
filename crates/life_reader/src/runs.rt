//! A file of either format, read from a source.

ghost use Rattle.std.specs.Prelude.{◌≡◌, ◌⊎◌, ◌+◌, ◌<◌, ◌≤◌, ◌^◌, ℕ, List, length, true, false, IsTrue, ◌↔◌, IfOk, IfErr, OnOk, IfSome, Some, None, Err, ◌++◌};
ghost use Rattle.life_reader.specs.Words.{source_run, fault_of, ReadsPattern, RefusesPrefix, Stands, whole_lines, Tree, LacksForPrefix, AddsLines, HoldsPrefix, sufficient_for, Keeps, IsShortageOf};
ghost use Rattle.life_reader.specs.ReadWhole.{ReadsWhole};

use crate::reader::Reader;
use crate::space::ReservePlan;
use life_base::{Fault, Kind, MAX_LEVEL, Source};
use life_pattern::Pattern;
use life_quad::Shared;
use std::alloc::Global;

/// The most bytes of an input.
pub const LONGEST_INPUT: u64 = 1 << 30;

/// How many bytes are read at once of an input that is expected to have fewer.
const SHORT_PIECE: usize = 2048;

/// How many bytes are read at once of any other input.
const PIECE: usize = 1 << 16;

/// Whether a fault of this kind ends the run at once: a full store, or no more memory.
fn ends_at_once(kind: Kind) -> bool
    ensures { IsTrue result ↔ ((kind ≡ Kind.Full) ⊎ (kind ≡ Kind.Memory)) }
{
    matches!(kind, Kind::Full | Kind::Memory)
}

/// Feeds a piece, unless a line was refused, and returns the fault of a refused line. A full store, or no more memory, ends the run.
fn feed_piece(
    reader: &mut Reader,
    store: &mut Shared,
    refused: Option<Fault>,
    piece: &[u8],
) -> Result<Option<Fault>, Fault>
    requires { refused ≡ None → (reader.old.spent ≡ false) × Stands store.old reader.old }
    ensures going { IfOk result (λ next. next ≡ None → (refused ≡ None)
        × (reader.new.spent ≡ false) × (reader.new.bytes ≡ reader.old.bytes ++ piece.now)
        × Stands store.new reader.new) }
    ensures refused { IfOk result (λ next. IfSome next (λ fault. (refused ≡ Some fault)
        ⊎ ((refused ≡ None) × RefusesPrefix MAX_LEVEL (reader.old.bytes ++ piece.now) fault))) }
    ensures want { IfErr result (IsShortageOf store.new) }
    ensures needed { result ≡ Err (fault_of Kind.Full)
        → (refused ≡ None) × LacksForPrefix MAX_LEVEL (reader.old.bytes ++ piece.now) store.new }
    ensures adds { (bytes : List ℕ) → (refused ≡ None → reader.old.bytes ≡ bytes)
        → AddsLines (whole_lines (bytes ++ piece.now)) store.old store.new }
    ensures space { result ≡ Err (fault_of Kind.Full) → (base : List Tree)
        → HoldsPrefix base reader.old.bytes store.old
        → store.old.limit < length base + sufficient_for (length (reader.old.bytes ++ piece.now)) }
    ensures keeps { Keeps store.old store.new }
{
    match refused {
        Some(fault) => Ok(Some(fault)),
        None => match reader.feed(store, piece) {
            Ok(()) => Ok(None),
            Err(fault) if ends_at_once(fault.kind) => Err(fault),
            Err(fault) => Ok(Some(fault)),
        },
    }
}

/// Reads to the end of the input, as many bytes at once as the buffer holds, and returns its pattern.
#[inline(never)]
fn read_by_pieces<R: Source>(
    alloc: Global,
    store: &mut Shared,
    source: &mut R,
    most: u64,
    piece: &mut [u8],
) -> Result<Pattern, Fault>
    requires working { R.failures source.old ≡ 0 }
    requires bound { most ≤ 2 ^ 30 }
    requires some { 0 < length piece.old }
    ensures reads { ReadsPattern most store.old store.new
        (source_run R.remaining R.failures source.old source.new) result }
    ensures only { IfOk result (ReadsWhole most store.old store.new
        (source_run R.remaining R.failures source.old source.new)) }
{
    let mut reader = Reader::new(alloc);
    let mut space = ReservePlan::new(store, source.expected());
    let mut refused = None;
    let mut total = 0u64;
    loop {
        let count = source.read(piece)?;
        if count == 0 {
            break;
        }
        total += count as u64;
        if total > most {
            return Err(Fault::of(Kind::InputTooLong));
        }
        refused = feed_piece(&mut reader, store, refused, &piece[..count])?;
        space.make(store, total);
    }
    match refused {
        Some(fault) => Err(fault),
        None => reader.finish(store),
    }
}

/// Makes the pattern of a file of either format in the store, as `read_from` does, but reads at most `most` bytes and a piece.
///
/// # Errors
///
/// Those of `read_from`, with `InputTooLong` where more than `most` bytes come.
pub fn read_from_within<R: Source>(
    alloc: Global,
    store: &mut Shared,
    source: &mut R,
    most: u64,
) -> Result<Pattern, Fault>
    requires working { R.failures source.old ≡ 0 }
    requires bound { most ≤ 2 ^ 30 }
    ensures reads { ReadsPattern most store.old store.new
        (source_run R.remaining R.failures source.old source.new) result }
    ensures only { IfOk result (ReadsWhole most store.old store.new
        (source_run R.remaining R.failures source.old source.new)) }
{
    // A buffer is filled with zeros before it is read into, so an input that is expected to be short gets a short one.
    let expected = source.expected();
    if 0 < expected && expected < SHORT_PIECE as u64 {
        let mut piece = [0u8; SHORT_PIECE];
        return read_by_pieces(alloc, store, source, most, &mut piece);
    }
    let mut piece = [0u8; PIECE];
    read_by_pieces(alloc, store, source, most, &mut piece)
}

/// Makes the pattern of a file of either format in the store, as `read` does of its bytes, and holds none but those of a line: it reads to
/// the end of the input, at most 2^30 bytes and a piece, and keeps no more than 2^20 bytes of them. Of an input whose length is known it
/// reserves capacity for the squares beforehand.
///
/// # Errors
///
/// `ReadFault` where a read fails and `InputTooLong` where more than 2^30 bytes come, also after a refused line; the fault of the file,
/// once all of it was read; `Full` where the store holds its limit, and `Memory`, at once. After a fault too each Id of the store names the
/// square that it named, and nothing stored is gone. `Full` doesn't come where the limit is `14 * length + 264` squares above those that the
/// store holds, or more, with the length of the input.
///
/// What is too long stays so with more bytes after it (`laws::lengths_stay`), and hides no fault of a line that ended in its first 2^30
/// bytes: they alone have that fault (`laws::length_hides_no_fault`), and `Reader`, which sets no limit, reports it.
pub fn read_from<R: Source>(
    alloc: Global,
    store: &mut Shared,
    source: &mut R,
) -> Result<Pattern, Fault>
    requires { R.failures source.old ≡ 0 }
    ensures reads { ReadsPattern (2 ^ 30) store.old store.new
        (source_run R.remaining R.failures source.old source.new) result }
    ensures only { IfOk result (ReadsWhole (2 ^ 30) store.old store.new
        (source_run R.remaining R.failures source.old source.new)) }
{
    read_from_within(alloc, store, source, LONGEST_INPUT)
}
