//! A file of either format as a text of one form.

ghost use Rattle.std.specs.Prelude.{◌≡◌, ◌⊎◌, ◌^◌, IfOk, IfErr};
ghost use Rattle.life_canon.specs.Words.{TooManyCells, fault_of, ReadsInto, Same, IsLeastText, RefusesIn, IsCanonical, IsRleOf, FileHasMoreCells};

use life_base::{Fault, MAX_LEVEL};
use life_quad::Shared;
use life_reader::read;
use life_writer::{rle_of, text_of};
use std::alloc::Global;

/// The canonical text of the pattern of a file of either format.
///
/// # Errors
///
/// The place and the kind of the file's fault, `Full` where the store holds its limit, or `Memory`. After a fault too each Id of the
/// store names the square that it named, and nothing stored is gone. `Full` doesn't come where the limit is `14 * length + 264` squares
/// above those that the store holds, or more.
pub fn canon(alloc: Global, store: &mut Shared, bytes: &[u8]) -> Result<Vec<u8>, Fault>
    ensures text { IfOk result (λ text. IsCanonical MAX_LEVEL bytes.now text.items) }
    ensures least { IfOk result (λ text. IsLeastText MAX_LEVEL bytes.now text.items) }
    ensures fault { IfErr result (RefusesIn MAX_LEVEL bytes.now store.new) }
    ensures reads { ReadsInto bytes.now store.old store.new result }
{
    let pattern = read(alloc, store, bytes)?;
    text_of(alloc, store, &pattern)
}

/// The text in extended RLE of the pattern of a file of either format.
///
/// # Errors
///
/// Those of `canon`, and `TooManyCells`, at no line, where more than 2^20 cells aren't 0. The store keeps what it has as there, and a limit
/// of `14 * length + 264` squares more suffices.
pub fn to_rle(alloc: Global, store: &mut Shared, bytes: &[u8]) -> Result<Vec<u8>, Fault>
    ensures text { IfOk result (λ text. IsRleOf MAX_LEVEL (2 ^ 20) bytes.now text.items) }
    ensures same { IfOk result (λ text. Same MAX_LEVEL bytes.now text.items) }
    ensures fault { IfErr result (λ fault. RefusesIn MAX_LEVEL bytes.now store.new fault
        ⊎ ((fault ≡ fault_of TooManyCells) × FileHasMoreCells MAX_LEVEL bytes.now (2 ^ 20))) }
    ensures reads { ReadsInto bytes.now store.old store.new result }
{
    let pattern = read(alloc, store, bytes)?;
    rle_of(alloc, store, &pattern)
}
