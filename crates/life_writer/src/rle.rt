//! A pattern as a text in extended RLE.

ghost use Rattle.std.specs.Prelude.{◌≡◌, ◌⊎◌, ◌^◌, IfOk, IfErr};
ghost use Rattle.life_writer.specs.Words.{Memory, TooManyCells, fault_of, Same, ForEachFile, IsOfFile, IsRleOf, FileHasMoreCells};

use life_base::{Fault, MAX_LEVEL};
use life_pattern::Pattern;
use life_quad::{Shared, cells};
use life_rle::write_rle;
use std::alloc::Global;

/// The most nonzero cells of a pattern whose cells are listed: of one that is written as RLE, stepped, moved or turned.
pub const MOST_CELLS: u64 = 1 << 20;

/// The text in extended RLE of a pattern that was read into the store: the one that `to_rle` answers for its file.
///
/// # Errors
///
/// `TooManyCells` where more than 2^20 cells aren't 0, and `Memory`, at no line.
pub fn rle_of(alloc: Global, store: &Shared, pattern: &Pattern) -> Result<Vec<u8>, Fault>
    requires { IsOfFile MAX_LEVEL store.now pattern.now }
    ensures text { IfOk result (λ text. ForEachFile store.now pattern.now
        (λ bytes. IsRleOf MAX_LEVEL (2 ^ 20) bytes text.items)) }
    ensures same { IfOk result
        (λ text. ForEachFile store.now pattern.now (λ bytes. Same MAX_LEVEL bytes text.items)) }
    ensures fault { IfErr result (λ fault. (fault ≡ fault_of Memory)
        ⊎ ((fault ≡ fault_of TooManyCells) × ForEachFile store.now pattern.now
        (λ bytes. FileHasMoreCells MAX_LEVEL bytes (2 ^ 20)))) }
{
    let list = cells(alloc, store, pattern.root, MOST_CELLS)?;
    write_rle(alloc, &pattern.rule, pattern.generation, &list)
}
