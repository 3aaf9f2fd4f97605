//! Two files, compared.

ghost use Rattle.std.specs.Prelude.{◌≡◌, ◌≢◌, ◌⊎◌, ◌+◌, Err, IsOk};
ghost use Rattle.library_theorems.specs.Words.{kind_number, Fault, SayOnePattern, pattern_of, IsShortageBelow, squares_for};

use library_calls::{Compared, Options, same};
use life_pattern::laws::files_are_on_plane;
use std::alloc::Global;

/// 1 is reported where two files are of one rule and one generation and each cell has the same state in both, and 0 where they
/// aren't; or the number and the line of the fault of the first file, or of the second one where the first is a file, and 0.
/// `Full` is reported only where the limit is below 14 squares for each byte of both files, and 528.
pub fn files_are_compared(alloc: Global, first: &[u8], second: &[u8], options: Options) -> Compared
    ensures answer { result.status ≡ 0 → (result.line ≡ 0) × IsOk (pattern_of first.now)
        × IsOk (pattern_of second.now) × (((result.is_same ≡ 1)
        × SayOnePattern first.now second.now)
        ⊎ ((result.is_same ≡ 0) × (SayOnePattern first.now second.now → ⊥))) }
    ensures refused { result.status ≢ 0 → (result.is_same ≡ 0)
        × ((fault : Fault) × (result.status ≡ kind_number fault.kind)
        × (result.line ≡ fault.place.line)
        × ((pattern_of first.now ≡ Err fault)
        ⊎ ((IsOk (pattern_of first.now) × (pattern_of second.now ≡ Err fault))
        ⊎ IsShortageBelow (squares_for first.now + squares_for second.now) options.limit fault))) }
{
    files_are_on_plane();
    same(alloc, first, second, options)
}
