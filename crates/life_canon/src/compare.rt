//! Two files, compared.

ghost use Rattle.std.specs.Prelude.{◌≡◌, ◌↔◌, ◌⊎◌, IsTrue, IfOk, IfErr, OnOk};
ghost use Rattle.life_canon.specs.Words.{ReadsBothInto, Accepted, Same, Refuses, IsShortageOf};

use life_base::{Fault, MAX_LEVEL};
use life_pattern::are_same;
use life_quad::Shared;
use life_reader::read;
use std::alloc::Global;

/// Whether two files, each of either format, say the same rule, the same generation and the same state of each cell of the plane.
///
/// # Errors
///
/// The fault of the first file, else that of the second, `Full` where the store holds its limit, or `Memory`. After a fault too each Id
/// of the store names the square that it named, and nothing stored is gone. `Full` doesn't come where the limit is above the squares that
/// the store holds by `14 * length + 264` for each of the two files, or more.
pub fn same(alloc: Global, store: &mut Shared, first: &[u8], second: &[u8]) -> Result<bool, Fault>
    ensures accepted { OnOk result (Accepted MAX_LEVEL first.now × Accepted MAX_LEVEL second.now) }
    ensures answer { IfOk result (λ answer. IsTrue answer ↔ Same MAX_LEVEL first.now second.now) }
    ensures fault { IfErr result (λ fault. Refuses MAX_LEVEL first.now fault
        ⊎ (Accepted MAX_LEVEL first.now × Refuses MAX_LEVEL second.now fault)
        ⊎ IsShortageOf store.new fault) }
    ensures reads { ReadsBothInto first.now second.now store.old store.new result }
{
    let a = read(alloc, store, first)?;
    // Its contract says that a store holds each square once, and none that is blank. The proof counts them.
    let _ = store.len();
    let b = read(alloc, store, second)?;
    Ok(are_same(&a, &b))
}
