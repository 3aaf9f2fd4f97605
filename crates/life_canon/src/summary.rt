//! What the pattern of a file is, in five lines.

ghost use Rattle.std.specs.Prelude.{IfOk, IfErr};
ghost use Rattle.life_canon.specs.Words.{ReadsInto, RefusesIn, IsShownText};

use life_base::{Fault, MAX_LEVEL};
use life_quad::Shared;
use life_reader::read;
use life_writer::five_lines_of;
use std::alloc::Global;

/// Five lines on the pattern of a file of either format: its rule, its generation, how many cells aren't 0, their bounding box, and how
/// many node lines its canonical file has.
///
/// # Errors
///
/// Those of `canon`. The store keeps what it has as there, and a limit of `14 * length + 264` squares more suffices.
pub fn show(alloc: Global, store: &mut Shared, bytes: &[u8]) -> Result<Vec<u8>, Fault>
    ensures text { IfOk result (λ text. IsShownText MAX_LEVEL bytes.now text.items) }
    ensures fault { IfErr result (RefusesIn MAX_LEVEL bytes.now store.new) }
    ensures reads { ReadsInto bytes.now store.old store.new result }
{
    let pattern = read(alloc, store, bytes)?;
    five_lines_of(alloc, store, &pattern)
}
