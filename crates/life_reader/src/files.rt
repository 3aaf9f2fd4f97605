//! A file of either format, read whole.

ghost use Rattle.std.specs.Prelude.{IfOk, IfErr};
ghost use Rattle.life_reader.specs.Words.{ReadsInto, IsRead, RefusesIn};

use crate::reader::Reader;
use life_base::{Fault, MAX_LEVEL};
use life_pattern::Pattern;
use life_quad::Shared;
use std::alloc::Global;

/// The pattern of a file of either format. A file whose first line begins with `[M2]` is read as a macrocell file, every other
/// one as extended RLE. The root is the least square about (0, 0) with all nonzero cells, of level 3 or more under a B/S rule
/// and of level 1 or more under a name.
///
/// # Errors
///
/// The place and the kind of the fault, `Full` where the store holds its limit, or `Memory`. The fault of a line that has ended is that of
/// every longer file too (`laws::faults_stay`). After a fault too each Id of the store names the square that it named, and nothing stored is
/// gone. `Full` doesn't come where the limit is `14 * length + 264` squares above those that the store holds, or more.
pub fn read(alloc: Global, store: &mut Shared, bytes: &[u8]) -> Result<Pattern, Fault>
    ensures pattern { IfOk result (IsRead MAX_LEVEL bytes.now store.new) }
    ensures fault { IfErr result (RefusesIn MAX_LEVEL bytes.now store.new) }
    ensures reads { ReadsInto bytes.now store.old store.new result }
{
    let mut reader = Reader::new(alloc);
    reader.feed(store, bytes)?;
    reader.finish(store)
}
