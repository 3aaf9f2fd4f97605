//! The next states of squares that were computed before.
ghost use Rattle.std.specs.Prelude.{◌≡◌, ◌⊎◌, IfSome};
ghost use Rattle.life_block.specs.Words.{Recalls, IdValue, NineValue, ids_of_nine};

use life_pieces::Nine;
use life_quad::{Id, NeighbourhoodMemory};

/// The least level of squares that are remembered: lower ones are computed as fast again.
const LEAST_LEVEL: u8 = 5;

/// The answer that is remembered for a square of this level amid its neighbours.
pub(crate) fn recalled(memory: &mut NeighbourhoodMemory, level: u8, nine: &Nine) -> Option<Id>
    ensures answer { IfSome result (Recalls memory.old (ids_of_nine nine.now)) }
    ensures same { memory.new ≡ memory.old }
{
    if level < LEAST_LEVEL {
        return None;
    }
    memory.get(&nine.ids())
}

/// Remembers the answer for a square of this level amid its neighbours.
pub(crate) fn remember(memory: &mut NeighbourhoodMemory, level: u8, nine: &Nine, answer: Id)
    ensures { (other : NineValue) (next : IdValue) → Recalls memory.new (ids_of_nine other) next
        → Recalls memory.old (ids_of_nine other) next ⊎ ((other ≡ nine.now) × (next ≡ answer)) }
{
    if level < LEAST_LEVEL {
        return;
    }
    memory.put(&nine.ids(), answer);
}
