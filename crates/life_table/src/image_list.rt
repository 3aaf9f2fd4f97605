//! The images of a cell's neighbours, one after another.
ghost use Rattle.std.specs.Prelude.{◌≡◌, ℕ, ◌-◌, ◌/◌, ◌*◌, ◌<◌, ◌≤◌, ◌∷◌, [], List, Contains, take, drop, length, slice_index, slice_index_or};
ghost use Rattle.life_table.specs.Words.{family, IsImage};

use crate::turn::{Turns, image_of};
use life_base::State;

/// The images of a cell's neighbours, each after the centre: `count` of them.
#[derive(Clone, Copy)]
pub(crate) struct Images {
    pub cells: [[State; 9]; 16],
    pub count: usize,
}

/// Image number `j`: the turns come first, and then the reflected ones.
fn image_number(cells: &[State], ways: Turns, j: usize) -> [State; 9]
    requires some { 1 < length cells.now }
    requires space { length cells.now ≤ 9 }
    requires positive { 0 < ways.step }
    requires turns { ways.count ≡ (length cells.now - 1) / ways.step }
    requires number { j < 2 * ways.count }
    ensures { IsImage ways cells.now j result }
{
    if j < ways.count {
        image_of(cells, false, j * ways.step)
    } else {
        image_of(cells, true, (j - ways.count) * ways.step)
    }
}

impl Images {
    /// The images in the turns that are given.
    pub(crate) fn new(cells: &[State], ways: Turns) -> Images
        requires some { 1 < length cells.now }
        requires space { length cells.now ≤ 9 }
        requires positive { 0 < ways.step }
        requires turns { ways.count ≡ (length cells.now - 1) / ways.step }
        ensures few { result.count ≤ 16 }
        ensures each { (v : List ℕ)
            → Contains (family ways.reflect ways.step (drop 1 cells.now)) v
            → (j : ℕ) × (j < result.count) × (take (length cells.now)
            (slice_index_or result.cells j []) ≡ slice_index cells.now 0 ∷ v) }
    {
        let mut images = [[0; 9]; 16];
        let count = if ways.reflect {
            2 * ways.count
        } else {
            ways.count
        };
        for j in 0..count {
            images[j] = image_number(cells, ways, j);
        }
        Images {
            cells: images,
            count,
        }
    }
}
