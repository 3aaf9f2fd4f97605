//! The turned and reflected neighbours.
ghost use Rattle.std.specs.Prelude.{◌≡◌, ◌≢◌, ℕ, ◌-◌, ◌/◌, ◌<◌, ◌≤◌, ◌∷◌, List, take, drop, length, slice_index, if◌then◌else◌};
ghost use Rattle.life_table.specs.Words.{turn, reflected_turn, images, family};

use crate::table::Symmetry;
use life_base::State;

/// The turns of a symmetry: `count` of them, by the multiples of a step, and where `reflect` then those of the reflected neighbours too.
#[derive(Clone, Copy)]
pub(crate) struct Turns {
    pub step: usize,
    pub count: usize,
    pub reflect: bool,
}

/// The place, going round, of the neighbour that is at place `i` of `n` before a turn. Reflected neighbours are the other way round.
pub(crate) fn place_before(i: usize, n: usize, reflect: bool) -> usize
    requires { i ≤ n }
    ensures { result ≡ (if reflect then n - i else i) }
{
    if reflect { n - i } else { i }
}

/// A cell with its neighbours turned by r, or reflected and then turned.
pub(crate) fn image_of(cells: &[State], reflect: bool, r: usize) -> [State; 9]
    requires some { 1 < length cells.now }
    requires space { length cells.now ≤ 9 }
    requires step { r ≤ 8 }
    ensures { take (length cells.now) result
        ≡ slice_index cells.now 0
        ∷ (if reflect then reflected_turn (drop 1 cells.now) r else turn (drop 1 cells.now) r) }
{
    let n = cells.len() - 1;
    let mut image = [0; 9];
    image[0] = cells[0];
    for i in 0..n {
        let from = (place_before(i, n, reflect) + r) % n;
        image[i + 1] = cells[1 + from];
    }
    image
}

/// The turns of a symmetry over `n` neighbours. Under `permute`, which decides by counts, nothing is said of them.
pub(crate) fn turns_of(symmetry: Symmetry, n: usize) -> Turns
    requires { 3 < n }
    ensures positive { 0 < result.step }
    ensures count { result.count ≡ n / result.step }
    ensures images { symmetry ≢ Symmetry.Permute → (v : List ℕ) → length v ≡ n
        → images symmetry v ≡ family result.reflect result.step v }
{
    let (step, reflect) = match symmetry {
        Symmetry::Identity => (n, false),
        Symmetry::Rotate4 => (n / 4, false),
        Symmetry::Rotate4Reflect => (n / 4, true),
        Symmetry::ReflectHorizontal => (n, true),
        Symmetry::Permute => (n, false),
        Symmetry::Rotate8 => (1, false),
        Symmetry::Rotate8Reflect => (1, true),
    };
    Turns {
        step,
        count: n / step,
        reflect,
    }
}
