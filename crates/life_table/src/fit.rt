//! One line at the images of a cell's neighbours.
ghost use Rattle.std.specs.Prelude.{◌≡◌, ℕ, ◌+◌, ◌-◌, ◌<◌, ◌≤◌, ◌∷◌, map, length, slice_index_or, if◌then◌else◌};
ghost use Rattle.life_table.specs.Words.{bit_at, Adds, IsFoundOf, SomeGives, turns, reflected_turns, family, places, IsSite, IsLineAt, GoesRound, centre_of, others_of};

use crate::choose::with_image;
use crate::found::Found;
use crate::seen::Seen;
use crate::site::Site;
use crate::table::{Entry, Transition};
use crate::turn::{image_of, place_before};

/// The turns, or the reflected ones, in which each input alone may be the neighbour that comes to its place: bit `r` is the turn by `r`.
fn turns_that_may_fit(seen: &Seen, inputs: &[Entry], reflect: bool) -> u16
    requires { length inputs.now ≤ 8 }
    ensures { (r : ℕ) → r < 8 → ((i : ℕ) → i < length inputs.now
        → bit_at (places seen.now (slice_index_or inputs.now i (Entry.Fixed 0)))
        ((if reflect then length inputs.now - i else i) + r) ≡ 1) → bit_at result r ≡ 1 }
{
    let mut fits = 255;
    for (i, entry) in inputs.iter().enumerate() {
        let first = place_before(i, inputs.len(), reflect);
        fits &= seen.places(*entry) >> first;
        if fits == 0 {
            return fits;
        }
    }
    fits
}

/// Adds what a line gives over the turns of the neighbours, or over their reflected turns.
fn with_turns(site: &Site, line: &Transition, reflect: bool, found: Found) -> Found
    requires site { IsSite site.now }
    requires line { IsLineAt site.now line.now }
    requires turns { GoesRound site.now }
    ensures { Adds (SomeGives site.now.vars.now line.now (map (λ v. centre_of site.now ∷ v)
        (if reflect then reflected_turns (others_of site.now) site.now.ways.step else turns
        (others_of site.now) site.now.ways.step))) found result }
{
    let inputs = line.inputs.as_slice();
    let fits = turns_that_may_fit(site.seen, &inputs[1..], reflect);
    let mut found = found;
    for k in 0..site.ways.count {
        let r = k * site.ways.step;
        if fits >> r & 1 == 1 {
            let image = image_of(site.cells, reflect, r);
            let states = &image[..inputs.len()];
            found = with_image(site.vars, line, states, found);
        }
    }
    found
}

/// The states that a line gives over the images of the neighbours, each list after the centre.
pub(crate) fn by_images(site: &Site, line: &Transition) -> Found
    requires site { IsSite site.now }
    requires line { IsLineAt site.now line.now }
    requires turns { GoesRound site.now }
    ensures { IsFoundOf (SomeGives site.now.vars.now line.now
        (map (λ v. centre_of site.now ∷ v)
        (family site.now.ways.reflect site.now.ways.step (others_of site.now)))) result }
{
    let found = with_turns(site, line, false, Found::Nothing);
    if site.ways.reflect {
        with_turns(site, line, true, found)
    } else {
        found
    }
}
