//! Four squares in a corner of sixteen, or in the middle of them.
ghost use Rattle.std.specs.Prelude.{◌≡◌};
ghost use Rattle.life_block.specs.Words.{at_corner, in_middle};

use life_pieces::{Four, Sixteen};
use life_quad::{Id, Quarters};

/// A corner of a square.
#[derive(Clone, Copy)]
pub(crate) enum Corner {
    NorthWest,
    NorthEast,
    SouthWest,
    SouthEast,
}

impl Corner {
    /// Four quarters in this corner of sixteen squares, and another square everywhere else.
    pub(crate) fn with(self, quarters: Quarters, other: Id) -> Sixteen
        ensures { result ≡ at_corner self quarters other }
    {
        let Quarters { nw, ne, sw, se } = quarters;
        let none = Four::of(other, other, other, other);
        let north_west = Four::of(nw, ne, other, other);
        let south_west = Four::of(sw, se, other, other);
        let north_east = Four::of(other, other, nw, ne);
        let south_east = Four::of(other, other, sw, se);
        match self {
            Corner::NorthWest => Four::of(north_west, south_west, none, none),
            Corner::NorthEast => Four::of(north_east, south_east, none, none),
            Corner::SouthWest => Four::of(none, none, north_west, south_west),
            Corner::SouthEast => Four::of(none, none, north_east, south_east),
        }
    }
}

/// Four quarters in the middle of sixteen squares, and another square everywhere else.
pub(crate) fn in_middle(quarters: Quarters, other: Id) -> Sixteen
    ensures { result ≡ in_middle quarters other }
{
    let Quarters { nw, ne, sw, se } = quarters;
    let none = Four::of(other, other, other, other);
    Four::of(
        none,
        Four::of(other, nw, ne, other),
        Four::of(other, sw, se, other),
        none,
    )
}
