//! What a table makes of a cell and its neighbours.
ghost use Rattle.std.specs.Prelude.{◌≡◌, ◌+◌, ◌<◌, length, All};
ghost use Rattle.life_table.specs.Words.{IsFoundOf, AnswersNext, Gives, neighbour_count, states_of_neighbours, IsSite, IsLineAt, GoesRound, TurnsAreImages, centre_of, others_of};

use crate::choose::{by_counts, can_be};
use crate::fit::by_images;
use crate::found::Found;
use crate::seen::Seen;
use crate::site::Site;
use crate::table::{Symmetry, Table, Transition};
use crate::turn::turns_of;
use life_base::{Fault, Kind, Place, State};

/// A cell and its neighbours: the centre first, then from north clockwise.
#[derive(Clone, Copy, Debug, PartialEq, Eq)]
pub enum Neighbours {
    Four([State; 5]),
    Eight([State; 9]),
}

impl Neighbours {
    /// The states, the centre's first.
    pub(crate) fn as_slice(&self) -> &[State]
        ensures { result.now ≡ states_of_neighbours self.now }
    {
        match self {
            Neighbours::Four(cells) => cells,
            Neighbours::Eight(cells) => cells,
        }
    }
}

/// The states that a line gives at one cell: none, one or two. Inlined, since each of its two callers asks it of each line.
#[inline(always)]
pub(crate) fn given_by(symmetry: Symmetry, site: &Site, line: &Transition) -> Found
    requires site { IsSite site.now }
    requires line { IsLineAt site.now line.now }
    requires turns { GoesRound site.now }
    requires images { TurnsAreImages symmetry site.now }
    ensures { IsFoundOf
        (Gives symmetry site.now.vars.now line.now (centre_of site.now) (others_of site.now))
        result }
{
    if !can_be(site.vars, line.inputs.as_slice()[0], site.cells[0]) {
        return Found::Nothing;
    }
    match symmetry {
        Symmetry::Permute => by_counts(site, line),
        _ => by_images(site, line),
    }
}

impl Table {
    /// The next state of a cell, by the first line that gives anything, or its own where none does.
    ///
    /// # Errors
    ///
    /// `Ambiguous` where that line gives two states, with the number of the line in the table's file.
    pub fn next(&self, around: &Neighbours) -> Result<State, Fault>
        requires neighbours { length (states_of_neighbours around.now)
            ≡ neighbour_count self.now.neighborhood + 1 }
        requires states { All (λ s. s < self.now.n_states) (states_of_neighbours around.now) }
        ensures { AnswersNext self.now (states_of_neighbours around.now) result }
    {
        let cells = around.as_slice();
        let vars = self.vars.as_slice();
        let seen = Seen::new(vars, &cells[1..]);
        let site = Site {
            vars,
            cells,
            seen: &seen,
            ways: turns_of(self.symmetry, cells.len() - 1),
        };
        for line in self.lines.as_slice() {
            match given_by(self.symmetry, &site, line) {
                Found::Nothing => {}
                Found::One(state) => return Ok(state),
                Found::Two => {
                    return Err(Fault {
                        place: Place { line: line.line },
                        kind: Kind::Ambiguous,
                    });
                }
            }
        }
        Ok(cells[0])
    }
}
