//! The cell at which the lines of a table are tried.

use crate::seen::Seen;
use crate::table::Var;
use crate::turn::Turns;
use life_base::State;

/// A cell at which lines are tried: the variables of the table, the states of the cell and of its neighbours, which neighbours an entry
/// may be, and the turns in which they are read.
#[derive(Clone, Copy)]
pub(crate) struct Site<'a> {
    pub vars: &'a [Var],
    pub cells: &'a [State],
    pub seen: &'a Seen,
    pub ways: Turns,
}
