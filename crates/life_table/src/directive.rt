//! What the lines of a rule table say.

use crate::by_name::Variables;
use crate::table::{Neighborhood, Symmetry, Transition, Var};
use life_base::{Items, Name};

/// Where a line is: before the table, in it, or after it.
#[derive(Clone, Copy, PartialEq, Eq)]
pub(crate) enum Section {
    Ahead,
    Open,
    Behind,
}

/// What the lines of a file say so far.
#[derive(Drop)]
pub(crate) struct Parsed {
    pub(crate) name: Option<Name>,
    pub(crate) section: Section,
    pub(crate) n_states: Option<u16>,
    pub(crate) neighborhood: Option<Neighborhood>,
    pub(crate) symmetry: Option<Symmetry>,
    pub(crate) vars: Variables,
    pub(crate) lines: Items<Transition>,
}

/// What one more line says.
#[derive(Drop)]
pub(crate) enum Directive {
    Nothing,
    RuleName(Name),
    TableOpens,
    TableEnds,
    States(u16),
    Neighbors(Neighborhood),
    Orders(Symmetry),
    Variable(Var),
    Line(Transition),
}
