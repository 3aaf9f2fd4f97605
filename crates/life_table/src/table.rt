//! The values of a rule table.
ghost use Rattle.std.proofs.Props.{props};
ghost use Rattle.life_table.specs.Valid.{IsSoundTable};

use life_base::{Items, Name, State};

/// Which cells are neighbours.
#[derive(Clone, Copy, Debug, PartialEq, Eq)]
pub enum Neighborhood {
    VonNeumann,
    Moore,
}

/// In which orders the neighbours are read.
#[derive(Clone, Copy, Debug, PartialEq, Eq)]
pub enum Symmetry {
    Identity,
    Rotate4,
    Rotate4Reflect,
    ReflectHorizontal,
    Permute,
    Rotate8,
    Rotate8Reflect,
}

/// A variable: state `s` is bit `s % 64` of word `s / 64`.
#[derive(Drop)]
pub struct Var {
    pub name: Items<u8>,
    pub states: [u64; 4],
}

/// A place of a transition: a state, or the variable of that number.
#[derive(Clone, Copy, Debug, PartialEq, Eq)]
pub enum Entry {
    Fixed(State),
    Var(u64),
}

/// A transition: the centre and its neighbours, and what the centre becomes.
#[derive(Drop)]
pub struct Transition {
    pub line: u64,
    pub inputs: Items<Entry>,
    pub output: Entry,
}

/// A rule table.
#[derive(Drop)]
pub struct Table {
    pub name: Name,
    pub n_states: u16,
    pub neighborhood: Neighborhood,
    pub symmetry: Symmetry,
    pub vars: Items<Var>,
    pub lines: Items<Transition>,
    pub ghost sound: { IsSoundTable n_states neighborhood symmetry vars lines } by { Prim.hlevel props },
}
