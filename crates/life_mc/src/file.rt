//! A macrocell file.

use crate::line::Line;
use life_base::{Items, Rule};
use std::marker::Model;

/// What a macrocell file says. Each of its squares has a level from 1 to the greatest, and its quarters are states that the
/// rule has, at level 1, or empty or earlier squares one level lower: this holds of every value, so a value can be made
/// only where it is proved.
#[derive(Drop)]
pub struct McFile {
    /// The rule, which bounds the states: 0 and 1 under a B/S rule, 0 to 255 under a name.
    pub rule: Rule,
    /// How many generations the pattern has run.
    pub generation: u64,
    /// The squares, numbered from 1 in their order. The last one is the root; a pattern without squares is blank.
    pub lines: Items<Line>,
}

impl Model for McFile {
    ghost use Rattle.life_mc.specs.Macrocell.{Macrocell, AreSquares};
    ghost use Rattle.life_base.specs.declared.cell.TheConstants.{MAX_LEVEL};

    ghost Value = { Macrocell };

    ghost view = { λ a. record { rule = a.rule; generation = a.generation; lines = a.lines } };

    ghost invariant = { λ a. AreSquares MAX_LEVEL a.rule a.lines };
}
