//! Rules of cellular automata.

use crate::kind::Kind;
use std::alloc::Global;
use std::marker::Model;

/// The neighbours of a cell that a B/S rule counts.
#[derive(Clone, Copy, PartialEq, Eq)]
pub enum Near {
    /// The eight around the cell.
    Moore,
    /// The four that share a side with it: north, east, south and west.
    VonNeumann,
}

/// A B/S rule: the counts of live neighbours at which a dead cell is born and a live one survives. Bit d of a set represents the
/// count d; no cell is born on 0, and no count is above the number of neighbours, 8 or 4.
#[derive(Clone, Copy, PartialEq, Eq)]
pub struct LifeRule {
    /// The counts at which a dead cell is born; bits 0 and 9 to 15 are clear, and bits 5 to 8 where four neighbours count.
    pub births: u16,
    /// The counts at which a live cell survives; bits 9 to 15 are clear, and bits 5 to 8 where four neighbours count.
    pub survivals: u16,
    /// The neighbours that count.
    pub near: Near,
}

impl Model for LifeRule {
    ghost use Rattle.life_base.specs.Sets.{OuterTotalistic};

    ghost Value = { OuterTotalistic };

    ghost use Rattle.life_base.specs.Rules.{IsLifeRule};

    ghost view = { λ a. record { sets = record { births = a.births; survivals = a.survivals }; near = a.near } };

    ghost invariant = { λ a. IsLifeRule (record { sets = record { births = a.births; survivals = a.survivals }; near = a.near }) };

    ghost inverse = { λ d. record { births = d.sets.births; survivals = d.sets.survivals; near = d.near } };
}

/// The name of a rule that is known by its name alone, as a rule table defines it: 1 to 255 visible characters of ASCII, kept byte
/// for byte, which `Rule::parse` reads as that name.
#[derive(Drop)]
pub struct Name {
    pub(crate) text: Vec<u8>,
}

impl Model for Name {
    ghost use Rattle.std.specs.Prelude.{List, ℕ};

    ghost Value = { List ℕ };

    ghost use Rattle.life_base.specs.Rules.{IsName};

    ghost view = { λ a. a.text.items };

    ghost invariant = { λ a. IsName a.text.items };
}

/// The rule of a pattern. Cells have states 0 and 1 under a B/S rule, and 0 to 255 under a name.
#[derive(Drop)]
pub enum Rule {
    /// A B/S rule, by the number of a cell's live neighbours.
    Life(LifeRule),
    /// A rule that is given by its name alone.
    Named(Name),
}

impl LifeRule {
    ghost use Rattle.std.specs.Prelude.{◌≡◌, ◌≤◌, if◌then◌else◌};
    ghost use Rattle.life_base.specs.Rules.{has_digit, most_neighbours};

    /// Whether a cell is alive in the next generation, by whether it is `alive` now and how many of its neighbours that count are.
    pub fn next(&self, alive: bool, count: u8) -> bool
        requires { count ≤ most_neighbours self.now.near }
        ensures { result ≡ has_digit
            (if alive then self.now.sets.survivals else self.now.sets.births) count }
    {
        let set = if alive { self.survivals } else { self.births };
        (set >> count) & 1 == 1
    }
}

impl Name {
    ghost use Rattle.std.specs.Prelude.{◌≡◌, IfOk, IfErr};
    ghost use Rattle.life_base.specs.Refusal.{IsMemory};

    /// The same name, in memory of its own. `Memory` is the only refusal.
    pub fn copy(&self, alloc: Global) -> Result<Name, Kind>
        ensures ok { IfOk result (λ name. name ≡ self.now) }
        ensures err { IfErr result IsMemory }
    {
        let text = Vec::from_slice(alloc, &self.text)?;
        Ok(Name { text })
    }

    /// The bytes of the name, which are its canonical text.
    pub fn bytes(&self) -> &[u8]
        ensures { result.now ≡ self.now }
    {
        self.text.as_slice()
    }
}

impl Rule {
    ghost use Rattle.std.specs.Prelude.{◌≡◌};
    ghost use Rattle.life_base.specs.Rules.{default_rule};

    /// The rule of a file that names none, B3/S23.
    pub fn default_rule() -> Rule
        ensures { result ≡ default_rule }
    {
        Rule::Life(LifeRule {
            births: 8,
            survivals: 12,
            near: Near::Moore,
        })
    }
}
