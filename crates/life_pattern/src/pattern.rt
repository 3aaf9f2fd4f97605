//! A pattern in a store.

ghost use Rattle.std.specs.Prelude.{◌≡◌, ◌↔◌, IsTrue};
ghost use Rattle.life_pattern.specs.Words.{least_level};

use life_base::Rule;
use life_quad::Id;

/// A pattern whose cells are in a store: the root's square has (0, 0) in its middle, and all cells outside are dead.
#[derive(Drop)]
pub struct Pattern {
    /// The rule, which bounds the states: 0 and 1 under a B/S rule, 0 to 255 under a name.
    pub rule: Rule,
    /// How many generations the pattern has run.
    pub generation: u64,
    /// The square with the cells, of level 1 or more.
    pub root: Id,
}

/// The least level of a square that has a node line of its own: that of a leaf under a B/S rule, and 1 under a name.
pub fn least_level(rule: &Rule) -> u8
    ensures { result ≡ least_level rule.now }
{
    match rule {
        Rule::Life(_) => 3,
        Rule::Named(_) => 1,
    }
}

/// Whether two patterns of one store are the same: whether the files are that they were read from (`laws::patterns_tell_files`).
pub fn are_same(a: &Pattern, b: &Pattern) -> bool
    ensures { IsTrue result ↔ ((a.now.rule ≡ b.now.rule) × (a.now.generation ≡ b.now.generation)
        × (a.now.root ≡ b.now.root)) }
{
    a.rule.same(&b.rule) && a.generation == b.generation && a.root == b.root
}
