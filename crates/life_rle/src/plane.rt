//! The plane, and the states of a rule.

ghost use Rattle.std.specs.Prelude.{◌≡◌, ◌≤◌};
ghost use Rattle.life_rle.specs.Words.{is_coordinate, is_state_of};

use life_base::{MAX_LEVEL, Rule, State};

/// The coordinates go from -EDGE to EDGE - 1.
pub(crate) const EDGE: i64 = 1 << (MAX_LEVEL - 1);

/// The greatest count of an item.
pub(crate) const MOST_COUNT: u64 = 1 << MAX_LEVEL;

/// Whether a number is a coordinate of the plane.
pub(crate) fn is_coordinate(z: i64) -> bool
    ensures { result ≡ is_coordinate MAX_LEVEL z }
{
    z >= -EDGE && z < EDGE
}

/// Whether a state is one of the rule's.
pub(crate) fn is_state_of(rule: &Rule, state: State) -> bool
    ensures { result ≡ is_state_of rule.now state }
{
    match rule {
        Rule::Life(_) => state <= 1,
        Rule::Named(_) => true,
    }
}
