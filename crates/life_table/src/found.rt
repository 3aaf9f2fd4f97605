//! The states that one line gives: none, one or two.

use life_base::State;

/// What has been found of the states that a line gives.
#[derive(Clone, Copy, Debug, PartialEq, Eq)]
pub(crate) enum Found {
    Nothing,
    One(State),
    Two,
}
