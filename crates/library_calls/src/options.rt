//! What a call is given besides its input.

ghost use Rattle.library_calls.specs.Words.{IsFreshStore};

use crate::seeds::seed_of_squares;
use life_quad::Shared;
use std::alloc::Global;

/// How many different squares a store holds at most, whatever limit is asked for.
const GREATEST_LIMIT: u64 = 1 << 62;

/// How many different squares the store of a call holds at most, and a seed, which decides time alone.
#[derive(Clone, Copy)]
pub struct Options {
    /// The limit, which counts as 2^62 where it is more.
    pub limit: u64,
    /// What seeds the hashers of squares, and those of the names in a rule table.
    pub seed: u64,
}

impl Options {
    /// An empty store with this limit.
    pub(crate) fn new_store(self, alloc: Global) -> Shared
        ensures { IsFreshStore self.limit result }
    {
        let most = if self.limit < GREATEST_LIMIT {
            self.limit
        } else {
            GREATEST_LIMIT
        };
        Shared::seeded(alloc, seed_of_squares(self.seed), most)
    }
}
