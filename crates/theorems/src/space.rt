//! What a store of squares is made of.

ghost use Rattle.std.specs.Prelude.{◌≡◌, ◌≤◌, ◌^◌, []};
ghost use Rattle.theorems.specs.Words.{stored_squares};

use life_quad::{Seed, Shared};
use std::alloc::Global;

/// How many squares a new store holds at most, which may be 2^62 and no more, and the words by which it finds them. A theorem holds for any of them.
#[derive(Clone, Copy, Drop)]
pub struct StoreOptions {
    pub limit: u64,
    pub seed: Seed,
    ghost holds: { limit ≤ 2 ^ 62 },
}

impl StoreOptions {
    /// An empty store of this limit, with these words.
    pub fn new_store(self, alloc: Global) -> Shared
        ensures stored { stored_squares result ≡ [] }
        ensures most { result.limit ≡ self.limit }
    {
        Shared::seeded(alloc, self.seed, self.limit)
    }
}
