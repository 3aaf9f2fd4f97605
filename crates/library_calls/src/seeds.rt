//! What the number of a caller makes of the hashers.

use life_quad::Seed;
use life_table::NameSeed;
use rand_core::{Rng, SeedableRng};
use rand_xoshiro::SplitMix64;

/// The seed of a store: the first five words of SplitMix64.
pub(crate) fn seed_of_squares(seed: u64) -> Seed {
    let mut words = SplitMix64::seed_from_u64(seed);
    Seed::new([
        words.next_u64(),
        words.next_u64(),
        words.next_u64(),
        words.next_u64(),
        words.next_u64(),
    ])
}

/// The seed of a table's names: the first two of them.
pub(crate) fn seed_of_names(seed: u64) -> NameSeed {
    let mut words = SplitMix64::seed_from_u64(seed);
    NameSeed::new([words.next_u64(), words.next_u64()])
}
