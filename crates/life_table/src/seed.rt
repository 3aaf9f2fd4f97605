//! The hasher of a table's names, by secret words.

use std::hash::{BuildHasher, DefaultHasher, Hasher};

/// The words that key the hash of the names of a table's variables: SipHash, as in `RandomState`, but with words from the caller.
/// Which they are decides nothing but time: no way is known to choose names that collide under random words, drawn after the table was written.
#[derive(Clone, Copy, Drop)]
pub struct NameSeed {
    start: DefaultHasher,
}

impl NameSeed {
    /// The seed of two words, which must be random and secret if the names are untrusted input.
    pub fn new(words: [u64; 2]) -> NameSeed {
        let [first, second] = words;
        let mut start = DefaultHasher::new();
        start.write(&first.to_le_bytes());
        start.write(&second.to_le_bytes());
        NameSeed { start }
    }

    /// A seed that everybody knows, for names that nobody chose against it.
    pub fn fixed() -> NameSeed {
        NameSeed::new([0, 0])
    }
}

impl BuildHasher for NameSeed {
    type Hasher = DefaultHasher;

    ghost build_hasher = { λ s. s.start };

    fn build_hasher(&self) -> DefaultHasher {
        self.start
    }
}
