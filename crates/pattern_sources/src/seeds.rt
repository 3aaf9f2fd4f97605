//! The random words of a run.

use life_quad::Seed;
use life_table::NameSeed;
use std::io;
use std::random::RandomSource;

/// By what a run finds its squares, and the names of its table. What it answers doesn't depend on it, only the time that chosen files take.
#[derive(Clone, Copy, Drop)]
pub struct Seeds {
    pub squares: Seed,
    pub names: NameSeed,
}

/// A random word.
fn word(rt: &impl RandomSource) -> io::Result<u64> {
    let mut bytes = [0; 8];
    rt.fill_bytes(&mut bytes)?;
    Ok(u64::from_le_bytes(bytes))
}

impl Seeds {
    /// Those of random words, which nobody knows who made the files before.
    ///
    /// # Errors
    ///
    /// The source's own.
    pub fn drawn(rt: &impl RandomSource) -> io::Result<Seeds> {
        Ok(Seeds {
            squares: Seed::new([word(rt)?, word(rt)?, word(rt)?, word(rt)?, word(rt)?]),
            names: NameSeed::new([word(rt)?, word(rt)?]),
        })
    }

    /// Those that everybody knows, for files that nobody chose against them.
    pub fn fixed() -> Seeds {
        Seeds {
            squares: Seed::fixed(),
            names: NameSeed::fixed(),
        }
    }
}
