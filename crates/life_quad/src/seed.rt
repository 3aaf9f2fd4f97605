//! The hasher of a store's nodes, by random keys.

ghost use Rattle.std.specs.Prelude.{◌≡◌};
ghost use Rattle.life_quad.specs.Lanes as lanes;

use std::hash::{BuildHasher, Hasher};

/// The sum of the numbers that were written, each times a key of its own. The keys go round: `next` is that of the next number.
#[derive(Clone, Copy, Drop)]
pub struct Lanes {
    sum: u64,
    next: u64,
    second: u64,
    third: u64,
    fourth: u64,
}

/// The number of four bytes, the lowest first.
#[tactic(auto, unfolding(crate::specs::Lanes::number_of_bytes))]
fn number(bytes: &[u8]) -> u64
    ensures { result ≡ lanes.number_of_bytes bytes.now }
{
    if bytes.len() != 4 {
        return 0;
    }
    u32::from_le_bytes([bytes[0], bytes[1], bytes[2], bytes[3]]) as u64
}

impl Hasher for Lanes {
    ghost write = { lanes.write };

    ghost finish = { lanes.finish };

    #[tactic(auto, unfolding(crate::specs::Lanes::finish))]
    fn finish(&self) -> u64 {
        self.sum >> 32
    }

    #[tactic(auto, unfolding(crate::specs::Lanes::write))]
    fn write(&mut self, bytes: &[u8]) {
        let first = self.next;
        self.sum = self.sum.wrapping_add(first.wrapping_mul(number(bytes)));
        self.next = self.second;
        self.second = self.third;
        self.third = self.fourth;
        self.fourth = first;
    }
}

/// The word that SplitMix64 makes of its state.
fn mixed(state: u64) -> u64 {
    let first = (state ^ (state >> 30)).wrapping_mul(0xbf58_476d_1ce4_e5b9);
    let second = (first ^ (first >> 27)).wrapping_mul(0x94d0_49bb_1331_11eb);
    second ^ (second >> 31)
}

/// The words by which a store finds its nodes. Which they are decides nothing but time: with random ones, drawn after the input was written, any two
/// nodes meet in all 32 bits that the table uses with chance 2^-32, so no input can be made whose nodes collide.
#[derive(Clone, Copy, Drop)]
pub struct Seed {
    start: Lanes,
}

impl Seed {
    /// The seed of five words, which must be random and secret if the squares are untrusted input.
    pub fn new(words: [u64; 5]) -> Seed {
        let [sum, next, second, third, fourth] = words;
        Seed {
            start: Lanes {
                sum,
                next,
                second,
                third,
                fourth,
            },
        }
    }

    /// Nine words for another table, drawn from the first one by SplitMix64.
    pub(crate) fn nine_words(&self) -> [u64; 9] {
        let mut state = self.start.sum;
        let mut words = [0; 9];
        for word in words.iter_mut() {
            state = state.wrapping_add(0x9e37_79b9_7f4a_7c15);
            *word = mixed(state);
        }
        words
    }

    /// A seed that everybody knows, for inputs that nobody chose against it: the first 320 bits of π after the point.
    pub fn fixed() -> Seed {
        Seed::new([
            0x243f_6a88_85a3_08d3,
            0x1319_8a2e_0370_7344,
            0xa409_3822_299f_31d0,
            0x082e_fa98_ec4e_6c89,
            0x4528_21e6_38d0_1377,
        ])
    }
}

impl BuildHasher for Seed {
    type Hasher = Lanes;

    ghost build_hasher = { λ s. s.start };

    fn build_hasher(&self) -> Lanes {
        self.start
    }
}
