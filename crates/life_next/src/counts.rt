//! The live neighbours of the places of a word, counted at once: a number for each place, in four words, a binary digit a word.
ghost use Rattle.std.specs.Prelude.{◌≡◌, ℕ, ◌+◌, ◌-◌, ◌*◌, ◌<◌, ◌≤◌, ◌^◌, ◌==◌, if◌then◌else◌};
ghost use Rattle.life_next.specs.Words.{bit_at, live_in, next_by_count, count_at, neighbours_in, sides_in, counted_in};

use life_base::{LifeRule, Near};
use life_pieces::Three;

/// A word of cells amid those of their eight neighbours: bit i of each is the neighbour of bit i of the one in the middle.
pub type NineWords = Three<Three<u64>>;

/// A number of 0 to 15 for each place.
#[derive(Clone, Copy)]
pub(crate) struct BitCounts {
    ones: u64,
    twos: u64,
    fours: u64,
    eights: u64,
}

// The sum of three bits in each column: its ones, and its twos.
fn add(a: u64, b: u64, c: u64) -> (u64, u64)
    ensures { (i : ℕ)
        → bit_at result.0 i + 2 * bit_at result.1 i ≡ bit_at a i + bit_at b i + bit_at c i }
{
    let odd = a ^ b;
    (odd ^ c, (a & b) | (odd & c))
}

// How many of the eight neighbours of each place are alive.
fn live_neighbours(words: &NineWords) -> BitCounts
    ensures { (i : ℕ) → count_at result i ≡ live_in (neighbours_in words.now i) }
{
    let (north, north_twos) = add(words.before.before, words.before.here, words.before.after);
    let (here, here_twos) = add(words.here.before, words.here.after, 0);
    let (south, south_twos) = add(words.after.before, words.after.here, words.after.after);
    let (ones, carried_twos) = add(north, here, south);
    let (all_twos, all_fours) = add(north_twos, here_twos, south_twos);
    let (twos, carried_fours) = add(carried_twos, all_twos, 0);
    let (fours, eights) = add(all_fours, carried_fours, 0);
    BitCounts {
        ones,
        twos,
        fours,
        eights,
    }
}

// How many of the four neighbours of each place that share a side with it are alive.
fn live_sides(words: &NineWords) -> BitCounts
    ensures { (i : ℕ) → count_at result i ≡ live_in (sides_in words.now i) }
{
    let (three, three_twos) = add(words.before.here, words.here.before, words.here.after);
    let (ones, carried_twos) = add(three, words.after.here, 0);
    let (twos, fours) = add(three_twos, carried_twos, 0);
    BitCounts {
        ones,
        twos,
        fours,
        eights: 0,
    }
}

// How many of the neighbours of each place that count are alive.
fn live_counted(near: Near, words: &NineWords) -> BitCounts
    ensures { (i : ℕ) → count_at result i ≡ live_in (counted_in near words.now i) }
{
    match near {
        Near::Moore => live_neighbours(words),
        Near::VonNeumann => live_sides(words),
    }
}

// The columns whose digit is 1, or those whose digit is 0.
fn with_digit(digits: u64, one: bool) -> u64
    ensures { (i : ℕ) → i < 64
        → bit_at result i ≡ (if one then bit_at digits i else 1 - bit_at digits i) }
{
    if one { digits } else { !digits }
}

impl BitCounts {
    // The columns that have this number.
    fn columns_with(&self, count: u8) -> u64
        requires { count < 16 }
        ensures here { (i : ℕ) → i < 64 → count_at self.now i ≡ count → bit_at result i ≡ 1 }
        ensures others { (i : ℕ) → i < 64 → (count_at self.now i ≡ count → ⊥)
            → bit_at result i ≡ 0 }
    {
        with_digit(self.ones, count % 2 == 1)
            & with_digit(self.twos, count / 2 % 2 == 1)
            & with_digit(self.fours, count / 4 % 2 == 1)
            & with_digit(self.eights, count / 8 == 1)
    }

    // The columns whose number is one of a set of digits from 0 to 8.
    fn columns_in(&self, set: u16) -> u64
        ensures { (i : ℕ) → i < 64 → count_at self.now i ≤ 8
            → bit_at result i ≡ bit_at set (count_at self.now i) }
    {
        let mut columns = 0;
        for count in 0..9 {
            if (set >> count) & 1 == 1 {
                columns |= self.columns_with(count);
            }
        }
        columns
    }
}

/// The next states of the cells of a word under a B/S rule.
pub fn next_word(words: &NineWords, rule: &LifeRule) -> u64
    ensures { (i : ℕ) → i < 64 → bit_at result i
        ≡ next_by_count rule.now.sets (bit_at words.now.here.here i)
        (live_in (counted_in rule.now.near words.now i)) }
{
    let counts = live_counted(rule.near, words);
    let alive = words.here.here;
    let born = counts.columns_in(rule.births) & !alive;
    let stay = counts.columns_in(rule.survivals) & alive;
    born | stay
}
