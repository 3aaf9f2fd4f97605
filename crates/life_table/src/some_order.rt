//! The lines of a block that may give something in some order of the neighbours. However many of them have one of some states, as many inputs
//! must be able to be one of these.
ghost use Rattle.std.specs.Prelude.{◌≡◌, ℕ, ◌+◌, ◌*◌, ◌<◌, ◌≤◌, ◌∷◌, List, Contains, count_by, drop, length, slice_index};
ghost use Rattle.life_table.specs.Words.{bit_at, orders, Stay, is_among, AreCounts, KeepsOrders, MayComeAfter, MayFit, MayFitInSomeOrder};

use crate::block::Block;
use life_base::State;

// Where more lines of a block are left, every choice of states is looked at.
const FEW: u32 = 8;

/// How many of the neighbours have one of these states.
fn count_among(others: &[State], states: &[State]) -> usize
    ensures { result ≡ count_by (is_among states.now) others.now }
{
    let mut count = 0;
    for s in others {
        if states.contains(s) {
            count += 1;
        }
    }
    count
}

/// The states of a cell's neighbours, each once, and how many have it: `count` states.
#[derive(Clone, Copy)]
pub(crate) struct Counts {
    pub states: [State; 8],
    pub times: [usize; 8],
    pub count: usize,
}

impl Counts {
    /// The counts of neighbours.
    pub(crate) fn of(others: &[State]) -> Counts
        requires { length others.now ≤ 8 }
        ensures { AreCounts others.now result }
    {
        let mut states = [0; 8];
        let mut times = [0; 8];
        let mut count = 0;
        for (i, s) in others.iter().enumerate() {
            if !others[..i].contains(s) {
                states[count] = *s;
                times[count] = count_among(others, &[*s]);
                count += 1;
            }
        }
        Counts {
            states,
            times,
            count,
        }
    }
}

/// The states whose bits are set, and how many they are.
fn chosen(states: &[State], bits: usize) -> ([State; 8], usize)
    requires { length states.now ≤ 8 }
    ensures { result.1 ≤ 8 }
{
    let mut found = [0; 8];
    let mut count = 0;
    for (i, s) in states.iter().enumerate() {
        if bits >> i & 1 == 1 {
            found[count] = *s;
            count += 1;
        }
    }
    (found, count)
}

/// With one set of lines more, those that were in `c` sets before and are in this one are in `c + 1`, for `c` below a number.
fn count_set(reached: &mut [u64; 9], set: u64, to: usize)
    requires { to ≤ 8 }
    ensures stay { Stay reached.old reached.new }
    ensures more { (k c : ℕ) → c < to → bit_at (slice_index reached.old c) k ≡ 1
        → bit_at set k ≡ 1 → bit_at (slice_index reached.new (c + 1)) k ≡ 1 }
{
    for c in (0..to).rev() {
        reached[c + 1] |= reached[c] & set;
    }
}

impl Block {
    /// The lines whose input at place `p` may be one of these states.
    fn with_input_among(&self, p: usize, states: &[State]) -> u64
        requires { p < 9 }
        ensures { (k i : ℕ) → i < length states.now
            → (slice_index states.now i < 256
            → bit_at (slice_index self.now.sets (256 * p + slice_index states.now i)) k ≡ 1)
            → bit_at result k ≡ 1 }
    {
        let mut lines = 0;
        for s in states {
            lines |= self.sets[256 * p + *s as usize];
        }
        lines
    }

    /// The lines of which so many inputs of the first `n` after the centre's may be one of these states.
    fn with_inputs_among(&self, n: usize, states: &[State], times: usize) -> u64
        requires space { n ≤ 8 }
        requires few { times ≤ n }
        ensures { (k : ℕ) (v : List ℕ) → k < 64 → length v ≡ n → MayComeAfter self.now v k
            → times ≤ count_by (is_among states.now) v → bit_at result k ≡ 1 }
    {
        let mut reached = [0; 9];
        reached[0] = u64::MAX;
        for p in 0..n {
            let set = self.with_input_among(p + 1, states);
            count_set(&mut reached, set, times);
        }
        reached[times]
    }

    /// The lines that have inputs enough for the neighbours of these states.
    fn with_enough_among(&self, others: &[State], states: &[State]) -> u64
        requires { length others.now ≤ 8 }
        ensures { (k : ℕ) (v : List ℕ) → k < 64 → Contains (orders others.now) v
            → MayComeAfter self.now v k → bit_at result k ≡ 1 }
    {
        let times = count_among(others, states);
        self.with_inputs_among(others.len(), states, times)
    }

    /// Of these lines those of which each input after the centre's may be some neighbour.
    fn with_each_input(&self, others: &[State], counts: &Counts, lines: u64) -> u64
        requires space { length others.now ≤ 8 }
        requires counts { AreCounts others.now counts.now }
        ensures { KeepsOrders self.now others.now lines result }
    {
        let mut rest = lines;
        for p in 0..others.len() {
            if rest == 0 {
                return rest;
            }
            rest &= self.with_input_among(p + 1, &counts.states[..counts.count]);
        }
        rest
    }

    /// Of these lines those that have inputs enough for the neighbours of each state.
    fn with_each_state(&self, others: &[State], counts: &Counts, lines: u64) -> u64
        requires space { length others.now ≤ 8 }
        requires counts { AreCounts others.now counts.now }
        ensures { KeepsOrders self.now others.now lines result }
    {
        let mut rest = lines;
        for i in 0..counts.count {
            if rest == 0 {
                return rest;
            }
            rest &= self.with_inputs_among(others.len(), &[counts.states[i]], counts.times[i]);
        }
        rest
    }

    /// The lines whose input at place `p` may be a state that more than one neighbour has.
    fn with_input_of_two(&self, counts: &Counts, p: usize) -> u64
        requires place { p < 9 }
        requires few { counts.now.count ≤ 8 }
        ensures { (k i : ℕ) → i < counts.now.count → 1 < slice_index counts.now.times i
            → (slice_index counts.now.states i < 256
            → bit_at (slice_index self.now.sets (256 * p + slice_index counts.now.states i)) k
            ≡ 1) → bit_at result k ≡ 1 }
    {
        let mut lines = 0;
        for i in 0..counts.count {
            if counts.times[i] > 1 {
                lines |= self.with_input_among(p, &[counts.states[i]]);
            }
        }
        lines
    }

    /// Of these lines those whose input at place `p` after the centre's is another entry than each before it, or may be a state that more than one
    /// neighbour has.
    fn with_pair_at(&self, others: &[State], counts: &Counts, p: usize, lines: u64) -> u64
        requires place { p < length others.now }
        requires space { length others.now ≤ 8 }
        requires counts { AreCounts others.now counts.now }
        ensures { (k centre : ℕ) (v : List ℕ) → k < 64 → Contains (orders others.now) v
            → MayFit self.now (centre ∷ v) k → bit_at lines k ≡ 1 → bit_at result k ≡ 1 }
    {
        let of_two = self.with_input_of_two(counts, p + 1);
        let mut rest = lines;
        for q in 0..p {
            rest &= self.apart[9 * (p + 1) + (q + 1)] | of_two;
        }
        rest
    }

    /// Of these lines those that have two neighbours of one state for each two inputs that are one entry.
    fn with_pairs(&self, others: &[State], counts: &Counts, lines: u64) -> u64
        requires space { length others.now ≤ 8 }
        requires counts { AreCounts others.now counts.now }
        ensures { (k centre : ℕ) (v : List ℕ) → k < 64 → Contains (orders others.now) v
            → MayFit self.now (centre ∷ v) k → bit_at lines k ≡ 1 → bit_at result k ≡ 1 }
    {
        let mut rest = lines;
        for p in 0..others.len() {
            if rest & self.twice[p + 1] != 0 {
                rest = self.with_pair_at(others, counts, p, rest);
            }
        }
        rest
    }

    /// Of these lines those that have, for each set of the states, as many inputs that may be one of the set as there are neighbours that are one.
    /// The sets of all states but one leave the fewest lines, so they come first.
    fn with_every_subset(&self, others: &[State], states: &[State], lines: u64) -> u64
        requires space { length others.now ≤ 8 }
        requires few { length states.now ≤ 8 }
        ensures { KeepsOrders self.now others.now lines result }
    {
        let n = states.len();
        let mut rest = lines;
        for i in 1..n + (1 << n) {
            if rest == 0 {
                return rest;
            }
            let bits = if i <= n { 255 ^ 1 << (i - 1) } else { i - n };
            let (some, count) = chosen(states, bits);
            rest &= self.with_enough_among(others, &some[..count]);
        }
        rest
    }

    /// The lines that may give something at a cell in some order of its neighbours, of which these are the counts.
    pub(crate) fn that_may_give_in_some_order(&self, cells: &[State], counts: &Counts) -> u64
        requires some { 0 < length cells.now }
        requires space { length cells.now ≤ 9 }
        requires counts { AreCounts (drop 1 cells.now) counts.now }
        ensures { (k : ℕ) → k < 64 → MayFitInSomeOrder self.now cells.now k → bit_at result k ≡ 1 }
    {
        let others = &cells[1..];
        let states = &counts.states[..counts.count];
        let mut lines = self.with_each_input(others, counts, self.sets[cells[0] as usize]);
        lines = self.with_each_state(others, counts, lines);
        lines = self.with_pairs(others, counts, lines);
        if lines.count_ones() <= FEW {
            return lines;
        }
        self.with_every_subset(others, states, lines)
    }
}
