//! 64 lines of a table as sets: which of them an input may be a state in, and which have two different inputs at two places.
ghost use Rattle.std.specs.Prelude.{◌≡◌, ◌≢◌, ℕ, ◌+◌, ◌*◌, ◌<◌, ◌≤◌, ◌↔◌, [], take, length, slice_index, slice_index_or, All, IsTrue};
ghost use Rattle.life_table.specs.Words.{bit_at, has_state, IsEntry, Stay, entry_at, InSets, IsApart, BlockHasLine, HasLines, MayFit};

use crate::choose::has_state;
use crate::image_list::Images;
use crate::table::{Entry, Table, Transition, Var};
use crate::transitions::neighbour_count;
use life_base::State;

/// How many lines a block has: the bits of a word.
pub(crate) const LINES: usize = 64;

/// Lines as bits: bit `k` of `sets[256 * p + s]` is set where input `p` of line `k` may be the state `s`, and bit `k` of
/// `apart[9 * p + q]` where its inputs `p` and `q` are different entries, for `q` below `p`. Bit `k` of `twice[p]` is set where one of
/// these is the same entry.
#[derive(Clone, Copy)]
pub(crate) struct Block {
    pub sets: [u64; 2304],
    pub apart: [u64; 81],
    pub twice: [u64; 9],
}

/// Puts lines into a set.
fn put(sets: &mut [u64], i: usize, lines: u64)
    requires { i < length sets.old }
    ensures put { (k : ℕ) → bit_at lines k ≡ 1 → bit_at (slice_index sets.new i) k ≡ 1 }
    ensures stay { Stay sets.old sets.new }
{
    sets[i] |= lines;
}

/// Puts lines into the sets of a variable's states at place `p`.
fn put_variable(sets: &mut [u64], var: &Var, p: usize, lines: u64)
    requires space { length sets.old ≡ 2304 }
    requires place { p < 9 }
    ensures put { (k s : ℕ) → bit_at lines k ≡ 1 → s < 256 → IsTrue (has_state var.now s)
        → bit_at (slice_index sets.new (256 * p + s)) k ≡ 1 }
    ensures stay { Stay sets.old sets.new }
{
    for s in 0..256 {
        if has_state(var, s as State) {
            put(sets, 256 * p + s, lines);
        }
    }
}

/// Puts lines into the sets of the states that their entry at place `p` may be.
fn put_entry(sets: &mut [u64], vars: &[Var], entry: Entry, p: usize, lines: u64)
    requires space { length sets.old ≡ 2304 }
    requires place { p < 9 }
    requires entry { IsEntry 256 vars.now entry }
    ensures put { (k : ℕ) → bit_at lines k ≡ 1 → InSets vars.now entry p k sets.new }
    ensures stay { Stay sets.old sets.new }
{
    match entry {
        Entry::Fixed(s) => put(sets, 256 * p + s as usize, lines),
        Entry::Var(number) => put_variable(sets, &vars[number as usize], p, lines),
    }
}

/// Whether two entries are the same.
fn is_same(entry: Entry, other: Entry) -> bool
    ensures { IsTrue result ↔ (entry ≡ other) }
{
    entry == other
}

/// Those of at most 64 lines that have this entry at place `p`.
fn lines_with(lines: &[Transition], p: usize, entry: Entry) -> u64
    requires space { length lines.now ≤ 64 }
    requires place { All (λ (line : Transition). p < length line.inputs) lines.now }
    ensures only { (k : ℕ) (d : Transition) → bit_at result k ≡ 1 → k < length lines.now
        → entry_at (slice_index_or lines.now k d).inputs p ≡ entry }
    ensures all { (k : ℕ) (d : Transition) → k < length lines.now
        → entry_at (slice_index_or lines.now k d).inputs p ≡ entry → bit_at result k ≡ 1 }
{
    let mut found = 0;
    for (k, line) in lines.iter().enumerate() {
        if is_same(line.inputs.as_slice()[p], entry) {
            found |= 1 << k;
        }
    }
    found
}

/// Puts each of at most 64 lines into the sets of what its input at place `p` may be, the lines with one entry at once.
fn put_place(sets: &mut [u64], vars: &[Var], lines: &[Transition], p: usize)
    requires sets { length sets.old ≡ 2304 }
    requires space { length lines.now ≤ 64 }
    requires place { p < 9 }
    requires inputs { All (λ (line : Transition). p < length line.inputs) lines.now }
    requires entries { All (λ (line : Transition). All (IsEntry 256 vars.now) line.inputs)
        lines.now }
    ensures put { (k : ℕ) (d : Transition) → k < length lines.now
        → InSets vars.now (entry_at (slice_index_or lines.now k d).inputs p) p k sets.new }
    ensures stay { Stay sets.old sets.new }
{
    let mut done = 0;
    for (k, line) in lines.iter().enumerate() {
        if done >> k & 1 == 0 {
            let entry = line.inputs.as_slice()[p];
            let same = lines_with(lines, p, entry);
            put_entry(sets, vars, entry, p, same);
            done |= same;
        }
    }
}

impl Block {
    /// Puts line `k` into the sets of the places before `p` where it has another entry than there.
    fn put_apart(&mut self, inputs: &[Entry], p: usize, k: usize)
        requires place { p < length inputs.now }
        requires few { length inputs.now ≤ 9 }
        requires bit { k < 64 }
        ensures put { IsApart inputs.now p k self.new.apart }
        ensures stay { Stay self.old.apart self.new.apart }
        ensures same { self.new.sets ≡ self.old.sets }
    {
        for q in 0..p {
            if is_same(inputs[p], inputs[q]) {
                put(&mut self.twice, p, 1 << k);
            } else {
                put(&mut self.apart, 9 * p + q, 1 << k);
            }
        }
    }

    /// Puts each of at most 64 lines into the sets of the places before `p` where it has another entry than there.
    fn put_pairs(&mut self, lines: &[Transition], p: usize)
        requires space { length lines.now ≤ 64 }
        requires place { p < 9 }
        requires inputs { All
            (λ (line : Transition). (p < length line.inputs) × (length line.inputs ≤ 9)) lines.now }
        ensures put { (k : ℕ) (d : Transition) → k < length lines.now
            → IsApart (slice_index_or lines.now k d).inputs p k self.new.apart }
        ensures stay { Stay self.old.apart self.new.apart }
        ensures same { self.new.sets ≡ self.old.sets }
    {
        for (k, line) in lines.iter().enumerate() {
            self.put_apart(line.inputs.as_slice(), p, k);
        }
    }

    /// At most 64 lines of `n` inputs.
    fn of(vars: &[Var], lines: &[Transition], n: usize) -> Block
        requires space { length lines.now ≤ 64 }
        requires few { n ≤ 9 }
        requires inputs { All (λ (line : Transition). length line.inputs ≡ n) lines.now }
        requires entries { All (λ (line : Transition). All (IsEntry 256 vars.now) line.inputs)
            lines.now }
        ensures { (k : ℕ) (d : Transition) → k < length lines.now
            → BlockHasLine vars.now (slice_index_or lines.now k d).inputs k result }
    {
        let mut block = Block {
            sets: [0; 2304],
            apart: [0; 81],
            twice: [0; 9],
        };
        for p in 0..n {
            put_place(&mut block.sets, vars, lines, p);
            block.put_pairs(lines, p);
        }
        block
    }

    /// The lines of the table from a number on, as many as a block has.
    pub(crate) fn new(table: &Table, from: usize) -> Block
        requires { from ≤ length table.now.lines }
        ensures { HasLines table.now.vars table.now.lines from result }
    {
        let lines = table.lines.as_slice();
        let count = LINES.min(lines.len() - from);
        let n = neighbour_count(table.neighborhood) + 1;
        Block::of(table.vars.as_slice(), &lines[from..from + count], n)
    }

    /// The lines whose inputs, each alone, may be these states.
    fn with_states(&self, image: &[State]) -> u64
        requires { length image.now ≤ 9 }
        ensures { (k : ℕ) → k < 64 → ((p : ℕ) → p < length image.now
            → slice_index image.now p < 256
            → bit_at (slice_index self.now.sets (256 * p + slice_index image.now p)) k ≡ 1)
            → bit_at result k ≡ 1 }
    {
        let mut lines = u64::MAX;
        for (p, state) in image.iter().enumerate() {
            lines &= self.sets[256 * p + *state as usize];
            if lines == 0 {
                return lines;
            }
        }
        lines
    }

    /// Of these lines those whose entry at place `p` is another one than at each place before it that has another state.
    fn apart_at(&self, image: &[State], p: usize, lines: u64) -> u64
        requires place { p < length image.now }
        requires few { length image.now ≤ 9 }
        ensures { (k : ℕ) → k < 64 → bit_at lines k ≡ 1
            → ((q : ℕ) → q < p → slice_index image.now p ≢ slice_index image.now q
            → bit_at (slice_index self.now.apart (9 * p + q)) k ≡ 1) → bit_at result k ≡ 1 }
    {
        let mut rest = lines;
        for q in 0..p {
            if image[p] != image[q] {
                rest &= self.apart[9 * p + q];
            }
        }
        rest
    }

    /// The lines that may give something where their inputs are these states.
    fn that_may_fit(&self, image: &[State]) -> u64
        requires { length image.now ≤ 9 }
        ensures { (k : ℕ) → k < 64 → MayFit self.now image.now k → bit_at result k ≡ 1 }
    {
        let mut lines = self.with_states(image);
        for p in 0..image.len() {
            if lines & self.twice[p] != 0 {
                lines = self.apart_at(image, p, lines);
            }
        }
        lines
    }

    /// The lines that may give something at one of the images of `n` cells.
    pub(crate) fn that_may_give(&self, images: &Images, n: usize) -> u64
        requires space { n ≤ 9 }
        requires few { images.now.count ≤ 16 }
        ensures { (k j : ℕ) → k < 64 → j < images.now.count
            → MayFit self.now (take n (slice_index_or images.now.cells j [])) k
            → bit_at result k ≡ 1 }
    {
        let mut lines = 0;
        for j in 0..images.count {
            lines |= self.that_may_fit(&images.cells[j][..n]);
        }
        lines
    }
}
