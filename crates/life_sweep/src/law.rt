//! What a cell becomes.
ghost use Rattle.std.specs.Prelude.{◌≡◌, ℕ, ◌<◌, ◌≤◌, ◌↔◌, false, All, IfOk, IfErr, List, drop, length, slice_index};
ghost use Rattle.life_sweep.specs.Words.{IsMemory, IsPermutation, Answer, Becomes, Ambiguous, count_of, has_digit, most_neighbours, VonNeumann, Rotate4, neighborhood_of_rule, LifeAnswers, TableAnswers, neighbours_among, SameImages, two_positive, life_quiet, table_positive, table_quiet};
ghost use Rattle.std.proofs.Common.{sym, ◌∙◌};
ghost use Rattle.std.proofs.Props.{props};
ghost use Rattle.life_table.proofs.LawProofs.{one_law};

use life_base::{Fault, Kind, LifeRule, Near, State};
use life_table::{Index, Neighborhood, Neighbours, Symmetry, Table};
use std::alloc::Global;
use std::marker::Model;

/// What a cell becomes, by its state and those of its eight neighbours. What a law remembers is no part of its value.
pub trait Law {
    ghost use Rattle.life_table.specs.Meaning.{Answer, Becomes};
    ghost use Rattle.life_sweep.specs.Generation.{zeros};

    // States are below this.
    ghost bound: { Self → ℕ };

    // The answer for a cell's state and its neighbours', from north clockwise.
    ghost answers: { Self → List ℕ → Answer → Type 0 };

    /// The number of states.
    fn n_states(&self) -> u16
        ensures { result ≡ bound self.now };

    /// The next state, by the centre's state and then the neighbours' from north clockwise.
    ///
    /// # Errors
    ///
    /// `Ambiguous` where the law gives two states, with the line that does. The law is the same value then.
    fn next(&mut self, around: &[State; 9]) -> Result<State, Fault>
        requires { All (λ s. s < bound self.old) around.now }
        ensures same { self.new ≡ self.old }
        ensures next { IfOk result (λ s. answers self.old around.now (Becomes s)) }
        ensures kind { IfErr result (λ f. f.kind ≡ Kind.Ambiguous) }
        ensures ambiguous { IfErr result
            (λ f. answers self.old around.now (Ambiguous f.place.line)) };

    // There is a state.
    ghost positive: { (law : Self) → 0 < bound law };

    // A cell of state 0 among cells of state 0 keeps it.
    ghost quiet: { (law : Self) → answers law zeros (Becomes 0) };

    // There is one answer at most.
    ghost one_answer: { (law : Self) (states : List ℕ) (a b : Answer) → answers law states a → answers law states b → a ≡ b };
}

/// The law of a B/S rule, for states 0 and 1.
#[derive(Drop)]
pub struct ByCounts {
    pub rule: LifeRule,
    pub ghost quiet: { has_digit rule.sets.births 0 ≡ false } by { Prim.hlevel props },
}

impl ByCounts {
    /// The law of the rule.
    pub fn new(rule: LifeRule) -> ByCounts
        ensures { result.rule ≡ rule }
    {
        ByCounts { rule }
    }
}

// How many of the neighbours that count are alive.
fn live_neighbours(near: Near, around: &[State; 9]) -> u8
    requires { All (λ s. s < 2) around.now }
    ensures count { result ≡ count_of 1 (neighbours_among (neighborhood_of_rule near) around.now) }
    ensures few { result ≤ most_neighbours near }
{
    let [_, n, ne, e, se, s, sw, w, nw] = *around;
    match near {
        Near::Moore => n + ne + e + se + s + sw + w + nw,
        Near::VonNeumann => n + e + s + w,
    }
}

impl Law for ByCounts {
    ghost bound = { λ s. 2 };

    ghost answers = { λ s v a. LifeAnswers s.rule v a };

    fn n_states(&self) -> u16 {
        2
    }

    fn next(&mut self, around: &[State; 9]) -> Result<State, Fault> {
        let count = live_neighbours(self.rule.near, around);
        if self.rule.next(around[0] == 1, count) {
            Ok(1)
        } else {
            Ok(0)
        }
    }

    ghost positive = { λ s. two_positive };

    ghost quiet = { λ s. life_quiet s.rule.sets s.rule.near s.quiet };

    ghost one_answer = { λ s v a b p q. p ∙ sym q };
}

/// A neighbourhood and what a table makes of it.
#[derive(Clone, Copy)]
pub(crate) struct Known {
    pub(crate) around: [State; 9],
    pub(crate) next: State,
}

/// The law of a table. It remembers some neighbourhoods and what becomes of them, and indexes more lines of the table with each that it
/// decides.
#[derive(Drop)]
pub struct ByTable<'a> {
    index: Index<'a>,
    known: Vec<Known>,
}

impl<'a> Model for ByTable<'a> {
    ghost use Rattle.life_table.specs.declared.table.Table.{Table as TableValue};
    ghost use Rattle.life_sweep.specs.LawFacts.{RemembersAnswers};

    ghost Value = { TableValue };

    ghost view = { λ law. law.index };

    ghost invariant = { λ law. RemembersAnswers law.index law.known.items };
}

// How many neighbourhoods are remembered.
const PLACES: usize = 1 << 16;

// The states of the neighbours as digits of a number.
fn neighbours_as_number(around: &[State; 9]) -> u64 {
    let [_, n1, n2, n3, n4, n5, n6, n7, n8] = *around;
    u64::from_le_bytes([n1, n2, n3, n4, n5, n6, n7, n8])
}

// Where a neighbourhood is remembered, if it is.
fn place_of(around: &[State; 9]) -> usize
    ensures { result < PLACES }
{
    let hash = (neighbours_as_number(around) ^ (around[0] as u64) << 29).wrapping_mul(
        0x9E37_79B9_7F4A_7C15,
    );
    (hash >> 48) as usize
}

// The cell and its four sides; the corners are 0.
fn without_corners(around: &[State; 9]) -> [State; 9]
    ensures centre { slice_index result 0 ≡ slice_index around.now 0 }
    ensures same { neighbours_among VonNeumann result ≡ neighbours_among VonNeumann around.now }
    ensures states { (n : ℕ) → 0 < n → All (λ s. s < n) around.now → All (λ s. s < n) result }
{
    let [centre, north, _, east, _, south, _, west, _] = *around;
    [centre, north, 0, east, 0, south, 0, west, 0]
}

// The cell, and its neighbours in ascending order.
fn in_order(around: &[State; 9]) -> [State; 9]
    ensures centre { slice_index result 0 ≡ slice_index around.now 0 }
    ensures len { length result ≡ 9 }
    ensures moved { IsPermutation (drop 1 around.now) (drop 1 result) }
{
    let [centre, n1, n2, n3, n4, n5, n6, n7, n8] = *around;
    let mut others = [n1, n2, n3, n4, n5, n6, n7, n8];
    others.sort_unstable();
    let [n1, n2, n3, n4, n5, n6, n7, n8] = others;
    [centre, n1, n2, n3, n4, n5, n6, n7, n8]
}

// A quarter turn: the neighbours from the third on, and then the first two.
fn quarter_turn(around: &[State; 9]) -> [State; 9]
    ensures centre { slice_index result 0 ≡ slice_index around.now 0 }
    ensures same { SameImages Rotate4 (drop 1 around.now) (drop 1 result) }
    ensures states { (n : ℕ) → All (λ s. s < n) around.now → All (λ s. s < n) result }
{
    let [centre, n1, n2, n3, n4, n5, n6, n7, n8] = *around;
    [centre, n3, n4, n5, n6, n7, n8, n1, n2]
}

// The one of the quarter turns whose neighbours are the least number.
fn least_turn(around: &[State; 9]) -> [State; 9]
    ensures centre { slice_index result 0 ≡ slice_index around.now 0 }
    ensures same { SameImages Rotate4 (drop 1 around.now) (drop 1 result) }
    ensures states { (n : ℕ) → All (λ s. s < n) around.now → All (λ s. s < n) result }
{
    let mut turned = *around;
    let mut least = *around;
    for _ in 0..3 {
        turned = quarter_turn(&turned);
        if neighbours_as_number(&turned) < neighbours_as_number(&least) {
            least = turned;
        }
    }
    least
}

// A neighbourhood for which the table has the same answer. Of four neighbours it leaves out the corners; of eight it is used, under `permute`, for
// all orders of them, and under `rotate4` for the quarter turns.
fn representative(table: &Table, around: &[State; 9]) -> [State; 9]
    requires { All (λ s. s < table.now.n_states) around.now }
    ensures states { All (λ s. s < table.now.n_states) result }
    ensures same { (answer : Answer)
        → TableAnswers table.now result answer ↔ TableAnswers table.now around.now answer }
{
    match table.neighborhood {
        Neighborhood::VonNeumann => without_corners(around),
        Neighborhood::Moore => match table.symmetry {
            Symmetry::Permute => in_order(around),
            Symmetry::Rotate4 => least_turn(around),
            _ => *around,
        },
    }
}

// What a table answers.
fn decide(index: &Index, around: &[State; 9]) -> Result<State, Fault>
    requires { All (λ s. s < index.now.n_states) around.now }
    ensures next { IfOk result (λ s. TableAnswers index.now around.now (Becomes s)) }
    ensures kind { IfErr result (λ f. f.kind ≡ Kind.Ambiguous) }
    ensures ambiguous { IfErr result
        (λ f. TableAnswers index.now around.now (Ambiguous f.place.line)) }
{
    let neighbours = match index.table().neighborhood {
        Neighborhood::VonNeumann => {
            Neighbours::Four([around[0], around[1], around[3], around[5], around[7]])
        }
        Neighborhood::Moore => Neighbours::Eight(*around),
    };
    index.next(&neighbours)
}

impl<'a> ByTable<'a> {
    /// The law of the table, with nothing remembered but that a cell among cells of state 0 stays 0. It takes 0.7 MB.
    ///
    /// # Errors
    ///
    /// `Memory`, and nothing else.
    pub fn new(alloc: Global, table: &'a Table) -> Result<ByTable<'a>, Kind>
        ensures table { IfOk result (λ law. law ≡ table.now) }
        ensures refusals { IfErr result IsMemory }
    {
        let zeros = Known {
            around: [0; 9],
            next: 0,
        };
        let known = Vec::from_elem(alloc, zeros, PLACES)?;
        Ok(ByTable {
            index: Index::new(alloc, table),
            known,
        })
    }
}

impl<'a> Law for ByTable<'a> {
    ghost bound = { λ table. table.n_states };

    ghost answers = { λ table v a. TableAnswers table v a };

    fn n_states(&self) -> u16 {
        self.index.table().n_states
    }

    fn next(&mut self, around: &[State; 9]) -> Result<State, Fault> {
        let seen = representative(self.index.table(), around);
        let place = place_of(&seen);
        let known = self.known[place];
        if known.around == seen {
            return Ok(known.next);
        }
        self.index.grow();
        let next = decide(&self.index, &seen)?;
        self.known[place] = Known { around: seen, next };
        Ok(next)
    }

    ghost positive = { λ table. table_positive table };

    ghost quiet = { λ table. table_quiet table };

    ghost one_answer = { λ table v a b p q. one_law table.symmetry table.vars (slice_index v 0) (neighbours_among table.neighborhood v) table.lines a b p q };
}
