//! Which neighbours of a cell an entry may be. It is computed once for a cell, since most lines fail by it.
ghost use Rattle.std.specs.Prelude.{◌≡◌, ◌≢◌, ℕ, ◌%◌, ◌<◌, List, length, slice_index, slice_index_or, IsTrue};
ghost use Rattle.life_table.specs.Words.{bit_at, has_state, places, IsSeen};

use crate::choose::has_state;
use crate::table::{Entry, Var};
use life_base::State;

// For so many variables it is computed which neighbours they may be.
const LISTED: usize = 64;

/// The neighbours that may be each state and each of the first variables: bit `k` is neighbour `k`, going round again up to bit 15.
#[derive(Clone, Copy)]
pub(crate) struct Seen {
    pub fixed: [u16; 256],
    pub listed: [u16; LISTED],
}

/// The neighbours, and then again those from the first on.
fn round(others: &[State]) -> [State; 16]
    requires { 0 < length others.now }
    ensures { (k : ℕ) → k < 16
        → slice_index result k ≡ slice_index others.now (k % length others.now) }
{
    let mut around = [0; 16];
    for k in 0..16 {
        around[k] = others[k % others.len()];
    }
    around
}

/// For each state, the places that have it.
fn places_of_states(around: &[State; 16]) -> [u16; 256]
    ensures { (k : ℕ) → k < 16 → bit_at (slice_index result (slice_index around.now k)) k ≡ 1 }
{
    let mut places = [0; 256];
    for k in 0..16 {
        places[around[k] as usize] |= 1 << k;
    }
    places
}

/// The places that have a state of the variable.
fn places_of_variable(var: &Var, around: &[State; 16]) -> u16
    ensures { (k : ℕ) → k < 16 → IsTrue (has_state var.now (slice_index around.now k))
        → bit_at result k ≡ 1 }
{
    let mut places = 0;
    for k in 0..16 {
        if has_state(var, around[k]) {
            places |= 1 << k;
        }
    }
    places
}

/// For each of the first variables, the places that have its states.
fn places_of_variables(vars: &[Var], around: &[State; 16]) -> [u16; LISTED]
    ensures { (i k : ℕ) → i < length vars.now → i < LISTED → k < 16 → (var : Var)
        → var ≡ slice_index_or vars.now i var → IsTrue (has_state var (slice_index around.now k))
        → bit_at (slice_index result i) k ≡ 1 }
{
    let mut places = [0; LISTED];
    for i in 0..vars.len().min(LISTED) {
        places[i] = places_of_variable(&vars[i], around);
    }
    places
}

impl Seen {
    /// Which neighbours each entry may be.
    pub(crate) fn new(vars: &[Var], others: &[State]) -> Seen
        requires { 0 < length others.now }
        ensures { IsSeen vars.now others.now result }
    {
        let around = round(others);
        Seen {
            fixed: places_of_states(&around),
            listed: places_of_variables(vars, &around),
        }
    }

    /// Nothing is known: each entry may be each neighbour.
    fn untold() -> Seen
        ensures { (vars : List Var) (others : List ℕ) → ((i : ℕ) → slice_index others i < 256)
            → IsSeen vars others result }
    {
        Seen {
            fixed: [u16::MAX; 256],
            listed: [u16::MAX; LISTED],
        }
    }

    /// The same, or nothing where few lines are asked: it would take longer than they do.
    pub(crate) fn of_lines(vars: &[Var], others: &[State], are_few: bool) -> Seen
        requires { 0 < length others.now }
        ensures { IsSeen vars.now others.now result }
    {
        if are_few {
            Seen::untold()
        } else {
            Seen::new(vars, others)
        }
    }

    /// The neighbours that an entry may be: all if nothing is known of the variable.
    pub(crate) fn places(&self, entry: Entry) -> u16
        ensures { result ≡ places self.now entry }
    {
        match entry {
            Entry::Fixed(state) => self.fixed[state as usize],
            Entry::Var(number) => {
                if number < LISTED as u64 {
                    self.listed[number as usize]
                } else {
                    u16::MAX
                }
            }
        }
    }

    /// Whether each entry may be some neighbour, and each neighbour some entry.
    pub(crate) fn may_take_all(&self, inputs: &[Entry]) -> bool
        ensures { ((i : ℕ) → i < length inputs.now
            → places self.now (slice_index_or inputs.now i (Entry.Fixed 0)) ≢ 0)
            → ((k : ℕ) → k < 16 → (i : ℕ) × (i < length inputs.now)
            × (bit_at (places self.now (slice_index_or inputs.now i (Entry.Fixed 0))) k ≡ 1))
            → IsTrue result }
    {
        let mut consumed = 0;
        for entry in inputs {
            let places = self.places(*entry);
            if places == 0 {
                return false;
            }
            consumed |= places;
        }
        consumed == u16::MAX
    }
}
