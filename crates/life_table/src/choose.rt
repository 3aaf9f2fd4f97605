//! One line at one cell: which states it gives.
ghost use Rattle.std.specs.Prelude.{◌≡◌, ℕ, ◌+◌, ◌<◌, ◌↔◌, ◌++◌, ◌∷◌, [], take, length, List, All, IsTrue};
ghost use Rattle.life_table.specs.Words.{list_any, Adds, Consistent, IsFoundOf, IsChoice, state_of, has_state, GivesAs, GivesByCounts, IsSite, IsLineAt, centre_of, others_of, can_be_state, IsEntry, is_variable};

use crate::complete::{can_complete, first_states};
use crate::found::Found;
use crate::groups::{free_after, groups_of, settled_state};
use crate::site::Site;
use crate::table::{Entry, Transition, Var};
use life_base::State;

/// Whether a variable may be a state.
pub(crate) fn has_state(var: &Var, s: State) -> bool
    ensures { result ≡ has_state var.now s }
{
    var.states[s as usize / 64] >> (s % 64) & 1 == 1
}

/// Adds a state to what was found.
pub(crate) fn with_state(found: Found, s: State) -> Found
    ensures { Adds (λ t. t ≡ s) found result }
{
    match found {
        Found::Nothing => Found::One(s),
        Found::One(a) => if a == s { found } else { Found::Two },
        Found::Two => found,
    }
}

/// Whether the next input may be a state, where the inputs before it are these states.
pub(crate) fn allows(vars: &[Var], inputs: &[Entry], given: &[State], s: State) -> bool
    requires short { length given.now < length inputs.now }
    requires entries { All (IsEntry 256 vars.now) inputs.now }
    requires consistent { Consistent vars.now (take (length given.now) inputs.now) given.now }
    ensures { IsTrue result ↔ Consistent vars.now (take (length given.now + 1) inputs.now)
        (given.now ++ s ∷ []) }
{
    match inputs[given.len()] {
        Entry::Fixed(fixed) => fixed == s,
        Entry::Var(number) => {
            for (i, state) in given.iter().enumerate() {
                if inputs[i] == Entry::Var(number) {
                    return *state == s;
                }
            }
            has_state(&vars[number as usize], s)
        }
    }
}

/// The output, where the inputs are these states.
pub(crate) fn output_of(line: &Transition, given: &[State]) -> State
    requires whole { length given.now ≡ length line.now.inputs }
    requires bound { (i : ℕ) → line.now.output ≡ Entry.Var i
        → IsTrue (list_any (is_variable i) line.now.inputs) }
    ensures { (vars : List Var) (s : ℕ) → GivesAs vars line.now given.now s → s ≡ result }
{
    match line.output {
        Entry::Fixed(fixed) => fixed,
        Entry::Var(number) => {
            for (i, entry) in line.inputs.as_slice().iter().enumerate() {
                if *entry == Entry::Var(number) {
                    return given[i];
                }
            }
            0
        }
    }
}

/// Adds what a line gives where its inputs are these states, entry by entry.
pub(crate) fn with_image(vars: &[Var], line: &Transition, states: &[State], found: Found) -> Found
    requires count { length line.now.inputs ≡ length states.now }
    requires entries { All (IsEntry 256 vars.now) line.now.inputs }
    requires bound { (i : ℕ) → line.now.output ≡ Entry.Var i
        → IsTrue (list_any (is_variable i) line.now.inputs) }
    requires choosable { Consistent vars.now [] [] }
    ensures { Adds (GivesAs vars.now line.now states.now) found result }
{
    let inputs = line.inputs.as_slice();
    for k in 0..states.len() {
        if !allows(vars, inputs, &states[..k], states[k]) {
            return found;
        }
    }
    with_state(found, output_of(line, states))
}

/// Whether an entry alone may be a state.
pub(crate) fn can_be(vars: &[Var], entry: Entry, s: State) -> bool
    requires entry { IsEntry 256 vars.now entry }
    ensures exact { result ≡ can_be_state vars.now entry s }
    ensures needed { (choice : ℕ → ℕ) → IsChoice vars.now choice → state_of choice entry ≡ s
        → IsTrue result }
{
    match entry {
        Entry::Fixed(fixed) => fixed == s,
        Entry::Var(number) => has_state(&vars[number as usize], s),
    }
}

/// The states that a line gives at one cell under `permute`, by the counts of the neighbours.
pub(crate) fn by_counts(site: &Site, line: &Transition) -> Found
    requires site { IsSite site.now }
    requires line { IsLineAt site.now line.now }
    ensures { IsFoundOf
        (GivesByCounts site.now.vars.now line.now (centre_of site.now) (others_of site.now))
        result }
{
    let vars = site.vars;
    let centre = site.cells[0];
    let inputs = line.inputs.as_slice();
    let first = inputs[0];
    if !can_be(vars, first, centre) {
        return Found::Nothing;
    }
    if !site.seen.may_take_all(&inputs[1..]) {
        return Found::Nothing;
    }
    let others = &site.cells[1..];
    let Some(free) = free_after(&inputs[1..], first, centre, others) else {
        return Found::Nothing;
    };
    let (groups, count) = groups_of(&inputs[1..], first, line.output);
    match settled_state(first, centre, line.output) {
        Some(s) => {
            if can_complete(vars, &groups[..count], others, free) {
                Found::One(s)
            } else {
                Found::Nothing
            }
        }
        None => first_states(vars, &groups[..count], others, free),
    }
}
