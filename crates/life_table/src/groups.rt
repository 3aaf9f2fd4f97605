//! What a line asks of the neighbours once its centre is known: settled inputs are one state, and the others are grouped by their variable.
ghost use Rattle.std.specs.Prelude.{◌≡◌, ℕ, ◌+◌, ◌^◌, ◌<◌, ◌≤◌, length, take, All, IfSome};
ghost use Rattle.life_table.specs.Words.{IsPermutation, count_of, free_count, settled_state, settled_count, add_to, IsGrouped};

use crate::places::{all_free, without_one};
use crate::table::Entry;
use crate::transitions::is_variable;
use life_base::State;

/// A variable, and how many of the neighbour inputs it is.
#[derive(Clone, Copy, Debug, PartialEq, Eq)]
pub(crate) struct Group {
    pub variable: u64,
    pub times: u8,
}

/// The state of an entry, where the centre's input and its state settle it.
pub(crate) fn settled_state(first: Entry, centre: State, entry: Entry) -> Option<State>
    ensures { result ≡ settled_state first centre entry }
{
    match entry {
        Entry::Fixed(s) => Some(s),
        Entry::Var(number) => {
            if is_variable(number, first) {
                Some(centre)
            } else {
                None
            }
        }
    }
}

/// The neighbours that stay free where each settled input takes one of its state, if there are so many.
pub(crate) fn free_after(
    inputs: &[Entry],
    first: Entry,
    centre: State,
    states: &[State],
) -> Option<u8>
    requires { length states.now ≤ 8 }
    ensures below { IfSome result (λ free. free < 2 ^ length states.now) }
    ensures counts { IfSome result (λ free. (t : ℕ)
        → settled_count first centre t inputs.now + free_count t free states.now
        ≡ count_of t states.now) }
    ensures none { result ≡ None → (t : ℕ)
        × (count_of t states.now < settled_count first centre t inputs.now) }
{
    let mut free = all_free(states.len());
    for entry in inputs {
        if let Some(s) = settled_state(first, centre, *entry) {
            free = without_one(states, free, s)?;
        }
    }
    Some(free)
}

/// Counts one more input that is this variable, and says how many variables there are then.
fn add_variable(groups: &mut [Group; 9], count: usize, number: u64) -> usize
    requires space { count < 9 }
    requires few { All (λ g. g.times < 9) (take count groups.old) }
    ensures added { take result groups.new ≡ add_to number (take count groups.old) }
    ensures count { result ≤ count + 1 }
{
    for k in 0..count {
        if groups[k].variable == number {
            groups[k].times += 1;
            return count;
        }
    }
    groups[count] = Group {
        variable: number,
        times: 1,
    };
    count + 1
}

/// The groups of the open inputs in their order, and how many they are. An open output's is the first.
fn groups_in_order(inputs: &[Entry], first: Entry, output: Entry) -> ([Group; 9], usize)
    requires { length inputs.now ≤ 8 }
    ensures count { result.1 ≤ 9 }
    ensures grouped { IsGrouped first output inputs.now (take result.1 result.0) }
{
    let mut groups = [Group {
        variable: 0,
        times: 0,
    }; 9];
    let mut count = 0;
    if let Entry::Var(number) = output {
        if !is_variable(number, first) {
            groups[0].variable = number;
            count = 1;
        }
    }
    for entry in inputs {
        if let Entry::Var(number) = *entry {
            if !is_variable(number, first) {
                count = add_variable(&mut groups, count, number);
            }
        }
    }
    (groups, count)
}

/// How many of the inputs are another entry.
fn others_than(inputs: &[Entry], entry: Entry) -> usize {
    inputs.iter().filter(|other| **other != entry).count()
}

/// The inputs, the most frequent ones first.
fn most_first(inputs: &[Entry]) -> [Entry; 8]
    requires { length inputs.now ≤ 8 }
    ensures { IsPermutation inputs.now (take (length inputs.now) result) }
{
    let mut ordered = [Entry::Fixed(0); 8];
    let places = &mut ordered[..inputs.len()];
    places.copy_from_slice(inputs);
    places.sort_unstable_by_key(|entry| others_than(inputs, *entry));
    ordered
}

/// The groups of the open inputs, those first that have most inputs, and how many they are. An open output's is the first of all.
pub(crate) fn groups_of(inputs: &[Entry], first: Entry, output: Entry) -> ([Group; 9], usize)
    requires { length inputs.now ≤ 8 }
    ensures count { result.1 ≤ 9 }
    ensures grouped { IsGrouped first output inputs.now (take result.1 result.0) }
{
    let (groups, count) = groups_in_order(inputs, first, output);
    if groups[..count].iter().all(|group| group.times < 2) {
        return (groups, count);
    }
    groups_in_order(&most_first(inputs)[..inputs.len()], first, output)
}
