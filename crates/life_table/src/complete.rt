//! The search for states of the open variables.
ghost use Rattle.std.specs.Prelude.{◌≡◌, ◌^◌, ◌<◌, ◌≤◌, ◌↔◌, slice_get, length, drop, slice_index, IfSome, IsTrue};
ghost use Rattle.life_table.specs.Words.{bit_at, HasState, IsFoundOf, free_count, GroupTakes, IsSearch, Completes, CompletesWith, AreFailed};

use crate::choose::{has_state, with_state};
use crate::found::Found;
use crate::groups::Group;
use crate::places::without;
use crate::table::Var;
use life_base::State;

/// The places that stay free where a variable is the state at this place, if it can be.
fn with_place(vars: &[Var], group: Group, states: &[State], free: u8, place: usize) -> Option<u8>
    requires size { length states.now ≤ 8 }
    requires place { place < length states.now }
    requires variable { group.variable < length vars.now }
    ensures some { IfSome result (λ rest. GroupTakes vars.now group states.now place free rest) }
    ensures none { result ≡ None → bit_at free place ≡ 1
        → IfSome (slice_get vars.now group.variable)
        (λ var. HasState var (slice_index states.now place))
        → free_count (slice_index states.now place) free states.now < group.times }
{
    let s = states[place];
    if free >> place & 1 == 1 && has_state(&vars[group.variable as usize], s) {
        without(states, free, s, group.times)
    } else {
        None
    }
}

/// Whether the groups from number `k` on can take exactly the free places. `failed` holds, for each set of free places, one more than
/// the number of the group that failed with it last, or 0.
fn completes(
    vars: &[Var],
    groups: &[Group],
    k: usize,
    states: &[State],
    free: u8,
    failed: &mut [u8; 256],
) -> bool
    requires k { k ≤ length groups.now }
    requires search { IsSearch vars.now groups.now states.now }
    requires free { free < 2 ^ length states.now }
    requires failed { AreFailed vars.now groups.now states.now failed.old }
    ensures completes { IsTrue result ↔ Completes vars.now (drop k groups.now) states.now free }
    ensures failed { AreFailed vars.now groups.now states.now failed.new }
{
    if k == groups.len() {
        return free == 0;
    }
    if failed[free as usize] as usize == k + 1 {
        return false;
    }
    for place in 0..states.len() {
        if let Some(rest) = with_place(vars, groups[k], states, free, place) {
            if completes(vars, groups, k + 1, states, rest, failed) {
                return true;
            }
        }
    }
    failed[free as usize] = k as u8 + 1;
    false
}

/// Whether the groups can take exactly the free places.
pub(crate) fn can_complete(vars: &[Var], groups: &[Group], states: &[State], free: u8) -> bool
    requires search { IsSearch vars.now groups.now states.now }
    requires free { free < 2 ^ length states.now }
    ensures { IsTrue result ↔ Completes vars.now groups.now states.now free }
{
    if groups.is_empty() {
        free == 0
    } else {
        let mut failed = [0; 256];
        completes(vars, groups, 0, states, free, &mut failed)
    }
}

/// The states of the first group's variable with which the groups can take exactly the free places.
pub(crate) fn first_states(vars: &[Var], groups: &[Group], states: &[State], free: u8) -> Found
    requires search { IsSearch vars.now groups.now states.now }
    requires free { free < 2 ^ length states.now }
    requires some { 0 < length groups.now }
    ensures { IsFoundOf (CompletesWith vars.now groups.now states.now free) result }
{
    let mut failed = [0; 256];
    let mut found = Found::Nothing;
    for (place, s) in states.iter().enumerate() {
        if let Some(rest) = with_place(vars, groups[0], states, free, place) {
            if completes(vars, groups, 1, states, rest, &mut failed) {
                found = with_state(found, *s);
                if let Found::Two = found {
                    return found;
                }
            }
        }
    }
    found
}
