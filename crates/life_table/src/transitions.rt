//! Transitions of a rule table.

ghost use Rattle.std.specs.Prelude.{◌≡◌, ◌≤◌, List, IfOk, IfErr, Some, true, not, ◌||◌};
ghost use Rattle.life_table.specs.Words.{list_any, list_all, transition_of, is_bound, if_transition, neighbour_count, is_variable, allows_zero, fits_zero, is_quiet_output, is_quiet, IsMemory};

use crate::by_name::Variables;
use crate::directive::Directive;
use crate::entries::Scope;
use crate::table::{Entry, Neighborhood, Transition};
use life_base::{Items, Kind};
use std::alloc::Global;

/// How many neighbours a cell has.
pub(crate) fn neighbour_count(neighborhood: Neighborhood) -> usize
    ensures { result ≡ neighbour_count neighborhood }
{
    match neighborhood {
        Neighborhood::VonNeumann => 4,
        Neighborhood::Moore => 8,
    }
}

/// The transition that a line writes, if it writes one.
#[tactic(auto, unfolding(crate::specs::Reading::transition_of))]
pub(crate) fn transition_of(
    alloc: Global,
    n_states: u16,
    neighborhood: Neighborhood,
    vars: &Variables,
    number: u64,
    text: &[u8],
) -> Result<Option<Transition>, Kind>
    requires most { n_states ≤ 256 }
    ensures ok { IfOk result (λ found. found ≡ transition_of n_states
        (neighbour_count neighborhood) vars.now number text.now) }
    ensures err { IfErr result IsMemory }
{
    let scope = Scope { n_states, vars };
    let Some(mut parts) = scope.entries_of(alloc, text)? else {
        return Ok(None);
    };
    if parts.len() != neighbour_count(neighborhood) + 2 {
        return Ok(None);
    }
    match parts.pop() {
        Some(output) => Ok(Some(Transition {
            line: number,
            inputs: Items::from_vec(parts),
            output,
        })),
        None => Ok(None),
    }
}

/// Whether an entry is the variable with this number.
pub(crate) fn is_variable(number: u64, entry: Entry) -> bool
    ensures { result ≡ is_variable number entry }
{
    match entry {
        Entry::Fixed(_) => false,
        Entry::Var(other) => number == other,
    }
}

/// Whether one of the entries is the variable with this number.
fn has_variable(number: u64, entries: &[Entry]) -> bool
    ensures { result ≡ list_any (is_variable number) entries.now }
{
    entries.iter().any(|entry| is_variable(number, *entry))
}

/// Whether an output variable is an input.
fn is_bound(inputs: &[Entry], output: Entry) -> bool
    ensures { result ≡ is_bound inputs.now output }
{
    match output {
        Entry::Fixed(_) => true,
        Entry::Var(number) => has_variable(number, inputs),
    }
}

/// Whether an entry may be 0.
#[tactic(auto, using(crate::proofs::Lookup::may_be_zero))]
fn allows_zero(vars: &Variables, entry: Entry) -> bool
    ensures { result ≡ allows_zero vars.now entry }
{
    match entry {
        Entry::Fixed(state) => state == 0,
        Entry::Var(number) => match vars.states_of(number) {
            Some(states) => states[0] % 2 == 1,
            None => false,
        },
    }
}

/// Whether the transition fits the neighbourhood in which each cell is 0.
pub(crate) fn fits_zero(vars: &Variables, inputs: &[Entry]) -> bool
    ensures { result ≡ list_all (allows_zero vars.now) inputs.now }
{
    inputs.iter().all(|entry| allows_zero(vars, *entry))
}

/// Whether an output is no fixed state but 0.
fn is_quiet_output(output: Entry) -> bool
    ensures { result ≡ is_quiet_output output }
{
    match output {
        Entry::Fixed(state) => state == 0,
        Entry::Var(_) => true,
    }
}

/// Whether a transition keeps the table quiet, given whether an earlier one fits the neighbourhood in which each cell is 0.
fn stays_quiet(vars: &Variables, fits: bool, line: &Transition) -> bool
    ensures { result ≡ (fits || not (fits_zero vars.now line.now) || is_quiet_output
        line.now.output) }
{
    fits || !fits_zero(vars, line.inputs.as_slice()) || is_quiet_output(line.output)
}

/// What a transition adds to others, or which rule it breaks. `fits` says whether one of those fits the neighbourhood in which
/// each cell is 0.
pub(crate) fn parse_transition(
    vars: &Variables,
    fits: bool,
    line: Transition,
) -> Result<Directive, Kind>
    ensures { (earlier : List Transition) → fits ≡ list_any (fits_zero vars.now) earlier
        → is_quiet vars.now earlier ≡ true → result ≡ if_transition vars.now earlier (Some line) }
{
    if !is_bound(line.inputs.as_slice(), line.output) {
        return Err(Kind::UnboundOutput);
    }
    if stays_quiet(vars, fits, &line) {
        return Ok(Directive::Line(line));
    }
    Err(Kind::NotQuiet)
}
