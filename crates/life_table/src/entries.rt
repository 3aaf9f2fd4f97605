//! Entries of variables and transitions.

ghost use Rattle.std.specs.Prelude.{◌≡◌, ◌≤◌, IfOk, IfErr, option_map, option_and_then};
ghost use Rattle.life_table.specs.Words.{entry_of, single, union, states_of_entry, states_listed, entries_of, AreEntriesOf, between_commas, bytes_alone, IsMemory};

use crate::by_name::Variables;
use crate::table::Entry;
use crate::words::{first_part, has_byte, number_below};
use life_base::{Kind, State, is_digit_text, is_whitespace, trimmed};
use std::alloc::Global;

/// What an entry may be where it is read: a state below the number of states, or one of the variables so far.
#[derive(Clone, Copy)]
pub(crate) struct Scope<'a> {
    pub(crate) n_states: u16,
    pub(crate) vars: &'a Variables,
}

/// The set of one state.
fn single(state: State) -> [u64; 4]
    ensures { result ≡ single state }
{
    let mut states = [0; 4];
    states[state as usize / 64] = 1 << (state % 64);
    states
}

/// Adds the states of another set.
fn unite(states: &mut [u64; 4], more: &[u64; 4])
    ensures { states.new ≡ union states.old more.now }
{
    *states = [
        states[0] | more[0],
        states[1] | more[1],
        states[2] | more[2],
        states[3] | more[3],
    ];
}

/// The states of an entry.
fn states_of_entry(vars: &Variables, entry: Entry) -> Option<[u64; 4]>
    ensures { result ≡ states_of_entry vars.now entry }
{
    match entry {
        Entry::Fixed(state) => Some(single(state)),
        Entry::Var(number) => vars.states_of(number),
    }
}

impl<'a> Scope<'a> {
    /// The entry that a word writes.
    #[tactic(auto, unfolding(crate::specs::Reading::entry_of))]
    fn entry_of(&self, word: &[u8]) -> Option<Entry>
        requires most { self.now.n_states ≤ 256 }
        ensures { result ≡ entry_of self.now.n_states self.now.vars.now word.now }
    {
        if is_digit_text(word) {
            return Some(Entry::Fixed(number_below(word, self.n_states as u64)? as State));
        }
        Some(Entry::Var(self.vars.number_of(word)? as u64))
    }

    /// The states of the entry that a word writes.
    fn states_named(&self, word: &[u8]) -> Option<[u64; 4]>
        requires most { self.now.n_states ≤ 256 }
        ensures { result ≡ option_and_then (states_of_entry self.now.vars.now)
            (entry_of self.now.n_states self.now.vars.now word.now) }
    {
        states_of_entry(self.vars, self.entry_of(word)?)
    }

    /// The states of all entries in a list.
    #[tactic(auto, unfolding(crate::specs::Reading::states_listed))]
    pub(crate) fn states_listed(&self, list: &[u8]) -> Option<[u64; 4]>
        requires most { self.now.n_states ≤ 256 }
        ensures { result ≡ states_listed self.now.n_states self.now.vars.now list.now }
    {
        let mut states = [0; 4];
        let mut rest = Some(list);
        while let Some(left) = rest {
            let (word, behind) = first_part(left);
            unite(&mut states, &self.states_named(trimmed(word))?);
            rest = behind;
        }
        Some(states)
    }

    /// The entries of a text between its commas, if each is one.
    fn between_commas(&self, alloc: Global, text: &[u8]) -> Result<Option<Vec<Entry>>, Kind>
        requires most { self.now.n_states ≤ 256 }
        ensures ok { IfOk result
            (AreEntriesOf self.now.n_states self.now.vars.now (between_commas text.now)) }
        ensures err { IfErr result IsMemory }
    {
        let mut entries = Vec::new(alloc);
        let mut rest = Some(text);
        while let Some(left) = rest {
            let (word, more) = first_part(left);
            let Some(entry) = self.entry_of(trimmed(word)) else {
                return Ok(None);
            };
            entries.push(entry)?;
            rest = more;
        }
        Ok(Some(entries))
    }

    /// The entries of a text without commas, one for each byte that isn't whitespace, if each is one.
    fn of_bytes(&self, alloc: Global, text: &[u8]) -> Result<Option<Vec<Entry>>, Kind>
        requires most { self.now.n_states ≤ 256 }
        ensures ok { IfOk result
            (AreEntriesOf self.now.n_states self.now.vars.now (bytes_alone text.now)) }
        ensures err { IfErr result IsMemory }
    {
        let mut entries = Vec::new(alloc);
        for byte in text {
            if !is_whitespace(*byte) {
                let Some(entry) = self.entry_of(&[*byte]) else {
                    return Ok(None);
                };
                entries.push(entry)?;
            }
        }
        Ok(Some(entries))
    }

    /// The entries of a transition, if each of its words is one.
    #[tactic(auto, unfolding(crate::specs::Reading::entries_of))]
    pub(crate) fn entries_of(&self, alloc: Global, text: &[u8]) -> Result<Option<Vec<Entry>>, Kind>
        requires most { self.now.n_states ≤ 256 }
        ensures ok { IfOk result (λ found. option_map (λ entries. entries.items) found
            ≡ entries_of self.now.n_states self.now.vars.now text.now) }
        ensures err { IfErr result IsMemory }
    {
        if has_byte(text, b',') {
            self.between_commas(alloc, text)
        } else {
            self.of_bytes(alloc, text)
        }
    }
}
