//! Calls of `life_table`.

ghost use Rattle.std.specs.Prelude.{◌<◌, All, IsTrue};

use crate::answer::{Answer, Show, show_list};
use crate::row::{first_of, number_of};
use life_base::{Fault, State};
use life_table::{
    Entry, NameSeed, Neighborhood, Neighbours, Symmetry, Table, Transition, Var, read_table_seeded,
};
use std::alloc::Global;

/// The table that a text is.
pub(crate) fn table_of(alloc: Global, text: &[u8]) -> Result<Table, Fault> {
    read_table_seeded(alloc, NameSeed::fixed(), text)
}

/// The name of a neighbourhood.
fn name_of_neighborhood(neighborhood: Neighborhood) -> &'static str {
    match neighborhood {
        Neighborhood::VonNeumann => "VonNeumann",
        Neighborhood::Moore => "Moore",
    }
}

/// The name of a symmetry.
fn name_of_symmetry(symmetry: Symmetry) -> &'static str {
    match symmetry {
        Symmetry::Identity => "Identity",
        Symmetry::Rotate4 => "Rotate4",
        Symmetry::Rotate4Reflect => "Rotate4Reflect",
        Symmetry::ReflectHorizontal => "ReflectHorizontal",
        Symmetry::Permute => "Permute",
        Symmetry::Rotate8 => "Rotate8",
        Symmetry::Rotate8Reflect => "Rotate8Reflect",
    }
}

/// Adds the name, the number of states, the neighbours and the symmetry of a table.
fn show_settings(out: &mut Answer, table: &Table) {
    out.bytes(table.name.bytes());
    show_list(out, " ", "", &[u64::from(table.n_states)]);
    out.text(" ");
    out.text(name_of_neighborhood(table.neighborhood));
    out.text(" ");
    out.text(name_of_symmetry(table.symmetry));
}

impl Show for Var {
    /// The name and the four words of the states.
    fn show(&self, out: &mut Answer) {
        out.bytes(self.name.as_slice());
        show_list(out, "=", ",", &self.states);
    }
}

impl Show for Entry {
    /// A state, or `v` and the number of a variable.
    fn show(&self, out: &mut Answer) {
        match self {
            Entry::Fixed(state) => state.show(out),
            Entry::Var(number) => show_list(out, "v", "", &[u64::from(*number)]),
        }
    }
}

impl Show for Transition {
    /// The line and the entries.
    fn show(&self, out: &mut Answer) {
        self.line.show(out);
        show_list(out, ":", ",", self.inputs.as_slice());
        out.text(",");
        self.output.show(out);
    }
}

/// The states that a text writes, with a comma between each two: five or nine, as many as the neighbourhood needs.
fn states_of(out: &mut Answer, text: &[u8]) -> ([State; 9], usize) {
    let mut states = [0; 9];
    let mut rest = text;
    for place in 0..9 {
        let (word, others) = first_of(rest, b",");
        states[place] = number_of(out, word).min(255) as u8;
        rest = others;
        if rest.is_empty() {
            return (states, place + 1);
        }
    }
    (states, 10)
}

/// Whether each of these states is one of the table's.
fn has_states(table: &Table, cells: &[State]) -> bool
    ensures { IsTrue result → All (λ s. s < table.now.n_states) cells.now }
{
    cells.iter().all(|state| u16::from(*state) < table.n_states)
}

/// The state that a table makes of a cell and its neighbours; or the line and the kind of a fault.
fn show_next(out: &mut Answer, table: &Table, states: &[u8]) {
    let (states, count) = states_of(out, states);
    let [c, n, e, s, w, _, _, _, _] = states;
    if !has_states(table, &states) {
        out.is_bad = true;
    } else if count == 5 && table.neighborhood == Neighborhood::VonNeumann {
        table.next(&Neighbours::Four([c, n, e, s, w])).show(out);
    } else if count == 9 && table.neighborhood == Neighborhood::Moore {
        table.next(&Neighbours::Eight(states)).show(out);
    } else {
        out.is_bad = true;
    }
}

/// A call.
#[derive(Clone, Copy)]
pub(crate) enum Call {
    /// That a table is read.
    Read,
    /// Its settings and how many variables and transitions it has.
    Counts,
    /// Its settings, its variables and its transitions.
    Whole,
    /// The state that it makes of a cell and its neighbours.
    Next,
}

/// Adds what a call answers to a table, and to the states of a cell and its neighbours.
pub(crate) fn answer(alloc: Global, out: &mut Answer, call: Call, text: &[u8], states: &[u8]) {
    let table = match table_of(alloc, text) {
        Ok(table) => table,
        Err(fault) => return fault.show(out),
    };
    let vars = table.vars.as_slice();
    let lines = table.lines.as_slice();
    match call {
        Call::Read => out.text("read"),
        Call::Counts => {
            show_settings(out, &table);
            show_list(out, " ", " ", &[vars.len() as u64, lines.len() as u64]);
        }
        Call::Whole => {
            show_settings(out, &table);
            show_list(out, " ", " ", vars);
            show_list(out, " ", " ", lines);
        }
        Call::Next => show_next(out, &table, states),
    }
}
