//! Types of `life_table`.

ghost use Rattle.life_table.specs.Valid.{IsSoundTable};

use life_base::{Items, Name, State};
use life_table::{Entry, Neighborhood, Neighbours, Symmetry, Table, Transition, Var};

/// `vars` and `lines` are small types over vectors, which they give back.
pub fn table_fields(
    table: Table,
) -> (Name, u16, Neighborhood, Symmetry, Vec<Var>, Vec<Transition>) {
    let Table {
        name,
        n_states,
        neighborhood,
        symmetry,
        vars,
        lines,
    } = table;
    (
        name,
        n_states,
        neighborhood,
        symmetry,
        vars.into_vec(),
        lines.into_vec(),
    )
}

pub fn table_made(
    name: Name,
    n_states: u16,
    neighborhood: Neighborhood,
    symmetry: Symmetry,
    vars: Vec<Var>,
    lines: Vec<Transition>,
) -> Table
    requires { IsSoundTable n_states neighborhood symmetry vars.items lines.items }
{
    Table {
        name,
        n_states,
        neighborhood,
        symmetry,
        vars: Items::from_vec(vars),
        lines: Items::from_vec(lines),
    }
}

pub fn var_made(name: Vec<u8>, states: [u64; 4]) -> Var {
    Var {
        name: Items::from_vec(name),
        states,
    }
}

pub fn transition_made(line: u64, inputs: Vec<Entry>, output: Entry) -> Transition {
    Transition {
        line,
        inputs: Items::from_vec(inputs),
        output,
    }
}

pub fn neighbours_variants(around: Neighbours) -> bool {
    match around {
        Neighbours::Four(_) => true,
        Neighbours::Eight(_) => false,
    }
}

pub fn neighborhood_variants(neighborhood: Neighborhood) -> bool {
    match neighborhood {
        Neighborhood::VonNeumann => true,
        Neighborhood::Moore => false,
    }
}

pub fn symmetry_variants(symmetry: Symmetry) -> u8 {
    match symmetry {
        Symmetry::Identity => 0,
        Symmetry::Rotate4 => 1,
        Symmetry::Rotate4Reflect => 2,
        Symmetry::ReflectHorizontal => 3,
        Symmetry::Permute => 4,
        Symmetry::Rotate8 => 5,
        Symmetry::Rotate8Reflect => 6,
    }
}

pub fn var_fields(var: Var) -> (Vec<u8>, [u64; 4]) {
    let Var { name, states } = var;
    (name.into_vec(), states)
}

pub fn transition_fields(transition: Transition) -> (u64, Vec<Entry>, Entry) {
    let Transition {
        line,
        inputs,
        output,
    } = transition;
    (line, inputs.into_vec(), output)
}

pub fn fixed(state: State) -> Entry {
    Entry::Fixed(state)
}

pub fn var(number: u64) -> Entry {
    Entry::Var(number)
}

pub fn entry_variants(entry: Entry) -> bool {
    match entry {
        Entry::Fixed(_) => true,
        Entry::Var(_) => false,
    }
}

pub fn four(cells: [State; 5]) -> Neighbours {
    Neighbours::Four(cells)
}

pub fn eight(cells: [State; 9]) -> Neighbours {
    Neighbours::Eight(cells)
}
