//! The neighbours under `permute`: by counts, and in each of their orders.
ghost use Rattle.std.specs.Prelude.{◌≡◌, ◌<◌, All};

use life_base::{Fault, Kind, Place, State};
use life_table::{
    Entry, NameSeed, Neighborhood, Neighbours, Symmetry, Table, Transition, read_table_seeded,
};
use std::alloc::{AllocError, Global};
use std::process::Abort;
use std::rt::HostRuntime;

const HEAD: &str =
    "@RULE A\n@TABLE\nn_states:3\nneighborhood:vonNeumann\nsymmetries:permute\nvar a={0,1,2}\nvar b={0,1,2}\n";

/// The table that texts write one after another.
fn read_texts(alloc: Global, texts: &[&str]) -> Result<Result<Table, Fault>, AllocError> {
    let mut bytes = Vec::new(alloc);
    for text in texts {
        bytes.extend_from_slice(text.as_bytes())?;
    }
    Ok(read_table_seeded(alloc, NameSeed::fixed(), &bytes))
}

/// The table that texts write one after another, and no refusal.
fn table_of(rt: &impl Abort, alloc: Global, texts: &[&str]) -> Table {
    let answer = read_texts(alloc, texts).expect(rt, "memory");
    answer.expect(rt, "table")
}

/// The states that a line gives: none, one, or more than one.
#[derive(Clone, Copy)]
enum Given {
    Nothing,
    One(State),
    More,
}

/// The state of an entry where the two variables have these states.
fn state_of(entry: Entry, choice: [State; 2]) -> State {
    match entry {
        Entry::Fixed(state) => state,
        Entry::Var(0) => choice[0],
        Entry::Var(_) => choice[1],
    }
}

/// What the line gives if its entries have these states, after what it gave before.
fn with_choice(line: &Transition, cells: &[State; 5], choice: [State; 2], given: Given) -> Given {
    for (entry, cell) in line.inputs.as_slice().iter().zip(cells) {
        if state_of(*entry, choice) != *cell {
            return given;
        }
    }
    let output = state_of(line.output, choice);
    match given {
        Given::Nothing => Given::One(output),
        Given::One(state) if state == output => given,
        Given::One(_) | Given::More => Given::More,
    }
}

/// What a line gives at one cell, with each choice for two variables of three states tried.
fn by_choices(line: &Transition, cells: &[State; 5], given: Given) -> Given {
    let mut given = given;
    for a in 0..3 {
        for b in 0..3 {
            given = with_choice(line, cells, [a, b], given);
        }
    }
    given
}

/// What a line gives at one cell, with each order of the neighbours tried.
fn by_orders(line: &Transition, cells: [State; 5]) -> Given {
    let mut given = Given::Nothing;
    for first in 1..5 {
        for second in 2..5 {
            for third in 3..5 {
                let mut image = cells;
                image.swap(1, first);
                image.swap(2, second);
                image.swap(3, third);
                given = by_choices(line, &image, given);
            }
        }
    }
    given
}

/// The next state of a cell by a table with two variables of three states, with each order of its neighbours tried.
fn next_by_orders(table: &Table, cells: [State; 5]) -> Result<State, Fault> {
    for line in table.lines.as_slice() {
        match by_orders(line, cells) {
            Given::Nothing => {}
            Given::One(state) => return Ok(state),
            Given::More => return Err(ambiguous(line.line)),
        }
    }
    Ok(cells[0])
}

fn ambiguous(line: u64) -> Fault {
    Fault {
        place: Place { line },
        kind: Kind::Ambiguous,
    }
}

/// The cell and its neighbours with this number among the 243 of three states.
fn cells_at(number: usize) -> [State; 5]
    ensures { All (λ s. s < 3) result }
{
    [
        (number / 81 % 3) as State,
        (number / 27 % 3) as State,
        (number / 9 % 3) as State,
        (number / 3 % 3) as State,
        (number % 3) as State,
    ]
}

/// The table of the head with a transition on line 8.
fn table_with(rt: &impl Abort, alloc: Global, line: &str) -> Table
    ensures neighborhood { result.neighborhood ≡ Neighborhood.VonNeumann }
    ensures states { result.n_states ≡ 3 }
{
    let table = table_of(rt, alloc, &[HEAD, line]);
    assert!(rt; table.neighborhood == Neighborhood::VonNeumann && table.n_states == 3);
    assert!(rt; table.symmetry == Symmetry::Permute);
    table
}

/// A table gives this at a cell with each order of its neighbours tried.
fn assert_next_by_orders(
    rt: &impl Abort,
    table: &Table,
    line: &str,
    cells: [State; 5],
    wanted: Result<State, Fault>,
) {
    let is_wanted = next_by_orders(table, cells) == wanted;
    assert!(rt; is_wanted, "{line} {cells:?}");
}

#[test]
fn counts_agree_with_all_orders(rt: HostRuntime) {
    for line in &["0,a,a,b,b,a\n", "0,a,a,a,b,a\n"] {
        let table = table_with(&rt, rt.alloc(), line);
        for number in 0..243 {
            let cells = cells_at(number);
            let answer = table.next(&Neighbours::Four(cells));
            assert_next_by_orders(&rt, &table, line, cells, answer);
        }
    }
}
