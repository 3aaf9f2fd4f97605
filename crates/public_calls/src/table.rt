//! Calls of `life_table`.

ghost use Rattle.std.specs.Prelude.{◌≡◌, ◌+◌, ◌<◌, length, All};
ghost use Rattle.life_table.specs.Words.{neighbour_count, states_of_neighbours};

use life_base::{Fault, State, StepFault};
use life_table::{Neighbours, Table, read_table};
use std::alloc::Global;

pub fn table_read(alloc: Global, bytes: &[u8]) -> Result<Table, Fault> {
    read_table(alloc, bytes)
}

pub fn table_next(table: &Table, around: &Neighbours) -> Result<State, StepFault>
    requires neighbours { length (states_of_neighbours around.now)
        ≡ neighbour_count table.now.neighborhood + 1 }
    requires states { All (λ s. s < table.now.n_states) (states_of_neighbours around.now) }
{
    table.next(around)
}
