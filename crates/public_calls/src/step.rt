//! Calls of `life_step`.

use life_base::StepFault;
use life_quad::Shared;
use life_step::{step_life, step_table};
use life_table::Table;
use std::alloc::Global;

pub fn life_step(alloc: Global, store: &mut Shared, bytes: &[u8]) -> Result<Vec<u8>, StepFault> {
    step_life(alloc, store, bytes)
}

pub fn table_step(
    alloc: Global,
    store: &mut Shared,
    bytes: &[u8],
    table: &Table,
) -> Result<Vec<u8>, StepFault> {
    step_table(alloc, store, bytes, table)
}
