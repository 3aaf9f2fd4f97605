//! Tests of `life_table`.

mod large;
mod orders;
