//! Tests of `life_base`, except for its devices: those are in `cli_tests`, with the tests of jobs on the same readers and writers.

mod kinds;
mod texts;
