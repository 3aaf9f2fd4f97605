//! The calls that step a pattern.

ghost use Rattle.std.specs.Prelude.{IfOk, IfErr, OnOk};
ghost use Rattle.library_calls.specs.Words.{Returns, Fits, SomeToRead, TellsText, IsStepped, IsSteppedBy, IsTextLater, RefusesLater, RefusesStepByWithin, RefusesStepWithin, StepsByTable};

use crate::options::Options;
use crate::reported::{Reported, refuse, tell};
use crate::seeds::seed_of_names;
use crate::texts::{Output, answer};
use life_base::Fault;
use life_reader::read;
use life_step::next_by_table;
use life_table::{Table, read_table_seeded};
use std::alloc::Global;

/// The canonical text of the next generation of the pattern of a file, under its B/S rule.
pub fn step(alloc: Global, bytes: &[u8], options: Options, out: &mut [u8]) -> Reported
    ensures answers { Returns (IsStepped bytes.now) (RefusesStepWithin options.limit bytes.now)
        out.old out.new result }
    ensures fits { TellsText result → Fits (SomeToRead bytes.now) options.limit }
{
    answer(alloc, bytes, Output::Next, options, out)
}

/// The canonical text of the pattern of a file so many generations later, under its B/S rule. There is no limit on cells. For 0 generations it is the
/// canonical text of the file, whatever its rule is.
pub fn step_generations(
    alloc: Global,
    bytes: &[u8],
    generations: u64,
    options: Options,
    out: &mut [u8],
) -> Reported
    ensures answers { Returns (IsTextLater generations bytes.now)
        (RefusesLater generations bytes.now) out.old out.new result }
    ensures fits { TellsText result → Fits (SomeToRead bytes.now) options.limit }
{
    answer(alloc, bytes, Output::Later(generations), options, out)
}

/// The text of the next generation of the pattern of a file, by a table.
fn next_of_file(
    alloc: Global,
    bytes: &[u8],
    table: &Table,
    options: Options,
) -> Result<Vec<u8>, Fault>
    ensures text { IfOk result (λ text. IsSteppedBy table.now bytes.now text.items) }
    ensures fits { OnOk result (Fits (SomeToRead bytes.now) options.limit) }
    ensures fault { IfErr result (RefusesStepByWithin table.now options.limit bytes.now) }
{
    let mut store = options.new_store(alloc);
    let found = read(alloc, &mut store, bytes);
    // Its contract says that a store holds each square once, and none that is blank. The proof counts them.
    let _ = store.len();
    let pattern = found?;
    let text = next_by_table(alloc, &mut store, pattern, table);
    // As above.
    let _ = store.len();
    text
}

/// `step` by a table that is read.
fn step_by(alloc: Global, bytes: &[u8], table: &Table, options: Options, out: &mut [u8]) -> Reported
    ensures answers { Returns (IsSteppedBy table.now bytes.now)
        (RefusesStepByWithin table.now options.limit bytes.now) out.old out.new result }
    ensures fits { TellsText result → Fits (SomeToRead bytes.now) options.limit }
{
    tell(next_of_file(alloc, bytes, table, options), out)
}

/// The canonical text of the next generation of the pattern of a file, by a rule table, whose file is `table`; and 1 where it is the table that is
/// refused, else 0.
pub fn step_by_table(
    alloc: Global,
    bytes: &[u8],
    table: &[u8],
    options: Options,
    out: &mut [u8],
) -> (Reported, u32)
    ensures steps { StepsByTable options.limit bytes.now table.now result.1 out.old out.new
        result.0 }
    ensures fits { TellsText result.0 → Fits (SomeToRead bytes.now) options.limit }
{
    match read_table_seeded(alloc, seed_of_names(options.seed), table) {
        Ok(table) => (step_by(alloc, bytes, &table, options, out), 0),
        Err(fault) => (refuse(&fault), 1),
    }
}
