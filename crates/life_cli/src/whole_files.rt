//! Files that are read whole, and the step of such a file.

ghost use Rattle.std.specs.Prelude.{◌≡◌, ◌⊎◌, ◌^◌, IfSome, IfOk, IfErr, OnOk, IsErrAnd};
ghost use Rattle.life_cli.specs.Words.{SourceRun, source_run, ReadAll, fault_of, InputRefuses, IsStepped, ComesOf, RefusesLifeStep};

use life_base::{Fault, Kind, Source, read_within};
use life_quad::Shared;
use life_reader::read;
use life_step::{next_by_rows, next_by_rule};
use pattern_sources::{MOST_SQUARES, Seeds};
use std::alloc::Global;

/// The most bytes of a file that is read whole.
const LONGEST_FILE: u64 = 1 << 30;

/// The least size in bytes of a file that is read whole. A smaller file takes hardly any time either way.
const LEAST_BYTES: u64 = 1 << 12;

/// The least size in bytes of a file that would take too much memory if it were read whole.
const TOO_MANY_BYTES: u64 = 1 << 24;

/// Whether a file of about so many bytes is read whole, so that it can be stepped row by row.
pub(crate) fn is_read_whole(expected: u64) -> bool {
    (LEAST_BYTES..TOO_MANY_BYTES).contains(&expected)
}

/// The bytes of a source, read to its end.
pub(crate) fn read_whole<R: Source>(alloc: Global, reader: &mut R) -> Result<Vec<u8>, Fault>
    requires { R.failures reader.old ≡ 0 }
    ensures ok { IfOk result
        (λ bytes. ReadAll (2 ^ 30) (R.remaining reader.old) (R.remaining reader.new) bytes.items) }
    ensures err { IfErr result (λ fault. InputRefuses
        (source_run R.remaining R.failures reader.old reader.new) fault
        ⊎ (fault ≡ fault_of Kind.Memory)) }
    ensures works { OnOk result (R.failures reader.new ≡ 0) }
    ensures reported { R.failures reader.new ≡ 1
        → IsErrAnd result (λ fault. fault.kind ≡ Kind.ReadFault) }
{
    Ok(read_within(alloc, reader, LONGEST_FILE)?)
}

/// The text of the next generation of a file's pattern, where it can be stepped row by row. What it stored is gone when it returns.
fn next_in_rows(alloc: Global, seeds: &Seeds, bytes: &[u8]) -> Option<Vec<u8>>
    ensures { IfSome result (λ text. IsStepped bytes.now text.items) }
{
    let mut store = Shared::seeded(alloc, seeds.squares, MOST_SQUARES);
    next_by_rows(alloc, &mut store, bytes)
}

/// The text of the next generation of a file's pattern, whose squares are stored first. The bytes of the file are gone before it is stepped.
fn next_in_squares(alloc: Global, seeds: &Seeds, bytes: Vec<u8>) -> Result<Vec<u8>, Fault>
    ensures { (source : SourceRun) → ReadAll (2 ^ 30) source.before source.after bytes.items
        → source.failures ≡ 0
        → ComesOf (λ text. text.items) IsStepped RefusesLifeStep source result }
{
    let mut store = Shared::seeded(alloc, seeds.squares, MOST_SQUARES);
    let found = read(alloc, &mut store, &bytes);
    drop(bytes);
    // Its contract says that a store holds each square once, and none that is blank.
    let _ = store.len();
    let pattern = found?;
    let text = next_by_rule(alloc, &mut store, pattern);
    // The same of what the step has stored.
    let _ = store.len();
    text
}

/// The text of the next generation of a source's pattern, under its B/S rule. The source is read whole.
pub(crate) fn next_of_whole<A: Source>(
    alloc: Global,
    seeds: &Seeds,
    first: &mut A,
) -> Result<Vec<u8>, Fault>
    requires { A.failures first.old ≡ 0 }
    ensures { ComesOf (λ text. text.items) IsStepped RefusesLifeStep
        (source_run A.remaining A.failures first.old first.new) result }
{
    let bytes = read_whole(alloc, first)?;
    match next_in_rows(alloc, seeds, &bytes) {
        Some(text) => Ok(text),
        None => next_in_squares(alloc, seeds, bytes),
    }
}
