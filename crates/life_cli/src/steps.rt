//! The work of the jobs that step a pattern.

ghost use Rattle.std.specs.Prelude.{◌≡◌, ◌⊎◌, IfOk, IfErr, IsErrAnd};
ghost use Rattle.life_cli.specs.Words.{source_run, IsStepped, IsSteppedBy, OfTable, ComesOf, RefusesLifeStep, RefusesStepBy, HasTable, HasNoTable, HasTextByTable, HasNoTextByTable};

use crate::whole_files::{is_read_whole, next_of_whole, read_whole};
use life_base::{Fault, Kind, Source};
use life_quad::Shared;
use life_step::{next_by_rule, next_by_table};
use life_table::{Table, read_table_seeded};
use pattern_sources::{MOST_SQUARES, Refusal, Seeds, pattern_of};
use std::alloc::Global;

/// The text of the next generation of a source's pattern, under its B/S rule. A source of some thousand to some million bytes is read whole, because its
/// pattern can be stepped row by row then.
pub(crate) fn next_of<A: Source>(
    alloc: Global,
    seeds: &Seeds,
    first: &mut A,
) -> Result<Vec<u8>, Fault>
    requires { A.failures first.old ≡ 0 }
    ensures { ComesOf (λ text. text.items) IsStepped RefusesLifeStep
        (source_run A.remaining A.failures first.old first.new) result }
{
    if is_read_whole(first.expected()) {
        return next_of_whole(alloc, seeds, first);
    }
    let mut store = Shared::seeded(alloc, seeds.squares, MOST_SQUARES);
    let pattern = pattern_of(alloc, &mut store, first)?;
    let text = next_by_rule(alloc, &mut store, pattern);
    // As in `pattern_of`.
    let _ = store.len();
    text
}

/// The text of the next generation of a source's pattern, by a table.
fn next_by<A: Source>(
    alloc: Global,
    seeds: &Seeds,
    first: &mut A,
    table: &Table,
) -> Result<Vec<u8>, Fault>
    requires { A.failures first.old ≡ 0 }
    ensures { ComesOf (λ text. text.items) (IsSteppedBy table.now) (RefusesStepBy table.now)
        (source_run A.remaining A.failures first.old first.new) result }
{
    let mut store = Shared::seeded(alloc, seeds.squares, MOST_SQUARES);
    let pattern = pattern_of(alloc, &mut store, first)?;
    let text = next_by_table(alloc, &mut store, pattern, table);
    // As in `pattern_of`.
    let _ = store.len();
    text
}

/// The rule table of a source.
fn table_in<B: Source>(alloc: Global, seeds: &Seeds, source: &mut B) -> Result<Table, Fault>
    requires { B.failures source.old ≡ 0 }
    ensures ok { IfOk result (HasTable (source_run B.remaining B.failures source.old source.new)) }
    ensures err { IfErr result
        (HasNoTable (source_run B.remaining B.failures source.old source.new)) }
    ensures reported { B.failures source.new ≡ 1
        → IsErrAnd result (λ fault. fault.kind ≡ Kind.ReadFault) }
{
    let bytes = read_whole(alloc, source)?;
    read_table_seeded(alloc, seeds.names, bytes.as_slice())
}

/// The same, and a refusal that is the table's.
pub(crate) fn table_of<B: Source>(
    alloc: Global,
    seeds: &Seeds,
    source: &mut B,
) -> Result<Table, Refusal>
    requires { B.failures source.old ≡ 0 }
    ensures ok { IfOk result (HasTable (source_run B.remaining B.failures source.old source.new)) }
    ensures err { IfErr result
        (OfTable (HasNoTable (source_run B.remaining B.failures source.old source.new))) }
    ensures reported { B.failures source.new ≡ 1
        → IsErrAnd result (λ refusal. refusal.fault.kind ≡ Kind.ReadFault) }
{
    match table_in(alloc, seeds, source) {
        Ok(table) => Ok(table),
        Err(fault) => Err(Refusal {
            fault,
            in_table: true,
            of_second: false,
            made: 0,
        }),
    }
}

/// The text of the next generation of the first source's pattern, by the rule table of the second one, which is read before.
pub(crate) fn next_by_table_of<A: Source, B: Source>(
    alloc: Global,
    seeds: &Seeds,
    first: &mut A,
    second: &mut B,
) -> Result<Vec<u8>, Refusal>
    requires first_reads { A.failures first.old ≡ 0 }
    requires second_reads { B.failures second.old ≡ 0 }
    ensures ok { IfOk result (λ text. HasTextByTable
        (source_run A.remaining A.failures first.old first.new)
        (source_run B.remaining B.failures second.old second.new) text.items) }
    ensures err { IfErr result (HasNoTextByTable
        (source_run A.remaining A.failures first.old first.new)
        (source_run B.remaining B.failures second.old second.new)) }
    ensures reported { (A.failures first.new ≡ 1) ⊎ (B.failures second.new ≡ 1)
        → IsErrAnd result (λ refusal. refusal.fault.kind ≡ Kind.ReadFault) }
{
    let table = table_of(alloc, seeds, second)?;
    Ok(next_by(alloc, seeds, first, &table)?)
}
