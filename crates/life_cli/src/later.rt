//! The work of the jobs that take a pattern many generations further.

ghost use Rattle.std.specs.Prelude.{◌≡◌, ◌⊎◌, List, ℕ, false, IfOk, IfErr, IsErrAnd};
ghost use Rattle.life_cli.specs.Words.{source_run, ComesOf, HasText, IsCanonical, IsSteppedBy, IsTextLater, RefusesGenerations, IsSteppedTimes, RefusesStepOf, RefusesTimes, HasNoTextLater, HasTextLaterByTable, HasNoTextLaterByTable};

use crate::steps::table_of;
use command_line::Form;
use life_base::{Fault, Kind, MAX_LEVEL, Source};
use life_generations::later_by_rule;
use life_quad::Shared;
use life_step::step_table;
use life_table::Table;
use pattern_sources::{MOST_SQUARES, Refusal, Seeds, pattern_of, text_of_source};
use std::alloc::Global;

/// The text of a source's pattern so many generations later, under its B/S rule.
pub(crate) fn later_of<A: Source>(
    alloc: Global,
    seeds: &Seeds,
    generations: u64,
    first: &mut A,
) -> Result<Vec<u8>, Fault>
    requires { A.failures first.old ≡ 0 }
    ensures { ComesOf (λ text. text.items) (IsTextLater generations)
        (RefusesGenerations generations)
        (source_run A.remaining A.failures first.old first.new) result }
{
    let mut store = Shared::seeded(alloc, seeds.squares, MOST_SQUARES);
    let pattern = pattern_of(alloc, &mut store, first)?;
    later_by_rule(alloc, &mut store, pattern, generations)
}

/// The text of the next generation of the pattern that a text says, by a table, where so many generations were made before. What it stored is gone when it
/// returns.
fn next_of_text(
    alloc: Global,
    seeds: &Seeds,
    table: &Table,
    text: &[u8],
    made: u64,
) -> Result<Vec<u8>, Refusal>
    ensures ok { IfOk result (λ next. IsSteppedBy table.now text.now next.items) }
    ensures err { IfErr result (λ refusal. (refusal.in_table ≡ false) × (refusal.made ≡ made)
        × RefusesStepOf table.now text.now refusal.fault) }
{
    let mut store = Shared::seeded(alloc, seeds.squares, MOST_SQUARES);
    match step_table(alloc, &mut store, text, table) {
        Ok(next) => Ok(next),
        Err(fault) => Err(Refusal {
            fault,
            in_table: false,
            of_second: false,
            made,
        }),
    }
}

/// The text after so many steps by a table, from the canonical text of a file. Each step takes the text of the one before.
fn text_after(
    alloc: Global,
    seeds: &Seeds,
    table: &Table,
    text: Vec<u8>,
    generations: u64,
) -> Result<Vec<u8>, Refusal>
    ensures ok { IfOk result (λ last. (file : List ℕ) → IsCanonical MAX_LEVEL file text.items
        → IsSteppedTimes table.now generations file last.items) }
    ensures err { IfErr result (λ refusal. (refusal.in_table ≡ false)
        × ((file : List ℕ) → IsCanonical MAX_LEVEL file text.items
        → RefusesTimes table.now generations file refusal)) }
{
    let mut now = text;
    let mut made = 0;
    while made < generations {
        now = match next_of_text(alloc, seeds, table, now.as_slice(), made) {
            Ok(next) => next,
            Err(refusal) => return Err(refusal),
        };
        made += 1;
    }
    Ok(now)
}

/// The text of a source's pattern so many generations later, by a table.
fn later_by<A: Source>(
    alloc: Global,
    seeds: &Seeds,
    generations: u64,
    first: &mut A,
    table: &Table,
) -> Result<Vec<u8>, Refusal>
    requires { A.failures first.old ≡ 0 }
    ensures ok { IfOk result (λ text. HasText (IsSteppedTimes table.now generations)
        (source_run A.remaining A.failures first.old first.new) text.items) }
    ensures err { IfErr result (λ refusal. (refusal.in_table ≡ false)
        × HasNoTextLater table.now generations
        (source_run A.remaining A.failures first.old first.new) refusal) }
    ensures reported { A.failures first.new ≡ 1
        → IsErrAnd result (λ refusal. refusal.fault.kind ≡ Kind.ReadFault) }
{
    let text = text_of_source(alloc, seeds, Form::Placed, first)?;
    text_after(alloc, seeds, table, text, generations)
}

/// The text of the first source's pattern so many generations later, by the rule table of the second one, which is read before.
pub(crate) fn later_by_table_of<A: Source, B: Source>(
    alloc: Global,
    seeds: &Seeds,
    generations: u64,
    first: &mut A,
    second: &mut B,
) -> Result<Vec<u8>, Refusal>
    requires first_reads { A.failures first.old ≡ 0 }
    requires second_reads { B.failures second.old ≡ 0 }
    ensures ok { IfOk result (λ text. HasTextLaterByTable generations
        (source_run A.remaining A.failures first.old first.new)
        (source_run B.remaining B.failures second.old second.new) text.items) }
    ensures err { IfErr result (HasNoTextLaterByTable generations
        (source_run A.remaining A.failures first.old first.new)
        (source_run B.remaining B.failures second.old second.new)) }
    ensures reported { (A.failures first.new ≡ 1) ⊎ (B.failures second.new ≡ 1)
        → IsErrAnd result (λ refusal. refusal.fault.kind ≡ Kind.ReadFault) }
{
    let table = match table_of(alloc, seeds, second) {
        Ok(table) => table,
        Err(refusal) => return Err(refusal),
    };
    later_by(alloc, seeds, generations, first, &table)
}
