//! The next generation of a file.

ghost use Rattle.std.specs.Prelude.{◌≡◌, ◌⊎◌, Ok, Err, IfOk};
ghost use Rattle.library_theorems.specs.Words.{Fault, IsClaimedTextLater, IsNotAdvanced, IsClaimedStepBy, IsUnsteppedBy, claimed_fault_of, IsClaimedStep, IsUnstepped, Table, table_of, Returns, ReturnsText, ReturnsFault, IsClaimedUnread};

use claims::laws::{tables_decide, tables_read, tables_refuse};
use library_calls::{Options, Reported, step, step_by_table, step_generations};
use life_base::{Fault, Kind};
use life_pattern::laws::{files_are_on_plane, files_are_unique};
use life_quad::Shared;
use life_table::laws::grammars_agree;
use std::alloc::Global;

/// A text of the next generation of a file under its B/S rule is at the beginning of the caller's memory, or its length is
/// reported where it doesn't fit; or the number and the line of the file's fault are reported, or the first reason why it has none.
pub fn next_is_reported(alloc: Global, file: &[u8], options: Options, out: &mut [u8]) -> Reported
    ensures { Returns (IsClaimedStep file.now)
        (λ fault. IsClaimedUnread file.now fault ⊎ IsUnstepped file.now fault) out.old out.new
        result }
{
    files_are_on_plane();
    step(alloc, file, options, out)
}

/// A text of a file so many generations later under its B/S rule is reported in the same way; or the number and the line of the
/// file's fault, that the store is full or memory ran out, or the first reason why its pattern isn't taken so many generations
/// further.
pub fn later_generation_is_reported(
    alloc: Global,
    file: &[u8],
    generations: u64,
    options: Options,
    out: &mut [u8],
) -> Reported
    ensures { Returns (IsClaimedTextLater generations file.now)
        (λ fault. IsClaimedUnread file.now fault ⊎ IsNotAdvanced generations file.now fault)
        out.old out.new result }
{
    files_are_on_plane();
    step_generations(alloc, file, generations, options, out)
}

/// The same by a rule table. Where 0 is reported beside it, the line of `Ambiguous` is one of the table's file. Where 1 is reported,
/// the number and the line are those of the fault of the table's file, or memory was wanted to read it.
pub fn next_by_table_is_reported(
    alloc: Global,
    file: &[u8],
    rules: &[u8],
    options: Options,
    out: &mut [u8],
) -> (Reported, u32)
    ensures { ((result.1 ≡ 0) × ((table : Table) × (table_of rules.now ≡ Ok table)
        × Returns (IsClaimedStepBy table file.now)
        (λ fault. IsClaimedUnread file.now fault ⊎ IsUnsteppedBy table file.now fault) out.old
        out.new
        result.0)) ⊎ ((result.1 ≡ 1) × ((fault : Fault)
        × ((table_of rules.now ≡ Err fault) ⊎ (fault ≡ claimed_fault_of Kind.Memory))
        × ReturnsFault fault out.old out.new result.0)) }
{
    files_are_on_plane();
    grammars_agree();
    tables_read();
    tables_refuse();
    tables_decide();
    step_by_table(alloc, file, rules, options, out)
}

/// The text of the next generation that was put into the caller's memory, under the B/S rule or by a rule table, is its own
/// canonical text.
pub fn reported_next_texts_are_fixed(
    alloc: Global,
    file: &[u8],
    rules: &[u8],
    options: Options,
    out: &mut [u8],
    out_by_table: &mut [u8],
    store: &mut Shared,
    text: &[u8],
) -> (Reported, Reported, Result<Vec<u8>, Fault>)
    ensures by_rule { result.0.status ≡ 0 → ReturnsText text.now out.old out.new result.0
        → IfOk result.2 (λ again. again.items ≡ text.now) }
    ensures by_table { result.1.status ≡ 0
        → ReturnsText text.now out_by_table.old out_by_table.new result.1
        → IfOk result.2 (λ again. again.items ≡ text.now) }
{
    files_are_unique();
    let by_rule = step(alloc, file, options, out);
    let (by_table, _) = step_by_table(alloc, file, rules, options, out_by_table);
    (by_rule, by_table, life_canon::canon(alloc, store, text))
}
