//! Rule tables, read.

ghost use Rattle.std.specs.Prelude.{◌≡◌, IfOk, IfErr, Some, None, true};
ghost use Rattle.life_table.specs.Words.{OrMemory, lines_of, IsPlainTable, missing_part_of, is_table_kind, RefusesTable, Describes, IsGood};

use crate::directive::{Parsed, Section};
use crate::lines::TableLines;
use crate::seed::NameSeed;
use crate::table::Table;
use life_base::{Fault, Kind, lines};
use std::alloc::Global;

/// The table that lines describe, or what they lack where they end.
fn table_of(alloc: Global, parsed: Parsed, end: u64) -> Result<Table, Fault>
    requires good { IsGood parsed }
    ensures ok { IfOk result (λ table. (missing_part_of parsed ≡ None) × Describes parsed table) }
    ensures err { IfErr result
        (λ fault. OrMemory fault ((missing_part_of parsed ≡ Some fault.kind)
        × (fault.place.line ≡ end))) }
{
    let Parsed {
        name,
        section,
        n_states,
        neighborhood,
        symmetry,
        vars,
        lines,
    } = parsed;
    let Some(name) = name else {
        return Err(Fault::at(end, Kind::NoRuleLine));
    };
    if section == Section::Ahead {
        return Err(Fault::at(end, Kind::NoTable));
    }
    match (n_states, neighborhood, symmetry) {
        (Some(n_states), Some(neighborhood), Some(symmetry)) => {
            let vars = vars.into_items(alloc)?;
            Ok(Table {
                name,
                n_states,
                neighborhood,
                symmetry,
                vars,
                lines,
            })
        }
        _ => Err(Fault::at(end, Kind::BadDescriptor)),
    }
}

/// The table that a `.rule` file writes. The seed decides time alone.
///
/// # Errors
///
/// The place is the first line after which the bytes can't be continued to a file with a table, or the number of lines plus 1 where they
/// end before they have one, and the kind is that of the first rule which that line breaks, or of what is missing. Where a growth of memory
/// is refused the fault is `Memory`, which names no line.
pub fn read_table_seeded(alloc: Global, seed: NameSeed, bytes: &[u8]) -> Result<Table, Fault>
    ensures ok { IfOk result (λ table. IsPlainTable (lines_of bytes.now) table) }
    ensures err { IfErr result (λ fault. OrMemory fault (RefusesTable (lines_of bytes.now) fault)) }
    ensures kinds { IfErr result (λ fault. OrMemory fault (is_table_kind fault.kind ≡ true)) }
{
    let mut reader = TableLines::new(alloc, seed);
    let mut next: u64 = 1;
    for (number, line) in lines(bytes) {
        reader.line(alloc, number, line)?;
        next = number.saturating_add(1);
    }
    table_of(alloc, reader.parsed, next)
}

/// Reads the table as `read_table_seeded` does, with a fixed seed, for input that you trust: whoever knows the seed can choose variable names that
/// collide, and then each look-up of a name takes time in proportion to the names of the table.
///
/// # Errors
///
/// Those of `read_table_seeded`.
pub fn read_table(alloc: Global, bytes: &[u8]) -> Result<Table, Fault>
    ensures ok { IfOk result (λ table. IsPlainTable (lines_of bytes.now) table) }
    ensures err { IfErr result (λ fault. OrMemory fault (RefusesTable (lines_of bytes.now) fault)) }
    ensures kinds { IfErr result (λ fault. OrMemory fault (is_table_kind fault.kind ≡ true)) }
{
    read_table_seeded(alloc, NameSeed::fixed(), bytes)
}
