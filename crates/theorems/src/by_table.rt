//! One generation of a file by a rule table.

ghost use Rattle.std.specs.Prelude.{◌≡◌, ◌⊎◌, Ok, Err, IfOk, IfErr, IsTrue};
ghost use Rattle.claims.specs.ByTable.{IsClaimedStepBy, IsUnsteppedBy};
ghost use Rattle.claims.specs.Files.{pattern_of, IsShortage};
ghost use Rattle.claims.specs.Table.{Table, table_of};

use crate::canonical::are_equal;
use crate::space::StoreOptions;
use claims::laws::{tables_decide, tables_read, tables_refuse};
use life_base::Fault;
use life_canon::canon;
use life_pattern::laws::{files_are_on_plane, files_are_unique};
use life_step::step_table;
use life_table::laws::grammars_agree;
use life_table::{NameSeed, read_table_seeded};
use std::alloc::Global;

/// The text of the next generation of a file by a rule table has the table's name for its rule and one generation more, and
/// each cell has the state that the table decides for it.
///
/// # Errors
///
/// The fault of the rule file; that of the file; a full store or no more memory; or the first reason, in their order, why its
/// pattern has no next one by the table: `RuleMismatch`, `GenerationTooLarge`, `TooManyCells`, `StateBeyondTable`,
/// `Ambiguous`, `OutOfPlane`.
pub fn next_generation_by_table(
    alloc: Global,
    rules: &[u8],
    file: &[u8],
    space: StoreOptions,
    names: NameSeed,
) -> Result<Vec<u8>, Fault>
    ensures stepped { IfOk result
        (λ text. (t : Table) × (table_of rules.now ≡ Ok t)
        × IsClaimedStepBy t file.now text.items) }
    ensures refused { IfErr result (λ fault. (table_of rules.now ≡ Err fault)
        ⊎ (IsShortage fault ⊎ ((t : Table) × (table_of rules.now ≡ Ok t)
        × ((pattern_of file.now ≡ Err fault) ⊎ IsUnsteppedBy t file.now fault)))) }
{
    files_are_on_plane();
    grammars_agree();
    tables_read();
    tables_refuse();
    tables_decide();
    let table = read_table_seeded(alloc, names, rules)?;
    step_table(alloc, &mut space.new_store(alloc), file, &table)
}

/// The text of the next generation of a file by a rule table is its own canonical text.
pub fn next_text_by_table_is_fixed(
    alloc: Global,
    rules: &[u8],
    file: &[u8],
    names: NameSeed,
    one: StoreOptions,
    other: StoreOptions,
) -> Result<bool, Fault>
    ensures { IfOk result (λ equal. IsTrue equal) }
{
    files_are_unique();
    let table = read_table_seeded(alloc, names, rules)?;
    let text = step_table(alloc, &mut one.new_store(alloc), file, &table)?;
    let again = canon(alloc, &mut other.new_store(alloc), &text)?;
    Ok(are_equal(&text, &again))
}
