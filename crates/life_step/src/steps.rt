//! The steps of the pattern in a file.

ghost use Rattle.std.specs.Prelude.{◌≡◌, ◌≢◌, ◌+◌, ◌^◌, ◌-◌, ◌≤◌, ◌↔◌, ℤ, Err, IfOk, IfErr, OnOk, IsTrue};
ghost use Rattle.life_step.specs.Words.{fault_of, IsRule, depth, tree_cell, NamedRule, IsNew, ForEachFile, Keeps, IsKnown, IsOfFile, IsShortageOf, content, IsSame, least_level, square_universe, largest_state, TrimmedTo, LacksForLife, LacksForStep, LacksForStepBy, LacksForTable, LifeRefusal, RefusesFile, RefusesPattern, SomeByRule, SomeByTable, SomeOfStep, SomeOfStepBy, AddsOnly, stored_squares, TableRefusal, IsStepped, IsSteppedBy, IsTextWith};

use life_base::{Fault, Kind, MAX_LEVEL, Rule};
use life_block::{next_law_generation, next_life_generation};
use life_pattern::laws::{files_are_on_plane, patterns_fit};
use life_pattern::{Pattern, least_level};
use life_quad::{Id, Shared, trim};
use life_reader::read;
use life_sweep::ByTable;
use life_sweep::laws::{life_answers_at, table_answers_at};
use life_table::Table;
use life_table::laws::one_answer;
use life_writer::laws::{texts_are_files, texts_tell_universes};
use life_writer::{MOST_CELLS, text_of};
use std::alloc::Global;

/// Whether the rule is the table's name.
fn is_rule_of(table: &Table, rule: &Rule) -> bool
    ensures { IsTrue result ↔ (rule.now ≡ NamedRule table.now.name) }
{
    match rule {
        Rule::Life(_) => false,
        Rule::Named(name) => name.bytes() == table.name.bytes(),
    }
}

/// The generation after this one, unless a file can't name it.
fn generation_after(generation: u64) -> Result<u64, Fault>
    ensures after { IfOk result (λ after. after ≡ generation + 1) }
    ensures some { OnOk result (generation ≢ 2 ^ 64 - 1) }
    ensures last { IfErr result
        (λ fault. (generation ≡ 2 ^ 64 - 1) × (fault ≡ fault_of Kind.GenerationTooLarge)) }
{
    match generation.checked_add(1) {
        Some(after) => Ok(after),
        None => Err(Fault::of(Kind::GenerationTooLarge)),
    }
}

/// The canonical text of the cells of a square, under this rule and in this generation.
pub fn text_of_square(
    alloc: Global,
    store: &mut Shared,
    rule: Rule,
    generation: u64,
    square: Id,
) -> Result<Vec<u8>, Fault>
    requires known { IsKnown store.old square }
    requires high { least_level rule ≤ depth (content store.old square) }
    requires rule { IsRule rule }
    requires states { (x y : ℤ) → tree_cell (content store.old square) x y ≤ largest_state rule }
    ensures text { IfOk result (λ text. IsTextWith MAX_LEVEL
        (IsSame (square_universe rule generation (content store.old square))) text.items) }
    ensures want { IfErr result (IsShortageOf store.new) }
    ensures needed { result ≡ Err (fault_of Kind.Full)
        → TrimmedTo (IsNew store.new) (content store.old square) (least_level rule) }
    ensures adds { AddsOnly stored_squares
        (λ P. TrimmedTo P (content store.old square) (least_level rule)) store.old store.new }
    ensures keeps { Keeps store.old store.new }
{
    files_are_on_plane();
    texts_are_files();
    texts_tell_universes();
    let root = trim(store, square, least_level(&rule))?;
    let pattern = Pattern {
        rule,
        generation,
        root,
    };
    text_of(alloc, store, &pattern)
}

/// The canonical text of the next generation of a pattern that was read into the store, under its B/S rule.
///
/// # Errors
///
/// Those of `step_life`, but for the file's fault. They name no line. After a fault too each Id of the store names the square that it
/// named, so a caller that goes on with the pattern keeps its root and its generation, and a copy of its rule.
pub fn next_by_rule(alloc: Global, store: &mut Shared, pattern: Pattern) -> Result<Vec<u8>, Fault>
    requires { IsOfFile MAX_LEVEL store.old pattern }
    ensures stepped { IfOk result
        (λ text. ForEachFile store.old pattern (λ bytes. IsStepped bytes text.items)) }
    ensures refused { IfErr result
        (RefusesPattern (LifeRefusal MAX_LEVEL) pattern store.old store.new) }
    ensures needed { result ≡ Err (fault_of Kind.Full)
        → LacksForLife pattern.rule (content store.old pattern.root) store.new }
    ensures adds { AddsOnly stored_squares
        (λ P. SomeByRule P pattern.rule (content store.old pattern.root)) store.old store.new }
    ensures keeps { Keeps store.old store.new }
{
    let Rule::Life(rule) = &pattern.rule else {
        return Err(Fault::of(Kind::NeedsTable));
    };
    let generation = generation_after(pattern.generation)?;
    files_are_on_plane();
    patterns_fit();
    life_answers_at();
    let square = next_life_generation(alloc, store, rule, pattern.root, MOST_CELLS)?;
    text_of_square(alloc, store, pattern.rule, generation, square)
}

/// The canonical text of the next generation of the pattern of a file, under its B/S rule.
///
/// # Errors
///
/// The place and the kind of the file's fault; then `NeedsTable` for a rule that is a name, `GenerationTooLarge` from the generation
/// 2^64 - 1, `TooManyCells` where more than 2^20 cells aren't 0, and `OutOfPlane` where a cell outside the plane would not become 0;
/// `Full` where the store holds its limit, and `Memory`. All but the file's fault name no line. After a fault too each Id of the store
/// names the square that it named, and nothing stored is gone.
pub fn step_life(alloc: Global, store: &mut Shared, bytes: &[u8]) -> Result<Vec<u8>, Fault>
    ensures stepped { IfOk result (λ text. IsStepped bytes.now text.items) }
    ensures refused { IfErr result (RefusesFile (LifeRefusal MAX_LEVEL) bytes.now store.new) }
    ensures needed { result ≡ Err (fault_of Kind.Full) → LacksForStep bytes.now store.new }
    ensures adds { AddsOnly stored_squares (λ P. SomeOfStep P bytes.now) store.old store.new }
    ensures keeps { Keeps store.old store.new }
{
    let pattern = read(alloc, store, bytes)?;
    next_by_rule(alloc, store, pattern)
}

/// The canonical text of the next generation of a pattern that was read into the store, by the table of its rule.
///
/// # Errors
///
/// Those of `step_table`, but for the file's fault. All but `Ambiguous` name no line. The store keeps what it has, as after `next_by_rule`.
pub fn next_by_table(
    alloc: Global,
    store: &mut Shared,
    pattern: Pattern,
    table: &Table,
) -> Result<Vec<u8>, Fault>
    requires { IsOfFile MAX_LEVEL store.old pattern }
    ensures stepped { IfOk result
        (λ text. ForEachFile store.old pattern (λ bytes. IsSteppedBy table.now bytes text.items)) }
    ensures refused { IfErr result
        (RefusesPattern (TableRefusal MAX_LEVEL table.now) pattern store.old store.new) }
    ensures needed { result ≡ Err (fault_of Kind.Full)
        → LacksForTable table.now pattern.rule (content store.old pattern.root) store.new }
    ensures adds { AddsOnly stored_squares
        (λ P. SomeByTable P table.now pattern.rule (content store.old pattern.root)) store.old
        store.new }
    ensures keeps { Keeps store.old store.new }
{
    if !is_rule_of(table, &pattern.rule) {
        return Err(Fault::of(Kind::RuleMismatch));
    }
    let generation = generation_after(pattern.generation)?;
    files_are_on_plane();
    patterns_fit();
    table_answers_at();
    one_answer();
    let mut by_table = ByTable::new(alloc, table)?;
    let stored = store.len();
    let square = next_law_generation(
        alloc,
        store,
        &mut by_table,
        pattern.root,
        MOST_CELLS,
        stored,
    )?;
    text_of_square(alloc, store, pattern.rule, generation, square)
}

/// The canonical text of the next generation of the pattern of a file, by the table of its rule.
///
/// # Errors
///
/// The place and the kind of the file's fault; then `RuleMismatch` unless the rule is the table's name, `GenerationTooLarge` from the
/// generation 2^64 - 1, `TooManyCells` where more than 2^20 cells aren't 0, `StateBeyondTable` where a cell's state isn't one of the
/// table's, `Ambiguous` where a line of the table decides a cell and gives it two states, with the number of the line for the first such
/// cell by row and then column, and `OutOfPlane` where a cell outside the plane would not become 0; `Full` where the store holds its
/// limit, and `Memory`. All but the file's fault and `Ambiguous` name no line. After a fault too each Id of the store names the square
/// that it named, and nothing stored is gone.
pub fn step_table(
    alloc: Global,
    store: &mut Shared,
    bytes: &[u8],
    table: &Table,
) -> Result<Vec<u8>, Fault>
    ensures stepped { IfOk result (λ text. IsSteppedBy table.now bytes.now text.items) }
    ensures refused { IfErr result
        (RefusesFile (TableRefusal MAX_LEVEL table.now) bytes.now store.new) }
    ensures needed { result ≡ Err (fault_of Kind.Full)
        → LacksForStepBy table.now bytes.now store.new }
    ensures adds { AddsOnly stored_squares (λ P. SomeOfStepBy P table.now bytes.now) store.old
        store.new }
    ensures keeps { Keeps store.old store.new }
{
    let pattern = read(alloc, store, bytes)?;
    next_by_table(alloc, store, pattern, table)
}
