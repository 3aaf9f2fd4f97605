//! The step of a pattern in RLE, row by row.

ghost use Rattle.std.specs.Prelude.{◌≡◌, ◌++◌, ◌∷◌, [], false, IfSome, IsTrue};
ghost use Rattle.life_step.specs.Words.{AddsOnly, HasHeaderRule, IsNextOfFile, IsStepped, Keeps, KeepsRows, SomeByRows, SomeNextOfLines, SomeOfFileByRows, stored_squares};

use crate::steps::text_of_square;
use life_base::{LifeRule, Rule, Run, begins_with, is_blank, lines};
use life_quad::{Id, Shared};
use life_rle::RleLines;
use life_rows::RowStep;
use std::alloc::Global;

/// A file of random cells has about so many bytes for each square of its next generation.
const BYTES_OF_SQUARE: usize = 32;

/// The rule in the header of a file in RLE.
fn header_rule(alloc: Global, bytes: &[u8]) -> Option<Rule>
    ensures { IfSome result (HasHeaderRule bytes.now) }
{
    let mut reader = RleLines::new(alloc);
    let mut runs = Vec::new(alloc);
    for (_, line) in lines(bytes) {
        reader.line_into(line, &mut runs).ok()?;
        if !is_blank(line) && !begins_with(line, b"#") {
            break;
        }
    }
    let (rule, _) = reader.end().ok()?;
    Some(rule)
}

/// Takes a line of the file, and says whether the step goes on. The vector lends memory for the line's runs.
fn take_line(
    store: &mut Shared,
    reader: &mut RleLines,
    step: &mut RowStep,
    runs: &mut Vec<Run>,
    line: &[u8],
) -> bool
    requires begun { reader.old.refused ≡ false }
    requires rows { KeepsRows store.old reader.old.lines step.old }
    ensures lines { IsTrue result → reader.new
        ≡ record { lines = reader.old.lines ++ line.now ∷ []; refused = false } }
    ensures rule { IsTrue result → step.new.rule ≡ step.old.rule }
    ensures keeps { Keeps store.old store.new }
    ensures adds { AddsOnly stored_squares (λ P. SomeNextOfLines P step.old.rule
        (reader.old.lines ++ line.now ∷ [])) store.old store.new }
    ensures rows { IsTrue result → KeepsRows store.new reader.new.lines step.new }
{
    runs.clear();
    match reader.line_into(line, runs) {
        Ok(()) => step.add_runs(store, runs),
        Err(_) => false,
    }
}

/// The generation of the pattern of a file in RLE under this rule, and the square of its next generation.
fn next_square(
    alloc: Global,
    store: &mut Shared,
    rule: &LifeRule,
    bytes: &[u8],
) -> Option<(u64, Id)>
    ensures next { IfSome result
        (λ found. IsNextOfFile bytes.now rule.now store.new found.0 found.1) }
    ensures keeps { Keeps store.old store.new }
    ensures adds { AddsOnly stored_squares (λ P. SomeByRows P rule.now bytes.now) store.old
        store.new }
{
    let mut reader = RleLines::new(alloc);
    let mut step = RowStep::new(alloc, &*store, *rule);
    let mut runs = Vec::new(alloc);
    for (_, line) in lines(bytes) {
        if !take_line(store, &mut reader, &mut step, &mut runs, line) {
            return None;
        }
    }
    let (found, generation) = reader.end().ok()?;
    if !found.same(&Rule::Life(*rule)) {
        return None;
    }
    let square = step.finish(store)?;
    Some((generation, square))
}

/// The canonical text of the next generation of the pattern of a file, under its B/S rule, where the file is in RLE, its pattern can be stepped row by row,
/// and the store and memory suffice. `None` says nothing of the file: `step_life` steps it, or returns why it can't.
///
/// The rows of the next generation are made straight from the runs of the file, so no square of the pattern itself is stored. The store keeps every square that
/// it had, and gets only squares of the next generation, also where the result is `None`.
pub fn next_by_rows(alloc: Global, store: &mut Shared, bytes: &[u8]) -> Option<Vec<u8>>
    ensures text { IfSome result (λ text. IsStepped bytes.now text.items) }
    ensures keeps { Keeps store.old store.new }
    ensures adds { AddsOnly stored_squares (λ P. SomeOfFileByRows P bytes.now) store.old store.new }
{
    let rule = header_rule(alloc, bytes)?;
    let Rule::Life(life) = &rule else {
        return None;
    };
    store.reserve(bytes.len() / BYTES_OF_SQUARE);
    let (generation, square) = next_square(alloc, store, life, bytes)?;
    let after = generation.checked_add(1)?;
    text_of_square(alloc, store, rule, after, square).ok()
}
