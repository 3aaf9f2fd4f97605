//! RLE files, read whole.

ghost use Rattle.std.specs.Prelude.{◌≡◌, ◌⊎◌, ◌++◌, ◌∷◌, [], true, false, IfOk, IfErr, OnOk};
ghost use Rattle.life_rle.specs.Words.{OrMemory, lines_of, HasRuns, Shows, RefusesRle, BreaksRle, is_rle_kind, Rle, IsPlainRle};

use crate::file::RleFile;
use crate::lines::RleLines;
use crate::position::Position;
use life_base::{Fault, Items, MAX_LEVEL, Rule, Run, lines};
use std::alloc::Global;

/// Takes the line of this number, and puts its runs after the runs.
fn take_numbered(
    reader: &mut RleLines,
    runs: &mut Vec<Run>,
    number: u64,
    line: &[u8],
) -> Result<(), Fault>
    requires { reader.old.refused ≡ false }
    ensures lines { OnOk result
        (reader.new ≡ record { lines = reader.old.lines ++ line.now ∷ []; refused = false }) }
    ensures runs { OnOk result (HasRuns MAX_LEVEL reader.old.lines runs.old.items
        → HasRuns MAX_LEVEL reader.new.lines runs.new.items) }
    ensures fault { IfErr result (λ fault. OrMemory fault
        (BreaksRle MAX_LEVEL reader.old.lines line.now fault.kind × (fault.place.line ≡ number))) }
{
    match reader.line_into(line, runs) {
        Ok(()) => Ok(()),
        Err(kind) => Err(Fault::at(number, kind)),
    }
}

/// The file of these parts.
fn file_of(rule: Rule, position: Position, runs: Vec<Run>) -> RleFile
    ensures { result ≡ record {
      rule = rule;
      generation = position.generation;
      x = position.x;
      y
          = position.y;
      runs = runs.items;
    } }
{
    RleFile {
        rule,
        generation: position.generation,
        x: position.x,
        y: position.y,
        runs: Items::from_vec(runs),
    }
}

/// What a file in extended RLE says (Golly Help, File Formats, "Extended RLE format"; its limits and its faults are this project's own).
///
/// # Errors
///
/// The place is the first line after which the bytes can't be continued to a file, or the number of lines plus 1 where they lack a
/// header, and the kind is that of the first rule which that line breaks. Where a growth of memory is refused the fault is `Memory`,
/// which names no line.
pub fn read_rle(alloc: Global, bytes: &[u8]) -> Result<RleFile, Fault>
    ensures file { IfOk result (λ value. (file : Rle)
        × IsPlainRle MAX_LEVEL (lines_of bytes.now) file × Shows value file) }
    ensures fault { IfErr result
        (λ fault. OrMemory fault (RefusesRle MAX_LEVEL (lines_of bytes.now) fault)) }
    ensures kinds { IfErr result (λ fault. OrMemory fault (is_rle_kind fault.kind ≡ true)) }
{
    let mut reader = RleLines::new(alloc);
    let mut runs = Vec::new(alloc);
    let mut last = 0u64;
    for (number, line) in lines(bytes) {
        take_numbered(&mut reader, &mut runs, number, line)?;
        last = number;
    }
    match reader.finish() {
        Ok((rule, position)) => Ok(file_of(rule, position, runs)),
        Err(kind) => Err(Fault::at(last.saturating_add(1), kind)),
    }
}
