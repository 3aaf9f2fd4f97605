//! Calls and types of `life_rle`.

ghost use Rattle.std.specs.Prelude.{◌≡◌, true};
ghost use Rattle.life_base.specs.declared.cell.TheConstants.{MAX_LEVEL};
ghost use Rattle.life_rle.specs.Sorted.{are_sorted_cells};

use life_base::{Cell, Fault, Items, Kind, Rule, State};
use life_rle::{RleFile, RleLines, Run, read_rle, sorted_cells, write_rle};
use std::alloc::Global;

pub fn run_made(x: i64, y: i64, len: u64, state: State) -> Run {
    Run { x, y, len, state }
}

/// `runs` is a small type over a vector, which it gives back.
pub fn rle_file_fields(file: RleFile) -> (Rule, u64, i64, i64, Vec<Run>) {
    let RleFile {
        rule,
        generation,
        x,
        y,
        runs,
    } = file;
    (rule, generation, x, y, runs.into_vec())
}

pub fn rle_file_made(rule: Rule, generation: u64, x: i64, y: i64, runs: Vec<Run>) -> RleFile {
    RleFile {
        rule,
        generation,
        x,
        y,
        runs: Items::from_vec(runs),
    }
}

pub fn rle_read(alloc: Global, bytes: &[u8]) -> Result<RleFile, Fault> {
    read_rle(alloc, bytes)
}

pub fn rle_written(
    alloc: Global,
    rule: &Rule,
    generation: u64,
    cells: &[Cell],
) -> Result<Vec<u8>, Fault>
    requires { are_sorted_cells MAX_LEVEL rule.now cells.now ≡ true }
{
    write_rle(alloc, rule, generation, cells)
}

pub fn are_sorted(rule: &Rule, cells: &[Cell]) -> bool {
    sorted_cells(rule, cells)
}

pub fn rle_lines_new(alloc: Global) -> RleLines {
    RleLines::new(alloc)
}

pub fn rle_lines_line(lines: &mut RleLines, line: &[u8]) -> Result<Vec<Run>, Kind> {
    lines.line(line)
}

pub fn rle_lines_over(lines: &RleLines) -> bool {
    lines.over()
}

pub fn rle_lines_end(lines: RleLines) -> Result<(Rule, u64), Kind> {
    lines.end()
}
