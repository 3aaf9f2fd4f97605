//! Calls and types of `life_mc`.

ghost use Rattle.life_base.specs.declared.cell.TheConstants.{MAX_LEVEL};
ghost use Rattle.life_mc.specs.Macrocell.{AreSquares};

use life_base::{Fault, Items, Kind, Rule};
use life_mc::{Line, McFile, McLines, read_mc, write_mc};
use std::alloc::Global;

pub fn mc_read(alloc: Global, bytes: &[u8]) -> Result<McFile, Fault> {
    read_mc(alloc, bytes)
}

pub fn mc_written(alloc: Global, file: &McFile) -> Result<Vec<u8>, Fault> {
    write_mc(alloc, file)
}

pub fn mc_lines_new(alloc: Global) -> McLines {
    McLines::new(alloc)
}

pub fn mc_lines_line(lines: &mut McLines, line: &[u8]) -> Result<Option<Line>, Kind> {
    lines.line(line)
}

pub fn mc_lines_end(lines: McLines) -> Result<(Rule, u64), Kind> {
    lines.end()
}

pub fn leaf_made(rows: [u8; 8]) -> Line {
    Line::Leaf(rows)
}

pub fn quad_made(level: u8, nw: u64, ne: u64, sw: u64, se: u64) -> Line {
    Line::Quad {
        level,
        nw,
        ne,
        sw,
        se,
    }
}

pub fn line_variants(line: Line) -> Option<(u8, u64, u64, u64, u64)> {
    match line {
        Line::Leaf(_) => None,
        Line::Quad {
            level,
            nw,
            ne,
            sw,
            se,
        } => Some((level, nw, ne, sw, se)),
    }
}

/// `lines` is a small type over a vector, which it gives back.
pub fn mc_file_fields(file: McFile) -> (Rule, u64, Vec<Line>) {
    let McFile {
        rule,
        generation,
        lines,
    } = file;
    (rule, generation, lines.into_vec())
}

pub fn mc_file_made(rule: Rule, generation: u64, lines: Vec<Line>) -> McFile
    requires { AreSquares MAX_LEVEL rule lines.items }
{
    McFile {
        rule,
        generation,
        lines: Items::from_vec(lines),
    }
}
