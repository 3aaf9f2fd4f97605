//! Calls of `life_rle`.

use crate::answer::{Answer, Show, show_list};
use crate::base::{rule_of, show_end, show_rule};
use crate::row::{number_of, runs_of};
use life_base::{Cell, Run, lines};
use life_rle::{RleFile, RleLines, read_rle, sorted_cells, write_rle};
use std::alloc::Global;

impl Show for Run {
    /// The column, the row, the length and the state.
    fn show(&self, out: &mut Answer) {
        show_list(out, "", ",", &[self.x, self.y]);
        show_list(out, ",", ",", &[self.len, u64::from(self.state)]);
    }
}

/// Adds the rule, the generation and the corner of a file.
fn show_head(alloc: Global, out: &mut Answer, file: &RleFile) {
    show_rule(alloc, out, &file.rule);
    show_list(out, " ", "", &[file.generation]);
    show_list(out, " ", ",", &[file.x, file.y]);
}

/// The rule, the generation, the corner and each run of a file; or the line and the kind of a fault.
fn file(alloc: Global, out: &mut Answer, input: &[u8]) {
    match read_rle(alloc, input) {
        Ok(file) => {
            show_head(alloc, out, &file);
            show_list(out, " ", " ", file.runs.as_slice());
        }
        Err(fault) => fault.show(out),
    }
}

/// Adds the runs of a line.
fn show_runs(out: &mut Answer, runs: &[Run]) {
    out.text("[");
    show_list(out, " ", " ", runs);
    out.text(" ]");
}

/// Of each line its runs or the kind of a fault, and `!` where the pattern is over after it; and at the end the rule and the generation, or
/// the kind with which the lines are no file.
fn by_lines(alloc: Global, out: &mut Answer, input: &[u8]) {
    let mut reader = RleLines::new(alloc);
    for (_, line) in lines(input) {
        match reader.line(line) {
            Ok(runs) => show_runs(out, &runs),
            Err(kind) => out.refused(kind),
        }
        out.text(if reader.over() { "! " } else { " " });
    }
    show_end(alloc, out, reader.end());
}

/// The kinds of the lines that are refused, and the runs of the others in one vector.
fn into_one(alloc: Global, out: &mut Answer, input: &[u8]) {
    let mut reader = RleLines::new(alloc);
    let mut runs = Vec::new(alloc);
    let mut count = 0;
    for (_, line) in lines(input) {
        match reader.line_into(line, &mut runs) {
            Ok(()) => count = runs.len(),
            Err(kind) => {
                out.refused(kind);
                out.text(" ");
            }
        }
    }
    runs.truncate(count);
    show_runs(out, &runs);
}

/// The cells of a run, after others.
fn push_cells(out: &mut Answer, cells: &mut Vec<Cell>, run: Run) {
    let Run { x, y, len, state } = run;
    let mut x = x;
    for _ in 0..len {
        if cells.push(Cell { x, y, state }).is_err() {
            out.is_cut = true;
        }
        x = x.wrapping_add(1);
    }
}

/// The cells of runs.
fn cells_of(alloc: Global, out: &mut Answer, runs: &[Run]) -> Vec<Cell> {
    let mut cells = Vec::new(alloc);
    for run in runs {
        push_cells(out, &mut cells, *run);
    }
    cells
}

/// The rule, the generation, the corner and the number of runs of a file, and whether it has these cells.
fn read_again(alloc: Global, out: &mut Answer, text: &[u8], wanted: &[Cell]) {
    match read_rle(alloc, text) {
        Ok(file) => {
            show_head(alloc, out, &file);
            let runs = file.runs.as_slice();
            show_list(out, " ", "", &[runs.len() as u64]);
            let has_cells = cells_of(alloc, out, runs).as_slice() == wanted;
            show_list(out, " ", "", &[has_cells]);
        }
        Err(fault) => fault.show(out),
    }
}

/// The cells of runs under a rule and in a generation: whether they can be written, as RLE, or written and read again.
fn written(alloc: Global, out: &mut Answer, call: Call, texts: [&[u8]; 3]) {
    let [rule, generation, runs] = texts;
    let generation = number_of(out, generation);
    let runs = runs_of(alloc, out, runs);
    let cells = cells_of(alloc, out, &runs);
    let Some(rule) = rule_of(alloc, out, rule) else {
        return;
    };
    if !sorted_cells(&rule, &cells) {
        return out.text("false");
    }
    if let Call::SortedCells = call {
        return out.text("true");
    }
    match write_rle(alloc, &rule, generation, &cells) {
        Ok(text) => match call {
            Call::Write => out.bytes(&text),
            _ => read_again(alloc, out, &text, &cells),
        },
        Err(fault) => fault.show(out),
    }
}

/// A call.
#[derive(Clone, Copy)]
pub(crate) enum Call {
    Read,
    Lines,
    LinesInto,
    SortedCells,
    Write,
    WriteAndRead,
}

/// Adds what a call answers to an input.
pub(crate) fn answer(alloc: Global, out: &mut Answer, call: Call, texts: [&[u8]; 3]) {
    match call {
        Call::Read => file(alloc, out, texts[0]),
        Call::Lines => by_lines(alloc, out, texts[0]),
        Call::LinesInto => into_one(alloc, out, texts[0]),
        _ => written(alloc, out, call, texts),
    }
}
