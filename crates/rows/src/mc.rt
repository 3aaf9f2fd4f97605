//! Calls of `life_mc`.

use crate::answer::{Answer, Show, show_dropped, show_list};
use crate::base::{show_end, show_rule};
use life_base::lines;
use life_mc::{Line, McFile, McLines, read_mc, write_mc};
use std::alloc::Global;

impl Show for Line {
    /// A square: the eight rows of a leaf, or a level and four quarters.
    fn show(&self, out: &mut Answer) {
        match self {
            Line::Leaf(rows) => show_list(out, "", ",", rows),
            Line::Quad {
                level,
                nw,
                ne,
                sw,
                se,
            } => {
                level.show(out);
                show_list(out, ":", ",", &[*nw, *ne, *sw, *se]);
            }
        }
    }
}

/// The rule, the generation and each square of a file.
fn show_squares(alloc: Global, out: &mut Answer, file: &McFile) {
    show_rule(alloc, out, &file.rule);
    show_list(out, " ", "", &[file.generation]);
    show_list(out, " ", " ", file.lines.as_slice());
}

/// Of each line its square, `-` or the kind of a fault; and at the end the rule and the generation, or the kind with which the lines are
/// no file.
fn by_lines(alloc: Global, out: &mut Answer, input: &[u8]) {
    let mut reader = McLines::new(alloc);
    for (_, line) in lines(input) {
        match reader.line(line) {
            Ok(Some(square)) => square.show(out),
            Ok(None) => out.text("-"),
            Err(kind) => out.refused(kind),
        }
        out.text(" ");
    }
    show_end(alloc, out, reader.end());
}

/// A call.
#[derive(Clone, Copy)]
pub(crate) enum Call {
    /// The text that a file is written as.
    Read,
    /// The rule, the generation and each square of a file.
    Squares,
    /// What is said of each line.
    Lines,
}

/// Adds what a call answers to an input.
pub(crate) fn answer(alloc: Global, out: &mut Answer, call: Call, input: &[u8]) {
    if let Call::Lines = call {
        return by_lines(alloc, out, input);
    }
    match read_mc(alloc, input) {
        Ok(file) => match call {
            Call::Read => show_dropped(out, write_mc(alloc, &file)),
            _ => show_squares(alloc, out, &file),
        },
        Err(fault) => fault.show(out),
    }
}
