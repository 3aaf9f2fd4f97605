//! The parts of a row, and its numbers.

ghost use Rattle.std.specs.Prelude.{◌≤◌};

use crate::answer::Answer;
use bstr::ByteSlice;
use life_base::{Run, read_i64, read_u64, split_word};
use std::alloc::Global;

/// Most items of a list.
const ITEMS: u16 = 1000;

/// A text before the first of these marks, and what comes after it; or all of the text.
pub(crate) fn first_of<'a>(text: &'a [u8], marks: &[u8]) -> (&'a [u8], &'a [u8]) {
    match text.find_byteset(marks) {
        Some(place) => (&text[..place], &text[place + 1..]),
        None => (text, &[]),
    }
}

/// A text before its first `|`, and what comes after it.
pub(crate) fn halves<'a>(out: &mut Answer, text: &'a [u8]) -> (&'a [u8], &'a [u8]) {
    match text.split_once_str(b"|") {
        Some(halves) => halves,
        None => {
            out.is_bad = true;
            (text, &[])
        }
    }
}

/// So many parts of a text, three at most, with `|` between each two, and empty ones after them.
pub(crate) fn parts_of<'a>(out: &mut Answer, text: &'a [u8], count: u8) -> [&'a [u8]; 3] {
    if count < 2 {
        return [text, &[], &[]];
    }
    let (first, rest) = halves(out, text);
    if count < 3 {
        return [first, rest, &[]];
    }
    let (second, third) = halves(out, rest);
    [first, second, third]
}

/// The number that a text writes.
pub(crate) fn number_of(out: &mut Answer, text: &[u8]) -> u64 {
    match read_u64(text) {
        Ok(number) => number,
        Err(_) => {
            out.is_bad = true;
            0
        }
    }
}

/// The number of either sign that a text writes.
pub(crate) fn signed_of(out: &mut Answer, text: &[u8]) -> i64 {
    match read_i64(text) {
        Ok(number) => number,
        Err(_) => {
            out.is_bad = true;
            0
        }
    }
}

/// A number that is none below 0 and none above the most.
pub(crate) fn up_to(out: &mut Answer, most: u64, number: i64) -> u64
    ensures { result ≤ most }
{
    match u64::try_from(number) {
        Ok(number) if number <= most => number,
        _ => {
            out.is_bad = true;
            0
        }
    }
}

/// So many numbers, five at most, with a space or a comma between each two, and zeros after them.
pub(crate) fn numbers_of(out: &mut Answer, text: &[u8], count: usize) -> [i64; 5] {
    let mut numbers = [0; 5];
    let mut rest = text;
    for place in 0..5 {
        if place < count {
            let (word, others) = first_of(rest, b" ,");
            numbers[place] = signed_of(out, word);
            rest = others;
        }
    }
    if !rest.is_empty() {
        out.is_bad = true;
    }
    numbers
}

/// The run of a column, a row, a length and a state.
pub(crate) fn run_of(out: &mut Answer, numbers: [i64; 4]) -> Run {
    let [x, y, len, state] = numbers;
    Run {
        x,
        y,
        len: up_to(out, 1 << 63, len),
        state: up_to(out, 255, state) as u8,
    }
}

/// The runs that a text writes, with a space between each two: of each its column, its row, its length and its state.
pub(crate) fn runs_of(alloc: Global, out: &mut Answer, text: &[u8]) -> Vec<Run> {
    let mut runs = Vec::new(alloc);
    let mut rest = text;
    for _ in 0..ITEMS {
        let (word, others) = split_word(rest);
        if word.is_empty() {
            return runs;
        }
        let [x, y, len, state, _] = numbers_of(out, word, 4);
        if runs.push(run_of(out, [x, y, len, state])).is_err() {
            out.is_cut = true;
        }
        rest = others;
    }
    out.is_bad = true;
    runs
}
