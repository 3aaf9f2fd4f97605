//! Texts of patterns: of one that is read, and of what becomes of it.

ghost use Rattle.std.specs.Prelude.{◌≤◌};
ghost use Rattle.life_canon.specs.Words.{IsOfFile, IsTrimmed, MAX_LEVEL};

use crate::answer::{Answer, Show};
use crate::feeding::fed;
use crate::stores::new_store;
use crate::table::table_of;
use life_base::{Fault, Kind, read_u64};
use life_canon::canon;
use life_forms::{moved_of, turned_text};
use life_mc::write_mc;
use life_pattern::Pattern;
use life_periods::{append_period, period_of_pattern};
use life_quad::Shared;
use life_reader::read;
use life_step::{next_by_rows, next_by_rule, next_by_table, step_life, step_table};
use life_table::Table;
use life_writer::{lesser_text, number, text_of};
use std::alloc::Global;

/// Two texts, or why there are none.
type Texts = Result<(Vec<u8>, Vec<u8>), Fault>;

/// Adds a text, and after `|` another one where it is another; or the line and the kind of a fault.
pub(crate) fn show_both(out: &mut Answer, texts: Texts) {
    match texts {
        Ok((text, other)) => {
            out.bytes(&text);
            if text.as_slice() != other.as_slice() {
                out.text("|");
                out.bytes(&other);
            }
        }
        Err(fault) => fault.show(out),
    }
}

/// Adds whether two texts are one; or the line and the kind of a fault.
pub(crate) fn show_equal(out: &mut Answer, texts: Texts) {
    match texts {
        Ok((text, other)) => (text.as_slice() == other.as_slice()).show(out),
        Err(fault) => fault.show(out),
    }
}

/// The canonical text of the node lines of a pattern, and the pattern's own text.
fn texts_of(alloc: Global, store: &Shared, pattern: &Pattern) -> Texts
    requires { IsTrimmed store.now pattern.now }
{
    let file = number(alloc, store, pattern)?;
    let written = write_mc(alloc, &file)?;
    let text = text_of(alloc, store, pattern)?;
    Ok((written, text))
}

/// Both texts of a pattern that is read of a file.
pub(crate) fn texts_read(alloc: Global, store: &mut Shared, file: &[u8]) -> Texts {
    let pattern = read(alloc, store, file)?;
    texts_of(alloc, store, &pattern)
}

/// Both texts of a pattern that a reader is fed: a piece, and what comes after it in pieces of so many bytes.
pub(crate) fn texts_fed(
    alloc: Global,
    store: &mut Shared,
    first: &[u8],
    rest: &[u8],
    size: usize,
) -> Texts
    requires { 1 ≤ size }
{
    let pattern = fed(alloc, store, first, rest, size)?;
    texts_of(alloc, store, &pattern)
}

/// Whether two pieces have this canonical text, in a store of their own.
fn have_text(alloc: Global, first: &[u8], second: &[u8], wanted: &[u8]) -> bool {
    match texts_fed(alloc, &mut new_store(alloc), first, second, usize::MAX) {
        Ok((text, _)) => text.as_slice() == wanted,
        Err(_) => false,
    }
}

/// The canonical text of a file that is fed byte by byte, and the length of the first of two pieces with another answer.
pub(crate) fn cut(alloc: Global, out: &mut Answer, file: &[u8]) {
    match texts_fed(alloc, &mut new_store(alloc), &[], file, 1) {
        Ok((text, _)) => {
            out.bytes(&text);
            for place in 0..=file.len() {
                if !have_text(alloc, &file[..place], &file[place..], &text) {
                    out.text(" ");
                    return (place as u64).show(out);
                }
            }
        }
        Err(fault) => fault.show(out),
    }
}

/// The canonical text of a file, and that of this text, each in a store of its own.
pub(crate) fn canonical(alloc: Global, file: &[u8]) -> Texts {
    let text = canon(alloc, &mut new_store(alloc), file)?;
    let again = canon(alloc, &mut new_store(alloc), &text)?;
    Ok((text, again))
}

/// The canonical text after some steps, one or more, by a table or under the file's own rule.
pub(crate) fn stepped(
    alloc: Global,
    store: &mut Shared,
    file: &[u8],
    table: Option<&Table>,
    steps: u64,
) -> Result<Vec<u8>, Fault> {
    let mut text = match table {
        None => step_life(alloc, store, file)?,
        Some(table) => step_table(alloc, store, file, table)?,
    };
    for _ in 1..steps {
        text = match table {
            None => step_life(alloc, store, &text)?,
            Some(table) => step_table(alloc, store, &text, table)?,
        };
    }
    Ok(text)
}

/// The canonical text of a file after some steps by a table.
pub(crate) fn by_table(
    alloc: Global,
    store: &mut Shared,
    file: &[u8],
    table: &[u8],
    steps: u64,
) -> Result<Vec<u8>, Fault> {
    let table = table_of(alloc, table)?;
    stepped(alloc, store, file, Some(&table), steps)
}

/// The canonical text of a file after some steps under its own rule, and that of another file.
pub(crate) fn stepped_and_other(alloc: Global, steps: u64, file: &[u8], other: &[u8]) -> Texts {
    let text = stepped(alloc, &mut new_store(alloc), file, None, steps)?;
    let wanted = canon(alloc, &mut new_store(alloc), other)?;
    Ok((text, wanted))
}

/// Adds whether a file that is stepped row by row becomes another file; `none` of one that is left to a step by squares.
pub(crate) fn becomes_by_rows(
    alloc: Global,
    out: &mut Answer,
    store: &mut Shared,
    file: &[u8],
    other: &[u8],
) {
    match next_by_rows(alloc, store, file) {
        Some(text) => match canon(alloc, store, other) {
            Ok(wanted) => (text.as_slice() == wanted.as_slice()).show(out),
            Err(fault) => fault.show(out),
        },
        None => out.text("none"),
    }
}

/// A call that makes a text of a pattern.
#[derive(Clone, Copy)]
pub(crate) enum OfPattern {
    /// The canonical text of its moved form.
    Moved,
    /// That of its turned form.
    Turned,
    /// The lesser of another text and of its own.
    Lesser,
    /// That of its next generation, under its rule.
    NextByRule,
    /// That of its next generation, by a table.
    NextByTable,
    /// The line of its period.
    Period,
}

/// The canonical text of the moved form of a pattern.
fn moved_text(alloc: Global, store: &Shared, pattern: &Pattern) -> Result<Vec<u8>, Fault>
    requires { IsTrimmed store.now pattern.now }
{
    let (form, moved) = moved_of(alloc, store, pattern)?;
    text_of(alloc, &form, &moved)
}

/// The line of the least period of a pattern up to the number that a text writes, or up to 0 where it writes none.
fn period_text(
    alloc: Global,
    store: &Shared,
    pattern: &Pattern,
    most: &[u8],
) -> Result<Vec<u8>, Fault>
    requires { IsOfFile MAX_LEVEL store.now pattern.now }
{
    let most = read_u64(most).unwrap_or(0);
    let found = period_of_pattern(alloc, store, pattern, most)?;
    let mut text = Vec::new(alloc);
    append_period(&mut text, found, most)?;
    Ok(text)
}

/// The text that a call makes of a pattern in a store, and of another text.
fn text_of_pattern(
    alloc: Global,
    store: &mut Shared,
    call: OfPattern,
    pattern: Pattern,
    other: &[u8],
) -> Result<Vec<u8>, Fault>
    requires file { IsOfFile MAX_LEVEL store.old pattern }
    requires trimmed { IsTrimmed store.old pattern }
{
    match call {
        OfPattern::Moved => moved_text(alloc, store, &pattern),
        OfPattern::Turned => turned_text(alloc, store, &pattern),
        OfPattern::Lesser => match Vec::from_slice(alloc, other) {
            Ok(text) => lesser_text(alloc, store, &pattern, text),
            Err(_) => Err(Fault::of(Kind::Memory)),
        },
        OfPattern::NextByRule => next_by_rule(alloc, store, pattern),
        OfPattern::NextByTable => match table_of(alloc, other) {
            Ok(table) => next_by_table(alloc, store, pattern, &table),
            Err(fault) => Err(fault),
        },
        OfPattern::Period => period_text(alloc, store, &pattern, other),
    }
}

/// The text that a call makes of the pattern of a file, and of another text.
pub(crate) fn text_of_file(
    alloc: Global,
    store: &mut Shared,
    call: OfPattern,
    file: &[u8],
    other: &[u8],
) -> Result<Vec<u8>, Fault> {
    let pattern = read(alloc, store, file)?;
    text_of_pattern(alloc, store, call, pattern, other)
}
