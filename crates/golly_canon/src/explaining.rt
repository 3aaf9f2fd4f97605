//! What is said of a fault after its own line: the file, the line's text, a sentence, and what to do; and the warning of a file after the answer.

use crate::escaping::{push_all, push_visible};
use crate::item_marks::push_item_mark;
use crate::opening::ReservedStreams;
use crate::rereading::{SHOWN, foreign, line, unreadable};
use crate::watching::push_warning;
use file_hints::{Foreign, Warning, is_text, sentence};
use life_base::{Fault, Kind};
use life_cli::Refusal;
use life_cli::plans::{Form, Task, TaskPlan};
use std::alloc::AllocError;
use std::io::Write;

/// The file that a fault is in.
#[derive(Clone, Copy)]
enum Place<'a> {
    /// None.
    Nowhere,
    /// The file of this name, or standard input. It was wanted as a rule table, or as a pattern.
    File { name: &'a str, is_table: bool },
}

/// Whether the fault of a step by a rule table is in the table.
fn is_of_table(refusal: &Refusal) -> bool {
    refusal.in_table || matches!(refusal.fault.kind, Kind::Ambiguous)
}

impl<'a> Place<'a> {
    /// A pattern file.
    fn pattern(name: &'a str) -> Place<'a> {
        Place::File {
            name,
            is_table: false,
        }
    }

    /// The place of a fault.
    fn of(plan: &'a TaskPlan, refusal: &Refusal) -> Place<'a> {
        if matches!(
            refusal.fault.kind,
            Kind::Full | Kind::Memory | Kind::WriteFault | Kind::ReadFault
        ) {
            return Place::Nowhere;
        }
        let first = plan.first.as_str();
        let Some(second) = &plan.second else {
            return Place::pattern(first);
        };
        let second = second.as_str();
        match plan.task {
            Task::Same(_) if refusal.of_second => Place::pattern(second),
            _ if is_of_table(refusal) => Place::File {
                name: second,
                is_table: true,
            },
            _ => Place::pattern(first),
        }
    }

    /// What the file is, if it is something that the program doesn't read.
    fn foreign(self, rt: &HostRuntime) -> Option<Foreign> {
        match self {
            Place::File { name, is_table } => foreign(rt, name, is_table),
            Place::Nowhere => None,
        }
    }

    /// The text of a line of the file.
    fn line(self, rt: &HostRuntime, number: u64) -> Option<Vec<u8>> {
        match self {
            Place::File { name, .. } if number > 0 => line(rt, name, number),
            _ => None,
        }
    }
}

/// What helps against a fault of this kind, or nothing.
fn advice(kind: Kind) -> &'static str {
    match kind {
        Kind::NoHeader =>
            "Let [M2] begin the file, or a line such as x = 0, y = 0, rule = B3/S23 come before the items; put # before text.",
        Kind::BadHeader =>
            "Write the header as x = 0, y = 0, rule = B3/S23: the sizes are numbers.",
        Kind::BadRule =>
            "Write the rule as B3/S23 or as a name, with no space in it and nothing after it.",
        Kind::UnsupportedRule =>
            "Remove a comma or other text after the rule. Another rule in its place would make another pattern of the file.",
        Kind::BadNumber =>
            "Write the position as Pos=1,2, without a space, and the generation as Gen=3.",
        Kind::BadItem =>
            "Correct or remove what isn't a count, b, o, ., a letter of a state, $ or !; a count and its letter are on one line.",
        Kind::ZeroCount => "Remove the count and what it counts.",
        Kind::BirthOnZero => "Such rules fill the whole plane, so they aren't supported.",
        Kind::BadNode => "Put #C before text, and remove what comes after the last square.",
        Kind::LineTooLong => "Break the line: in RLE after a $.",
        Kind::BoundedGrid =>
            "Remove the rule's part from the : on if you mean the unbounded plane.",
        Kind::LateHeader =>
            "Move the line up: #CXRLE above the header, and #R or #G above the first square.",
        Kind::SecondHeader => "Make a file of each of the patterns.",
        Kind::StateRange =>
            "Under a B/S rule write b and o in lowercase, or give the header the rule that has these states.",
        Kind::BadChild | Kind::BadLevel | Kind::BadLeaf =>
            "A line was probably lost, added or changed: get the file again.",
        Kind::Timeline =>
            "Open the file in Golly, and save one of its patterns as a file of its own.",
        Kind::TooManyCells => "The commands canon and keys have no such limit.",
        Kind::NeedsTable => "Name the rule table: golly_canon step --table NAME.rule FILE.",
        Kind::RuleMismatch => "Take the table of that name; for a B/S rule leave --table out.",
        Kind::NoRuleLine =>
            "Let the file begin with the line @RULE NAME, and a line @TABLE come before the table.",
        Kind::StateBeyondTable => "Take the table that the pattern was made for.",
        Kind::Ambiguous =>
            "Split the line: write one for each value of its variable, in the order of the values.",
        _ => "",
    }
}

/// What is said of a fault, and what helps against it: where a period is sought, of a rule that is a name, and of a pattern that leaves the plane, other than in
/// a step.
fn sentences_of(task: Task, fault: &Fault) -> (&'static str, &'static str) {
    match (task, fault.kind) {
        (Task::ShowPeriod(_), Kind::NeedsTable) => (
            "The rule is a name, and a period is sought under a B/S rule alone.",
            "Leave --period out.",
        ),
        (Task::ShowPeriod(_), Kind::OutOfPlane) if fault.place.line == 0 => (
            "Before it is the same again, the pattern grows out of the plane, which goes from -2^61 to 2^61 - 1.",
            "",
        ),
        (Task::Canon(Form::Phases(_)) | Task::Same(Form::Phases(_)), Kind::OutOfPlane)
            if fault.place.line == 0 => (
            "Before it is the same again, the pattern grows out of the plane, which goes from -2^61 to 2^61 - 1.",
            "Take --form turned, or a smaller number after --within.",
        ),
        (_, kind) => (sentence(kind), advice(kind)),
    }
}

/// Adds a file's name, or `standard input`.
fn push_file(text: &mut Vec<u8>, name: &str) -> Result<(), AllocError> {
    match name {
        "-" => text.extend_from_slice(b"standard input"),
        _ => push_visible(text, name.as_bytes()),
    }
}

/// Adds where a fault is: `FILE, line N: `, as far as that is known. `made` generations were made before it, by a rule table.
fn push_place(
    rt: &HostRuntime,
    text: &mut Vec<u8>,
    place: Place<'_>,
    number: u64,
    made: u64,
) -> Result<(), AllocError> {
    match place {
        Place::Nowhere => return Ok(()),
        Place::File { name, .. } => push_file(text, name)?,
    }
    if number > 0 {
        let line = format!(in rt.alloc(); ", line {number}")?;
        text.extend_from_slice(line.as_bytes())?;
    }
    if made > 0 {
        let unit = if made == 1 {
            "generation"
        } else {
            "generations"
        };
        let after = format!(in rt.alloc(); ", after {made} {unit}")?;
        text.extend_from_slice(after.as_bytes())?;
    }
    text.extend_from_slice(b": ")
}

/// The part of a line that is shown: not the carriage return at its end.
fn without_return(line: &[u8]) -> &[u8] {
    match line {
        [prefix @ .., b'\r'] => prefix,
        _ => line,
    }
}

/// Adds the text of a line, on a line of its own, and three dots where it goes on.
fn push_line(text: &mut Vec<u8>, line: &[u8]) -> Result<(), AllocError> {
    let (prefix, end): (&[u8], &[u8]) = match line.get(..SHOWN) {
        Some(prefix) if line.len() > SHOWN => (prefix, b" ...\n"),
        _ => (without_return(line), b"\n"),
    };
    if prefix.is_empty() {
        return Ok(());
    }
    text.extend_from_slice(b"    ")?;
    push_visible(text, prefix)?;
    text.extend_from_slice(end)
}

/// Adds the line that is refused, and where an item of it is, a mark under that.
fn push_refused_line(text: &mut Vec<u8>, line: &[u8], kind: Kind) -> Result<(), AllocError> {
    push_line(text, line)?;
    match kind {
        Kind::BadItem => push_item_mark(text, line),
        _ => Ok(()),
    }
}

/// Adds a sentence, if there is one, on a line of its own.
fn push_sentence(text: &mut Vec<u8>, sentence: &str) -> Result<(), AllocError> {
    if sentence.is_empty() {
        return Ok(());
    }
    push_all(text, &[sentence.as_bytes(), b"\n"])
}

/// What is said of a fault of a file, or of none.
fn explanation(
    rt: &HostRuntime,
    plan: &TaskPlan,
    refusal: &Refusal,
) -> Result<Vec<u8>, AllocError> {
    let mut text = Vec::new(rt.alloc());
    let place = Place::of(plan, refusal);
    let Fault { kind, place: at } = refusal.fault;
    push_place(rt, &mut text, place, at.line, refusal.made)?;
    let (sentence, help) = sentences_of(plan.task, &refusal.fault);
    push_sentence(&mut text, sentence)?;
    let (advice, is_text) = match place.foreign(rt) {
        Some(foreign) => (foreign.advice(), is_text(foreign)),
        None => (help, true),
    };
    if is_text {
        if let Some(line) = place.line(rt, at.line) {
            push_refused_line(&mut text, line.as_slice(), kind)?;
        }
    }
    push_sentence(&mut text, advice)?;
    Ok(text)
}

/// Why a file can't be read, as far as that is seen.
fn why_unread(rt: &HostRuntime, streams: &ReservedStreams, name: &str) -> Option<&'static str> {
    if name != "-" {
        return unreadable(rt, name);
    }
    if streams.holds_input() {
        return Some("can't be opened");
    }
    unreadable(rt, "/dev/stdin")
}

/// Writes a text to standard error, as far as that takes it; nothing where there was no memory for the text.
fn say(rt: &HostRuntime, text: Result<Vec<u8>, AllocError>) {
    if let Ok(text) = text {
        let _ = rt.stderr().write_all(text.as_slice());
    }
}

/// The line that says why a file can't be read.
fn unread_line(rt: &HostRuntime, name: &str, why: &str) -> Result<Vec<u8>, AllocError> {
    let mut line = Vec::new(rt.alloc());
    push_file(&mut line, name)?;
    push_all(&mut line, &[b": ", why.as_bytes(), b"\n"])?;
    Ok(line)
}

/// A sentence on a line of its own.
fn sentence_line(rt: &HostRuntime, sentence: &str) -> Result<Vec<u8>, AllocError> {
    let mut line = Vec::new(rt.alloc());
    push_sentence(&mut line, sentence)?;
    Ok(line)
}

/// Says that a file can't be read, if that is seen, and returns whether it is.
fn explain_unread_file(rt: &HostRuntime, streams: &ReservedStreams, name: &str) -> bool {
    match why_unread(rt, streams, name) {
        Some(why) => {
            say(rt, unread_line(rt, name, why));
            true
        }
        None => false,
    }
}

/// Writes what is said where a file can't be read, or no random bytes come.
pub(crate) fn explain_unread(rt: &HostRuntime, streams: &ReservedStreams, plan: &TaskPlan) {
    if explain_unread_file(rt, streams, plan.first.as_str()) {
        return;
    }
    if let Some(second) = plan.second.as_deref() {
        if explain_unread_file(rt, streams, second) {
            return;
        }
    }
    say(rt, sentence_line(rt, sentence(Kind::ReadFault)));
}

/// Writes what is said of a refused task after the line of its fault.
pub(crate) fn explain(
    rt: &HostRuntime,
    streams: &ReservedStreams,
    plan: &TaskPlan,
    refusal: &Refusal,
) {
    match refusal.fault.kind {
        Kind::ReadFault => explain_unread(rt, streams, plan),
        _ => say(rt, explanation(rt, plan, refusal)),
    }
}

/// The line of a file's warning.
fn warning_line(rt: &HostRuntime, name: &str, warning: Warning) -> Result<Vec<u8>, AllocError> {
    let mut line = Vec::new(rt.alloc());
    push_file(&mut line, name)?;
    push_warning(&mut line, warning)?;
    Ok(line)
}

/// Writes the warning of a file.
pub(crate) fn warn(rt: &HostRuntime, name: &str, warning: Warning) {
    say(rt, warning_line(rt, name, warning));
}
