//! Calls of `life_base`.

use crate::answer::{Answer, Show, show_list};
use crate::row::{number_of, signed_of};
use life_base::{
    Device, Items, Kind, LifeRule, Near, Rule, Source, append, append_number, begins_with,
    is_too_long, leading_number, line_end, line_fits, lines, read_i64, read_u64, read_within,
    split_word, trimmed,
};
use std::alloc::Global;

/// Most words of an input.
const WORDS: u8 = 100;

/// The rule that a text writes; or nothing, and the kind with which it is refused is added.
pub(crate) fn rule_of(alloc: Global, out: &mut Answer, text: &[u8]) -> Option<Rule> {
    match Rule::parse(alloc, text) {
        Ok(rule) => Some(rule),
        Err(kind) => {
            out.refused(kind);
            None
        }
    }
}

/// The text of a rule.
fn text_of_rule(alloc: Global, rule: &Rule) -> Result<Vec<u8>, Kind> {
    let mut text = Vec::new(alloc);
    match rule.write(&mut text) {
        Ok(()) => Ok(text),
        Err(kind) => Err(kind),
    }
}

/// Adds the text of a rule. Out of memory, the answer is cut.
pub(crate) fn show_rule(alloc: Global, out: &mut Answer, rule: &Rule) {
    match text_of_rule(alloc, rule) {
        Ok(text) => out.bytes(&text),
        Err(_) => out.is_cut = true,
    }
}

/// Adds the rule and the generation that lines are a file of, or the kind with which they are none.
pub(crate) fn show_end(alloc: Global, out: &mut Answer, end: Result<(Rule, u64), Kind>) {
    match end {
        Ok((rule, generation)) => {
            show_rule(alloc, out, &rule);
            out.text(" ");
            generation.show(out);
        }
        Err(kind) => out.refused(kind),
    }
}

/// Of a B/S rule `Life` and its canonical text, `Name` of one that is kept as it is but for whitespace around it, and of a text that is
/// no rule the kind with which it is refused.
fn rule(alloc: Global, out: &mut Answer, text: &[u8]) {
    let Some(rule) = rule_of(alloc, out, text) else {
        return;
    };
    let written = match text_of_rule(alloc, &rule) {
        Ok(written) => written,
        Err(kind) => return out.refused(kind),
    };
    match rule {
        Rule::Named(name) if name.bytes() == trimmed(text) && name.bytes() == written.as_slice() =>
            {
                out.text("Name");
            }
        _ => {
            out.text("Life ");
            out.bytes(&written);
        }
    }
}

/// Whether two texts say one rule, and whether a copy of the first says it too.
fn same_rules(alloc: Global, out: &mut Answer, left: &[u8], right: &[u8]) {
    let Some(one) = rule_of(alloc, out, left) else {
        return;
    };
    let Some(other) = rule_of(alloc, out, right) else {
        return;
    };
    one.same(&other).show(out);
    out.text(" ");
    match one.copy(alloc) {
        Ok(copy) => one.same(&copy).show(out),
        Err(kind) => out.refused(kind),
    }
}

/// A copy of a rule's name.
fn copied_name(alloc: Global, out: &mut Answer, text: &[u8]) {
    match rule_of(alloc, out, text) {
        Some(Rule::Named(name)) => match name.copy(alloc) {
            Ok(copy) => out.bytes(copy.bytes()),
            Err(kind) => out.refused(kind),
        },
        Some(Rule::Life(_)) => out.is_bad = true,
        None => {}
    }
}

/// Adds bytes between `<` and `>`.
fn show_between(out: &mut Answer, bytes: &[u8]) {
    out.text("<");
    out.bytes(bytes);
    out.text(">");
}

/// Each line with its number, and `more` if one comes after the last, or later.
fn numbered_lines(out: &mut Answer, text: &[u8]) {
    let mut behind = lines(text);
    for (number, line) in lines(text) {
        number.show(out);
        show_between(out, line);
        let _ = behind.next();
    }
    if behind.next().is_some() || behind.next().is_some() {
        out.text("more");
    }
}

/// Numbers that become items one after another: all of them after each.
fn items(alloc: Global, out: &mut Answer, numbers: &[u8]) {
    let mut items = Items::<u64>::new(alloc);
    let mut rest = numbers;
    for _ in 0..WORDS {
        let (word, others) = split_word(rest);
        if word.is_empty() {
            return;
        }
        if let Err(kind) = items.push(number_of(out, word)) {
            return out.refused(kind);
        }
        show_list(out, " ", " ", items.as_slice());
        out.text(",");
        items = Items::from_vec(items.into_vec());
        rest = others;
    }
}

/// The texts of two rules that became items.
fn rules(alloc: Global, out: &mut Answer, texts: [&[u8]; 2]) {
    let mut rules = Items::<Rule>::new(alloc);
    for text in texts {
        let Some(rule) = rule_of(alloc, out, text) else {
            return;
        };
        if let Err(kind) = rules.push(rule) {
            return out.refused(kind);
        }
    }
    for rule in rules.as_slice() {
        show_rule(alloc, out, rule);
        out.text(" ");
    }
}

/// The number of up to 128 bits that a text writes.
fn large_of(out: &mut Answer, text: &[u8]) -> u128 {
    match std::str::from_utf8(text) {
        Ok(text) => match text.parse::<u128>() {
            Ok(number) => number,
            Err(_) => {
                out.is_bad = true;
                0
            }
        },
        Err(_) => {
            out.is_bad = true;
            0
        }
    }
}

/// Adds a number of the type of this name to a text.
fn append_of(out: &mut Answer, text: &mut Vec<u8>, name: &[u8], number: &[u8]) -> Result<(), Kind> {
    if name == b"u64".as_slice() {
        append_number::<u64>(text, number_of(out, number))
    } else if name == b"i64".as_slice() {
        append_number::<i64>(text, signed_of(out, number))
    } else {
        append_number::<u128>(text, large_of(out, number))
    }
}

/// Numbers of a type one after another, as they are added to `#G `.
fn numbers(alloc: Global, out: &mut Answer, name: &[u8], numbers: &[u8]) {
    let mut text = Vec::new(alloc);
    if let Err(kind) = append(&mut text, b"#G ") {
        return out.refused(kind);
    }
    let mut rest = numbers;
    for _ in 0..WORDS {
        let (word, others) = split_word(rest);
        if word.is_empty() {
            return out.bytes(&text);
        }
        if let Err(kind) = append_of(out, &mut text, name, word) {
            return out.refused(kind);
        }
        rest = others;
    }
}

/// Adds, as digits, whether a dead cell and a live one are alive next by each count of live neighbours up to the most.
fn show_next(out: &mut Answer, rule: &LifeRule) {
    let most = if rule.near == Near::Moore { 8u8 } else { 4 };
    for alive in [false, true] {
        out.text(" ");
        for count in 0..=most {
            out.text(if rule.next(alive, count) { "1" } else { "0" });
        }
    }
}

/// The text of a rule, of the default one for no text, and the states that it gives.
fn next_states(alloc: Global, out: &mut Answer, text: &[u8]) {
    let rule = if text.is_empty() {
        Some(Rule::default_rule())
    } else {
        rule_of(alloc, out, text)
    };
    if let Some(rule) = rule {
        show_rule(alloc, out, &rule);
        match &rule {
            Rule::Life(rule) => show_next(out, rule),
            Rule::Named(_) => out.is_bad = true,
        }
    }
}

/// Whether what is read of an input is all of it, or a kind; and `failed` where the source says so.
fn within(alloc: Global, out: &mut Answer, most: &[u8], bytes: &[u8]) {
    let most = number_of(out, most).min(1 << 30);
    let mut source = Device::new(bytes);
    match read_within(alloc, &mut source, most) {
        Ok(read) => (read.as_slice() == bytes).show(out),
        Err(kind) => out.refused(kind),
    }
    if Source::failed(&source) {
        out.text(" failed");
    }
}

/// A call.
#[derive(Clone, Copy)]
pub(crate) enum Call {
    Rule,
    SameRules,
    NameCopy,
    Lines,
    BeginsWith,
    SplitWord,
    LeadingNumber,
    LineEnd,
    LineFits,
    IsTooLong,
    Items,
    Rules,
    AppendNumbers,
    NextStates,
    ReadWithin,
    ReadU64,
    ReadI64,
}

/// Adds what a call answers to an input.
pub(crate) fn answer(alloc: Global, out: &mut Answer, call: Call, texts: [&[u8]; 3]) {
    let [text, other, _] = texts;
    match call {
        Call::Rule => rule(alloc, out, text),
        Call::SameRules => same_rules(alloc, out, text, other),
        Call::NameCopy => copied_name(alloc, out, text),
        Call::Lines => numbered_lines(out, text),
        Call::BeginsWith => begins_with(text, other).show(out),
        Call::SplitWord => {
            let (word, rest) = split_word(text);
            show_between(out, word);
            show_between(out, rest);
        }
        Call::LeadingNumber => {
            let (number, count) = leading_number(text);
            show_list(out, "", " ", &[number, count as u64]);
        }
        Call::LineEnd => match line_end(text) {
            Some(end) => (end as u64).show(out),
            None => out.text("none"),
        },
        Call::LineFits => {
            let kept = number_of(out, text);
            let more = number_of(out, other);
            line_fits(kept, more).show(out);
        }
        Call::IsTooLong => is_too_long(text).show(out),
        Call::Items => items(alloc, out, text),
        Call::Rules => rules(alloc, out, [text, other]),
        Call::AppendNumbers => numbers(alloc, out, text, other),
        Call::NextStates => next_states(alloc, out, text),
        Call::ReadWithin => within(alloc, out, text, other),
        Call::ReadU64 => read_u64(text).show(out),
        Call::ReadI64 => read_i64(text).show(out),
    }
}
