//! What a pattern is, in five lines.

ghost use Rattle.std.specs.Prelude.{◌≡◌, ◌++◌, ◌≤◌, codes, decimal, IfOk, IfErr, IfSome, OnOk, MatchOption};
ghost use Rattle.life_writer.specs.Words.{signed_decimal, fault_of, rule_text, Memory, depth, is_blank_tree, population, IsBoundingBoxOfTree, BoundsValue, box_side, node_lines, canonical_file, ForEachFile, IsOfFile, IsTrimmed, universe_in, content, IsShownText, IsOrdered, AreOrdered, box_text, show_text, IsMemory};
ghost use Rattle.std.specs.Prelude.{Option, true};

use crate::cell_counts::{Tally, count_all};
use crate::writer::begin_numbers;
use life_base::{Bounds, Fault, Kind, MAX_LEVEL, append, append_number};
use life_pattern::Pattern;
use life_quad::{Shared, bounds};
use std::alloc::Global;

/// Adds a word, the number after it and a line feed at the end.
fn append_line(out: &mut Vec<u8>, word: &[u8], number: u64) -> Result<(), Kind>
    ensures ok { OnOk result
        (out.new.items ≡ out.old.items ++ word.now ++ decimal number ++ codes "\n") }
    ensures kind { IfErr result IsMemory }
{
    append(out, word)?;
    append_number(out, number)?;
    append(out, b"\n")
}

/// Adds a number of cells at the end.
fn append_population(out: &mut Vec<u8>, number: u128) -> Result<(), Kind>
    ensures ok { OnOk result
        (out.new.items ≡ out.old.items ++ codes "population " ++ decimal number ++ codes "\n") }
    ensures kind { IfErr result IsMemory }
{
    append(out, b"population ")?;
    append_number(out, number)?;
    append(out, b"\n")
}

/// Adds a signed number and a space at the end.
fn append_coordinate(out: &mut Vec<u8>, number: i64) -> Result<(), Kind>
    ensures ok { OnOk result (out.new.items ≡ out.old.items ++ signed_decimal number ++ codes " ") }
    ensures kind { IfErr result IsMemory }
{
    append_number(out, number)?;
    append(out, b" ")
}

/// How many columns or rows lie between two sides, themselves included.
fn side(low: i64, high: i64) -> u64
    requires { IsOrdered low high }
    ensures { result ≡ box_side low high }
{
    (high - low) as u64 + 1
}

/// Adds the line of the bounding box at the end.
fn append_box(out: &mut Vec<u8>, found: Option<Bounds>) -> Result<(), Kind>
    requires { IfSome found AreOrdered }
    ensures ok { OnOk result (out.new.items ≡ out.old.items ++ box_text found) }
    ensures kind { IfErr result IsMemory }
{
    let Some(found) = found else {
        return append(out, b"box none\n");
    };
    append(out, b"box ")?;
    append_coordinate(out, found.left)?;
    append_coordinate(out, found.top)?;
    append_number(out, side(found.left, found.right))?;
    append(out, b" ")?;
    append_number(out, side(found.top, found.bottom))?;
    append(out, b"\n")
}

/// Adds the line of the rule at the end.
fn append_rule(out: &mut Vec<u8>, pattern: &Pattern) -> Result<(), Kind>
    ensures ok { OnOk result (out.new.items ≡ out.old.items ++ codes "rule "
        ++ rule_text pattern.now.rule ++ codes "\n") }
    ensures kind { IfErr result IsMemory }
{
    append(out, b"rule ")?;
    pattern.rule.write(out)?;
    append(out, b"\n")
}

/// How many node lines the canonical file of a pattern has, and how many cells aren't 0.
fn counts_of(alloc: Global, store: &Shared, pattern: &Pattern) -> Result<Tally, Kind>
    requires { IsTrimmed store.now pattern.now }
    ensures lines { IfOk result (λ counts. counts.lines ≡ node_lines
        (canonical_file MAX_LEVEL (universe_in store.now pattern.now))) }
    ensures cells { IfOk result
        (λ counts. counts.cells ≡ population (content store.now pattern.now.root)) }
    ensures kind { IfErr result IsMemory }
{
    let numbers = begin_numbers(alloc, store, pattern)?;
    count_all(alloc, store, pattern, numbers)
}

/// The five lines of a pattern.
fn five_lines(alloc: Global, store: &Shared, pattern: &Pattern) -> Result<Vec<u8>, Kind>
    requires trimmed { IsTrimmed store.now pattern.now }
    requires level { 1 ≤ depth (content store.now pattern.now.root) }
    ensures text { IfOk result (λ text. (box : Option BoundsValue)
        × MatchOption box (is_blank_tree (content store.now pattern.now.root) ≡ true)
        (IsBoundingBoxOfTree (content store.now pattern.now.root))
        × (text.items ≡ show_text pattern.now.rule pattern.now.generation
        (population (content store.now pattern.now.root)) box
        (node_lines (canonical_file MAX_LEVEL (universe_in store.now pattern.now))))) }
    ensures kind { IfErr result IsMemory }
{
    let counts = counts_of(alloc, store, pattern)?;
    let least = bounds(alloc, store, pattern.root)?;
    let mut out = Vec::new(alloc);
    append_rule(&mut out, pattern)?;
    append_line(&mut out, b"generation ", pattern.generation)?;
    append_population(&mut out, counts.cells)?;
    append_box(&mut out, least)?;
    append_line(&mut out, b"nodes ", counts.lines)?;
    Ok(out)
}

/// Five lines on a pattern that was read into the store: those that `show` answers for its file.
///
/// # Errors
///
/// `Memory`, at no line.
pub fn five_lines_of(alloc: Global, store: &Shared, pattern: &Pattern) -> Result<Vec<u8>, Fault>
    requires { IsOfFile MAX_LEVEL store.now pattern.now }
    ensures text { IfOk result
        (λ text. ForEachFile store.now pattern.now
        (λ bytes. IsShownText MAX_LEVEL bytes text.items)) }
    ensures memory { IfErr result (λ fault. fault ≡ fault_of Memory) }
{
    Ok(five_lines(alloc, store, pattern)?)
}
