//! The lesser of two texts, of which one comes line by line.

ghost use Rattle.std.specs.Prelude.{◌≡◌, ◌⊎◌, ℕ, List, ◌++◌, ◌≤◌, take, drop, length, OnOk, OnErr, IfOk, IfErr};
ghost use Rattle.life_writer.specs.Words.{Memory, fault_of, IsTrimmed, IsKnown, content, universe_in, canon_text, header_lines_text, node_text, square_text, seen_in, turned_tree, MayWalkPattern, IsUpTo, IsLesser, IsLesserText, IsOldHeld, LesserHolds, LinesCome, IsOldLesser, IsWithinTexts, no-lines-come, old-is-lesser, IsMemory};
ghost use Rattle.life_writer.specs.declared.lesser.Lesser.TheVariants.{Old};

use crate::line_sink::LineSink;
use crate::node_walk::walk_pattern;
use crate::orientation::{Orientation, Upright};
use crate::writer::begin_numbers;
use life_base::{Fault, Kind, MAX_LEVEL, begins_with};
use life_mc::{Line, append_line, append_prefix};
use life_pattern::Pattern;
use life_quad::{Shared, SharedSquares, Turn};
use std::alloc::Global;

/// What a sink returns that takes no more lines. Nothing reads which kind it is.
const ENOUGH: Kind = Kind::Spent;

/// Which of two texts is the lesser one, as far as it is known from what has come of the new one.
#[derive(Clone, Copy)]
enum Lesser {
    /// Not known yet: what has come has so many bytes, and the old text begins with them.
    Undecided(usize),
    /// The new text, whatever else comes.
    New,
    /// The old text, whatever else comes.
    Old,
}

/// Which text is the lesser one, where a piece of the new one comes in the place of this rest of the old one.
fn compare(rest: &[u8], piece: &[u8]) -> Lesser
    ensures { IsLesser rest.now piece.now result }
{
    if begins_with(rest, piece) {
        return Lesser::Undecided(piece.len());
    }
    if piece.cmp(rest).is_lt() {
        Lesser::New
    } else {
        Lesser::Old
    }
}

/// Decides between the old text, which has the bytes before `end`, and the new one, which has the first `count` of these and then the bytes
/// from `end` on. It leaves the old text, or the new one if that is the lesser one.
fn decide(bytes: &mut Vec<u8>, count: usize, end: usize) -> Lesser
    requires count { count ≤ end }
    requires end { end ≤ length bytes.old.items }
    ensures { LesserHolds (take end bytes.old.items)
        (take count bytes.old.items ++ drop end bytes.old.items) result bytes.new.items }
{
    let whole = bytes.len();
    match compare(&bytes[count..end], &bytes[end..]) {
        Lesser::Undecided(more) => {
            bytes.truncate(end);
            Lesser::Undecided(count + more)
        }
        Lesser::New => {
            bytes.copy_within(end.., count);
            bytes.truncate(count + (whole - end));
            Lesser::New
        }
        Lesser::Old => {
            bytes.truncate(end);
            Lesser::Old
        }
    }
}

/// Decides between the old text and the new one, of which a line comes after bytes with which the old text begins.
fn decide_by_line(bytes: &mut Vec<u8>, count: usize, line: &Line) -> Result<Lesser, Kind>
    requires { count ≤ length bytes.old.items }
    ensures decided { IfOk result (λ lesser. LesserHolds bytes.old.items
        (take count bytes.old.items ++ node_text line.now) lesser bytes.new.items) }
    ensures within { IfOk result (λ lesser. IsWithinTexts lesser bytes.new.items) }
    ensures kind { IfErr result IsMemory }
{
    let end = bytes.len();
    append_line(bytes, line)?;
    Ok(decide(bytes, count, end))
}

/// The lesser of an old text, which is whole, and of a new one, of which the lines come.
#[derive(Drop)]
struct LesserText {
    /// The old text, or what has come of the new one once that is the lesser one.
    bytes: Vec<u8>,
    lesser: Lesser,
}

impl LineSink<()> for LesserText {
    ghost ready = { λ a. IsWithinTexts a.0.lesser a.0.bytes.items };

    ghost took = { λ a b lines. LinesCome a.0.lesser a.0.bytes.items b.0.lesser b.0.bytes.items lines };

    ghost broke = { λ a b lines. IsOldLesser a.0.lesser a.0.bytes.items b.0.lesser b.0.bytes.items lines };

    ghost refuses = { λ a kind. (kind ≡ Memory) ⊎ (a.0.lesser ≡ Old) };

    ghost begins = { λ a. no-lines-come a.0.lesser a.0.bytes.items };

    ghost stops = { λ a _ start lines more took. old-is-lesser start.0.lesser a.0.lesser start.0.bytes.items a.0.bytes.items lines more took };

    fn take(&mut self, _device: &mut (), line: &Line) -> Result<(), Kind> {
        match self.lesser {
            Lesser::Undecided(count) => {
                self.lesser = decide_by_line(&mut self.bytes, count, line)?;
                Ok(())
            }
            Lesser::New => append_line(&mut self.bytes, line),
            Lesser::Old => Err(ENOUGH),
        }
    }
}

/// The lesser text, where this is held after a walk that returned this. Of two texts of which one begins with the other, the shorter one is the lesser.
fn finish(mut text: LesserText, walked: Result<(), Kind>) -> Result<Vec<u8>, Kind>
    requires kind { IfErr walked (λ kind. (kind ≡ Memory) ⊎ (text.lesser ≡ Old)) }
    ensures lesser { (old new : List ℕ) → OnOk walked
        (LesserHolds old new text.lesser text.bytes.items)
        → OnErr walked (IsOldHeld old new text.lesser text.bytes.items)
        → IfOk result (λ lesser. IsLesserText old new lesser.items) }
    ensures kind { IfErr result IsMemory }
{
    match text.lesser {
        Lesser::Undecided(count) => {
            walked?;
            text.bytes.truncate(count);
            Ok(text.bytes)
        }
        Lesser::New => {
            walked?;
            Ok(text.bytes)
        }
        Lesser::Old => Ok(text.bytes),
    }
}

/// The old text and the new one, of which the header lines came.
fn begin(mut best: Vec<u8>, pattern: &Pattern) -> Result<LesserText, Kind>
    ensures holds { IfOk result (λ text. LesserHolds best.items
        (header_lines_text pattern.now.rule pattern.now.generation) text.lesser text.bytes.items) }
    ensures within { IfOk result (λ text. IsWithinTexts text.lesser text.bytes.items) }
    ensures kind { IfErr result IsMemory }
{
    let end = best.len();
    append_prefix(&mut best, &pattern.rule, pattern.generation)?;
    let lesser = decide(&mut best, 0, end);
    Ok(LesserText {
        bytes: best,
        lesser,
    })
}

/// The lesser, byte by byte, of a text and of that of a pattern's root, as it is seen.
fn lesser_seen_text<O: Orientation>(
    alloc: Global,
    store: &Shared,
    orientation: &O,
    pattern: &Pattern,
    best: Vec<u8>,
) -> Result<Vec<u8>, Kind>
    requires root { MayWalkPattern (IsKnown store.now)
        (seen_in (O.seen orientation.now) (content store.now)) pattern.now }
    ensures lesser { IfOk result (λ text. IsLesserText best.items
        (square_text pattern.now.rule pattern.now.generation
        (O.seen orientation.now (content store.now pattern.now.root))) text.items) }
    ensures kind { IfErr result IsMemory }
{
    let mut text = begin(best, pattern)?;
    let numbers = begin_numbers(alloc, store, pattern)?;
    let walked = walk_pattern(store, orientation, pattern, numbers, &mut text, &mut ());
    Ok(finish(text, walked)?)
}

/// The lesser, byte by byte, of a text and of the canonical text of a pattern in its least square. Where one begins with the other, the shorter one is the
/// lesser. Of the canonical text no more lines are made than it takes to find that it is the greater one, and one text is held.
///
/// # Errors
///
/// `Memory`, at no line.
pub fn lesser_text(
    alloc: Global,
    store: &Shared,
    pattern: &Pattern,
    best: Vec<u8>,
) -> Result<Vec<u8>, Fault>
    requires { IsTrimmed store.now pattern.now }
    ensures one { IfOk result (λ text. (text.items ≡ best.items)
        ⊎ (text.items ≡ canon_text MAX_LEVEL (universe_in store.now pattern.now))) }
    ensures first { IfOk result (λ text. IsUpTo text.items best.items) }
    ensures second { IfOk result (λ text. IsUpTo text.items
        (canon_text MAX_LEVEL (universe_in store.now pattern.now))) }
    ensures memory { IfErr result (λ fault. fault ≡ fault_of Memory) }
{
    Ok(lesser_seen_text(alloc, store, &Upright, pattern, best)?)
}

/// The same of the text of the pattern's root, turned about its middle. No square is made: the walk visits the quarters in the turn's order.
///
/// # Errors
///
/// `Memory`, at no line.
pub fn lesser_turned_text(
    alloc: Global,
    store: &Shared,
    pattern: &Pattern,
    turn: Turn,
    best: Vec<u8>,
) -> Result<Vec<u8>, Fault>
    requires { IsTrimmed store.now pattern.now }
    ensures lesser { IfOk result (λ text. IsLesserText best.items
        (square_text pattern.now.rule pattern.now.generation
        (turned_tree turn (content store.now pattern.now.root))) text.items) }
    ensures memory { IfErr result (λ fault. fault ≡ fault_of Memory) }
{
    Ok(lesser_seen_text(alloc, store, &turn, pattern, best)?)
}
