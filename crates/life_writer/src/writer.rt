//! The canonical text of a pattern, without a file value between, whole or in pieces.

ghost use Rattle.std.proofs.Common.{sym};
ghost use Rattle.std.specs.Prelude.{◌≡◌, ◌++◌, ◌≤◌, [], true, flat_map, vec_capacity, OnOk, IfOk, IfErr};
ghost use Rattle.std.proofs.lemmas.List.{append-nil};
ghost use Rattle.life_writer.specs.Words.{Memory, fault_of, WritesText, LeavesSink, depth, Knows, largest_state, HasStatesUpTo, header_lines_text, node_text, least_level, listed_squares, lines_for, canon_text, IsTrimmed, universe_in, content, HasNumbersFrom, IsMemory};

use crate::line_sink::LineSink;
use crate::node_walk::walk_pattern;
use crate::orientation::Upright;
use crate::piece::{PIECE, Piece};
use life_base::{Fault, Kind, MAX_LEVEL, Rule, Sink, deliver};
use life_mc::{Line, append_line, append_prefix};
use life_pattern::{Pattern, least_level};
use life_quad::{IdNumbers, Shared, SharedSquares, Squares};
use std::alloc::Global;

/// How many bytes the first lines of most files have at most.
const SHORT_PREFIX: usize = 256;

/// How many bytes the text of a small pattern has at most.
const SHORT_TEXT: usize = 512;

/// In a store of so many nodes at most, numbers for all of them are made at once, which takes 4 MB.
const FEW_NODES: usize = 1 << 20;

/// A whole text.
#[derive(Drop)]
struct Text {
    bytes: Vec<u8>,
}

impl LineSink<()> for Text {
    ghost ready = { λ _. Unit {0} };

    ghost took = { λ a b lines. b.0.bytes.items ≡ a.0.bytes.items ++ flat_map node_text lines };

    ghost broke = { λ _ _ _. Unit {0} };

    ghost refuses = { λ _ kind. kind ≡ Memory };

    ghost begins = { λ a. sym (append-nil a.0.bytes.items) };

    ghost stops = { λ _ _ _ _ _ _. tt };

    fn take(&mut self, _device: &mut (), line: &Line) -> Result<(), Kind> {
        append_line(&mut self.bytes, line)
    }
}

/// The canonical text of a pattern in its least square: that of `number`'s file, which is not made.
///
/// # Errors
///
/// `Memory`, at no line.
pub fn text_of(alloc: Global, store: &Shared, pattern: &Pattern) -> Result<Vec<u8>, Fault>
    requires { IsTrimmed store.now pattern.now }
    ensures text { IfOk result
        (λ text. text.items ≡ canon_text MAX_LEVEL (universe_in store.now pattern.now)) }
    ensures memory { IfErr result (λ fault. fault ≡ fault_of Memory) }
{
    let mut text = Text {
        bytes: prefix_with_space(alloc, pattern, SHORT_TEXT)?,
    };
    let numbers = begin_numbers(alloc, store, pattern)?;
    walk_pattern(store, &Upright, pattern, numbers, &mut text, &mut ())?;
    Ok(text.bytes)
}

/// The first lines of a pattern's text. Capacity for so many bytes was reserved at once.
fn prefix_with_space(alloc: Global, pattern: &Pattern, space: usize) -> Result<Vec<u8>, Kind>
    ensures prefix { IfOk result
        (λ prefix. prefix.items ≡ header_lines_text pattern.now.rule pattern.now.generation) }
    ensures kind { IfErr result IsMemory }
{
    let mut prefix = Vec::with_capacity(alloc, space)?;
    append_prefix(&mut prefix, &pattern.rule, pattern.generation)?;
    Ok(prefix)
}

/// The same, with space for a piece after them.
fn begin_prefix(alloc: Global, pattern: &Pattern) -> Result<Vec<u8>, Kind>
    ensures prefix { IfOk result
        (λ prefix. prefix.items ≡ header_lines_text pattern.now.rule pattern.now.generation) }
    ensures space { IfOk result (λ prefix. 65536 ≤ vec_capacity prefix) }
    ensures kind { IfErr result IsMemory }
{
    let mut prefix = prefix_with_space(alloc, pattern, PIECE + SHORT_PREFIX)?;
    prefix.reserve(PIECE)?;
    Ok(prefix)
}

/// Numbers for a walk over a pattern's squares that may be refused memory: no square has one yet. Under a B/S rule there is capacity for all of a store's
/// nodes at once, unless it is large, so that the pattern may be a small part of it. Under a name small squares have numbers too.
pub(crate) fn begin_numbers(
    alloc: Global,
    store: &Shared,
    pattern: &Pattern,
) -> Result<IdNumbers, Kind>
    ensures none { IfOk result (λ numbers. numbers.ids ≡ []) }
    ensures kind { IfErr result IsMemory }
{
    match pattern.rule {
        Rule::Life(_) if store.nodes() <= FEW_NODES => IdNumbers::new(alloc, store, 3),
        _ => Ok(IdNumbers::growing(alloc)),
    }
}

/// What a pattern's text is written with: the numbers, of which no square has one yet, and the header lines, with space for a piece after them.
///
/// # Errors
///
/// `Memory`.
pub fn begin_text(
    alloc: Global,
    store: &Shared,
    pattern: &Pattern,
) -> Result<(IdNumbers, Vec<u8>), Kind>
    ensures none { IfOk result (λ p. p.0.ids ≡ []) }
    ensures bound { IfOk result (λ p. HasNumbersFrom (Knows store.now) (content store.now)
        (least_level pattern.now.rule) p.0.space) }
    ensures prefix { IfOk result
        (λ p. p.1.items ≡ header_lines_text pattern.now.rule pattern.now.generation) }
    ensures space { IfOk result (λ p. 65536 ≤ vec_capacity p.1) }
    ensures kind { IfErr result IsMemory }
{
    let numbers = IdNumbers::new(alloc, store, least_level(&pattern.rule))?;
    let prefix = begin_prefix(alloc, pattern)?;
    Ok((numbers, prefix))
}

/// Writes the header lines and then the lines of the squares of a pattern, in their order, and flushes. There is capacity for the number of each
/// square that needs one. The text is gathered in the space after the header lines, and written whenever a line may not fit. It takes no memory.
///
/// # Errors
///
/// `WriteFault` where a write or the flush fails, or a write takes no bytes.
pub fn deliver_squares<S: SharedSquares, W: Sink>(
    squares: &S,
    pattern: &Pattern,
    numbers: IdNumbers,
    prefix: Vec<u8>,
    writer: &mut W,
) -> Result<(), Kind>
    requires known { S.knows squares.now pattern.now.root }
    requires level { least_level pattern.now.rule ≤ depth (S.content squares.now pattern.now.root) }
    requires states { HasStatesUpTo (largest_state pattern.now.rule)
        (S.content squares.now pattern.now.root) }
    requires none { numbers.ids ≡ [] }
    requires bound { HasNumbersFrom (S.knows squares.now) (S.content squares.now)
        (least_level pattern.now.rule) numbers.space }
    requires space { 65536 ≤ vec_capacity prefix }
    requires works { W.failures writer.old ≡ 0 }
    ensures text { WritesText (W.contents writer.old) (W.contents writer.new)
        (prefix.items ++ flat_map node_text (lines_for pattern.now.rule
        (listed_squares (S.content squares.now pattern.now.root) (least_level pattern.now.rule))))
        result }
    ensures sink { LeavesSink W.failures W.stalled writer.old writer.new result }
    ensures flushed { OnOk result (W.flushed writer.new ≡ true) }
{
    let mut piece = Piece::new(prefix);
    walk_pattern(squares, &Upright, pattern, numbers, &mut piece, writer)?;
    deliver(writer, piece.text())
}
