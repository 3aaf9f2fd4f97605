//! A piece of a text, which is written before it outgrows its capacity.

ghost use Rattle.std.specs.Prelude.{refl, ◌≡◌, ◌⊎◌, ◌+◌, ◌++◌, ◌≤◌, take, length, true, vec_capacity, IfOk, OnOk, OnErr};
ghost use Rattle.life_writer.specs.Words.{WriteFault, WritesPrefix, LeavesSink, node_text, WritesPart, PieceTakes, PieceBreaks, piece-begins, piece-stops, no_failure};

use crate::line_sink::LineSink;
use life_base::{Kind, Sink, write_text};
use life_mc::{LONGEST_NODE_LINE, Line, write_line};

/// How many bytes are read, or held before they are written, at once.
pub(crate) const PIECE: usize = 65536;

/// How many bytes a piece gets at first after twice as many as it has.
const FIRST_SPACE: usize = 1024;

/// Adds zeros after what a piece has, so that it is more than twice as long, or as long as a piece gets. Short texts need few of them.
fn lengthen(bytes: &mut Vec<u8>)
    requires { 65536 ≤ vec_capacity bytes.old }
    ensures part { take (length bytes.old.items) bytes.new.items ≡ bytes.old.items }
    ensures longer { length bytes.old.items ≤ length bytes.new.items }
    ensures some { 1024 ≤ length bytes.new.items }
    ensures capacity { 65536 ≤ vec_capacity bytes.new }
{
    if bytes.len() >= PIECE {
        return;
    }
    let longer = (2 * bytes.len() + FIRST_SPACE).min(PIECE);
    let _ = bytes.resize(longer, 0);
}

/// Makes space for a line after the text that a piece holds before `end`, and returns where that text ends then. Either the piece gets longer, or what it
/// holds is written. It is never inlined, so that a line that fits is written in few steps.
#[inline(never)]
fn make_space<W: Sink>(bytes: &mut Vec<u8>, end: usize, writer: &mut W) -> Result<usize, Kind>
    requires capacity { 65536 ≤ vec_capacity bytes.old }
    requires within { end ≤ length bytes.old.items }
    requires works { W.failures writer.old ≡ 0 }
    ensures part { IfOk result (λ held. WritesPart (W.contents writer.old) (W.contents writer.new)
        (take end bytes.old.items) (take held bytes.new.items)) }
    ensures space { IfOk result (λ held. held + 105 ≤ length bytes.new.items) }
    ensures prefix { OnErr result
        (WritesPrefix (W.contents writer.old) (W.contents writer.new) (take end bytes.old.items)) }
    ensures capacity { 65536 ≤ vec_capacity bytes.new }
    ensures sink { LeavesSink W.failures W.stalled writer.old writer.new result }
{
    lengthen(bytes);
    if bytes.len() - end >= LONGEST_NODE_LINE {
        return Ok(end);
    }
    write_text(writer, &bytes[..end])?;
    Ok(0)
}

/// Finds space for a line as `make_space` makes it, where there is none yet.
#[inline(always)]
fn find_space<W: Sink>(bytes: &mut Vec<u8>, end: usize, writer: &mut W) -> Result<usize, Kind>
    requires capacity { 65536 ≤ vec_capacity bytes.old }
    requires within { end ≤ length bytes.old.items }
    requires works { W.failures writer.old ≡ 0 }
    ensures part { IfOk result (λ held. WritesPart (W.contents writer.old) (W.contents writer.new)
        (take end bytes.old.items) (take held bytes.new.items)) }
    ensures space { IfOk result (λ held. held + 105 ≤ length bytes.new.items) }
    ensures prefix { OnErr result
        (WritesPrefix (W.contents writer.old) (W.contents writer.new) (take end bytes.old.items)) }
    ensures capacity { 65536 ≤ vec_capacity bytes.new }
    ensures sink { LeavesSink W.failures W.stalled writer.old writer.new result }
{
    if bytes.len() - end >= LONGEST_NODE_LINE {
        return Ok(end);
    }
    make_space(bytes, end, writer)
}

/// Adds a line after the text that a piece holds before `end`, and returns where that text ends then.
#[inline(always)]
fn add_line<W: Sink>(
    bytes: &mut Vec<u8>,
    end: usize,
    line: &Line,
    writer: &mut W,
) -> Result<usize, Kind>
    requires capacity { 65536 ≤ vec_capacity bytes.old }
    requires within { end ≤ length bytes.old.items }
    requires works { W.failures writer.old ≡ 0 }
    ensures part { IfOk result (λ held. WritesPart (W.contents writer.old) (W.contents writer.new)
        (take end bytes.old.items ++ node_text line.now) (take held bytes.new.items)) }
    ensures within { IfOk result (λ held. held ≤ length bytes.new.items) }
    ensures prefix { OnErr result
        (WritesPrefix (W.contents writer.old) (W.contents writer.new) (take end bytes.old.items)) }
    ensures capacity { 65536 ≤ vec_capacity bytes.new }
    ensures sink { LeavesSink W.failures W.stalled writer.old writer.new result }
{
    let at = find_space(bytes, end, writer)?;
    Ok(write_line(bytes, at, line))
}

/// A text of which a prefix was written. This holds the rest, and has space for 65,536 bytes.
#[derive(Drop)]
pub(crate) struct Piece {
    /// The text, and then space for lines.
    bytes: Vec<u8>,
    /// Where the text ends.
    end: usize,
}

impl Piece {
    /// A piece that holds a text.
    pub(crate) fn new(text: Vec<u8>) -> Piece
        ensures text { take result.end result.bytes.items ≡ text.items }
        ensures capacity { vec_capacity result.bytes ≡ vec_capacity text }
        ensures within { result.end ≤ length result.bytes.items }
    {
        let end = text.len();
        Piece { bytes: text, end }
    }

    /// The text that it holds.
    pub(crate) fn text(&self) -> &[u8]
        requires { self.now.end ≤ length self.now.bytes.items }
        ensures { result.now ≡ take self.now.end self.now.bytes.items }
    {
        &self.bytes[..self.end]
    }
}

impl<W: Sink> LineSink<W> for Piece {
    ghost ready = { λ a. (65536 ≤ vec_capacity a.0.bytes) × (a.0.end ≤ length a.0.bytes.items) × (W.failures a.1 ≡ 0) };

    ghost took = { λ a b lines. PieceTakes W.contents W.stalled a.1 b.1 (take a.0.end a.0.bytes.items) (take b.0.end b.0.bytes.items) lines };

    ghost broke = { λ a b lines. PieceBreaks W.contents W.failures W.stalled a.1 b.1 (take a.0.end a.0.bytes.items) lines };

    ghost refuses = { λ a kind. (kind ≡ WriteFault) × ((W.failures a.1 ≡ 1) ⊎ (W.stalled a.1 ≡ true)) };

    ghost begins = { λ a. record { text = piece-begins (W.contents a.1) (take a.0.end a.0.bytes.items); stalled = refl } };

    ghost stops = { λ _ ready _ lines more took. record { prefix = piece-stops _ _ _ _ lines took.text more; stalled = no_failure (W.failures _) ready.2 } };

    #[inline(always)]
    fn take(&mut self, device: &mut W, line: &Line) -> Result<(), Kind> {
        self.end = add_line(&mut self.bytes, self.end, line, device)?;
        Ok(())
    }
}
