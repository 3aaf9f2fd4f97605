//! The command `keys` over a stream: its pieces, one after another.

ghost use Rattle.std.specs.Prelude.{◌≡◌, ◌<◌, ◌≤◌, ◌+◌, ◌^◌, ◌-◌, ◌∷◌, [], ℕ, Bool, List, length, false, true, None, Some, OnOk, IfOk, MatchOption};
ghost use Rattle.std.specs.Io.KnownBytes.{Consumes, IsAtEnd};
ghost use Rattle.file_keys.specs.Words.{sink_run, source_run, BreaksStream, CanBegin, CanTakePieces, done, PatternEntry, fault_entry, HoldsPiece, IsEntryOf, IsStatus, LeavesSink, StreamRan, style_by, TakesPieces, TellsStreamEnd, TellsGiven, TellsSource, WritesEntries};

use super::held_piece::HeldPiece;
use crate::keys::outcome::Outcome;
use crate::keys::outputs::Outputs;
use crate::keys::refusal::{FileRefusal, OpenedFile};
use crate::keys::style::Style;
use command_line::{KeyForm, Origin, StreamPlan, origin_of};
use itoa::Buffer;
use life_base::{Fault, Kind, Sink, Source};
use memchr::memchr;
use pattern_sources::Seeds;
use std::alloc::Global;
use std::io::Result as IoResult;

/// How many bytes of a stream are read at once.
const CHUNK: usize = 65536;

/// The most bytes of a stream: so there are fewer than 2^64 pieces.
const LONGEST_STREAM: u64 = u64::MAX - 1;

/// A run: the piece that was begun, and what is written of those before.
#[derive(Drop)]
pub struct StreamRun {
    alloc: Global,
    seeds: Seeds,
    pub form: KeyForm,
    pub outputs: Outputs,
    pub piece: HeldPiece,
    /// How many pieces have ended.
    pub count: u64,
}

impl StreamRun {
    /// Writes what comes of the piece that was begun, which ends, and begins the next one.
    fn end_piece<W: Sink, E: Sink>(&mut self, out: &mut W, err: &mut E) -> Result<(), Kind>
        requires can { CanTakePieces self.old (W.failures out.old) (E.failures err.old) }
        requires count { self.old.count < 2 ^ 64 - 1 }
        ensures entry { (piece : List ℕ) → HoldsPiece self.old.piece piece → (e : PatternEntry)
            × IsEntryOf self.old.form (self.old.count + 1) piece e
            × WritesEntries W.contents E.contents E.failures E.stalled out.old out.new
            err.old err.new self.old.outputs self.new.outputs result (e ∷ []) }
        ensures begun { HoldsPiece self.new.piece [] }
        ensures can { OnOk result
            (CanTakePieces self.new (W.failures out.new) (E.failures err.new)) }
        ensures count { self.new.count ≡ self.old.count + 1 }
        ensures form { self.new.form ≡ self.old.form }
        ensures style { self.new.outputs.style ≡ self.old.outputs.style }
        ensures sink { LeavesSink W.failures W.stalled out.old out.new result }
    {
        self.count += 1;
        let mut buffer = Buffer::new();
        let name = buffer.format(self.count).as_bytes();
        let (outcome, warning) = self.piece.processed(self.alloc, &self.seeds, self.form);
        self.piece.clear();
        self.outputs.put_warned(name, outcome, warning, out, err)
    }

    /// Takes the next bytes of the stream.
    fn take_chunk<W: Sink, E: Sink>(
        &mut self,
        chunk: &[u8],
        out: &mut W,
        err: &mut E,
    ) -> Result<(), Kind>
        requires can { CanTakePieces self.old (W.failures out.old) (E.failures err.old) }
        requires count { self.old.count + length chunk.now < 2 ^ 64 }
        ensures took { (begun : List ℕ) → HoldsPiece self.old.piece begun → (left : List ℕ)
            × OnOk result (HoldsPiece self.new.piece left)
            × TakesPieces W.contents E.contents E.failures E.stalled self.old.form
            self.old.count self.new.count begun chunk.now left out.old out.new err.old err.new
            self.old.outputs self.new.outputs result }
        ensures few { self.new.count ≤ self.old.count + length chunk.now }
        ensures can { OnOk result
            (CanTakePieces self.new (W.failures out.new) (E.failures err.new)) }
        ensures form { self.new.form ≡ self.old.form }
        ensures style { self.new.outputs.style ≡ self.old.outputs.style }
        ensures sink { LeavesSink W.failures W.stalled out.old out.new result }
    {
        let mut rest = chunk;
        while let Some(at) = memchr(b'\0', rest) {
            self.piece.add(&rest[..at]);
            rest = &rest[at + 1..];
            self.end_piece(out, err)?;
        }
        self.piece.add(rest);
        Ok(())
    }

    /// Takes the pieces of a stream that end, and returns why the stream can't be read to its end, if it can't.
    fn read_stream<R: Source, W: Sink, E: Sink>(
        &mut self,
        source: &mut R,
        out: &mut W,
        err: &mut E,
    ) -> Result<Option<Kind>, Kind>
        requires can { CanTakePieces self.old (W.failures out.old) (E.failures err.old) }
        requires count { self.old.count ≡ 0 }
        ensures took { (begun : List ℕ) → HoldsPiece self.old.piece begun
            → (came : List ℕ) × (left : List ℕ)
            × Consumes (R.remaining source.old) (R.remaining source.new) came
            × IfOk result (λ broken. broken ≡ None → HoldsPiece self.new.piece left)
            × TakesPieces W.contents E.contents E.failures E.stalled self.old.form
            0 self.new.count begun came left out.old out.new err.old err.new
            self.old.outputs self.new.outputs (done result) }
        ensures end { IfOk result (λ broken. MatchOption broken
            (IsAtEnd (R.remaining source.new) × (R.failures source.new ≡ 0))
            (BreaksStream (source_run R.remaining R.failures source.old source.new))) }
        ensures few { self.new.count < 2 ^ 64 - 1 }
        ensures can { OnOk result
            (CanTakePieces self.new (W.failures out.new) (E.failures err.new)) }
        ensures form { self.new.form ≡ self.old.form }
        ensures style { self.new.outputs.style ≡ self.old.outputs.style }
        ensures sink { LeavesSink W.failures W.stalled out.old out.new (done result) }
    {
        if source.failed() {
            return Ok(Some(Kind::ReadFault));
        }
        let mut chunk = [0; CHUNK];
        let mut left = LONGEST_STREAM;
        loop {
            let count = match source.read(&mut chunk) {
                Ok(count) => count,
                Err(kind) => return Ok(Some(kind)),
            };
            if count == 0 {
                return Ok(None);
            }
            if count as u64 > left {
                return Ok(Some(Kind::InputTooLong));
            }
            left -= count as u64;
            self.take_chunk(&chunk[..count], out, err)?;
        }
    }

    /// Writes that the stream can't be read to its end, in place of what comes of the piece that was begun.
    fn put_fault<W: Sink, E: Sink>(
        &mut self,
        kind: Kind,
        out: &mut W,
        err: &mut E,
    ) -> Result<(), Kind>
        requires can { CanTakePieces self.old (W.failures out.old) (E.failures err.old) }
        requires count { self.old.count < 2 ^ 64 - 1 }
        ensures written { WritesEntries W.contents E.contents E.failures E.stalled out.old out.new
            err.old err.new self.old.outputs self.new.outputs result
            (fault_entry (self.old.count + 1) kind ∷ []) }
        ensures sink { LeavesSink W.failures W.stalled out.old out.new result }
    {
        let mut buffer = Buffer::new();
        let name = buffer.format(self.count + 1).as_bytes();
        let outcome = Outcome::Refused(FileRefusal::of(Fault::of(kind)));
        self.outputs.put_warned(name, outcome, None, out, err)
    }

    /// Takes what comes after the last NUL, if there is anything, or writes why the stream can't be read to its end.
    fn end_stream<W: Sink, E: Sink>(
        &mut self,
        broken: Option<Kind>,
        out: &mut W,
        err: &mut E,
    ) -> Result<(), Kind>
        requires can { CanTakePieces self.old (W.failures out.old) (E.failures err.old) }
        requires count { self.old.count < 2 ^ 64 - 1 }
        ensures reported { (begun : List ℕ) → (broken ≡ None → HoldsPiece self.old.piece begun)
            → (entries : List PatternEntry)
            × TellsStreamEnd self.old.form self.old.count broken begun entries
            × WritesEntries W.contents E.contents E.failures E.stalled out.old out.new
            err.old err.new self.old.outputs self.new.outputs result entries }
        ensures sink { LeavesSink W.failures W.stalled out.old out.new result }
    {
        match broken {
            Some(kind) => self.put_fault(kind, out, err),
            None if self.piece.is_empty() => Ok(()),
            None => self.end_piece(out, err),
        }
    }

    /// Takes the pieces of a stream.
    fn take_stream<R: Source, W: Sink, E: Sink>(
        &mut self,
        source: &mut R,
        out: &mut W,
        err: &mut E,
    ) -> Result<(), Kind>
        requires can { CanTakePieces self.old (W.failures out.old) (E.failures err.old) }
        requires count { self.old.count ≡ 0 }
        requires begun { HoldsPiece self.old.piece [] }
        ensures reported { (entries : List PatternEntry) × (is_all : Bool)
            × OnOk result (is_all ≡ true)
            × TellsSource self.old.form
            (source_run R.remaining R.failures source.old source.new) entries is_all
            × WritesEntries W.contents E.contents E.failures E.stalled out.old out.new
            err.old err.new self.old.outputs self.new.outputs result entries }
        ensures sink { LeavesSink W.failures W.stalled out.old out.new result }
    {
        let broken = self.read_stream(source, out, err)?;
        self.end_stream(broken, out, err)
    }

    /// Takes the pieces of a stream, or writes why it can't be opened.
    fn take_opened<R: Source + Drop, W: Sink, E: Sink>(
        &mut self,
        name: &[u8],
        opened: IoResult<OpenedFile<R>>,
        out: &mut W,
        err: &mut E,
    ) -> Result<(), Kind>
        requires can { CanTakePieces self.old (W.failures out.old) (E.failures err.old) }
        requires count { self.old.count ≡ 0 }
        requires begun { HoldsPiece self.old.piece [] }
        ensures reported { (entries : List PatternEntry) × (is_all : Bool)
            × OnOk result (is_all ≡ true)
            × TellsGiven R.remaining R.failures self.old.form name.now opened entries is_all
            × WritesEntries W.contents E.contents E.failures E.stalled out.old out.new
            err.old err.new self.old.outputs self.new.outputs result entries }
        ensures sink { LeavesSink W.failures W.stalled out.old out.new result }
    {
        match opened {
            Ok(opened) => {
                let mut source = opened.source;
                self.take_stream(&mut source, out, err)
            }
            Err(error) => {
                let outcome = Outcome::Unopened(error.kind());
                self.outputs.put_warned(name, outcome, None, out, err)
            }
        }
    }

    /// The same, and flushes.
    fn take_all<R: Source + Drop, W: Sink, E: Sink>(
        &mut self,
        name: &[u8],
        opened: IoResult<OpenedFile<R>>,
        out: &mut W,
        err: &mut E,
    ) -> Result<(), Kind>
        requires can { CanTakePieces self.old (W.failures out.old) (E.failures err.old) }
        requires count { self.old.count ≡ 0 }
        requires begun { HoldsPiece self.old.piece [] }
        ensures reported { (entries : List PatternEntry) × (is_all : Bool)
            × OnOk result (is_all ≡ true)
            × TellsGiven R.remaining R.failures self.old.form name.now opened entries is_all
            × WritesEntries W.contents E.contents E.failures E.stalled out.old out.new
            err.old err.new self.old.outputs self.new.outputs result entries }
        ensures sink { LeavesSink W.failures W.stalled out.old out.new result }
        ensures flushed { OnOk result (W.flushed out.new ≡ true) }
    {
        self.take_opened(name, opened, out, err)?;
        out.flush()
    }
}

/// Writes a line for each pattern of the stream that the plan names, in their order: its key and its number, which counts from 1. Each pattern ends in
/// NUL; what comes after the last NUL is one too, unless it is empty. The line, or the report of one that is refused, is what `write_keys` writes of a
/// file with these bytes whose name is the number, and so is an object of JSON. A pattern with a key gets its warning too, if there is one. A stream
/// that can't be read to its end is reported in place of the pattern that the reading stopped in, and one that can't be opened by its name. Returns the
/// status that the program ends with.
pub fn write_stream_keys<R, F, W, E>(
    alloc: Global,
    seeds: &Seeds,
    plan: &StreamPlan<'_>,
    opener: F,
    out: &mut W,
    err: &mut E,
) -> u8
where
    R: Source + Drop,
    F: FnMut(Origin<'_>) -> IoResult<OpenedFile<R>> + Drop,
    W: Sink,
    E: Sink,
    requires { CanBegin F.IsAlwaysCallable W.failures W.stalled E.failures E.stalled
        opener out.old err.old }
    ensures ran { StreamRan F.step R.remaining R.failures plan.now opener
        (sink_run W.contents W.failures W.stalled out.old out.new)
        (sink_run E.contents E.failures E.stalled err.old err.new) (W.flushed out.new) result }
    ensures status { IsStatus result }
{
    let mut opener = opener;
    let opened = opener(origin_of(plan.stream));
    let mut run = StreamRun {
        alloc,
        seeds: *seeds,
        form: plan.form,
        outputs: Outputs::new(alloc, Style::by(plan.json, plan.zero)),
        piece: HeldPiece::new(alloc),
        count: 0,
    };
    match run.take_all(plan.stream.as_bytes(), opened, out, err) {
        Ok(()) => run.outputs.status,
        Err(kind) => run.outputs.break_off(err, kind),
    }
}
