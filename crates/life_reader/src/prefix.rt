//! The prefix of a file that has been read so far, cut into lines.

ghost use Rattle.std.specs.Prelude.{◌≡◌, ◌==◌, ◌⊎◌, ◌++◌, ◌<◌, ◌≤◌, ◌+◌, ◌-◌, ◌^◌, min, codes, true, ℕ, List, [], length, position, Some, None, IfSome, IfOk, IfErr, OnOk};
ghost use Rattle.life_reader.specs.Words.{byte, Full, Memory, has_no_feed, fault_at, fault_of, Nodes, Stores, StoresFile, StoresLines, RefusesPrefix, HasBytes, HoldsFile, stored_squares, IsFilePrefixIn, IsOpenIn, TakesLine, whole_lines, SomeOfLines, IsKnown, IsRead, IsShortageOf, RefusesIn, content, IsEnd, IsFilePrefixOf, IsOpen, IsOver, StandsFor, bytes_of};

use crate::progress::Progress;
use life_base::{Fault, Kind, LineLog, MAX_LEVEL, append, line_end, line_fits};
use life_pattern::Pattern;
use life_quad::Shared;
use std::alloc::Global;
use std::mem;

/// What came of a file: what its whole lines are, and the bytes of the line that isn't whole.
#[derive(Drop)]
pub(crate) struct FilePrefix {
    alloc: Global,
    // The bytes so far, in pieces; only contracts see them.
    pub(crate) pieces: LineLog,
    pub(crate) kept: Vec<u8>,
    // How many lines have ended before `!`; a number above 2^64 - 1 counts as that.
    pub(crate) ended: u64,
    pub(crate) progress: Progress,
}

impl FilePrefix {
    /// The prefix of no bytes. It takes no memory.
    pub(crate) fn new(alloc: Global) -> FilePrefix
        ensures prefix { IsFilePrefixOf result }
        ensures bytes { bytes_of result.pieces.lines ≡ [] }
        ensures stands { (store : Nodes)
            → StandsFor (IsKnown store) (content store) result.progress }
    {
        FilePrefix {
            alloc,
            pieces: LineLog::new(),
            kept: Vec::new(alloc),
            ended: 0,
            progress: Progress::Undecided,
        }
    }

    /// The fault of the line that is being read.
    fn fault_here(&self, kind: Kind) -> Fault
        ensures { result ≡ fault_at (min (self.now.ended + 1) (2 ^ 64 - 1)) kind }
    {
        Fault::at(self.ended.saturating_add(1), kind)
    }

    /// Where the line ends that is being read, if it ends in these bytes. It isn't called after `!`.
    fn next_end(&self, bytes: &[u8]) -> Option<usize>
        requires { IsOpen self.now.progress }
        ensures going { IfSome result (λ _. IsOver self.now.progress → ⊥) }
        ensures end { IfSome result (λ end. position (λ b. b == byte "\n") bytes.now ≡ Some end) }
        ensures none { result ≡ None → IsOver self.now.progress
            ⊎ (position (λ b. b == byte "\n") bytes.now ≡ None) }
    {
        if self.progress.is_over() {
            None
        } else {
            line_end(bytes)
        }
    }

    /// Takes a whole line.
    fn take_line(&mut self, store: &mut Shared, line: &[u8]) -> Result<(), Fault>
        requires progress { IsOpenIn store.old self.old.progress }
        ensures takes { TakesLine line.now store.old store.new self.old self.new result }
        ensures kept { self.new.kept ≡ self.old.kept }
        ensures pieces { self.new.pieces ≡ self.old.pieces }
    {
        match self.progress.take_line(self.alloc, store, line) {
            Ok(()) => {
                self.ended = self.ended.saturating_add(1);
                Ok(())
            }
            Err(kind) => Err(self.fault_here(kind)),
        }
    }

    /// Keeps more bytes of the line that isn't whole.
    fn keep(&mut self, more: &[u8]) -> Result<(), Fault>
        ensures kept { OnOk result ((self.new.kept.items ≡ self.old.kept.items ++ more.now)
            × (length self.old.kept.items + length more.now ≤ 2 ^ 20)) }
        ensures short { length self.old.kept.items ≤ 2 ^ 20 → length self.new.kept.items ≤ 2 ^ 20 }
        ensures progress { self.new.progress ≡ self.old.progress }
        ensures count { self.new.ended ≡ self.old.ended }
        ensures pieces { self.new.pieces ≡ self.old.pieces }
        ensures fault { IfErr result (λ fault. (fault ≡ fault_of Memory)
            ⊎ ((fault ≡ fault_at (min (self.old.ended + 1) (2 ^ 64 - 1)) Kind.LineTooLong)
            × (2 ^ 20 < length self.old.kept.items + length more.now))) }
    {
        if !line_fits(self.kept.len() as u64, more.len() as u64) {
            return Err(self.fault_here(Kind::LineTooLong));
        }
        append(&mut self.kept, more)?;
        Ok(())
    }

    /// Takes the line that is kept.
    fn take_kept(&mut self, store: &mut Shared) -> Result<(), Fault>
        requires progress { IsOpenIn store.old self.old.progress }
        ensures takes { TakesLine self.old.kept.items store.old store.new self.old self.new result }
        ensures kept { self.new.kept.items ≡ [] }
        ensures pieces { self.new.pieces ≡ self.old.pieces }
    {
        let line = mem::replace(&mut self.kept, Vec::new(self.alloc));
        self.take_line(store, &line)
    }

    /// Takes the line whose end this is: the bytes before its line feed.
    fn take_ended(&mut self, store: &mut Shared, end: &[u8]) -> Result<(), Fault>
        requires going { IsOver self.old.progress → ⊥ }
        requires progress { IsOpenIn store.old self.old.progress }
        requires short { length self.old.kept.items ≤ 2 ^ 20 }
        ensures takes { TakesLine (self.old.kept.items ++ end.now) store.old store.new self.old
            self.new result }
        ensures kept { OnOk result (self.new.kept.items ≡ []) }
        ensures short { length self.new.kept.items ≤ 2 ^ 20 }
        ensures pieces { self.new.pieces ≡ self.old.pieces }
    {
        if self.kept.is_empty() {
            return self.take_line(store, end);
        }
        self.keep(end)?;
        self.take_kept(store)
    }

    /// Takes the end of a line, and its line feed.
    fn end_line(&mut self, store: &mut Shared, end: &[u8]) -> Result<(), Fault>
        requires prefix { IsFilePrefixIn store.old self.old }
        requires going { IsOver self.old.progress → ⊥ }
        requires no_feed { has_no_feed end.now ≡ true }
        ensures bytes { OnOk result
            (HasBytes (end.now ++ codes "\n") store.new self.old self.new) }
        ensures short { length self.new.kept.items ≤ 2 ^ 20 }
        ensures fault { IfErr result (λ fault. IsShortageOf store.new fault
            ⊎ ((rest : List ℕ) → RefusesPrefix MAX_LEVEL
            (bytes_of self.old.pieces.lines ++ end.now ++ codes "\n" ++ rest) fault)) }
        ensures stores { Stores (fault_of Full) store.old store.new result
            (λ P. (rest : List ℕ) → SomeOfLines MAX_LEVEL P
            (whole_lines (bytes_of self.old.pieces.lines ++ end.now ++ codes "\n" ++ rest))) }
    {
        self.take_ended(store, end)?;
        self.pieces = self.pieces.then(end).then(b"\n");
        Ok(())
    }

    /// Takes the bytes of a piece after its last line feed, or after `!`.
    fn end_piece(&mut self, rest: &[u8]) -> Result<(), Fault>
        requires prefix { IsFilePrefixOf self.old }
        requires last { IsOver self.old.progress ⊎ (has_no_feed rest.now ≡ true) }
        ensures prefix { OnOk result (IsFilePrefixOf self.new) }
        ensures bytes { OnOk result
            (bytes_of self.new.pieces.lines ≡ bytes_of self.old.pieces.lines ++ rest.now) }
        ensures progress { self.new.progress ≡ self.old.progress }
        ensures short { length self.new.kept.items ≤ 2 ^ 20 }
        ensures fault { IfErr result (λ fault. (fault ≡ fault_of Memory)
            ⊎ RefusesPrefix MAX_LEVEL (bytes_of self.old.pieces.lines ++ rest.now) fault) }
    {
        if !self.progress.is_over() {
            self.keep(rest)?;
        }
        self.pieces = self.pieces.then(rest);
        Ok(())
    }

    /// Takes the next piece.
    pub(crate) fn take_piece(&mut self, store: &mut Shared, piece: &[u8]) -> Result<(), Fault>
        requires prefix { IsFilePrefixIn store.old self.old }
        ensures bytes { OnOk result (HasBytes piece.now store.new self.old self.new) }
        ensures short { length self.new.kept.items ≤ 2 ^ 20 }
        ensures fault { IfErr result (λ fault. IsShortageOf store.new fault
            ⊎ RefusesPrefix MAX_LEVEL (bytes_of self.old.pieces.lines ++ piece.now) fault) }
        ensures stores { StoresLines (whole_lines (bytes_of self.old.pieces.lines ++ piece.now))
            store.old store.new result }
    {
        let mut rest = piece;
        while let Some(end) = self.next_end(rest) {
            self.end_line(store, &rest[..end])?;
            rest = &rest[end + 1..];
        }
        self.end_piece(rest)
    }

    /// Takes the line that the end of the input ends, if there is one.
    fn take_rest(&mut self, store: &mut Shared) -> Result<(), Fault>
        requires prefix { IsFilePrefixIn store.old self.old }
        ensures end { OnOk result
            (IsEnd (bytes_of self.old.pieces.lines) self.new.ended self.new.progress) }
        ensures stands { OnOk result
            (StandsFor (IsKnown store.new) (content store.new) self.new.progress) }
        ensures fault { IfErr result
            (RefusesIn MAX_LEVEL (bytes_of self.old.pieces.lines) store.new) }
        ensures stores { StoresFile (bytes_of self.old.pieces.lines) store.old store.new result }
    {
        if self.kept.is_empty() {
            return Ok(());
        }
        self.take_kept(store)
    }

    /// The pattern of the file that came.
    pub(crate) fn finish(self, store: &mut Shared) -> Result<Pattern, Fault>
        requires prefix { IsFilePrefixIn store.old self }
        ensures pattern { IfOk result (IsRead MAX_LEVEL (bytes_of self.pieces.lines) store.new) }
        ensures all { OnOk result (HoldsFile (bytes_of self.pieces.lines)
            (stored_squares store.new)) }
        ensures fault { IfErr result (RefusesIn MAX_LEVEL (bytes_of self.pieces.lines) store.new) }
        ensures stores { StoresFile (bytes_of self.pieces.lines) store.old store.new result }
    {
        let mut prefix = self;
        prefix.take_rest(store)?;
        let FilePrefix {
            ended,
            progress,
            ..
        } = prefix;
        match progress.end(store) {
            Ok(pattern) => Ok(pattern),
            Err(kind) => Err(Fault::at(ended.saturating_add(1), kind)),
        }
    }
}
