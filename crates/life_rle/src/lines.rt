//! An RLE file that comes line by line.

ghost use Rattle.std.specs.Prelude.{◌≡◌, ◌⊎◌, List, [], ℕ, Err, Ok, false, true, IfOk, IfErr, OnErr, IsErrOf, IsOk, IsOkAnd, OnOk};
ghost use Rattle.life_rle.specs.Words.{IsNear, IsPrefixOfRuns, opening_of, later_of, BreaksRle, ItemsBreak, is_refused, is_over, Advances, TakesRleLine, IsCursorPlaced, StandsAt, Data, Position, Rule};
ghost use Rattle.life_rle.specs.Phases.{is_items, phase_after};

use crate::cursor::{Cursor, start_of};
use crate::line::{Later, Opening, later_of, opening_of};
use crate::line_items::{ItemsRead, read_items};
use crate::position::Position;
use life_base::{Kind, LineLog, MAX_LEVEL, Rule, Run};
use std::alloc::Global;
use std::marker::Model;
use std::mem;

/// Where the lines so far have come to.
#[derive(Drop)]
pub enum Phase {
    /// No header yet.
    Before(Position),
    /// After the header.
    Items(Rule, Position),
    /// After the mark.
    Over(Rule, Position),
    /// A line was refused.
    Refused,
}

/// A line before the header: where it brings the reader.
fn before_header(
    alloc: Global,
    position: Position,
    cursor: Cursor,
    line: &[u8],
) -> Result<(Phase, Cursor), Kind>
    ensures advance { IfOk result
        (λ next. Advances MAX_LEVEL (Phase.Before position) cursor line.now next.0 next.1 []) }
    ensures going { IfOk result (λ next. is_refused next.0 ≡ false) }
    ensures fault { IfErr result
        (λ kind. (kind ≡ Kind.Memory) ⊎ (opening_of MAX_LEVEL line.now ≡ Err kind)) }
{
    match opening_of(alloc, line)? {
        Opening::Comment => Ok((Phase::Before(position), cursor)),
        Opening::PositionLine(found) => Ok((Phase::Before(found), start_of(found))),
        Opening::Header(rule) => Ok((Phase::Items(rule, position), cursor)),
    }
}

/// Takes a line after the header: one that is passed over, or items, whose runs go after the runs. Returns where the items end.
#[inline(always)]
fn behind_header(
    rule: &Rule,
    cursor: Cursor,
    line: &[u8],
    runs: &mut Vec<Run>,
) -> Result<ItemsRead, Kind>
    requires { IsNear MAX_LEVEL cursor }
    ensures advance { IfOk result (λ read. (position : Position)
        → TakesRleLine MAX_LEVEL (Phase.Items rule.now position) cursor line.now
        (phase_after rule.now position read.marked) read.cursor runs.old.items runs.new.items) }
    ensures fault { IfErr result (λ kind. (kind ≡ Kind.Memory) ⊎ (later_of line.now ≡ Err kind)
        ⊎ ((later_of line.now ≡ Ok Data) × ItemsBreak MAX_LEVEL rule.now cursor line.now kind)) }
    ensures kept { OnErr result (IsPrefixOfRuns runs.old.items runs.new.items) }
{
    match later_of(line)? {
        Later::Passed => Ok(ItemsRead {
            cursor,
            marked: false,
        }),
        Later::Data => read_items(rule, cursor, line, runs),
    }
}

/// A line before the header or after the mark: where it brings the reader. Few lines of a large file are such, so it stays apart.
#[inline(never)]
fn adjacent_items(
    alloc: Global,
    phase: Phase,
    cursor: Cursor,
    line: &[u8],
) -> Result<(Phase, Cursor), Kind>
    requires { is_items phase ≡ false }
    ensures advance { IfOk result
        (λ next. Advances MAX_LEVEL phase cursor line.now next.0 next.1 []) }
    ensures going { IfOk result (λ next. is_refused next.0 ≡ false) }
    ensures fault { IfErr result (λ kind. (kind ≡ Kind.Memory)
        ⊎ ((kind ≡ Kind.Spent) × (is_refused phase ≡ true))
        ⊎ ((lines : List (List ℕ)) → StandsAt MAX_LEVEL phase cursor lines
        → BreaksRle MAX_LEVEL lines line.now kind)) }
    ensures unspent { IfOk result (λ _. is_refused phase ≡ false) }
    ensures spent { is_refused phase ≡ true → IsErrOf result Kind.Spent }
    ensures free { is_over phase ≡ true → IsOk result }
{
    match phase {
        Phase::Before(position) => before_header(alloc, position, cursor, line),
        Phase::Items(rule, position) => Ok((Phase::Items(rule, position), cursor)),
        Phase::Over(rule, position) => Ok((Phase::Over(rule, position), cursor)),
        Phase::Refused => Err(Kind::Spent),
    }
}

/// Ends the items of a file: `!` came.
#[inline(never)]
fn end_items(phase: &mut Phase)
    ensures { (rule : Rule) (position : Position) → phase.old ≡ Phase.Items rule position
        → phase.new ≡ Phase.Over rule position }
{
    let was = mem::replace(phase, Phase::Refused);
    if let Phase::Items(rule, position) = was {
        *phase = Phase::Over(rule, position);
    }
}

/// Takes a line after any lines, which have brought the reader to this phase and place; its runs go after the runs. Neither is moved where the
/// line is one of items, as most lines are.
fn after_line(
    alloc: Global,
    phase: &mut Phase,
    cursor: &mut Cursor,
    line: &[u8],
    runs: &mut Vec<Run>,
) -> Result<(), Kind>
    requires { IsCursorPlaced MAX_LEVEL phase.old cursor.old }
    ensures advance { OnOk result (TakesRleLine MAX_LEVEL phase.old cursor.old line.now phase.new
        cursor.new runs.old.items runs.new.items) }
    ensures going { OnOk result (is_refused phase.new ≡ false) }
    ensures refused { OnErr result (phase.new ≡ Phase.Refused) }
    ensures fault { IfErr result (λ kind. (kind ≡ Kind.Memory)
        ⊎ ((kind ≡ Kind.Spent) × (is_refused phase.old ≡ true))
        ⊎ ((lines : List (List ℕ)) → StandsAt MAX_LEVEL phase.old cursor.old lines
        → BreaksRle MAX_LEVEL lines line.now kind)) }
    ensures kept { OnErr result (IsPrefixOfRuns runs.old.items runs.new.items) }
    ensures unspent { OnOk result (is_refused phase.old ≡ false) }
    ensures spent { is_refused phase.old ≡ true → IsErrOf result Kind.Spent }
    ensures free { is_over phase.old ≡ true
        → IsOkAnd result (λ _. runs.new.items ≡ runs.old.items) }
{
    if let Phase::Items(rule, _) = phase {
        match behind_header(rule, *cursor, line, runs) {
            Ok(read) => {
                *cursor = read.cursor;
                if read.marked {
                    end_items(phase);
                }
                return Ok(());
            }
            Err(kind) => {
                *phase = Phase::Refused;
                return Err(kind);
            }
        }
    }
    let was = mem::replace(phase, Phase::Refused);
    let (next, place) = adjacent_items(alloc, was, *cursor, line)?;
    *phase = next;
    *cursor = place;
    Ok(())
}

/// Takes the lines of a file in extended RLE one after another. It keeps the rule, the position and a place, and no text.
#[derive(Drop)]
pub struct RleLines {
    alloc: Global,
    phase: Phase,
    cursor: Cursor,
    log: LineLog,
}

impl Model for RleLines {
    ghost use Rattle.life_base.specs.declared.cell.TheConstants.{MAX_LEVEL};
    ghost use Rattle.life_base.specs.Lines.{LinesRead};
    ghost use Rattle.life_rle.specs.Standing.{is_refused, StandsAt};

    ghost Value = { LinesRead };

    ghost view = { λ r. record { lines = r.log.lines; refused = is_refused r.phase } };

    ghost invariant = { λ r. StandsAt MAX_LEVEL r.phase r.cursor r.log.lines };
}

impl RleLines {
    ghost use Rattle.std.specs.Prelude.{◌++◌, ◌∷◌, ◌↔◌, IsTrue, IsOk, OnOk, OnErr};
    ghost use Rattle.life_base.specs.Refusal.{Prefix};
    ghost use Rattle.life_rle.specs.Pattern.{Rle};
    ghost use Rattle.life_rle.specs.Position.{default_position};
    ghost use Rattle.life_rle.specs.Grammar.{IsSomeRle, IsRle, IsMarked, IsPreamble};
    ghost use Rattle.life_base.specs.Lines.{LinesRead};
    ghost use Rattle.life_rle.specs.File.{HasRuns, AddsRuns};

    /// A reader that no line came to. It takes no memory.
    pub fn new(alloc: Global) -> RleLines
        ensures { result ≡ record { lines = []; refused = false } }
    {
        let position = Position {
            x: 0,
            y: 0,
            generation: 0,
        };
        RleLines {
            alloc,
            phase: Phase::Before(position),
            cursor: start_of(position),
            log: LineLog::new(),
        }
    }

    /// Takes the next line, without its line feed, and returns its runs of nonzero state. After the line that holds `!` each line is
    /// accepted, of any length.
    ///
    /// # Errors
    ///
    /// The kind of the first rule that the line breaks, or `Memory`. After an error each later call answers `Spent`.
    pub fn line(&mut self, line: &[u8]) -> Result<Vec<Run>, Kind>
        ensures lines { OnOk result
            (self.new ≡ record { lines = self.old.lines ++ line.now ∷ []; refused = false }) }

        // The lines so far are a prefix of a file, and the answers are its runs.
        ensures prefix { OnOk result (Prefix (IsSomeRle MAX_LEVEL) self.new.lines) }
        ensures runs { IfOk result (λ runs. (before : List Run)
            → HasRuns MAX_LEVEL self.old.lines before
            → HasRuns MAX_LEVEL self.new.lines (before ++ runs.items)) }

        // A refused line is the first that breaks a rule, and every later call answers Spent.
        ensures fault { IfErr result (λ kind. (kind ≡ Kind.Memory) ⊎ (kind ≡ Kind.Spent)
            ⊎ BreaksRle MAX_LEVEL self.old.lines line.now kind) }
        ensures spent { IsErrOf result Kind.Spent ↔ (self.old.refused ≡ true) }
        ensures refused { OnErr result
            (self.new ≡ record { lines = self.old.lines; refused = true }) }

        // After the mark nothing is refused, not even when memory runs out.
        ensures free { self.old.refused ≡ false
            → ((file : Rle) × IsMarked MAX_LEVEL self.old.lines file)
            → IsOkAnd result (λ runs. runs.items ≡ []) }
    {
        let mut runs = Vec::new(self.alloc);
        self.line_into(line, &mut runs)?;
        Ok(runs)
    }

    /// Takes the next line, without its line feed, and puts its runs of nonzero state after the runs that are lent. After the line that
    /// holds `!` each line is accepted, of any length. Lines whose runs are lent the same vector take memory only where it grows.
    ///
    /// # Errors
    ///
    /// The kind of the first rule that the line breaks, or `Memory`. After an error each later call answers `Spent`. The runs that were
    /// lent stay first then; after them there may be runs of items that the line writes before its fault.
    pub fn line_into(&mut self, line: &[u8], runs: &mut Vec<Run>) -> Result<(), Kind>
        ensures lines { OnOk result
            (self.new ≡ record { lines = self.old.lines ++ line.now ∷ []; refused = false }) }

        // The lines so far are a prefix of a file, and what is put after the runs is its runs.
        ensures prefix { OnOk result (Prefix (IsSomeRle MAX_LEVEL) self.new.lines) }
        ensures runs { OnOk result
            (AddsRuns MAX_LEVEL self.old.lines self.new.lines runs.old.items runs.new.items) }

        // A refused line is the first that breaks a rule, and every later call answers Spent.
        ensures fault { IfErr result (λ kind. (kind ≡ Kind.Memory) ⊎ (kind ≡ Kind.Spent)
            ⊎ BreaksRle MAX_LEVEL self.old.lines line.now kind) }
        ensures spent { IsErrOf result Kind.Spent ↔ (self.old.refused ≡ true) }
        ensures refused { OnErr result
            (self.new ≡ record { lines = self.old.lines; refused = true }) }
        ensures kept { OnErr result (IsPrefixOfRuns runs.old.items runs.new.items) }

        // After the mark nothing is refused, not even when memory runs out.
        ensures free { self.old.refused ≡ false
            → ((file : Rle) × IsMarked MAX_LEVEL self.old.lines file)
            → IsOkAnd result (λ _. runs.new.items ≡ runs.old.items) }
    {
        after_line(self.alloc, &mut self.phase, &mut self.cursor, line, runs)?;
        self.log = self.log.then(line);
        Ok(())
    }

    /// Whether `!` has ended the pattern.
    pub fn over(&self) -> bool
        ensures over { self.now.refused ≡ false
            → (IsTrue result ↔ ((file : Rle) × IsMarked MAX_LEVEL self.now.lines file)) }
        ensures refused { self.now.refused ≡ true → result ≡ false }
    {
        matches!(self.phase, Phase::Over(_, _))
    }

    /// The rule and the position of the file that the lines are.
    pub(crate) fn finish(self) -> Result<(Rule, Position), Kind>
        ensures file { IfOk result (λ found. (file : Rle) × IsRle MAX_LEVEL self.lines file
            × (found.0 ≡ file.rule) × (found.1 ≡ file.position)) }
        ensures missing { IsErrOf result Kind.NoHeader
            → (position : Position) × IsPreamble MAX_LEVEL default_position self.lines position }
        ensures spent { IsErrOf result Kind.Spent ↔ (self.refused ≡ true) }
        ensures only { IfErr result (λ kind. (kind ≡ Kind.NoHeader) ⊎ (kind ≡ Kind.Spent)) }
    {
        match self.phase {
            Phase::Before(_) => Err(Kind::NoHeader),
            Phase::Items(rule, position) => Ok((rule, position)),
            Phase::Over(rule, position) => Ok((rule, position)),
            Phase::Refused => Err(Kind::Spent),
        }
    }

    /// The rule and the generation of the file that the lines are.
    ///
    /// # Errors
    ///
    /// `NoHeader` where they lack one, and `Spent` after a refused line.
    pub fn end(self) -> Result<(Rule, u64), Kind>
        ensures file { IfOk result (λ found. (file : Rle) × IsRle MAX_LEVEL self.lines file
            × (found.0 ≡ file.rule) × (found.1 ≡ file.position.generation)) }
        ensures whole { self.refused ≡ false → IsSomeRle MAX_LEVEL self.lines → IsOk result }
        ensures missing { self.refused ≡ false
            → (IsErrOf result Kind.NoHeader
            ↔ ((position : Position) × IsPreamble MAX_LEVEL default_position self.lines position)) }
        ensures spent { IsErrOf result Kind.Spent ↔ (self.refused ≡ true) }
        ensures only { IfErr result (λ kind. (kind ≡ Kind.NoHeader) ⊎ (kind ≡ Kind.Spent)) }
    {
        let (rule, position) = self.finish()?;
        Ok((rule, position.generation))
    }
}
