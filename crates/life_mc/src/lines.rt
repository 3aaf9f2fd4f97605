//! Macrocell files line by line.

ghost use Rattle.std.specs.Prelude.{◌≡◌};
ghost use Rattle.life_mc.specs.Words.{level_of, IsMemory};

use crate::line::{Line, ParsedLine, parse_leaf, parse_line, parse_quad};
use crate::node::{begins_with_digit, is_leaf_line};
use life_base::{Kind, LineLog, MAX_LEVEL, Rule, begins_with, is_too_long};
use std::alloc::Global;
use std::marker::Model;

/// What is kept of the lines so far: the levels of their squares, and no text.
#[derive(Drop)]
struct Kept {
    started: bool,
    rule: Rule,
    generation: u64,
    levels: Vec<u8>,
    alloc: Global,
}

impl Model for Kept {
    ghost use Rattle.life_mc.specs.Standing.{Standing};

    ghost Value = { Standing };

    ghost view = { λ a. record { started = a.started; rule = a.rule; generation = a.generation; levels = a.levels.items } };
}

/// The level of a square.
fn level_of_square(square: &Line) -> u8
    ensures { result ≡ level_of square.now }
{
    match square {
        Line::Leaf(_) => 3,
        Line::Quad { level, .. } => *level,
    }
}

impl Kept {
    ghost use Rattle.std.specs.Prelude.{◌++◌, ◌∷◌, [], ℕ, List, ◌⊎◌, IfOk, IfErr, OnOk, MatchOption, Some, true, false};
    ghost use Rattle.life_base.specs.declared.kind.Kind.TheVariants.{Memory};
    ghost use Rattle.life_mc.specs.Grammar.{form_rule, form_generation, form_square};
    ghost use Rattle.std.specs.Option.{unwrap_or};
    ghost use Rattle.life_mc.specs.Standing.{StandsAfter, form_of, level_in};
    ghost use Rattle.life_mc.specs.Reading.{broken_rule, square_after};

    /// What is kept of no line.
    fn new(alloc: Global) -> Kept
        ensures { StandsAfter MAX_LEVEL [] result }
    {
        Kept {
            started: false,
            rule: Rule::default_rule(),
            generation: 0,
            levels: Vec::new(alloc),
            alloc,
        }
    }

    /// Takes the next line, and returns its square, if it has one. Each kind of node line goes its own way, so that its square is put
    /// together once.
    fn take(&mut self, line: &[u8]) -> Result<Option<Line>, Kind>
        ensures ok { (lines : List (List ℕ)) → StandsAfter MAX_LEVEL lines self.old
            → IfOk result (λ square. (square ≡ square_after lines line.now)
            × StandsAfter MAX_LEVEL (lines ++ line.now ∷ []) self.new) }
        ensures err { (lines : List (List ℕ)) → StandsAfter MAX_LEVEL lines self.old
            → IfErr result
            (λ kind. (kind ≡ Memory) ⊎ (broken_rule MAX_LEVEL lines line.now ≡ Some kind)) }
    {
        if is_too_long(line) {
            return Err(Kind::LineTooLong);
        }
        if !self.started {
            if !begins_with(line, b"[M2]") {
                return Err(Kind::NoHeader);
            }
            self.started = true;
            return Ok(None);
        }
        if begins_with_digit(line) {
            let square = parse_quad(&self.rule, &self.levels, line)?;
            return self.keep_square(square);
        }
        if is_leaf_line(line) {
            let square = parse_leaf(line)?;
            return self.keep_square(square);
        }
        let parsed = parse_line(self.alloc, &self.rule, &self.levels, line)?;
        self.keep(parsed)
    }

    /// Keeps the level of a square, and returns the square.
    #[inline(always)]
    fn keep_square(&mut self, square: Line) -> Result<Option<Line>, Kind>
        ensures square { IfOk result (λ found. found ≡ Some square) }
        ensures rule { OnOk result (self.new.rule ≡ self.old.rule) }
        ensures generation { OnOk result (self.new.generation ≡ self.old.generation) }
        ensures levels { OnOk result (self.new.levels ≡ self.old.levels ++ level_of square ∷ []) }
        ensures started { self.new.started ≡ self.old.started }
        ensures err { IfErr result IsMemory }
    {
        self.levels.push(level_of_square(&square))?;
        Ok(Some(square))
    }

    /// Keeps what a line is, and returns its square.
    fn keep(&mut self, parsed: ParsedLine) -> Result<Option<Line>, Kind>
        ensures square { IfOk result (λ square. square ≡ form_square (form_of parsed)) }
        ensures rule { OnOk result
            (self.new.rule ≡ unwrap_or (form_rule (form_of parsed)) self.old.rule) }
        ensures generation { OnOk result (self.new.generation
            ≡ unwrap_or (form_generation (form_of parsed)) self.old.generation) }
        ensures levels { OnOk result
            (self.new.levels ≡ self.old.levels ++ level_in (form_square (form_of parsed))) }
        ensures started { self.new.started ≡ self.old.started }
        ensures err { IfErr result IsMemory }
    {
        match parsed {
            ParsedLine::Nothing => Ok(None),
            ParsedLine::RuleLine(rule) => {
                self.rule = rule;
                Ok(None)
            }
            ParsedLine::GenerationLine(generation) => {
                self.generation = generation;
                Ok(None)
            }
            ParsedLine::NodeLine(square) => self.keep_square(square),
        }
    }

    /// The rule and the generation, if a line came.
    fn rule_and_generation(self) -> Option<(Rule, u64)>
        ensures { MatchOption result (self.started ≡ false)
            (λ found. (self.started ≡ true) × (found.0 ≡ self.rule) × (found.1 ≡ self.generation)) }
    {
        if self.started {
            Some((self.rule, self.generation))
        } else {
            None
        }
    }
}

/// Takes the lines of a macrocell file one after another.
#[derive(Drop)]
pub struct McLines {
    kept: Kept,
    refused: bool,
    log: LineLog,
}

impl Model for McLines {
    ghost use Rattle.std.specs.Prelude.{◌≡◌, false};
    ghost use Rattle.life_base.specs.declared.cell.TheConstants.{MAX_LEVEL};
    ghost use Rattle.life_base.specs.Lines.{LinesRead};
    ghost use Rattle.life_mc.specs.Standing.{StandsAfter};

    ghost Value = { LinesRead };

    ghost view = { λ r. record { lines = r.log.lines; refused = r.refused } };

    ghost invariant = { λ r. r.refused ≡ false → StandsAfter MAX_LEVEL r.log.lines r.kept };
}

impl McLines {
    ghost use Rattle.std.specs.Prelude.{◌++◌, ◌∷◌, [], ◌↔◌, ◌⊎◌, IfOk, IfErr, OnOk, OnErr, IsOk, IsErrOf, Some, true, false};
    ghost use Rattle.std.specs.List.{cons_option};
    ghost use Rattle.life_base.specs.Refusal.{Prefix};
    ghost use Rattle.life_base.specs.declared.kind.Kind.TheVariants.{Memory, Spent, NoHeader};
    ghost use Rattle.life_mc.specs.Grammar.{IsPlainMacrocell};
    ghost use Rattle.life_mc.specs.Macrocell.{Macrocell};
    ghost use Rattle.life_mc.specs.Reading.{AcceptsMacrocell, broken_rule, square_after, squares_of};

    /// A reader that no line came to. It takes no memory.
    pub fn new(alloc: Global) -> McLines
        ensures { result ≡ record { lines = []; refused = false } }
    {
        McLines {
            kept: Kept::new(alloc),
            refused: false,
            log: LineLog::new(),
        }
    }

    /// Takes the next line, without its line feed, and returns its square, if it is a node line. A line feed in the line is a
    /// byte like any other, so a caller that has bytes cuts them first.
    ///
    /// # Errors
    ///
    /// The kind of the first rule that the line breaks, or `Memory`. After an error each later call answers `Spent`.
    pub fn line(&mut self, line: &[u8]) -> Result<Option<Line>, Kind>
        ensures lines { OnOk result
            (self.new ≡ record { lines = self.old.lines ++ line.now ∷ []; refused = false }) }

        // The lines so far are a prefix of a file, and the answer is the square of the line.
        ensures prefix { OnOk result (Prefix (AcceptsMacrocell MAX_LEVEL) self.new.lines) }
        ensures square { IfOk result (λ square. square ≡ square_after self.old.lines line.now) }
        ensures squares { IfOk result (λ square. squares_of self.new.lines
            ≡ squares_of self.old.lines ++ cons_option square []) }

        // A refused line is the first that breaks a rule, and every later call answers Spent.
        ensures fault { IfErr result (λ kind. (kind ≡ Memory) ⊎ (kind ≡ Spent)
            ⊎ (broken_rule MAX_LEVEL self.old.lines line.now ≡ Some kind)) }
        ensures spent { IsErrOf result Spent ↔ (self.old.refused ≡ true) }
        ensures refused { OnErr result
            (self.new ≡ record { lines = self.old.lines; refused = true }) }
    {
        if self.refused {
            return Err(Kind::Spent);
        }
        self.refused = true;
        let consumed = self.kept.take(line);
        if consumed.is_ok() {
            self.log = self.log.then(line);
            self.refused = false;
        }
        consumed
    }

    /// The rule and the generation of the file that the lines are.
    ///
    /// # Errors
    ///
    /// `NoHeader` where no line came, and `Spent` after a refused line.
    pub fn end(self) -> Result<(Rule, u64), Kind>
        ensures file { IfOk result (λ found. (file : Macrocell)
            × IsPlainMacrocell MAX_LEVEL self.lines file × (found.0 ≡ file.rule)
            × (found.1 ≡ file.generation)) }
        ensures whole { self.refused ≡ false → AcceptsMacrocell MAX_LEVEL self.lines → IsOk result }
        ensures missing { self.refused ≡ false → (IsErrOf result NoHeader ↔ (self.lines ≡ [])) }
        ensures spent { IsErrOf result Spent ↔ (self.refused ≡ true) }
        ensures only { IfErr result (λ kind. (kind ≡ NoHeader) ⊎ (kind ≡ Spent)) }
    {
        if self.refused {
            return Err(Kind::Spent);
        }
        self.kept.rule_and_generation().ok_or(Kind::NoHeader)
    }
}
