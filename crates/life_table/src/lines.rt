//! The lines of a rule table's file, one after another.

ghost use Rattle.std.specs.Prelude.{◌≡◌, OnOk, IfErr, None, Ok, Err, false};
ghost use Rattle.life_table.specs.Words.{OrMemory, variable_named, parse_line, IsKeptParse, parsed_after, fits_after, nothing_parsed, IsMemory};

use crate::by_name::Variables;
use crate::directive::{Directive, Parsed, Section};
use crate::seed::NameSeed;
use crate::table::Var;
use crate::transitions::fits_zero;
use life_base::{Fault, Items, Kind};
use std::alloc::Global;

/// What is kept of the lines so far.
#[derive(Drop)]
pub(crate) struct TableLines {
    pub(crate) parsed: Parsed,
    /// Whether a transition fits the neighbourhood in which each cell is 0.
    pub(crate) fits: bool,
}

impl TableLines {
    /// No line came.
    pub(crate) fn new(alloc: Global, seed: NameSeed) -> TableLines
        ensures parsed { result.parsed ≡ nothing_parsed }
        ensures fits { result.fits ≡ false }
    {
        TableLines {
            parsed: Parsed {
                name: None,
                section: Section::Ahead,
                n_states: None,
                neighborhood: None,
                symmetry: None,
                vars: Variables::new(alloc, seed),
                lines: Items::new(alloc),
            },
            fits: false,
        }
    }

    /// Keeps what a line says.
    fn keep(&mut self, directive: Directive) -> Result<(), Kind>
        requires unnamed { (var : Var) → directive ≡ Directive.Variable var
            → variable_named self.old.parsed.vars var.name ≡ None }
        ensures parsed { OnOk result (self.new.parsed ≡ parsed_after self.old.parsed directive) }
        ensures fits { OnOk result
            (self.new.fits ≡ fits_after self.old.fits self.old.parsed.vars directive) }
        ensures err { IfErr result IsMemory }
    {
        match directive {
            Directive::Nothing => {}
            Directive::RuleName(name) => self.parsed.name = Some(name),
            Directive::TableOpens => self.parsed.section = Section::Open,
            Directive::TableEnds => self.parsed.section = Section::Behind,
            Directive::States(n_states) => self.parsed.n_states = Some(n_states),
            Directive::Neighbors(neighborhood) => self.parsed.neighborhood = Some(neighborhood),
            Directive::Orders(symmetry) => self.parsed.symmetry = Some(symmetry),
            Directive::Variable(var) => self.parsed.vars.push(var)?,
            Directive::Line(line) => {
                self.fits = self.fits || fits_zero(&self.parsed.vars, line.inputs.as_slice());
                self.parsed.lines.push(line)?;
            }
        }
        Ok(())
    }

    /// Takes the next line.
    #[tactic(auto, using(crate::proofs::Unnamed::unnamed))]
    pub(crate) fn line(&mut self, alloc: Global, number: u64, line: &[u8]) -> Result<(), Fault>
        requires kept { IsKeptParse self.old.parsed self.old.fits }
        ensures ok { OnOk result ((directive : Directive)
            × (parse_line self.old.parsed number line.now ≡ Ok directive)
            × (self.new.parsed ≡ parsed_after self.old.parsed directive)
            × (self.new.fits ≡ fits_after self.old.fits self.old.parsed.vars directive)) }
        ensures err { IfErr result (λ fault. OrMemory fault
            ((parse_line self.old.parsed number line.now ≡ Err fault.kind)
            × (fault.place.line ≡ number))) }
    {
        match self.parse_line(alloc, number, line) {
            Ok(directive) => Ok(self.keep(directive)?),
            Err(kind) => Err(Fault::at(number, kind)),
        }
    }
}
