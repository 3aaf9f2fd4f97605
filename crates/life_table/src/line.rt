//! What one line of a rule table's file says.

ghost use Rattle.std.specs.Prelude.{◌≡◌, ◌≤◌, Ok, MatchOption, drop, true, false};
ghost use Rattle.life_table.specs.Words.{Answers, rule_of, begins_rule_line, name_in, name_on, if_named, parse_line, parse_settled, parse_ahead, parse_in_table, parse_rest, is_described, IsKeptParse};

use crate::descriptors::parse_descriptor;
use crate::directive::{Directive, Parsed, Section};
use crate::lines::TableLines;
use crate::table::Neighborhood;
use crate::transitions::{parse_transition, transition_of};
use crate::variables::{is_variable_line, variable_of};
use crate::words::{content, has_byte, is_passed_over, is_section_line, is_table_line};
use life_base::{Kind, Name, Rule, is_too_long, is_whitespace};
use std::alloc::Global;

/// What follows `@RULE` and the whitespace after it.
fn text_of_rule_line(line: &[u8]) -> Option<&[u8]>
    ensures { MatchOption result (begins_rule_line line.now ≡ false)
        (λ text. (begins_rule_line line.now ≡ true) × (text.now ≡ drop 5 line.now)) }
{
    match line {
        [b'@', b'R', b'U', b'L', b'E', text @ ..] => match text {
            [first, ..] if is_whitespace(*first) => Some(text),
            _ => None,
        },
        _ => None,
    }
}

/// The name of a rule text, if it is a name.
fn name_in(alloc: Global, text: &[u8]) -> Result<Option<Name>, Kind>
    ensures { Answers result (Ok (name_in (rule_of text.now))) }
{
    match Rule::parse(alloc, text) {
        Ok(Rule::Named(name)) => Ok(Some(name)),
        Ok(Rule::Life(_)) => Ok(None),
        Err(Kind::Memory) => Err(Kind::Memory),
        Err(_) => Ok(None),
    }
}

/// The name on a rule line.
fn parse_name(alloc: Global, line: &[u8]) -> Result<Directive, Kind>
    ensures { Answers result (if_named (name_on line.now)) }
{
    let Some(text) = text_of_rule_line(line) else {
        return Err(Kind::NoRuleLine);
    };
    match name_in(alloc, text)? {
        Some(name) => Ok(Directive::RuleName(name)),
        None => Err(Kind::NoRuleLine),
    }
}

/// What a line before the table says.
fn parse_ahead(alloc: Global, named: &Option<Name>, line: &[u8]) -> Result<Directive, Kind>
    ensures { Answers result (parse_ahead named.now line.now) }
{
    if named.is_some() {
        return if is_table_line(line) {
            Ok(Directive::TableOpens)
        } else {
            Ok(Directive::Nothing)
        };
    }
    if is_passed_over(line) {
        return Ok(Directive::Nothing);
    }
    parse_name(alloc, line)
}

/// Whether all settings are given.
pub(crate) fn is_described(parsed: &Parsed) -> bool
    ensures { result ≡ is_described parsed.now }
{
    parsed.n_states.is_some() && parsed.neighborhood.is_some() && parsed.symmetry.is_some()
}

impl TableLines {
    /// What a variable or a transition of a table says, where all settings are given.
    fn parse_settled(
        &self,
        alloc: Global,
        n_states: u16,
        neighborhood: Neighborhood,
        number: u64,
        text: &[u8],
    ) -> Result<Directive, Kind>
        requires most { n_states ≤ 256 }
        requires kept { IsKeptParse self.now.parsed self.now.fits }
        ensures { Answers result (parse_settled n_states neighborhood self.now.parsed.vars
            self.now.parsed.lines number text.now) }
    {
        let vars = &self.parsed.vars;
        if is_variable_line(text) {
            return match variable_of(alloc, n_states, vars, text)? {
                Some(var) => Ok(Directive::Variable(var)),
                None => Err(Kind::BadVariable),
            };
        }
        match transition_of(alloc, n_states, neighborhood, vars, number, text)? {
            Some(line) => parse_transition(vars, self.fits, line),
            None => Err(Kind::BadTransition),
        }
    }

    /// What a variable or a transition says.
    fn parse_rest(&self, alloc: Global, number: u64, text: &[u8]) -> Result<Directive, Kind>
        requires kept { IsKeptParse self.now.parsed self.now.fits }
        ensures { Answers result (parse_rest self.now.parsed.n_states
            self.now.parsed.neighborhood self.now.parsed.symmetry self.now.parsed.vars
            self.now.parsed.lines number text.now) }
    {
        let parsed = &self.parsed;
        match (parsed.n_states, parsed.neighborhood, parsed.symmetry) {
            (Some(n_states), Some(neighborhood), Some(_)) => self.parse_settled(
                alloc,
                n_states,
                neighborhood,
                number,
                text,
            ),
            _ => Err(Kind::BadDescriptor),
        }
    }

    /// What a line of the table says.
    fn parse_in_table(&self, alloc: Global, number: u64, line: &[u8]) -> Result<Directive, Kind>
        requires kept { IsKeptParse self.now.parsed self.now.fits }
        ensures { Answers result (parse_in_table self.now.parsed number line.now) }
    {
        if is_section_line(line) {
            return if is_described(&self.parsed) {
                Ok(Directive::TableEnds)
            } else {
                Err(Kind::BadDescriptor)
            };
        }
        let text = content(line);
        if text.is_empty() {
            return Ok(Directive::Nothing);
        }
        if has_byte(text, b':') {
            return parse_descriptor(&self.parsed, text);
        }
        self.parse_rest(alloc, number, text)
    }

    /// What a line adds to those that were kept, or which rule it breaks.
    #[tactic(auto, unfolding(crate::specs::Reading::parse_line))]
    pub(crate) fn parse_line(
        &self,
        alloc: Global,
        number: u64,
        line: &[u8],
    ) -> Result<Directive, Kind>
        requires kept { IsKeptParse self.now.parsed self.now.fits }
        ensures { Answers result (parse_line self.now.parsed number line.now) }
    {
        if is_too_long(line) {
            return Err(Kind::LineTooLong);
        }
        match self.parsed.section {
            Section::Ahead => parse_ahead(alloc, &self.parsed.name, line),
            Section::Open => self.parse_in_table(alloc, number, line),
            Section::Behind => Ok(Directive::Nothing),
        }
    }
}
