//! Calls of `life_base`.

ghost use Rattle.std.specs.Prelude.{◌≤◌};
ghost use Rattle.life_base.specs.Rules.{most_neighbours};

use life_base::{Kind, LifeRule, Lines, Name, Rule, line_fits, lines, read_i64, read_u64};
use std::alloc::Global;

pub fn kind_number(kind: &Kind) -> u8 {
    kind.number()
}

pub fn kind_name(kind: &Kind) -> &'static str {
    kind.name()
}

pub fn rule_parse(alloc: Global, text: &[u8]) -> Result<Rule, Kind> {
    Rule::parse(alloc, text)
}

pub fn rule_write(rule: &Rule, out: &mut Vec<u8>) -> Result<(), Kind> {
    rule.write(out)
}

pub fn rule_copy(rule: &Rule, alloc: Global) -> Result<Rule, Kind> {
    rule.copy(alloc)
}

pub fn name_bytes(name: &Name) -> &[u8] {
    name.bytes()
}

pub fn rule_same(one: &Rule, other: &Rule) -> bool {
    one.same(other)
}

pub fn life_rule_next(rule: &LifeRule, alive: bool, count: u8) -> bool
    requires { count ≤ most_neighbours rule.now.near }
{
    rule.next(alive, count)
}

pub fn lines_of(bytes: &[u8]) -> Lines<'_> {
    lines(bytes)
}

pub fn first_line(bytes: &[u8]) -> Option<(u64, &[u8])> {
    lines(bytes).next()
}

pub fn number_of(text: &[u8]) -> Result<u64, Kind> {
    read_u64(text)
}

pub fn signed_number_of(text: &[u8]) -> Result<i64, Kind> {
    read_i64(text)
}

pub fn fits(kept: u64, more: u64) -> bool {
    line_fits(kept, more)
}
