//! Types of `life_base`.

use life_base::{Cell, Fault, Kind, LifeRule, Near, Place, Rule, State, StepFault};

pub fn state_is_a_byte(byte: u8) -> State {
    byte
}

pub fn rule_variants(rule: Rule) -> bool {
    match rule {
        Rule::Life(_) => true,
        Rule::Named(_) => false,
    }
}

pub fn life_rule_fields(rule: LifeRule) -> (u16, u16, Near) {
    let LifeRule {
        births,
        survivals,
        near,
    } = rule;
    (births, survivals, near)
}

pub fn life_rule_made() -> LifeRule {
    LifeRule {
        births: 8,
        survivals: 12,
        near: Near::Moore,
    }
}

pub fn near_variants(near: Near) -> bool {
    match near {
        Near::Moore => true,
        Near::VonNeumann => false,
    }
}

pub fn fault_made(line: u64, kind: Kind) -> Fault {
    Fault {
        place: Place { line },
        kind,
    }
}

pub fn fault_fields(fault: Fault) -> (u64, Kind) {
    let Fault { place, kind } = fault;
    let Place { line } = place;
    (line, kind)
}

pub fn step_fault_is_fault(fault: Fault) -> StepFault {
    fault
}

pub fn cell_made(x: i64, y: i64, state: State) -> Cell {
    Cell { x, y, state }
}

pub fn kind_variants(kind: Kind) -> u8 {
    match kind {
        Kind::NoHeader => 1,
        Kind::BadHeader => 2,
        Kind::BadRule => 3,
        Kind::BoundedGrid => 4,
        Kind::UnsupportedRule => 5,
        Kind::BirthOnZero => 6,
        Kind::BadNumber => 7,
        Kind::TooLarge => 8,
        Kind::BadItem => 9,
        Kind::ZeroCount => 10,
        Kind::StateRange => 11,
        Kind::OutOfPlane => 12,
        Kind::LateHeader => 13,
        Kind::SecondHeader => 14,
        Kind::BadNode => 15,
        Kind::BadLevel => 16,
        Kind::BadChild => 17,
        Kind::BadLeaf => 18,
        Kind::Timeline => 19,
        Kind::LineTooLong => 20,
        Kind::Full => 21,
        Kind::Memory => 22,
        Kind::Spent => 23,
        Kind::NoRuleLine => 31,
        Kind::NoTable => 32,
        Kind::BadDescriptor => 33,
        Kind::UnsupportedNeighborhood => 34,
        Kind::UnsupportedSymmetry => 35,
        Kind::BadVariable => 36,
        Kind::BadTransition => 37,
        Kind::UnboundOutput => 38,
        Kind::NotQuiet => 39,
        Kind::RuleMismatch => 41,
        Kind::NeedsTable => 42,
        Kind::Ambiguous => 43,
        Kind::TooManyCells => 44,
        Kind::GenerationTooLarge => 45,
        Kind::StateBeyondTable => 46,
        Kind::ReadFault => 51,
        Kind::WriteFault => 52,
        Kind::InputTooLong => 53,
    }
}
