//! Kinds and faults.

use life_base::{Fault, Kind, Place};
use std::process::Abort;

/// Each kind with its number, its name and the line that a fault of it on line 7 writes.
const ROWS: [(Kind, u8, &str, u64); 41] = [
    (Kind::NoHeader, 1, "NoHeader", 7),
    (Kind::BadHeader, 2, "BadHeader", 7),
    (Kind::BadRule, 3, "BadRule", 7),
    (Kind::BoundedGrid, 4, "BoundedGrid", 7),
    (Kind::UnsupportedRule, 5, "UnsupportedRule", 7),
    (Kind::BirthOnZero, 6, "BirthOnZero", 7),
    (Kind::BadNumber, 7, "BadNumber", 7),
    (Kind::TooLarge, 8, "TooLarge", 7),
    (Kind::BadItem, 9, "BadItem", 7),
    (Kind::ZeroCount, 10, "ZeroCount", 7),
    (Kind::StateRange, 11, "StateRange", 7),
    (Kind::OutOfPlane, 12, "OutOfPlane", 7),
    (Kind::LateHeader, 13, "LateHeader", 7),
    (Kind::SecondHeader, 14, "SecondHeader", 7),
    (Kind::BadNode, 15, "BadNode", 7),
    (Kind::BadLevel, 16, "BadLevel", 7),
    (Kind::BadChild, 17, "BadChild", 7),
    (Kind::BadLeaf, 18, "BadLeaf", 7),
    (Kind::Timeline, 19, "Timeline", 7),
    (Kind::LineTooLong, 20, "LineTooLong", 7),
    (Kind::Full, 21, "Full", 0),
    (Kind::Memory, 22, "Memory", 0),
    (Kind::Spent, 23, "Spent", 0),
    (Kind::NoRuleLine, 31, "NoRuleLine", 7),
    (Kind::NoTable, 32, "NoTable", 7),
    (Kind::BadDescriptor, 33, "BadDescriptor", 7),
    (
        Kind::UnsupportedNeighborhood,
        34,
        "UnsupportedNeighborhood",
        7,
    ),
    (Kind::UnsupportedSymmetry, 35, "UnsupportedSymmetry", 7),
    (Kind::BadVariable, 36, "BadVariable", 7),
    (Kind::BadTransition, 37, "BadTransition", 7),
    (Kind::UnboundOutput, 38, "UnboundOutput", 7),
    (Kind::NotQuiet, 39, "NotQuiet", 7),
    (Kind::RuleMismatch, 41, "RuleMismatch", 0),
    (Kind::NeedsTable, 42, "NeedsTable", 0),
    (Kind::Ambiguous, 43, "Ambiguous", 7),
    (Kind::TooManyCells, 44, "TooManyCells", 0),
    (Kind::GenerationTooLarge, 45, "GenerationTooLarge", 0),
    (Kind::StateBeyondTable, 46, "StateBeyondTable", 0),
    (Kind::ReadFault, 51, "ReadFault", 0),
    (Kind::WriteFault, 52, "WriteFault", 0),
    (Kind::InputTooLong, 53, "InputTooLong", 0),
];

/// A kind has this number and this name, a fault of it on line 7 writes this line, and one of no line writes none.
fn assert_kind(rt: &impl Abort, kind: Kind, number: u8, name: &str, line: u64) {
    assert!(rt; kind.number() == number && kind.name() == name, "{name}");
    let place = Place { line };
    let nowhere = Place { line: 0 };
    let faults = [Fault::at(7, kind), Fault::of(kind), Fault::from(kind)];
    let wanted = [
        Fault { place, kind },
        Fault {
            place: nowhere,
            kind,
        },
        Fault {
            place: nowhere,
            kind,
        },
    ];
    assert!(rt; faults == wanted, "{name}");
}

#[test]
fn kinds_have_their_numbers_names_and_lines(rt: HostRuntime) {
    for &(kind, number, name, line) in &ROWS {
        assert_kind(&rt, kind, number, name, line);
    }
}

#[test]
fn a_fault_tells_its_line_and_its_kind(rt: HostRuntime) {
    let fault = Fault::at(u64::MAX, Kind::BadNode);
    let text = format!(in rt.alloc(); "{fault}").expect(&rt, "memory");
    assert!(rt; text.as_str() == "line 18446744073709551615: BadNode");
}
