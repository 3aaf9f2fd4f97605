//! The kinds of fault, with their numbers and names.

ghost use Rattle.std.specs.Prelude.{◌≡◌};
ghost use Rattle.life_base.specs.Words.{Memory};

use std::alloc::{AllocError, AllocFailed};
use std::fmt;

/// Why something was refused. `number` and `name` give the kind outside the program.
#[derive(Clone, Copy, PartialEq, Eq)]
pub enum Kind {
    /// The first line of RLE that is no comment doesn't begin with `x`, line 1 of a macrocell file not with `[M2]`, or the input ends before a header.
    NoHeader,
    /// A header line of RLE that isn't of its form.
    BadHeader,
    /// A rule text that is empty, longer than 255 bytes, or has a byte outside 0x21 to 0x7E.
    BadRule,
    /// A rule text with `:`.
    BoundedGrid,
    /// A rule text with neighbours that aren't supported (`V` or `H` at the end of a B/S text, but for `V` after `B`, `S` and digits up to 4), or
    /// with `/` and of no known form.
    UnsupportedRule,
    /// A B/S rule with 0 among its births.
    BirthOnZero,
    /// A text that should be a number and is none.
    BadNumber,
    /// A number outside its type, or a count above 2^62.
    TooLarge,
    /// Data of RLE that is no item.
    BadItem,
    /// A count of 0.
    ZeroCount,
    /// A state above 1 under a B/S rule, or above 255.
    StateRange,
    /// A position or a run outside the plane, or in a step a cell outside it that would not stay 0.
    OutOfPlane,
    /// `#CXRLE` after the header of RLE, or `#R` or `#G` after the first node line.
    LateHeader,
    /// A second header line in RLE.
    SecondHeader,
    /// A macrocell line that is neither a leaf nor five numbers.
    BadNode,
    /// A level of a node line of 0, or above 62 (`MAX_LEVEL`), with any number of digits.
    BadLevel,
    /// A child that is no earlier line, or whose level isn't one less.
    BadChild,
    /// A leaf line with another byte, a ninth cell in a row, or anything after the eighth `$`.
    BadLeaf,
    /// A macrocell line that begins with `#FRAME`.
    Timeline,
    /// A line of more than 2^20 bytes.
    LineTooLong,
    /// A new square was needed, and the store holds as many as it may.
    Full,
    /// Memory was refused.
    Memory,
    /// A reader that has refused was used again, or a stream of the library for C that was closed or has ended.
    Spent,
    /// The first line of a rule file that is neither blank nor begins with `#` isn't `@RULE` and a name, or there is none.
    NoRuleLine,
    /// A rule file without a line `@TABLE`.
    NoTable,
    /// A descriptor of a table that is unknown, malformed, repeated, late or missing.
    BadDescriptor,
    /// A neighbourhood other than `vonNeumann` and `Moore`.
    UnsupportedNeighborhood,
    /// A symmetry that isn't listed for the neighbourhood.
    UnsupportedSymmetry,
    /// A `var` line that isn't of its form.
    BadVariable,
    /// A transition that isn't of its form.
    BadTransition,
    /// An output variable that is no input of its line.
    UnboundOutput,
    /// The first line that fits the all-zero neighbourhood gives another state.
    NotQuiet,
    /// The table's name isn't the pattern's rule.
    RuleMismatch,
    /// A named rule was stepped without a table.
    NeedsTable,
    /// The first line of a table that fits gives two different states.
    Ambiguous,
    /// More cells that aren't 0 than allowed.
    TooManyCells,
    /// A step from generation 2^64 - 1.
    GenerationTooLarge,
    /// A state of the pattern that the table doesn't have.
    StateBeyondTable,
    /// The reader failed.
    ReadFault,
    /// The writer failed, or took no bytes.
    WriteFault,
    /// More bytes came than allowed.
    InputTooLong,
}

impl Kind {
    ghost use Rattle.life_base.specs.Kinds.{kind_number, kind_name};

    /// The number of the kind: 1 to 23 of the pattern files and stores, 31 to 39 of rule tables, 41 to 46 of a step, 51 to 53 of
    /// devices. No two kinds have one number.
    pub fn number(&self) -> u8
        ensures { result ≡ kind_number self.now }
    {
        match self {
            Kind::NoHeader => 1,
            Kind::BadHeader => 2,
            Kind::BadRule => 3,
            Kind::BoundedGrid => 4,
            Kind::UnsupportedRule => 5,
            Kind::BirthOnZero => 6,
            Kind::BadNumber => 7,
            Kind::TooLarge => 8,
            Kind::BadItem => 9,
            Kind::ZeroCount => 10,
            Kind::StateRange => 11,
            Kind::OutOfPlane => 12,
            Kind::LateHeader => 13,
            Kind::SecondHeader => 14,
            Kind::BadNode => 15,
            Kind::BadLevel => 16,
            Kind::BadChild => 17,
            Kind::BadLeaf => 18,
            Kind::Timeline => 19,
            Kind::LineTooLong => 20,
            Kind::Full => 21,
            Kind::Memory => 22,
            Kind::Spent => 23,
            Kind::NoRuleLine => 31,
            Kind::NoTable => 32,
            Kind::BadDescriptor => 33,
            Kind::UnsupportedNeighborhood => 34,
            Kind::UnsupportedSymmetry => 35,
            Kind::BadVariable => 36,
            Kind::BadTransition => 37,
            Kind::UnboundOutput => 38,
            Kind::NotQuiet => 39,
            Kind::RuleMismatch => 41,
            Kind::NeedsTable => 42,
            Kind::Ambiguous => 43,
            Kind::TooManyCells => 44,
            Kind::GenerationTooLarge => 45,
            Kind::StateBeyondTable => 46,
            Kind::ReadFault => 51,
            Kind::WriteFault => 52,
            Kind::InputTooLong => 53,
        }
    }

    /// The name of the kind, as it is written in `Kind`.
    pub fn name(&self) -> &'static str
        ensures { result.now ≡ kind_name self.now }
    {
        match self {
            Kind::NoHeader => "NoHeader",
            Kind::BadHeader => "BadHeader",
            Kind::BadRule => "BadRule",
            Kind::BoundedGrid => "BoundedGrid",
            Kind::UnsupportedRule => "UnsupportedRule",
            Kind::BirthOnZero => "BirthOnZero",
            Kind::BadNumber => "BadNumber",
            Kind::TooLarge => "TooLarge",
            Kind::BadItem => "BadItem",
            Kind::ZeroCount => "ZeroCount",
            Kind::StateRange => "StateRange",
            Kind::OutOfPlane => "OutOfPlane",
            Kind::LateHeader => "LateHeader",
            Kind::SecondHeader => "SecondHeader",
            Kind::BadNode => "BadNode",
            Kind::BadLevel => "BadLevel",
            Kind::BadChild => "BadChild",
            Kind::BadLeaf => "BadLeaf",
            Kind::Timeline => "Timeline",
            Kind::LineTooLong => "LineTooLong",
            Kind::Full => "Full",
            Kind::Memory => "Memory",
            Kind::Spent => "Spent",
            Kind::NoRuleLine => "NoRuleLine",
            Kind::NoTable => "NoTable",
            Kind::BadDescriptor => "BadDescriptor",
            Kind::UnsupportedNeighborhood => "UnsupportedNeighborhood",
            Kind::UnsupportedSymmetry => "UnsupportedSymmetry",
            Kind::BadVariable => "BadVariable",
            Kind::BadTransition => "BadTransition",
            Kind::UnboundOutput => "UnboundOutput",
            Kind::NotQuiet => "NotQuiet",
            Kind::RuleMismatch => "RuleMismatch",
            Kind::NeedsTable => "NeedsTable",
            Kind::Ambiguous => "Ambiguous",
            Kind::TooManyCells => "TooManyCells",
            Kind::GenerationTooLarge => "GenerationTooLarge",
            Kind::StateBeyondTable => "StateBeyondTable",
            Kind::ReadFault => "ReadFault",
            Kind::WriteFault => "WriteFault",
            Kind::InputTooLong => "InputTooLong",
        }
    }
}

impl fmt::Debug for Kind {
    /// Writes the name of the kind, as a derived `Debug` would.
    fn fmt<W: fmt::Write>(&self, f: &mut fmt::Formatter<W>) -> fmt::Result {
        f.write_str(self.name())
    }
}

impl From<AllocError> for Kind {
    ghost from_gives = { λ _ kind. kind ≡ Memory };

    /// `Memory`.
    fn from(_refused: AllocError) -> Kind {
        Kind::Memory
    }
}

impl<T: Drop> From<AllocFailed<T>> for Kind {
    ghost from_gives = { λ _ kind. kind ≡ Memory };

    /// `Memory`; the value for which there was no memory is dropped.
    fn from(_refused: AllocFailed<T>) -> Kind {
        Kind::Memory
    }
}
