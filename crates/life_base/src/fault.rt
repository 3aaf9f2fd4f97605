//! What a refused file or call answers.

use crate::kind::Kind;
use thiserror::Error;

/// A line of the input, counted from 1; 0 where the fault isn't of a line.
#[derive(Clone, Copy, Debug, PartialEq, Eq)]
pub struct Place {
    /// The line's number. A number above 2^64 - 1 is reported as 2^64 - 1.
    pub line: u64,
}

/// Why a file or a call was refused, and where. Its text is for programs that print errors; `golly_canon` has lines of its own.
#[derive(Clone, Copy, Debug, PartialEq, Eq, Drop, Error)]
#[error("line {}: {}", .place.line, .kind.name())]
pub struct Fault {
    /// The line that the input is refused at: the first after which nothing makes a whole file of what came.
    pub place: Place,
    /// The first rule that the line breaks.
    pub kind: Kind,
}

/// Why a step of a pattern was refused, and where.
pub type StepFault = Fault;

impl Fault {
    ghost use Rattle.std.specs.Prelude.{◌≡◌};
    ghost use Rattle.life_base.specs.Refusal.{fault_of, fault_at};

    /// The fault that names no line.
    pub fn of(kind: Kind) -> Fault
        ensures { result ≡ fault_of kind }
    {
        Fault {
            place: Place { line: 0 },
            kind,
        }
    }

    /// The fault of a line, or of no line where the kind names none: of a store, of memory, of a step, of a device, or of a
    /// spent reader. `OutOfPlane` in a step names no line either: take `of` there.
    pub fn at(line: u64, kind: Kind) -> Fault
        ensures { result ≡ fault_at line kind }
    {
        match kind {
            Kind::Full
            | Kind::Memory
            | Kind::Spent
            | Kind::RuleMismatch
            | Kind::NeedsTable
            | Kind::TooManyCells
            | Kind::GenerationTooLarge
            | Kind::StateBeyondTable
            | Kind::ReadFault
            | Kind::WriteFault
            | Kind::InputTooLong => Fault::of(kind),
            _ => Fault {
                place: Place { line },
                kind,
            },
        }
    }
}

impl From<Kind> for Fault {
    ghost use Rattle.std.specs.Prelude.{◌≡◌};
    ghost use Rattle.life_base.specs.Refusal.{fault_of};

    ghost from_gives = { λ kind fault. fault ≡ fault_of kind };

    /// The fault that names no line.
    fn from(kind: Kind) -> Fault {
        Self::of(kind)
    }
}
