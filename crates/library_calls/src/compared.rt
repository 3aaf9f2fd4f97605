//! The call that compares two files.

ghost use Rattle.std.specs.Prelude.{◌≡◌, if◌then◌else◌};
ghost use Rattle.library_calls.specs.Words.{kind_number, ComparesWithin, comparison_of, Fits, SomeToReadBoth};

use crate::comparison::compare;
use crate::options::Options;
use life_base::{Fault, Form};
use std::alloc::Global;

/// The result of a comparison.
#[derive(Clone, Copy)]
pub struct Compared {
    /// 0 where the two were compared; else `NO_FORM`, or the number of a kind of fault.
    pub status: u32,
    /// 1 where they are one pattern, and 0 where they aren't, or weren't compared.
    pub is_same: u32,
    /// The line of a fault, counted from 1, and 0 where it is of none.
    pub line: u64,
}

impl Compared {
    /// Reports the answer.
    pub(crate) fn of(answer: bool) -> Compared
        ensures { result ≡ comparison_of 0 (if answer then 1 else 0) 0 }
    {
        Compared {
            status: 0,
            is_same: if answer { 1 } else { 0 },
            line: 0,
        }
    }

    /// Reports a fault.
    pub(crate) fn refused(fault: &Fault) -> Compared
        ensures { result ≡ comparison_of (kind_number fault.now.kind) 0 fault.now.place.line }
    {
        Compared {
            status: fault.kind.number() as u32,
            is_same: 0,
            line: fault.place.line,
        }
    }
}

/// Whether two files, each of either format, are one pattern.
pub fn same(alloc: Global, first: &[u8], second: &[u8], options: Options) -> Compared
    ensures compares { ComparesWithin options.limit first.now second.now result }
    ensures fits { result.status ≡ 0
        → Fits (SomeToReadBoth first.now second.now) options.limit }
{
    compare(alloc, first, second, Form::Placed, options)
}
