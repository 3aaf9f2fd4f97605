//! The result of a call, with its text in memory of the caller.

ghost use Rattle.std.specs.Prelude.{◌≡◌, IfOk, IfErr, OnErr};
ghost use Rattle.library_calls.specs.Words.{kind_number, ReturnsText, ReturnsFault, TellsText};

use life_base::Fault;

/// The status of a call whose text doesn't fit into the memory that was handed over.
pub const NO_ROOM: u32 = 64;

/// What a call returns besides the bytes of its text.
#[derive(Clone, Copy)]
pub struct Reported {
    /// 0 where the text was written; else `NO_ROOM`, `NO_FORM`, or the number of a kind of fault.
    pub status: u32,
    /// How many bytes the text has, and 0 where there is none.
    pub needed: usize,
    /// The line of a fault, counted from 1, and 0 where it is of none.
    pub line: u64,
}

/// Puts a text at the beginning of the caller's memory if it fits, and returns its length.
pub fn give(text: &[u8], out: &mut [u8]) -> Reported
    ensures gives { ReturnsText text.now out.old out.new result }
    ensures line { result.line ≡ 0 }
{
    let needed = text.len();
    let mut status = NO_ROOM;
    if needed <= out.len() {
        out[..needed].copy_from_slice(text);
        status = 0;
    }
    Reported {
        status,
        needed,
        line: 0,
    }
}

/// Reports a fault, which comes without a text.
pub(crate) fn refuse(fault: &Fault) -> Reported
    ensures status { result.status ≡ kind_number fault.now.kind }
    ensures needed { result.needed ≡ 0 }
    ensures line { result.line ≡ fault.now.place.line }
{
    Reported {
        status: fault.kind.number() as u32,
        needed: 0,
        line: fault.place.line,
    }
}

/// Gives the text, or says why there is none.
pub(crate) fn tell(found: Result<Vec<u8>, Fault>, out: &mut [u8]) -> Reported
    ensures gives { IfOk found (λ text. ReturnsText text.items out.old out.new result) }
    ensures no_line { IfOk found (λ _. result.line ≡ 0) }
    ensures tells { IfErr found (λ fault. ReturnsFault fault out.old out.new result) }
    ensures text { OnErr found (¬ TellsText result) }
{
    match found {
        Ok(text) => give(&text, out),
        Err(fault) => refuse(&fault),
    }
}
