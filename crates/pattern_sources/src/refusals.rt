//! Fault lines and statuses.

ghost use Rattle.std.specs.Prelude.{◌≡◌, ◌⊎◌, true, IfErr, OnErr};
ghost use Rattle.pattern_sources.specs.Words.{sink_run, WritesText, fault_line, fault_of, is_of_table, line_word, refusal_of, status_of, Reports};

use itoa::Buffer;
use life_base::{Fault, Kind, Sink, write_texts};

/// Why a task is refused.
#[derive(Clone, Copy, Debug, PartialEq, Eq, Drop)]
pub struct Refusal {
    pub fault: Fault,
    /// Whether a rule table was being read.
    pub in_table: bool,
    /// Whether the second of two compared pattern files is at fault, and not the first. If neither is, as with `Full`, `Memory` and `WriteFault`, it says nothing.
    pub of_second: bool,
    /// How many generations were made before the one that is refused, in a run of many by a rule table. Otherwise 0.
    pub made: u64,
}

impl From<Fault> for Refusal {
    ghost use Rattle.std.specs.Prelude.{◌≡◌};
    ghost use Rattle.pattern_sources.specs.Faults.{refusal_of};

    ghost from_gives = { λ fault refusal. refusal ≡ refusal_of fault };

    /// The fault of another file than a table, or of none.
    fn from(fault: Fault) -> Refusal {
        Refusal {
            fault,
            in_table: false,
            of_second: false,
            made: 0,
        }
    }
}

/// Whether a line of this kind of fault is one of a rule table, where `in_table` says whether the table was being read.
fn is_of_table(in_table: bool, kind: Kind) -> bool
    ensures { result ≡ is_of_table in_table kind }
{
    match kind {
        Kind::NoRuleLine
        | Kind::NoTable
        | Kind::BadDescriptor
        | Kind::UnsupportedNeighborhood
        | Kind::UnsupportedSymmetry
        | Kind::BadVariable
        | Kind::BadTransition
        | Kind::UnboundOutput
        | Kind::NotQuiet
        | Kind::Ambiguous => true,
        Kind::LineTooLong => in_table,
        _ => false,
    }
}

/// The word before a line's number.
fn word_of(of_table: bool) -> &'static [u8]
    ensures { result.now ≡ line_word of_table }
{
    if of_table { b"table line " } else { b"line " }
}

/// Writes the line of a fault: `line N: KIND`, `table line N: KIND` where the line is one of a table, or `KIND` where it names no line.
fn write_refusal<E: Sink>(err: &mut E, refusal: &Refusal) -> Result<(), Kind>
    requires { E.failures err.old ≡ 0 }
    ensures text { WritesText (E.contents err.old) (E.contents err.new) (fault_line refusal.now)
        result }
    ensures kind { IfErr result (λ kind. kind ≡ Kind.WriteFault) }
    ensures cause { OnErr result ((E.failures err.new ≡ 1) ⊎ (E.stalled err.new ≡ true)) }
{
    let fault = &refusal.fault;
    let name = fault.kind.name().as_bytes();
    if fault.place.line == 0 {
        return write_texts(err, &[name, b"\n"]);
    }
    let word = word_of(is_of_table(refusal.in_table, fault.kind));
    let mut buffer = Buffer::new();
    let line = buffer.format(fault.place.line).as_bytes();
    write_texts(err, &[word, line, b": ", name, b"\n"])
}

/// Writes the line of a fault, as far as the sink takes it. It takes no memory.
pub fn tell<E: Sink>(err: &mut E, refusal: &Refusal)
    requires { E.failures err.old ≡ 0 }
    ensures { Reports (sink_run E.contents E.failures E.stalled err.old err.new)
        (fault_line refusal.now) }
{
    let _ = write_refusal(err, refusal);
}

/// The status that a fault ends the program with.
pub fn status(kind: Kind) -> u8
    ensures { result ≡ status_of kind }
{
    match kind {
        Kind::ReadFault | Kind::WriteFault => 3,
        Kind::Full | Kind::Memory => 4,
        _ => 2,
    }
}

/// Writes the line of a fault that is none of a file's text, and returns its status.
pub fn refuse<E: Sink>(err: &mut E, kind: Kind) -> u8
    requires { E.failures err.old ≡ 0 }
    ensures reported { Reports (sink_run E.contents E.failures E.stalled err.old err.new)
        (fault_line (refusal_of (fault_of kind))) }
    ensures status { result ≡ status_of kind }
{
    tell(err, &Refusal::from(Fault::of(kind)));
    status(kind)
}
