//! The pattern of a source, in a store.

ghost use Rattle.std.specs.Prelude.{◌≡◌, ◌≢◌, ◌^◌, IfOk, IfErr, OnOk, true};
ghost use Rattle.pattern_sources.specs.Words.{source_run, sink_run, stored_squares, AreWorking, ReadsPattern, ReadsWhole, RunsCanon, AreOfInput};

use life_base::{Fault, Kind, Sink, Source};
use life_canon::run_canon;
use life_pattern::Pattern;
use life_quad::Shared;
use life_reader::read_from;
use std::alloc::Global;

/// How many different squares a store of the program holds at most.
pub const MOST_SQUARES: u64 = 1 << 31;

/// The pattern of a source, read into the store.
///
/// # Errors
///
/// The fault of its file. `ReadFault` or `InputTooLong` where the source isn't read to its end. `Full` where the store is too small for the pattern, and
/// `Memory`.
pub fn pattern_of<A: Source>(
    alloc: Global,
    store: &mut Shared,
    source: &mut A,
) -> Result<Pattern, Fault>
    requires { A.failures source.old ≡ 0 }
    ensures reads { ReadsPattern (2 ^ 30) store.old store.new
        (source_run A.remaining A.failures source.old source.new) result }
    ensures only { IfOk result (ReadsWhole (2 ^ 30) store.old store.new
        (source_run A.remaining A.failures source.old source.new)) }
    ensures squares { AreOfInput (stored_squares store.old) (A.remaining source.old)
        (stored_squares store.new) }
{
    let pattern = read_from(alloc, store, source);
    // Its contract says that a store holds each square once, and none that is blank.
    let _ = store.len();
    pattern
}

/// Reads the pattern of a source into the store, and writes its canonical text.
///
/// # Errors
///
/// Those of `pattern_of`, with nothing written, and `WriteFault` where the output failed or took no bytes.
pub fn write_canonical<A: Source, O: Sink>(
    alloc: Global,
    store: &mut Shared,
    source: &mut A,
    out: &mut O,
) -> Result<(), Fault>
    requires { AreWorking A.failures O.failures O.stalled source.old out.old }
    ensures runs { RunsCanon (2 ^ 30) store.old store.new
        (source_run A.remaining A.failures source.old source.new)
        (sink_run O.contents O.failures O.stalled out.old out.new) result }
    ensures squares { AreOfInput (stored_squares store.old) (A.remaining source.old)
        (stored_squares store.new) }
    ensures flushed { OnOk result (O.flushed out.new ≡ true) }
    ensures unwritten { IfErr result
        (λ fault. fault.kind ≢ Kind.WriteFault → out.new ≡ out.old) }
{
    let ran = run_canon(alloc, store, source, out);
    // As in `pattern_of`.
    let _ = store.len();
    ran
}
