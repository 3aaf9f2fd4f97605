//! From a source to a sink.

ghost use Rattle.std.specs.Prelude.{◌≡◌, ◌≢◌, ◌≤◌, ◌^◌, true, IfErr, OnOk};
ghost use Rattle.life_canon.specs.Words.{source_run, sink_run, RunsCanon, AreWorking};

use life_base::{Fault, Kind, Sink, Source};
use life_quad::Shared;
use life_reader::{LONGEST_INPUT, read_from_within};
use life_writer::{begin_text, deliver_squares};
use std::alloc::Global;

/// Reads to the end of the input, then writes the canonical text of its pattern and flushes. It reads at most `most` bytes and a
/// piece, keeps no more than 2^20 bytes of them, and writes nothing before all is read and accepted.
///
/// # Errors
///
/// `ReadFault` where a read fails and `InputTooLong` where more than `most` bytes come, also after a refused line; the fault of the
/// file; `Full` where the store holds its limit, and `Memory`; `WriteFault` where a write or the flush fails, or a write takes no bytes.
/// After a `WriteFault` the sink has a prefix of the text, after every other fault it is as it was. The store keeps what it has in each case,
/// and a limit of `14 * length + 264` squares more suffices for an input of this length.
pub fn run_canon_within<R: Source, W: Sink>(
    alloc: Global,
    store: &mut Shared,
    reader: &mut R,
    writer: &mut W,
    most: u64,
) -> Result<(), Fault>
    requires working { AreWorking R.failures W.failures W.stalled reader.old writer.old }
    requires bound { most ≤ 2 ^ 30 }
    ensures runs { RunsCanon most store.old store.new
        (source_run R.remaining R.failures reader.old reader.new)
        (sink_run W.contents W.failures W.stalled writer.old writer.new) result }
    ensures flushed { OnOk result (W.flushed writer.new ≡ true) }
    ensures unwritten { IfErr result
        (λ fault. fault.kind ≢ Kind.WriteFault → writer.new ≡ writer.old) }
{
    let pattern = read_from_within(alloc, store, reader, most)?;
    let (numbers, prefix) = begin_text(alloc, store, &pattern)?;
    deliver_squares(store, &pattern, numbers, prefix, writer)?;
    Ok(())
}

/// Reads to the end of the input, then writes the canonical text of its pattern and flushes, as `run_canon_within` with at most 2^30
/// bytes.
///
/// # Errors
///
/// Those of `run_canon_within`, which leave the sink and the store as there; a limit of `14 * length + 264` squares more suffices.
pub fn run_canon<R: Source, W: Sink>(
    alloc: Global,
    store: &mut Shared,
    reader: &mut R,
    writer: &mut W,
) -> Result<(), Fault>
    requires working { AreWorking R.failures W.failures W.stalled reader.old writer.old }
    ensures runs { RunsCanon (2 ^ 30) store.old store.new
        (source_run R.remaining R.failures reader.old reader.new)
        (sink_run W.contents W.failures W.stalled writer.old writer.new) result }
    ensures flushed { OnOk result (W.flushed writer.new ≡ true) }
    ensures unwritten { IfErr result
        (λ fault. fault.kind ≢ Kind.WriteFault → writer.new ≡ writer.old) }
{
    run_canon_within(alloc, store, reader, writer, LONGEST_INPUT)
}
