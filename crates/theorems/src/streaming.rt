//! A file that comes from a source, and whose canonical text goes to a sink.

ghost use Rattle.std.specs.Prelude.{◌≡◌, ◌≢◌, ◌⊎◌, ◌≤◌, ◌^◌, ◌++◌, ℕ, List, [], length, true, false, Some, IfOk, IfErr, IsErrAnd, OnOk};
ghost use Rattle.theorems.specs.Words.{IsTextOfFile, SayOnePattern, IsStreamFault};

use crate::space::StoreOptions;
use life_base::{Fault, Kind, Sink, Source};
use life_canon::{canon, run_canon};
use life_pattern::laws::{files_are_on_plane, files_are_unique};
use life_writer::laws::texts_keep_patterns;
use std::alloc::Global;

/// From a source that reports its bytes to a sink that reports what it holds, the canonical text of the file, which is a file of
/// the same pattern, is written after what the sink held; and the sink stays as it was where another fault than one of
/// writing is reported.
///
/// # Errors
///
/// The fault of the file; a full store or no more memory; `InputTooLong` where more than 2^30 bytes come; `ReadFault` where the
/// source failed; `WriteFault` where the sink failed or took no bytes.
pub fn stream_to_stream<R: Source, W: Sink>(
    alloc: Global,
    space: StoreOptions,
    reader: &mut R,
    writer: &mut W,
) -> Result<(), Fault>
    requires reads { R.failures reader.old ≡ 0 }
    requires writes { (W.failures writer.old ≡ 0) × (W.stalled writer.old ≡ false) }
    ensures done { (bytes held : List ℕ) → R.remaining reader.old ≡ Some bytes
        → W.contents writer.old ≡ Some held
        → OnOk result
        ((text : List ℕ) × (W.contents writer.new ≡ Some (held ++ text)) × SayOnePattern bytes text
        × IsTextOfFile bytes text) }
    ensures whole { (bytes : List ℕ) → R.remaining reader.old ≡ Some bytes
        → OnOk result ((R.remaining reader.new ≡ Some []) × (length bytes ≤ 2 ^ 30)) }
    ensures flushed { OnOk result (W.flushed writer.new ≡ true) }
    ensures untouched { IfErr result
        (λ fault. fault.kind ≢ Kind.WriteFault → writer.new ≡ writer.old) }
    ensures refused { (bytes : List ℕ) → R.remaining reader.old ≡ Some bytes
        → IfErr result (IsStreamFault bytes (R.failures reader.new) (W.failures writer.new)
        (W.stalled writer.new)) }
    ensures read_reported { R.failures reader.new ≡ 1
        → IsErrAnd result (λ fault. fault.kind ≡ Kind.ReadFault) }
    ensures write_reported { (W.failures writer.new ≡ 1) ⊎ (W.stalled writer.new ≡ true)
        → IsErrAnd result (λ fault. fault.kind ≡ Kind.WriteFault) }
{
    files_are_on_plane();
    texts_keep_patterns();
    run_canon(alloc, &mut space.new_store(alloc), reader, writer)
}

/// What is written to a sink that reports what it holds is the canonical text that `canon` makes of the bytes of the source.
pub fn stream_writes_the_text<R: Source, W: Sink>(
    alloc: Global,
    one: StoreOptions,
    other: StoreOptions,
    reader: &mut R,
    writer: &mut W,
    file: &[u8],
) -> Result<Vec<u8>, Fault>
    requires reads { R.failures reader.old ≡ 0 }
    requires writes { (W.failures writer.old ≡ 0) × (W.stalled writer.old ≡ false) }
    ensures { (held : List ℕ) → R.remaining reader.old ≡ Some file.now
        → W.contents writer.old ≡ Some held
        → IfOk result (λ text. W.contents writer.new ≡ Some (held ++ text.items)) }
{
    files_are_unique();
    run_canon(alloc, &mut one.new_store(alloc), reader, writer)?;
    canon(alloc, &mut other.new_store(alloc), file)
}
