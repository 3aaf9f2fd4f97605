//! A file that comes in pieces, and one answer at its end.

ghost use Rattle.std.specs.Prelude.{◌≡◌, ◌⊎◌, ℕ, List, [], Ok, IfOk};
ghost use Rattle.library_theorems.specs.Words.{kind_number, claimed_node_lines, IsCanonicalText, pattern_of, IsClaimedStep, IsUnstepped, Pattern, IsClaimedShown, IsOutputText, session_of, IsOpenStream, IsFed, Returns, ReturnsText, FormValue, OutputValue, IsClaimedRleText, AreFiveLines, IsClaimedUnread, IsUnreadWithin, IsUnwritten, IsEndFault, all_bytes, IsClaimedTextLater, IsNotAdvanced};

use library_calls::{Options, Output, Reported, Stream, close, feed, finish, open};
use life_base::{Fault, Kind};
use life_pattern::laws::{files_are_on_plane, files_are_unique};
use life_quad::Shared;
use life_reader::laws::faults_stay;
use life_writer::laws::{canonical_is_least, texts_are_files, texts_keep_patterns};
use std::alloc::Global;

/// What is reported at the end of the file that these are the pieces of: each is fed to an open stream, which is finished and closed.
fn reported_of_pieces(
    alloc: Global,
    stream: &mut Stream,
    pieces: &[Vec<u8>],
    out: &mut [u8],
) -> Reported
    ensures { (output : OutputValue) (limit : ℕ)
        → IsOpenStream (IsFed output limit []) (session_of stream.old)
        → Returns (IsOutputText output limit (all_bytes pieces.now))
        (IsEndFault output limit (all_bytes pieces.now))
        out.old out.new result }
{
    faults_stay();
    for piece in pieces {
        feed(alloc, stream, piece);
    }
    let reported = finish(alloc, stream, out);
    close(alloc, stream);
    reported
}

/// A stream that was opened for this output, which only lack of memory refuses, and fed the pieces of a file, cut
/// anywhere, reports at its end what is reported of the whole file.
pub fn text_of_stream(
    alloc: Global,
    stream: &mut Stream,
    pieces: &[Vec<u8>],
    output: Output,
    options: Options,
    out: &mut [u8],
) -> (u32, Reported)
    ensures opened { (result.0 ≡ 0) ⊎ (result.0 ≡ kind_number Kind.Memory) }
    ensures canonical { output ≡ OutputValue.Canonical FormValue.Placed → result.0 ≡ 0
        → Returns (IsCanonicalText (all_bytes pieces.now))
        (IsUnreadWithin options.limit (all_bytes pieces.now)) out.old out.new result.1 }
    ensures rle { output ≡ OutputValue.Rle → result.0 ≡ 0
        → Returns (IsClaimedRleText (all_bytes pieces.now))
        (IsUnwritten options.limit (all_bytes pieces.now))
        out.old out.new result.1 }
    ensures lines { output ≡ OutputValue.Lines → result.0 ≡ 0
        → Returns (AreFiveLines (all_bytes pieces.now))
        (IsUnreadWithin options.limit (all_bytes pieces.now)) out.old out.new result.1 }
    ensures next { output ≡ OutputValue.Next → result.0 ≡ 0
        → Returns (IsClaimedStep (all_bytes pieces.now))
        (λ fault. IsClaimedUnread (all_bytes pieces.now) fault
        ⊎ IsUnstepped (all_bytes pieces.now) fault)
        out.old out.new result.1 }
    ensures later { (generations : ℕ) → output ≡ OutputValue.Later generations → result.0 ≡ 0
        → Returns (IsClaimedTextLater generations (all_bytes pieces.now))
        (λ fault. IsClaimedUnread (all_bytes pieces.now) fault
        ⊎ IsNotAdvanced generations (all_bytes pieces.now) fault)
        out.old out.new result.1 }
{
    canonical_is_least();
    files_are_on_plane();
    files_are_unique();
    texts_are_files();
    texts_keep_patterns();
    let opened = open(alloc, stream, output, options);
    (opened, reported_of_pieces(alloc, stream, pieces, out))
}

/// Where no fault is reported, the text of a stream that was fed a file's pieces, cut anywhere, is the one that `canon` of
/// `life_canon` makes of the file; and its five lines describe the file's pattern, and how many node lines that text has. The text
/// of the next generation that a stream put into the caller's memory is its own canonical text.
pub fn text_of_stream_is_that_of_canon(
    alloc: Global,
    store: &mut Shared,
    bytes: &[u8],
    stream: &mut Stream,
    pieces: &[Vec<u8>],
    output: Output,
    options: Options,
    out: &mut [u8],
) -> (u32, Reported, Result<Vec<u8>, Fault>)
    ensures text { output ≡ OutputValue.Canonical FormValue.Placed
        → bytes.now ≡ all_bytes pieces.now → result.0 ≡ 0
        → (result.1.status ≡ 0) ⊎ (result.1.status ≡ 64)
        → IfOk result.2 (λ text. ReturnsText text.items out.old out.new result.1) }
    ensures lines { output ≡ OutputValue.Lines → bytes.now ≡ all_bytes pieces.now → result.0 ≡ 0
        → (result.1.status ≡ 0) ⊎ (result.1.status ≡ 64)
        → IfOk result.2 (λ text. (lines : List ℕ) × ReturnsText lines out.old out.new result.1
        × ((pattern : Pattern) × (pattern_of (all_bytes pieces.now) ≡ Ok pattern)
        × IsClaimedShown pattern (claimed_node_lines text.items) lines)) }
    ensures next { output ≡ OutputValue.Next → result.0 ≡ 0 → result.1.status ≡ 0
        → ReturnsText bytes.now out.old out.new result.1
        → IfOk result.2 (λ again. again.items ≡ bytes.now) }
{
    files_are_on_plane();
    files_are_unique();
    texts_are_files();
    let opened = open(alloc, stream, output, options);
    let text = life_canon::canon(alloc, store, bytes);
    (opened, reported_of_pieces(alloc, stream, pieces, out), text)
}
