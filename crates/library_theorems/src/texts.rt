//! The texts of a file, put into memory of the caller.

ghost use Rattle.std.specs.Prelude.{◌≡◌, ◌⊎◌, ℕ, List, Ok, IfOk};
ghost use Rattle.library_theorems.specs.Words.{claimed_node_lines, IsCanonicalText, pattern_of, Pattern, IsClaimedShown, Returns, ReturnsText, IsClaimedRleText, AreFiveLines, IsUnreadWithin, IsUnwritten};

use library_calls::{Options, Reported, canon, show, to_rle};
use life_base::Fault;
use life_pattern::laws::{files_are_on_plane, files_are_unique};
use life_quad::Shared;
use life_writer::laws::{canonical_is_least, texts_are_files, texts_keep_patterns};
use std::alloc::Global;

/// The canonical text of a file is at the beginning of the caller's memory, or its length is reported where it doesn't fit; or
/// the number and the line of the file's fault are reported, and `Full` only where the limit is below 14 squares for each byte of
/// the file, and 264.
pub fn text_is_reported(alloc: Global, file: &[u8], options: Options, out: &mut [u8]) -> Reported
    ensures { Returns (IsCanonicalText file.now) (IsUnreadWithin options.limit file.now) out.old
        out.new result }
{
    files_are_on_plane();
    texts_are_files();
    texts_keep_patterns();
    canon(alloc, file, options, out)
}

/// The same of the text in extended RLE of a file, for which the file may have too many cells.
pub fn rle_is_reported(alloc: Global, file: &[u8], options: Options, out: &mut [u8]) -> Reported
    ensures { Returns (IsClaimedRleText file.now) (IsUnwritten options.limit file.now) out.old
        out.new result }
{
    to_rle(alloc, file, options, out)
}

/// The same of the five lines that describe a file's pattern.
pub fn lines_are_reported(alloc: Global, file: &[u8], options: Options, out: &mut [u8]) -> Reported
    ensures { Returns (AreFiveLines file.now) (IsUnreadWithin options.limit file.now)
        out.old out.new result }
{
    canonical_is_least();
    files_are_on_plane();
    files_are_unique();
    texts_are_files();
    texts_keep_patterns();
    show(alloc, file, options, out)
}

/// Where no fault is reported, the text is the one that `canon` of `life_canon` makes of the file; and the five lines describe the file's
/// pattern, and how many node lines that text has.
pub fn reported_texts_are_those_of_canon(
    alloc: Global,
    file: &[u8],
    options: Options,
    out: &mut [u8],
    shown: &mut [u8],
    store: &mut Shared,
) -> (Reported, Reported, Result<Vec<u8>, Fault>)
    ensures text { (result.0.status ≡ 0) ⊎ (result.0.status ≡ 64)
        → IfOk result.2 (λ text. ReturnsText text.items out.old out.new result.0) }
    ensures lines { (result.1.status ≡ 0) ⊎ (result.1.status ≡ 64)
        → IfOk result.2 (λ text. (lines : List ℕ) × ReturnsText lines shown.old shown.new result.1
        × ((pattern : Pattern) × (pattern_of file.now ≡ Ok pattern)
        × IsClaimedShown pattern (claimed_node_lines text.items) lines)) }
{
    files_are_on_plane();
    files_are_unique();
    texts_are_files();
    let text = canon(alloc, file, options, out);
    let lines = show(alloc, file, options, shown);
    (text, lines, life_canon::canon(alloc, store, file))
}
