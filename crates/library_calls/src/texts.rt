//! The texts that a call or a stream gives of a file, and the calls that give one.

ghost use Rattle.std.specs.Prelude.{IfOk, IfErr, OnOk};
ghost use Rattle.library_calls.specs.Words.{Returns, Fits, SomeToRead, TellsText, IsLeastCanonicalText, IsRleText, RefusesWithin, RefusesRleWithin, IsOutputText, IsTextOfRead, RefusesTextOf, RefusesTextOfRead, IsOfFile, IsShownText};

use crate::options::Options;
use crate::reported::{Reported, tell};
use life_base::{Fault, Form, MAX_LEVEL};
use life_generations::later_by_rule;
use life_pattern::Pattern;
use life_pattern::laws::files_are_on_plane;
use life_quad::Shared;
use life_reader::read;
use life_step::next_by_rule;
use life_writer::laws::{canonical_is_least, texts_are_files};
use life_writer::{five_lines_of, rle_of};
use pattern_forms::text_in;
use std::alloc::Global;

/// Which text a call or a stream gives of a file.
#[derive(Clone, Copy)]
pub enum Output {
    /// The canonical text of the pattern in this form.
    Canonical(Form),
    /// The pattern in extended RLE.
    Rle,
    /// Five lines on the pattern.
    Lines,
    /// The canonical text of the next generation under the file's B/S rule.
    Next,
    /// The canonical text of the pattern so many generations later under the file's B/S rule.
    Later(u64),
}

/// The text of a pattern that was read into the store.
pub(crate) fn text_of_read(
    alloc: Global,
    store: &mut Shared,
    pattern: Pattern,
    output: Output,
) -> Result<Vec<u8>, Fault>
    requires { IsOfFile MAX_LEVEL store.old pattern }
    ensures text { IfOk result (λ text. IsTextOfRead output store.old pattern text.items) }
    ensures fault { IfErr result (RefusesTextOfRead output store.old pattern) }
{
    files_are_on_plane();
    texts_are_files();
    canonical_is_least();
    match output {
        Output::Canonical(form) => text_in(alloc, store, form, &pattern),
        Output::Rle => rle_of(alloc, store, &pattern),
        Output::Lines => five_lines_of(alloc, store, &pattern),
        Output::Next => {
            let text = next_by_rule(alloc, store, pattern);
            // Its contract says that a store holds each square once, and none that is blank. The proof counts them.
            let _ = store.len();
            text
        }
        Output::Later(generations) => later_by_rule(alloc, store, pattern, generations),
    }
}

/// The text of the pattern of a file of either format.
pub(crate) fn text_of_file(
    alloc: Global,
    bytes: &[u8],
    output: Output,
    options: Options,
) -> Result<Vec<u8>, Fault>
    ensures text { IfOk result
        (λ text. IsOutputText output options.limit bytes.now text.items) }
    ensures fits { OnOk result (Fits (SomeToRead bytes.now) options.limit) }
    ensures fault { IfErr result (RefusesTextOf output options.limit bytes.now) }
{
    let mut store = options.new_store(alloc);
    let found = read(alloc, &mut store, bytes);
    // As in `text_of_read`.
    let _ = store.len();
    let pattern = found?;
    text_of_read(alloc, &mut store, pattern, output)
}

/// Gives that text, or says why there is none.
pub(crate) fn answer(
    alloc: Global,
    bytes: &[u8],
    output: Output,
    options: Options,
    out: &mut [u8],
) -> Reported
    ensures answers { Returns (IsOutputText output options.limit bytes.now)
        (RefusesTextOf output options.limit bytes.now) out.old out.new result }
    ensures fits { TellsText result → Fits (SomeToRead bytes.now) options.limit }
{
    tell(text_of_file(alloc, bytes, output, options), out)
}

/// The canonical text of the pattern of a file of either format.
pub fn canon(alloc: Global, bytes: &[u8], options: Options, out: &mut [u8]) -> Reported
    ensures answers { Returns (IsLeastCanonicalText bytes.now)
        (RefusesWithin options.limit bytes.now) out.old out.new result }
    ensures fits { TellsText result → Fits (SomeToRead bytes.now) options.limit }
{
    answer(alloc, bytes, Output::Canonical(Form::Placed), options, out)
}

/// The text in extended RLE of the pattern of a file of either format.
pub fn to_rle(alloc: Global, bytes: &[u8], options: Options, out: &mut [u8]) -> Reported
    ensures answers { Returns (IsRleText bytes.now) (RefusesRleWithin options.limit bytes.now)
        out.old out.new result }
    ensures fits { TellsText result → Fits (SomeToRead bytes.now) options.limit }
{
    answer(alloc, bytes, Output::Rle, options, out)
}

/// Five lines on the pattern of a file of either format.
pub fn show(alloc: Global, bytes: &[u8], options: Options, out: &mut [u8]) -> Reported
    ensures answers { Returns (IsShownText MAX_LEVEL bytes.now)
        (RefusesWithin options.limit bytes.now) out.old out.new result }
    ensures fits { TellsText result → Fits (SomeToRead bytes.now) options.limit }
{
    answer(alloc, bytes, Output::Lines, options, out)
}
