//! The calls on whole files: their texts, their next generations, their forms, and what two of them are.

ghost use Rattle.std.specs.Prelude.{◌≡◌, MatchOption};
ghost use Rattle.golly_canon_c.specs.Words.{IsLeastCanonicalText, IsRleText, RefusesWithin, RefusesRleWithin, Returns, Fits, SomeToRead, SomeToReadBoth, TellsText, reply, IsShownText, RefusesStepWithin, StepsByTable, IsStepped, IsTextLater, RefusesLater, comparison_of, ComparesInForm, ComparesInNone, form_numbered, IsKeyInForm, IsTextInForm, AnswersInForm, ComparesWithin};

use crate::reported::{tell, tell_compared};
use library_calls::{
    Options, canon, canon_form, key, same, same_form, show, step, step_by_table, step_generations,
    to_rle,
};
use life_base::MAX_LEVEL;
use std::alloc::Global;

/// The canonical text of the pattern of a file of either format.
#[unsafe(no_mangle)]
pub extern "C" fn golly_canon_canon(
    alloc: Global,
    bytes: &[u8],
    limit: u64,
    seed: u64,
    out: &mut [u8],
    needed: &mut usize,
    line: &mut u64,
) -> u32
    ensures answers { Returns (IsLeastCanonicalText bytes.now) (RefusesWithin limit bytes.now)
        out.old out.new (reply result needed.new line.new) }
    ensures fits { TellsText (reply result needed.new line.new)
        → Fits (SomeToRead bytes.now) limit }
{
    let answer = canon(alloc, bytes, Options { limit, seed }, out);
    tell(answer, needed, line)
}

/// The text in extended RLE of the pattern of a file of either format.
#[unsafe(no_mangle)]
pub extern "C" fn golly_canon_to_rle(
    alloc: Global,
    bytes: &[u8],
    limit: u64,
    seed: u64,
    out: &mut [u8],
    needed: &mut usize,
    line: &mut u64,
) -> u32
    ensures answers { Returns (IsRleText bytes.now) (RefusesRleWithin limit bytes.now) out.old
        out.new (reply result needed.new line.new) }
    ensures fits { TellsText (reply result needed.new line.new)
        → Fits (SomeToRead bytes.now) limit }
{
    let answer = to_rle(alloc, bytes, Options { limit, seed }, out);
    tell(answer, needed, line)
}

/// Five lines on the pattern of a file of either format.
#[unsafe(no_mangle)]
pub extern "C" fn golly_canon_show(
    alloc: Global,
    bytes: &[u8],
    limit: u64,
    seed: u64,
    out: &mut [u8],
    needed: &mut usize,
    line: &mut u64,
) -> u32
    ensures answers { Returns (IsShownText MAX_LEVEL bytes.now) (RefusesWithin limit bytes.now)
        out.old out.new (reply result needed.new line.new) }
    ensures fits { TellsText (reply result needed.new line.new)
        → Fits (SomeToRead bytes.now) limit }
{
    let answer = show(alloc, bytes, Options { limit, seed }, out);
    tell(answer, needed, line)
}

/// The canonical text of the next generation of the pattern of a file, under its B/S rule.
#[unsafe(no_mangle)]
pub extern "C" fn golly_canon_step(
    alloc: Global,
    bytes: &[u8],
    limit: u64,
    seed: u64,
    out: &mut [u8],
    needed: &mut usize,
    line: &mut u64,
) -> u32
    ensures answers { Returns (IsStepped bytes.now) (RefusesStepWithin limit bytes.now) out.old
        out.new (reply result needed.new line.new) }
    ensures fits { TellsText (reply result needed.new line.new)
        → Fits (SomeToRead bytes.now) limit }
{
    let answer = step(alloc, bytes, Options { limit, seed }, out);
    tell(answer, needed, line)
}

/// The canonical text of the pattern of a file so many generations later, under its B/S rule. There is no limit on cells. For 0 generations it is the canonical
/// text of the file, whatever its rule is.
#[unsafe(no_mangle)]
pub extern "C" fn golly_canon_step_generations(
    alloc: Global,
    bytes: &[u8],
    generations: u64,
    limit: u64,
    seed: u64,
    out: &mut [u8],
    needed: &mut usize,
    line: &mut u64,
) -> u32
    ensures answers { Returns (IsTextLater generations bytes.now)
        (RefusesLater generations bytes.now) out.old out.new (reply result needed.new line.new) }
    ensures fits { TellsText (reply result needed.new line.new)
        → Fits (SomeToRead bytes.now) limit }
{
    let answer = step_generations(alloc, bytes, generations, Options { limit, seed }, out);
    tell(answer, needed, line)
}

/// The canonical text of the next generation of the pattern of a file, by a rule table, whose file is `table`. A refusal of the table itself
/// puts 1 into `in_table`, and any other answer 0.
#[unsafe(no_mangle)]
pub extern "C" fn golly_canon_step_by_table(
    alloc: Global,
    bytes: &[u8],
    table: &[u8],
    limit: u64,
    seed: u64,
    out: &mut [u8],
    needed: &mut usize,
    line: &mut u64,
    in_table: &mut u32,
) -> u32
    ensures steps { StepsByTable limit bytes.now table.now in_table.new out.old out.new
        (reply result needed.new line.new) }
    ensures fits { TellsText (reply result needed.new line.new)
        → Fits (SomeToRead bytes.now) limit }
{
    let (answer, of_table) = step_by_table(alloc, bytes, table, Options { limit, seed }, out);
    *in_table = of_table;
    tell(answer, needed, line)
}

/// The canonical text of the pattern of a file of either format, in the form with this number: 0 placed, 1 moved, 2 turned, and 2^31 + `most` for all phases,
/// with a period of up to `most` generations.
#[unsafe(no_mangle)]
pub extern "C" fn golly_canon_canon_form(
    alloc: Global,
    bytes: &[u8],
    form: u32,
    limit: u64,
    seed: u64,
    out: &mut [u8],
    needed: &mut usize,
    line: &mut u64,
) -> u32
    ensures answers { AnswersInForm IsTextInForm form limit bytes.now out.old out.new
        (reply result needed.new line.new) }
    ensures fits { TellsText (reply result needed.new line.new)
        → Fits (SomeToRead bytes.now) limit }
{
    let answer = canon_form(alloc, bytes, form, Options { limit, seed }, out);
    tell(answer, needed, line)
}

/// The key of the pattern of a file of either format, in the form with this number: the SHA-256 of the text that `golly_canon_canon_form` gives.
#[unsafe(no_mangle)]
pub extern "C" fn golly_canon_key(
    alloc: Global,
    bytes: &[u8],
    form: u32,
    limit: u64,
    seed: u64,
    out: &mut [u8],
    needed: &mut usize,
    line: &mut u64,
) -> u32
    ensures answers { AnswersInForm IsKeyInForm form limit bytes.now out.old out.new
        (reply result needed.new line.new) }
    ensures fits { TellsText (reply result needed.new line.new)
        → Fits (SomeToRead bytes.now) limit }
{
    let answer = key(alloc, bytes, form, Options { limit, seed }, out);
    tell(answer, needed, line)
}

/// Whether two files, each of either format, are one pattern in the form with this number: 1 or 0 in `is_same`. A refusal leaves 0 there.
#[unsafe(no_mangle)]
pub extern "C" fn golly_canon_same_form(
    alloc: Global,
    first: &[u8],
    second: &[u8],
    form: u32,
    limit: u64,
    seed: u64,
    is_same: &mut u32,
    line: &mut u64,
) -> u32
    ensures compares { MatchOption (form_numbered form)
        (ComparesInNone (comparison_of result is_same.new line.new))
        (λ form. ComparesInForm form limit first.now second.now
        (comparison_of result is_same.new line.new)) }
    ensures fits { result ≡ 0 → Fits (SomeToReadBoth first.now second.now) limit }
{
    let answer = same_form(alloc, first, second, form, Options { limit, seed });
    tell_compared(answer, is_same, line)
}

/// Whether two files, each of either format, are one pattern: 1 or 0 in `is_same`. A refusal leaves 0 there.
#[unsafe(no_mangle)]
pub extern "C" fn golly_canon_same(
    alloc: Global,
    first: &[u8],
    second: &[u8],
    limit: u64,
    seed: u64,
    is_same: &mut u32,
    line: &mut u64,
) -> u32
    ensures compares { ComparesWithin limit first.now second.now
        (comparison_of result is_same.new line.new) }
    ensures fits { result ≡ 0 → Fits (SomeToReadBoth first.now second.now) limit }
{
    let answer = same(alloc, first, second, Options { limit, seed });
    tell_compared(answer, is_same, line)
}
