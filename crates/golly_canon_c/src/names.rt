//! The names of statuses, what each means in a sentence, and the version.

ghost use Rattle.std.specs.Prelude.{◌≡◌, ◌≢◌, ◌==◌, [], codes, find};
ghost use Rattle.golly_canon_c.specs.Words.{KindValue, kind_number, kind_name, ReturnsText, reply, status_name, sentence_of, status_sentence};

use crate::reported::tell_sentence;
use file_hints::sentence;
use library_calls::{NO_FORM, NO_ROOM, give};
use life_base::Kind;

/// The version of the program, and so of the library.
const VERSION: &[u8] = b"0.2.0";

/// The kinds, by their numbers.
const KINDS: [Kind; 41] = [
    Kind::NoHeader,
    Kind::BadHeader,
    Kind::BadRule,
    Kind::BoundedGrid,
    Kind::UnsupportedRule,
    Kind::BirthOnZero,
    Kind::BadNumber,
    Kind::TooLarge,
    Kind::BadItem,
    Kind::ZeroCount,
    Kind::StateRange,
    Kind::OutOfPlane,
    Kind::LateHeader,
    Kind::SecondHeader,
    Kind::BadNode,
    Kind::BadLevel,
    Kind::BadChild,
    Kind::BadLeaf,
    Kind::Timeline,
    Kind::LineTooLong,
    Kind::Full,
    Kind::Memory,
    Kind::Spent,
    Kind::NoRuleLine,
    Kind::NoTable,
    Kind::BadDescriptor,
    Kind::UnsupportedNeighborhood,
    Kind::UnsupportedSymmetry,
    Kind::BadVariable,
    Kind::BadTransition,
    Kind::UnboundOutput,
    Kind::NotQuiet,
    Kind::RuleMismatch,
    Kind::NeedsTable,
    Kind::Ambiguous,
    Kind::TooManyCells,
    Kind::GenerationTooLarge,
    Kind::StateBeyondTable,
    Kind::ReadFault,
    Kind::WriteFault,
    Kind::InputTooLong,
];

/// The kind of this number, if one has it.
pub(crate) fn kind_of(number: u32) -> Option<Kind>
    ensures { result ≡ find (λ kind. kind_number kind == number) KINDS }
{
    KINDS
        .iter()
        .copied()
        .find(|kind| kind.number() as u32 == number)
}

/// The name of a status: that of the kind, `OK` for 0, `NoRoom`, `NoForm`, and no byte for a number that no call answers.
fn name_of(number: u32) -> &'static [u8]
    ensures { result.now ≡ status_name number }
{
    match number {
        0 => b"OK",
        NO_ROOM => b"NoRoom",
        NO_FORM => b"NoForm",
        _ => match kind_of(number) {
            Some(kind) => kind.name().as_bytes(),
            None => b"",
        },
    }
}

/// What a status means: the sentence of the kind, one for `NO_ROOM` and `NO_FORM`, and no byte for 0 and for a number that no call answers.
fn meaning_of(number: u32) -> &'static [u8]
    ensures { result.now ≡ status_sentence number }
{
    match number {
        NO_ROOM => b"The text has more bytes than the memory that was given for it.",
        NO_FORM => b"The number isn't that of a form of a pattern.",
        _ => match kind_of(number) {
            Some(kind) => sentence(kind).as_bytes(),
            None => b"",
        },
    }
}

/// Gives a name or a sentence, and puts its length into `needed`. The answer is the status.
pub(crate) fn tell_name(name: &[u8], out: &mut [u8], needed: &mut usize) -> u32
    ensures { ReturnsText name.now out.old out.new (reply result needed.new 0) }
{
    tell_sentence(give(name, out), needed)
}

/// The name of a status: `OK`, `NoRoom`, `NoForm`, the name of the kind of fault, and no byte for a number that no call answers.
#[unsafe(no_mangle)]
pub extern "C" fn golly_canon_status_name(number: u32, out: &mut [u8], needed: &mut usize) -> u32
    ensures kind { (kind : KindValue) → number ≡ kind_number kind
        → ReturnsText (kind_name kind) out.old out.new (reply result needed.new 0) }
    ensures ok { number ≡ 0 → ReturnsText (codes "OK") out.old out.new (reply result needed.new 0) }
    ensures no_room { number ≡ 64 → ReturnsText (codes "NoRoom") out.old out.new
        (reply result needed.new 0) }
    ensures no_form { number ≡ 65 → ReturnsText (codes "NoForm") out.old out.new
        (reply result needed.new 0) }
    ensures none { number ≢ 0 → number ≢ 64 → number ≢ 65
        → ((kind : KindValue) → number ≢ kind_number kind)
        → ReturnsText [] out.old out.new (reply result needed.new 0) }
{
    tell_name(name_of(number), out, needed)
}

/// What a status means, in a sentence: that of the kind of fault, which the program writes, one for `NoRoom` and `NoForm`, and no byte for `OK` and for a
/// number that no call answers.
#[unsafe(no_mangle)]
pub extern "C" fn golly_canon_sentence(number: u32, out: &mut [u8], needed: &mut usize) -> u32
    ensures kind { (kind : KindValue) → number ≡ kind_number kind
        → ReturnsText (sentence_of kind) out.old out.new (reply result needed.new 0) }
    ensures no_room { number ≡ 64
        → ReturnsText (codes "The text has more bytes than the memory that was given for it.")
        out.old out.new (reply result needed.new 0) }
    ensures no_form { number ≡ 65
        → ReturnsText (codes "The number isn't that of a form of a pattern.") out.old out.new
        (reply result needed.new 0) }
    ensures none { number ≢ 64 → number ≢ 65
        → ((kind : KindValue) → number ≢ kind_number kind)
        → ReturnsText [] out.old out.new (reply result needed.new 0) }
{
    tell_name(meaning_of(number), out, needed)
}

/// The version of the library, which is that of the program.
#[unsafe(no_mangle)]
pub extern "C" fn golly_canon_version(out: &mut [u8], needed: &mut usize) -> u32
    ensures { ReturnsText (codes "0.2.0") out.old out.new (reply result needed.new 0) }
{
    tell_name(VERSION, out, needed)
}
