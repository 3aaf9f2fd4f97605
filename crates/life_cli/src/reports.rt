//! What is said of words that ask for nothing that can be done.

ghost use Rattle.std.specs.Prelude.{◌≡◌};
ghost use Rattle.life_cli.specs.Words.{sink_run, fault_of, fault_line, refusal_of, status_of, Reports, is_asked, is_out_of_memory, text_line, text_status, usage_line, usage_status, words_line, words_status};

use clap::error::ErrorKind;
use command_line::Usage;
use life_base::{Kind, Sink, write_text};
use pattern_sources::refuse;

/// Writes the line of words that are at fault, and returns the status.
fn misuse<E: Sink>(err: &mut E, line: &[u8]) -> u8
    requires { E.failures err.old ≡ 0 }
    ensures reported { Reports (sink_run E.contents E.failures E.stalled err.old err.new) line.now }
    ensures status { result ≡ 5 }
{
    let _ = write_text(err, line);
    5
}

/// Whether a text of this kind was asked for.
fn is_asked(kind: ErrorKind) -> bool
    ensures { result ≡ is_asked kind }
{
    match kind {
        ErrorKind::DisplayHelp | ErrorKind::DisplayVersion => true,
        _ => false,
    }
}

/// Whether `clap` was out of memory.
fn is_out_of_memory(kind: ErrorKind) -> bool
    ensures { result ≡ is_out_of_memory kind }
{
    match kind {
        ErrorKind::OutOfMemory => true,
        _ => false,
    }
}

/// Writes the line that comes after a text of `clap`, and returns the status.
fn report_text<E: Sink>(err: &mut E, kind: ErrorKind, is_printed: bool) -> u8
    requires { E.failures err.old ≡ 0 }
    ensures reported { Reports (sink_run E.contents E.failures E.stalled err.old err.new)
        (text_line kind is_printed) }
    ensures status { result ≡ text_status kind is_printed }
{
    if !is_asked(kind) {
        return 5;
    }
    if is_printed {
        return 0;
    }
    refuse(err, Kind::WriteFault)
}

/// Writes the line that an error of `clap` gets besides its text, and returns the status.
fn report_words<E: Sink>(err: &mut E, kind: ErrorKind, is_printed: bool) -> u8
    requires { E.failures err.old ≡ 0 }
    ensures reported { Reports (sink_run E.contents E.failures E.stalled err.old err.new)
        (words_line kind is_printed) }
    ensures status { result ≡ words_status kind is_printed }
{
    if is_out_of_memory(kind) {
        return refuse(err, Kind::Memory);
    }
    report_text(err, kind, is_printed)
}

/// Writes what standard error gets of words that ask for nothing that can be done, besides the text that `clap` has for them, and returns
/// the status that the program ends with. `is_printed` says whether all of that text was printed, where there is one: an `OutOfMemory` has none, and
/// gets the line `Memory` instead.
pub fn report<E: Sink>(err: &mut E, usage: &Usage, is_printed: bool) -> u8
    requires { E.failures err.old ≡ 0 }
    ensures reported { Reports (sink_run E.contents E.failures E.stalled err.old err.new)
        (usage_line usage.now is_printed) }
    ensures status { result ≡ usage_status usage.now is_printed }
{
    match usage {
        Usage::Words(error) => report_words(err, error.kind(), is_printed),
        Usage::TwoInputs => misuse(err, b"TwoInputs\n"),
        Usage::Memory => refuse(err, Kind::Memory),
    }
}
