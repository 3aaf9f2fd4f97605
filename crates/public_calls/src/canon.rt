//! Calls and types of `life_canon`.

ghost use Rattle.std.specs.Prelude.{◌≡◌, ◌≤◌, ◌^◌, false};
ghost use Rattle.life_canon.specs.Words.{AreWorking, IsTrimmed, Stands};

use life_base::{Fault, Rule, Sink, Source};
use life_canon::{
    Pattern, Reader, canon, number, read, run_canon, run_canon_within, same, show, to_rle,
};
use life_mc::McFile;
use life_quad::{Id, Shared};
use std::alloc::Global;

pub fn pattern_fields(pattern: Pattern) -> (Rule, u64, Id) {
    let Pattern {
        rule,
        generation,
        root,
    } = pattern;
    (rule, generation, root)
}

pub fn pattern_made(rule: Rule, generation: u64, root: Id) -> Pattern {
    Pattern {
        rule,
        generation,
        root,
    }
}

pub fn pattern_read(alloc: Global, store: &mut Shared, bytes: &[u8]) -> Result<Pattern, Fault> {
    read(alloc, store, bytes)
}

pub fn numbered(alloc: Global, store: &Shared, pattern: &Pattern) -> Result<McFile, Fault>
    requires { IsTrimmed store.now pattern.now }
{
    number(alloc, store, pattern)
}

pub fn canonical(alloc: Global, store: &mut Shared, bytes: &[u8]) -> Result<Vec<u8>, Fault> {
    canon(alloc, store, bytes)
}

pub fn are_same(alloc: Global, store: &mut Shared, a: &[u8], b: &[u8]) -> Result<bool, Fault> {
    same(alloc, store, a, b)
}

pub fn as_rle(alloc: Global, store: &mut Shared, bytes: &[u8]) -> Result<Vec<u8>, Fault> {
    to_rle(alloc, store, bytes)
}

pub fn show_file(alloc: Global, store: &mut Shared, bytes: &[u8]) -> Result<Vec<u8>, Fault> {
    show(alloc, store, bytes)
}

pub fn canon_run<R: Source, W: Sink>(
    alloc: Global,
    store: &mut Shared,
    reader: &mut R,
    writer: &mut W,
) -> Result<(), Fault>
    requires { AreWorking R.failures W.failures W.stalled reader.old writer.old }
{
    run_canon(alloc, store, reader, writer)
}

pub fn canon_run_within<R: Source, W: Sink>(
    alloc: Global,
    store: &mut Shared,
    reader: &mut R,
    writer: &mut W,
    most: u64,
) -> Result<(), Fault>
    requires working { AreWorking R.failures W.failures W.stalled reader.old writer.old }
    requires bound { most ≤ 2 ^ 30 }
{
    run_canon_within(alloc, store, reader, writer, most)
}

pub fn reader_new(alloc: Global) -> Reader {
    Reader::new(alloc)
}

pub fn reader_feed(reader: &mut Reader, store: &mut Shared, piece: &[u8]) -> Result<(), Fault>
    requires { reader.old.spent ≡ false → Stands store.old reader.old }
{
    reader.feed(store, piece)
}

pub fn reader_finish(reader: Reader, store: &mut Shared) -> Result<Pattern, Fault>
    requires { reader.spent ≡ false → Stands store.old reader }
{
    reader.finish(store)
}
