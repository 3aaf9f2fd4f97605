//! Files that come in pieces, from a source and to a sink.

ghost use Rattle.std.specs.Prelude.{◌≤◌, ◌^◌, IfOk, IfSome};
ghost use Rattle.life_canon.specs.Words.{IsOfFile, MAX_LEVEL};

use crate::answer::{Answer, Show, show_dropped, show_outcome};
use life_base::{Device, Fault};
use life_canon::{run_canon, run_canon_within};
use life_pattern::Pattern;
use life_quad::Shared;
use life_reader::{Reader, read_from};
use life_writer::{five_lines_of, rle_of};
use std::alloc::Global;
use std::io::{self, Read};

/// The pattern of a file that a reader is fed: a piece, and what comes after it in pieces of so many bytes.
pub(crate) fn fed(
    alloc: Global,
    store: &mut Shared,
    first: &[u8],
    rest: &[u8],
    size: usize,
) -> Result<Pattern, Fault>
    requires { 1 ≤ size }
    ensures { IfOk result (IsOfFile MAX_LEVEL store.new) }
{
    let mut reader = Reader::new(alloc);
    reader.feed(store, first)?;
    for piece in rest.chunks(size) {
        reader.feed(store, piece)?;
    }
    reader.finish(store)
}

/// What a reader answers for each of three pieces, also after a refused one, and at its end.
pub(crate) fn each(alloc: Global, out: &mut Answer, store: &mut Shared, pieces: [&[u8]; 3]) {
    let [first, second, third] = pieces;
    let mut reader = Reader::new(alloc);
    show_outcome(out, "fed", reader.feed(store, first));
    out.text(", ");
    show_outcome(out, "fed", reader.feed(store, second));
    out.text(", ");
    show_outcome(out, "fed", reader.feed(store, third));
    out.text(", ");
    show_outcome(out, "finished", reader.finish(store));
}

/// A reader of std that gives a byte at a time.
#[derive(Drop)]
pub(crate) struct Dripping<'a> {
    pub(crate) left: &'a [u8],
}

impl<'a> Read for Dripping<'a> {
    fn read(&mut self, buf: &mut [u8]) -> io::Result<usize> {
        let count = self.left.len().min(buf.len()).min(1);
        buf[..count].copy_from_slice(&self.left[..count]);
        self.left = &self.left[count..];
        Ok(count)
    }
}

/// The canonical text of a file that goes from a source to a sink, of so many bytes at most where a number is given.
pub(crate) fn text_run<R: Read + Drop>(
    alloc: Global,
    store: &mut Shared,
    input: R,
    most: Option<u64>,
) -> Result<Vec<u8>, Fault>
    requires { IfSome most (λ most. most ≤ 2 ^ 30) }
{
    let mut text = Vec::new(alloc);
    let mut reader = Device::new(input);
    let mut writer = Device::new(&mut text);
    let run = match most {
        None => run_canon(alloc, store, &mut reader, &mut writer),
        Some(most) => run_canon_within(alloc, store, &mut reader, &mut writer, most),
    };
    drop(writer);
    match run {
        Ok(()) => Ok(text),
        Err(fault) => Err(fault),
    }
}

/// The five lines on the pattern that a source gives, and the pattern in RLE; or the line and the kind of a fault.
pub(crate) fn from_source(alloc: Global, out: &mut Answer, store: &mut Shared, file: &[u8]) {
    match read_from(alloc, store, &mut Device::new(file)) {
        Ok(pattern) => {
            show_dropped(out, five_lines_of(alloc, store, &pattern));
            out.text("|");
            show_dropped(out, rle_of(alloc, store, &pattern));
        }
        Err(fault) => fault.show(out),
    }
}
