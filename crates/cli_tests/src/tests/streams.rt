//! Devices over readers and writers of `std`, and what is read and written through them.

ghost use Rattle.std.specs.Prelude.{◌≡◌, ◌≤◌, ◌^◌, false};
ghost use Rattle.life_base.specs.DeviceState.{has_failed};

use super::devices::{End, Narrow, source_of};
use life_base::{Device, Kind, Sink, Source, deliver, read_within, write_text, write_texts};
use std::alloc::Global;
use std::io::{self, Read, Write};
use std::process::Abort;

/// Counts its calls. Each moves a byte, or fails.
#[derive(Drop)]
struct Counting<'a> {
    calls: &'a mut u64,
    fails: bool,
}

impl<'a> Counting<'a> {
    fn call(&mut self) -> io::Result<()> {
        *self.calls = self.calls.saturating_add(1);
        if self.fails {
            return Err(io::ErrorKind::Interrupted.into());
        }
        Ok(())
    }
}

impl<'a> Read for Counting<'a> {
    fn read(&mut self, buf: &mut [u8]) -> io::Result<usize> {
        self.call()?;
        if buf.is_empty() {
            return Ok(0);
        }
        buf[0] = b'x';
        Ok(1)
    }
}

impl<'a> Write for Counting<'a> {
    fn write(&mut self, buf: &[u8]) -> io::Result<usize> {
        self.call()?;
        Ok(buf.len().min(1))
    }

    fn flush(&mut self) -> io::Result<()> {
        self.call()
    }
}

/// A device over what counts its calls, and fails or not.
fn device_over(calls: &mut u64, fails: bool) -> Device<Counting<'_>>
    ensures { has_failed result ≡ false }
{
    Device::new(Counting { calls, fails })
}

/// One read of a device is one of the reader inside, which fails or not.
fn assert_one_read(rt: &impl Abort, fails: bool, wanted: Result<usize, Kind>) {
    let mut calls = 0;
    let mut reader = device_over(&mut calls, fails);
    let mut piece = [0u8; 2];
    let got = reader.read(&mut piece);
    assert!(rt; got == wanted && Source::failed(&reader) == fails);
    drop(reader);
    assert!(rt; calls == 1 && (piece[0] == b'x') == wanted.is_ok());
}

/// One write to a device is one to the writer inside, which fails or not.
fn assert_one_write(rt: &impl Abort, fails: bool, wanted: Result<usize, Kind>) {
    let mut calls = 0;
    let mut writer = device_over(&mut calls, fails);
    let got = writer.write(b"ab");
    assert!(rt; got == wanted && Sink::failed(&writer) == fails);
    drop(writer);
    assert!(rt; calls == 1);
}

/// One flush of a device is one of the writer inside, which fails or not.
fn assert_one_flush(rt: &impl Abort, fails: bool, wanted: Result<(), Kind>) {
    let mut calls = 0;
    let mut writer = device_over(&mut calls, fails);
    let got = writer.flush();
    assert!(rt; got == wanted && Sink::failed(&writer) == fails);
    drop(writer);
    assert!(rt; calls == 1);
}

#[test]
fn each_call_reaches_what_is_inside(rt: HostRuntime) {
    assert_one_read(&rt, false, Ok(1));
    assert_one_write(&rt, false, Ok(1));
    assert_one_flush(&rt, false, Ok(()));
}

#[test]
fn each_failure_inside_is_reported(rt: HostRuntime) {
    assert_one_read(&rt, true, Err(Kind::ReadFault));
    assert_one_write(&rt, true, Err(Kind::WriteFault));
    assert_one_flush(&rt, true, Err(Kind::WriteFault));
}

#[test]
fn expected_bytes_are_reported(rt: HostRuntime) {
    let reader = Device::new(&b"ab"[..]);
    assert!(rt; reader.expected() == 0 && reader.expecting(7).expected() == 7);
}

/// A reader of four bytes that fails after some good calls is read so, within a bound.
fn assert_dripped(
    rt: &impl Abort,
    alloc: Global,
    good: usize,
    most: u64,
    wanted: Result<&[u8], Kind>,
)
    requires { most ≤ 2 ^ 30 }
{
    let mut reader = source_of(b"abcd", good);
    let got = read_within(alloc, &mut reader, most);
    match got {
        Ok(bytes) => assert!(rt; wanted == Ok(bytes.as_slice())),
        Err(kind) => assert!(rt; wanted == Err(kind)),
    }
    let fails = wanted == Err(Kind::ReadFault);
    assert!(rt; Source::failed(&reader) == fails, "after {good}");
}

#[test]
fn a_failed_read_is_no_end(rt: HostRuntime) {
    for good in 0..5 {
        assert_dripped(&rt, rt.alloc(), good, 4, Err(Kind::ReadFault));
    }
    assert_dripped(&rt, rt.alloc(), 5, 4, Ok(b"abcd"));
    assert_dripped(&rt, rt.alloc(), 3, 2, Err(Kind::InputTooLong));
}

/// Writes `abcdefgh` by each call that writes.
fn write_all<W: Sink>(writer: &mut W) -> Result<(), Kind>
    requires { W.failures writer.old ≡ 0 }
{
    write_text(writer, b"ab")?;
    write_texts(writer, &[b"cd", b"", b"efg"])?;
    deliver(writer, b"h")
}

#[test]
fn texts_are_written_one_after_another(rt: HostRuntime) {
    let mut written = Vec::new(rt.alloc());
    let mut writer = Device::new(&mut written);
    let outcome = write_all(&mut writer);
    assert!(rt; outcome == Ok(()) && !Sink::failed(&writer));
    drop(writer);
    assert!(rt; written.as_slice() == b"abcdefgh".as_slice());
}

/// Of `abcdefgh`, in two texts, a writer has the bytes that fitted: it takes no more, or fails.
fn assert_prefix(rt: &impl Abort, alloc: Global, room: usize, end: End, wanted: Result<(), Kind>) {
    let mut written = Vec::new(alloc);
    let mut writer = Device::new(Narrow {
        written: &mut written,
        room,
        piece: 3,
        end,
    });
    let got = write_texts(&mut writer, &[b"abcde", b"fgh"]);
    let failed = matches!(end, End::Fails(_)) && wanted.is_err();
    assert!(rt;
        got == wanted && Sink::failed(&writer) == failed,
        "with room for {room}"
    );
    drop(writer);
    let is_prefix = b"abcdefgh".starts_with(&written) && written.len() == room;
    assert!(rt; is_prefix, "with room for {room}");
}

#[test]
fn a_writer_that_stops_has_the_prefix_of_the_text(rt: HostRuntime) {
    for end in [End::Stops, End::Fails(io::ErrorKind::BrokenPipe)] {
        for room in 0..=7usize {
            assert_prefix(&rt, rt.alloc(), room, end, Err(Kind::WriteFault));
        }
        assert_prefix(&rt, rt.alloc(), 8, end, Ok(()));
    }
}

#[test]
fn a_flush_that_fails_is_reported(rt: HostRuntime) {
    let mut written = Vec::new(rt.alloc());
    let mut writer = Device::new(Narrow {
        written: &mut written,
        room: 9,
        piece: 3,
        end: End::Unflushed(io::ErrorKind::BrokenPipe),
    });
    let reported = deliver(&mut writer, b"abc");
    assert!(rt; reported == Err(Kind::WriteFault) && Sink::failed(&writer));
    drop(writer);
    assert!(rt; written.as_slice() == b"abc".as_slice());
}
