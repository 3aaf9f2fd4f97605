//! Devices: what bytes are read from and written to.
ghost use Rattle.std.specs.Prelude.{◌≡◌, ℕ, ◌≤◌, ◌↔◌, ◌||◌, List, Option, None, IsTrue, Bool, true, false, OnOk};
ghost use Rattle.life_base.specs.Words.{ReadsAtMost, WritesAtMost, ReadConsumes, WriteAppends, Keeps, CountsFailure, flag_count, takes_none};
ghost use Rattle.std.proofs.Common.{rules};

use crate::kind::Kind;
use std::io::{Read, Write};

/// What bytes are read from. A source that has failed isn't read again.
pub trait Source {
    // How many calls have failed: 0 or 1.
    ghost failures: { Self → ℕ };

    // The bytes that are left to read, where the source reports them.
    ghost remaining: { Self → Option (List ℕ) } = { λ _. None };

    /// Whether a call has failed.
    fn failed(&self) -> bool
        ensures { IsTrue result ↔ (failures self.now ≡ 1) };

    /// About how many bytes the source has, or 0 where that isn't known. It is a hint for the capacity to reserve, and may be wrong.
    fn expected(&self) -> u64 {
        0
    }

    /// Reads some of the next bytes into `buf`, and returns how many. A count of 0 into a nonempty `buf` is the end. A failure of
    /// any cause is `ReadFault`.
    fn read(&mut self, buf: &mut [u8]) -> Result<usize, Kind>
        requires { failures self.old ≡ 0 }
        ensures count { ReadsAtMost result buf.new }
        ensures failure { CountsFailure (failures self.old) (failures self.new) result
            Kind.ReadFault }
        ensures bytes { ReadConsumes (remaining self.old) (remaining self.new) result buf.new };

    ghost at_most_one: { (s : Self) → failures s ≤ 1 };
}

/// What bytes are written to. A sink that has failed isn't written to again.
pub trait Sink {
    // How many calls have failed: 0 or 1.
    ghost failures: { Self → ℕ };

    // The bytes that were written, where the sink reports them.
    ghost contents: { Self → Option (List ℕ) } = { λ _. None };

    // Whether a write took none of the bytes that it was given. Nothing else sets it, and nothing takes it back.
    ghost stalled: { Self → Bool };

    // Whether the last call was a flush that didn't fail.
    ghost flushed: { Self → Bool };

    /// Whether a call has failed.
    fn failed(&self) -> bool
        ensures { IsTrue result ↔ (failures self.now ≡ 1) };

    /// Writes the first bytes of `buf`, and returns how many. A failure of any cause is `WriteFault`, and then none was written.
    fn write(&mut self, buf: &[u8]) -> Result<usize, Kind>
        requires { failures self.old ≡ 0 }
        ensures count { WritesAtMost result buf.now }
        ensures failure { CountsFailure (failures self.old) (failures self.new) result
            Kind.WriteFault }
        ensures bytes { WriteAppends (contents self.old) (contents self.new) result buf.now }
        ensures stalled { stalled self.new ≡ (stalled self.old || takes_none result buf.now) }
        ensures flushed { flushed self.new ≡ false };

    /// Hands on what was written, as far as the sink still holds it. A failure of any cause is `WriteFault`.
    fn flush(&mut self) -> Result<(), Kind>
        requires { failures self.old ≡ 0 }
        ensures failure { CountsFailure (failures self.old) (failures self.new) result
            Kind.WriteFault }
        ensures bytes { Keeps (contents self.old) (contents self.new) }
        ensures stalled { stalled self.new ≡ stalled self.old }
        ensures flushed { OnOk result (flushed self.new ≡ true) };

    ghost at_most_one: { (s : Self) → failures s ≤ 1 };
}

/// A device over any reader or writer of `std`. It reports its bytes where the reader or writer does. An interrupted call has failed
/// like any other.
#[derive(Drop)]
pub struct Device<T> {
    inner: T,
    // How many bytes are expected of a source, or 0.
    expected: u64,
    failed: bool,
    stalled: bool,
    flushed: bool,
}

impl<T> Device<T> {
    ghost use Rattle.life_base.specs.DeviceState.{device_inner, has_failed, has_stalled, is_flushed, IsFreshDevice};

    /// A device over `inner` that has not failed, stalled or flushed.
    pub fn new(inner: T) -> Device<T>
        ensures inner { device_inner result ≡ inner }
        ensures fresh { IsFreshDevice result }
    {
        Device {
            inner,
            expected: 0,
            failed: false,
            stalled: false,
            flushed: false,
        }
    }

    /// The same device, of which about so many bytes are expected.
    pub fn expecting(self, bytes: u64) -> Device<T>
        ensures inner { device_inner result ≡ device_inner self }
        ensures failed { has_failed result ≡ has_failed self }
        ensures stalled { has_stalled result ≡ has_stalled self }
        ensures flushed { is_flushed result ≡ is_flushed self }
    {
        let mut device = self;
        device.expected = bytes;
        device
    }
}

impl<R: Read> Source for Device<R> {
    ghost failures = { λ d. flag_count d.failed };

    ghost remaining = { λ d. R.remaining d.inner };

    ghost at_most_one = { λ d. elim d.failed as (λ f. flag_count f ≤ 1) [ true ↦ Prim.search rules | false ↦ Prim.search rules ] };

    fn failed(&self) -> bool {
        self.failed
    }

    fn expected(&self) -> u64 {
        self.expected
    }

    fn read(&mut self, buf: &mut [u8]) -> Result<usize, Kind> {
        match self.inner.read(buf) {
            Ok(count) => Ok(count),
            Err(_) => {
                self.failed = true;
                Err(Kind::ReadFault)
            }
        }
    }
}

impl<W: Write> Sink for Device<W> {
    ghost use Rattle.std.specs.Prelude.{is_ok};
    ghost use Rattle.life_base.specs.DeviceState.{device_inner, has_failed, has_stalled, is_flushed};

    ghost failures = { λ d. flag_count d.failed };

    ghost contents = { λ d. W.contents d.inner };

    ghost stalled = { λ d. d.stalled };

    ghost flushed = { λ d. d.flushed };

    ghost at_most_one = { λ d. elim d.failed as (λ f. flag_count f ≤ 1) [ true ↦ Prim.search rules | false ↦ Prim.search rules ] };

    fn failed(&self) -> bool {
        self.failed
    }

    // What was written last is not flushed yet.
    fn write(&mut self, buf: &[u8]) -> Result<usize, Kind>
        requires { flag_count (has_failed self.old) ≡ 0 }
        ensures count { WritesAtMost result buf.now }
        ensures failure { CountsFailure (flag_count (has_failed self.old))
            (flag_count (has_failed self.new)) result Kind.WriteFault }
        ensures bytes { WriteAppends (W.contents (device_inner self.old))
            (W.contents (device_inner self.new)) result buf.now }
        ensures stalled { has_stalled self.new
            ≡ (has_stalled self.old || takes_none result buf.now) }
        ensures flushed { is_flushed self.new ≡ false }
    {
        self.flushed = false;
        match self.inner.write(buf) {
            Ok(count) => {
                if count == 0 && !buf.is_empty() {
                    self.stalled = true;
                }
                Ok(count)
            }
            Err(_) => {
                self.failed = true;
                Err(Kind::WriteFault)
            }
        }
    }

    fn flush(&mut self) -> Result<(), Kind>
        requires { flag_count (has_failed self.old) ≡ 0 }
        ensures failure { CountsFailure (flag_count (has_failed self.old))
            (flag_count (has_failed self.new)) result Kind.WriteFault }
        ensures bytes { Keeps (W.contents (device_inner self.old))
            (W.contents (device_inner self.new)) }
        ensures stalled { has_stalled self.new ≡ has_stalled self.old }
        ensures flushed { is_flushed self.new ≡ is_ok result }
    {
        self.flushed = false;
        match self.inner.flush() {
            Ok(()) => {
                self.flushed = true;
                Ok(())
            }
            Err(_) => {
                self.failed = true;
                Err(Kind::WriteFault)
            }
        }
    }
}
