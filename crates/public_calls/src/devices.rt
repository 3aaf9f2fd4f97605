//! Devices of `life_base`.

ghost use Rattle.std.specs.Prelude.{◌≡◌};

use life_base::{Device, Kind, Sink, Source};

pub fn source_read<S: Source>(source: &mut S, buf: &mut [u8]) -> Result<usize, Kind>
    requires { S.failures source.old ≡ 0 }
{
    source.read(buf)
}

pub fn source_failed<S: Source>(source: &S) -> bool {
    source.failed()
}

pub fn sink_write<S: Sink>(sink: &mut S, buf: &[u8]) -> Result<usize, Kind>
    requires { S.failures sink.old ≡ 0 }
{
    sink.write(buf)
}

pub fn sink_flush<S: Sink>(sink: &mut S) -> Result<(), Kind>
    requires { S.failures sink.old ≡ 0 }
{
    sink.flush()
}

pub fn sink_failed<S: Sink>(sink: &S) -> bool {
    sink.failed()
}

pub fn device_new<T>(inner: T) -> Device<T> {
    Device::new(inner)
}
