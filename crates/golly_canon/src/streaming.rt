//! The command `keys` over the patterns of a stream.

use crate::counting::NameCount;
use crate::opening::{Input, ReservedStreams, hint_before, open_no_folder};
use crate::outputs::{Errors, Output, Visible};
use file_keys::{OpenedFile, write_stream_keys};
use life_base::{Device, Kind};
use life_cli::plans::StreamPlan;
use life_cli::{Origin, Seeds, refuse};
use std::cell::Cell;
use std::io::{IsTerminal, Result as IoResult, Write};

/// Opens a stream. What its first bytes are isn't looked at, since that is said of each pattern.
fn open_stream(
    rt: &HostRuntime,
    streams: &ReservedStreams,
    origin: Origin<'_>,
) -> IoResult<OpenedFile<Device<Input>>> {
    if let Some(hint) = hint_before(rt, origin) {
        let _ = rt.stderr().write_all(hint.as_slice());
    }
    let opened = open_no_folder(rt, streams, origin)?;
    Ok(OpenedFile {
        source: Device::new(opened.input),
        foreign: None,
    })
}

/// Draws the random words, and writes the keys of the patterns of the plan's stream. Without random words nothing is read.
pub(crate) fn list_stream(
    rt: &HostRuntime,
    streams: &ReservedStreams,
    plan: &StreamPlan<'_>,
) -> u8 {
    let Ok(seeds) = Seeds::drawn(rt) else {
        return refuse(&mut Device::new(rt.stderr()), Kind::ReadFault);
    };
    let (stdout, stderr) = (rt.stdout(), rt.stderr());
    let is_left = Cell::new(false);
    let lines = NameCount::new(false);
    let mut out = Device::new(Output {
        stream: Visible::new(stdout, stdout.is_terminal(), None),
        is_left: &is_left,
        listed: None,
        line: None,
    });
    let mut err = Device::new(Errors {
        stream: Visible::new(stderr, stderr.is_terminal(), None),
        is_left: &is_left,
        lines: &lines,
    });
    let opener = |origin: Origin<'_>| open_stream(rt, streams, origin);
    write_stream_keys(rt.alloc(), &seeds, plan, opener, &mut out, &mut err)
}
