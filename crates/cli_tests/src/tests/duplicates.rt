//! The names of files with equal keys, in groups.

use super::devices::{assert_left, sink_with};
use super::{EAST_GLIDER, GLIDER, LATER_TWINS, LINE, TWINS, TWINS_IN_RLE};
use file_hints::Foreign;
use file_keys::{OpenedFile, write_duplicates, write_keys};
use life_base::Device;
use life_cli::plans::Request;
use life_cli::{Origin, Seeds, request};
use std::alloc::Global;
use std::io::{self, Result as IoResult};
use std::process::Abort;

/// The bytes of the file that has this name.
fn bytes_of(origin: Origin<'_>) -> IoResult<&'static [u8]> {
    let Origin::File(name) = origin else {
        return Ok(b"east\n\nline\nabsent\n");
    };
    match name {
        "glider" => Ok(GLIDER),
        "east" | "ea\nst" => Ok(EAST_GLIDER),
        "line" => Ok(LINE),
        "twins" => Ok(TWINS),
        "twins.rle" => Ok(TWINS_IN_RLE),
        "later" => Ok(LATER_TWINS),
        "bad" => Ok(b"x"),
        "packed" => Ok(b"\x1f\x8b"),
        _ => Err(io::ErrorKind::NotFound.into()),
    }
}

/// What an opener says of the file that has this name.
fn foreign_of(origin: Origin<'_>) -> Option<Foreign> {
    match origin {
        Origin::File("packed") => Some(Foreign::Gzip),
        _ => None,
    }
}

/// What a run over files writes of them.
#[derive(Clone, Copy)]
pub(super) enum Listing {
    /// What the command `keys` writes.
    Keys,
    /// What the command `duplicates` writes.
    Groups,
}

/// A run over the files that these words name to the command `keys` ends with this status, prints this text, and reports that one.
pub(super) fn assert_run(
    rt: &impl Abort,
    alloc: Global,
    listing: Listing,
    words: &[&str],
    wanted: (u8, &[u8], &[u8]),
) {
    let Ok(Request::Keys(plan)) = request(alloc, words) else {
        panic!(rt; "no keys");
    };
    let seeds = Seeds::fixed();
    let opener = |origin: Origin<'_>| {
        Ok(OpenedFile {
            source: Device::new(bytes_of(origin)?),
            foreign: foreign_of(origin),
        })
    };
    let mut out = sink_with(alloc, 1000, 7);
    let mut err = sink_with(alloc, 1000, 7);
    let status = match listing {
        Listing::Keys => write_keys(alloc, &seeds, &plan, opener, &mut out, &mut err),
        Listing::Groups => write_duplicates(alloc, &seeds, &plan, opener, &mut out, &mut err),
    };
    assert_left(rt, (status, out, err), wanted);
}

const ABSENT: &[u8] = b"absent: no such file\n";

const BAD: &[u8] = b"bad: line 1: BadHeader: The header isn't x = .., y = .., rule = ..\n";

/// Arguments with what is printed of the files that they name, what is reported, and the status.
const GROUPS: [(&[&str], &[u8], &[u8], u8); 8] = [
    (&["p", "keys", "glider", "line", "east"], b"", b"", 1),
    (&["p", "keys", "twins", "later"], b"", b"", 1),
    (
        &["p", "keys", "--ignore-generation", "twins", "line", "later"],
        b"twins\nlater\n",
        b"",
        0,
    ),
    (
        &["p", "keys", "--form", "moved", "glider", "line", "east"],
        b"glider\neast\n",
        b"",
        0,
    ),
    (
        &[
            "p",
            "keys",
            "line",
            "twins",
            "glider",
            "twins.rle",
            "line",
            "twins",
        ],
        b"line\nline\n\ntwins\ntwins.rle\ntwins\n",
        b"",
        0,
    ),
    (
        &[
            "p",
            "keys",
            "--zero",
            "line",
            "twins",
            "ea\nst",
            "twins.rle",
            "line",
            "east",
        ],
        b"line\0line\0\0twins\0twins.rle\0\0ea\nst\0east\0",
        b"",
        0,
    ),
    (
        &["p", "keys", "ea\nst", "bad", "east"],
        b"ea\\nst\neast\n",
        BAD,
        2,
    ),
    (
        &["p", "keys", "east", "line", "--from", "-"],
        b"east\neast\n\nline\nline\n",
        ABSENT,
        3,
    ),
];

#[test]
fn groups_of_files(rt: HostRuntime) {
    for &(words, text, reports, status) in &GROUPS {
        let wanted = (status, text, reports);
        assert_run(&rt, rt.alloc(), Listing::Groups, words, wanted);
    }
}
