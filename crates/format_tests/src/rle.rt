//! Tests of `life_rle`: a file of many lines. What is read and written otherwise are rows of the crate `rows`.

use life_base::{Fault, Kind, Run, append};
use life_rle::read_rle;
use std::alloc::Global;

/// A file of 3,000 rows with a cell each, and an end.
fn many_lines(alloc: Global, end: &[u8]) -> Result<Vec<u8>, Kind> {
    let mut input = Vec::new(alloc);
    append(&mut input, b"x = 1, y = 1\n")?;
    for _ in 0..3000u32 {
        append(&mut input, b"2bo$\n")?;
    }
    append(&mut input, end)?;
    Ok(input)
}

/// How many runs there are with an end, and the last one.
fn last_run(alloc: Global, end: &[u8]) -> Result<(usize, Option<Run>), Fault> {
    let file = read_rle(alloc, &many_lines(alloc, end)?)?;
    let runs = file.runs.as_slice();
    Ok((runs.len(), runs.last().copied()))
}

#[test]
fn many_lines_are_read(rt: HostRuntime) {
    let last = Run {
        x: 2,
        y: 2999,
        len: 1,
        state: 1,
    };
    assert!(rt; last_run(rt.alloc(), b"") == Ok((3000, Some(last))));
    let fault = Fault::at(3002, Kind::ZeroCount);
    assert!(rt; last_run(rt.alloc(), b"0o\n") == Err(fault));
}
