//! Tests of `phases_text`: patterns whose phases are known from the field or were worked out by hand, and what is refused.
use super::*;
use crate::{FaultOfTwo, are_phases};
use life_base::Kind;
use life_pattern::laws::patterns_stay;
use life_quad::Seed;
use life_reader::read;

// How many squares a store may hold.
const SPACE: u64 = 100_000;

// The text of a file, or its fault.
fn text_of(alloc: Global, file: &[u8], most: u64) -> Result<Vec<u8>, Fault> {
    let mut store = Shared::seeded(alloc, Seed::fixed(), SPACE);
    let pattern = read(alloc, &mut store, file)?;
    phases_text(alloc, &store, &pattern, most)
}

// Whether a file has this text.
fn has_text(alloc: Global, file: &[u8], most: u64, wanted: &[u8]) -> bool {
    match text_of(alloc, file, most) {
        Ok(text) => text.as_slice() == wanted,
        Err(_) => false,
    }
}

// Whether two files have one text, with these greatest periods.
fn are_one(alloc: Global, first: &[u8], most: u64, second: &[u8], other: u64) -> bool {
    match (text_of(alloc, first, most), text_of(alloc, second, other)) {
        (Ok(one), Ok(two)) => one.as_slice() == two.as_slice(),
        _ => false,
    }
}

// Whether a file is refused for this kind, on no line.
fn is_refused(alloc: Global, file: &[u8], most: u64, kind: Kind) -> bool {
    match text_of(alloc, file, most) {
        Ok(_) => false,
        Err(fault) => fault.kind.number() == kind.number() && fault.place.line == 0,
    }
}

// Whether two phases have one text if this greatest period is sought, and also if a greater one is, and two texts if one less is.
fn have_period(alloc: Global, first: &[u8], second: &[u8], period: u64) -> bool {
    are_one(alloc, first, period, second, period)
        && are_one(alloc, first, 1_000_000, second, period)
        && !are_one(
            alloc,
            first,
            period.saturating_sub(1),
            second,
            period.saturating_sub(1),
        )
}

// Whether two files, read into one store, are the same up to their phases.
fn compare(
    alloc: Global,
    first: &[u8],
    second: &[u8],
    most: u64,
) -> Result<Result<bool, FaultOfTwo>, Fault> {
    let mut store = Shared::seeded(alloc, Seed::fixed(), SPACE);
    patterns_stay();
    let one = read(alloc, &mut store, first)?;
    let other = read(alloc, &mut store, second)?;
    Ok(are_phases(alloc, &store, &one, &other, most))
}

// Whether the answer is this one.
fn is_answer(given: Result<Result<bool, FaultOfTwo>, Fault>, wanted: bool) -> bool {
    match given {
        Ok(Ok(answer)) => answer == wanted,
        _ => false,
    }
}

// Whether one of two files leaves the plane, and it is the second exactly if `of_second` is true.
fn leaves(given: Result<Result<bool, FaultOfTwo>, Fault>, of_second: bool) -> bool {
    match given {
        Ok(Err(refused)) => {
            refused.fault.kind.number() == Kind::OutOfPlane.number()
                && refused.of_second == of_second
        }
        _ => false,
    }
}

#[test]
fn the_text_is_the_least_of_the_phases(rt: HostRuntime) {
    let alloc = rt.alloc();
    // Three cells in a row: both phases are turns of each other. The text of the column is less than that of the row, as `$` is less than `*`.
    let column: &[u8] = b"[M2] (canonical 1)\n#R B3/S23\n$$$$....*$....*$....*$$\n";
    for most in [0u64, 1, 2, 1000] {
        assert!(rt;
            has_text(alloc, b"x = 3, y = 1\n3o!\n", most, column),
            "{most}"
        );
        assert!(rt;
            has_text(
                alloc,
                b"#CXRLE Pos=-70,4000 Gen=9\nx = 1, y = 3\no$o$o!\n",
                most,
                column
            ),
            "{most}"
        );
    }
    // An oscillator of period 2 that counts four neighbours. Its second phase has cells in the middle row, and the text of its first one is less, as `$` is
    // less than `*`.
    let first: &[u8] = b"x = 2, y = 3, rule = B2/S12V\n2o$$2o!\n";
    let second: &[u8] = b"#CXRLE Gen=1\nx = 2, y = 3, rule = B2/S12V\n2o$2o$2o!\n";
    assert!(rt; have_period(alloc, first, second, 2));
}

#[test]
fn phases_have_one_text(rt: HostRuntime) {
    let alloc = rt.alloc();
    // The glider has period 4: two of its phases are turns of each other, and so are the other two.
    let glider: &[u8] = b"#CXRLE Pos=1000,-7\nx = 3, y = 3\nbo$2bo$3o!\n";
    let later: &[u8] = b"#CXRLE Gen=12345\nx = 3, y = 3\nobo$b2o$bo!\n";
    let turned: &[u8] = b"x = 3, y = 3\n2bo$obo$b2o!\n";
    let back: &[u8] = b"x = 3, y = 3\no$b2o$2o!\n";
    assert!(rt; have_period(alloc, glider, later, 4));
    assert!(rt;
        has_text(
            alloc,
            later,
            4,
            b"[M2] (canonical 1)\n#R B3/S23\n$$$$....*$....*.*$....**$$\n"
        )
    );
    assert!(rt; are_one(alloc, glider, 0, turned, 0));
    assert!(rt; are_one(alloc, later, 0, back, 0));
    // The pulsar has period 3.
    let first: &[u8] =
        b"x = 13, y = 13\n2b3o3b3o$$o4bobo4bo$o4bobo4bo$o4bobo4bo$2b3o3b3o$$2b3o3b3o$o4bobo4bo$o4bobo4bo$o4bobo4bo$$2b3o3b3o!\n";
    let second: &[u8] =
        b"x = 15, y = 15\n4bo5bo$4bo5bo$4b2o3b2o$$3o2b2ob2o2b3o$2bobobobobobo$4b2o3b2o$$4b2o3b2o$2bobobobobobo$3o2b2ob2o2b3o$$4b2o3b2o$4bo5bo$4bo5bo!\n";
    let third: &[u8] =
        b"x = 13, y = 13\n2b2o5b2o$3b2o3b2o$o2bobobobo2bo$3ob2ob2ob3o$bobobobobobo$2b3o3b3o$$2b3o3b3o$bobobobobobo$3ob2ob2ob3o$o2bobobobo2bo$3b2o3b2o$2b2o5b2o!\n";
    assert!(rt; have_period(alloc, first, second, 3));
    assert!(rt; have_period(alloc, second, third, 3));
    assert!(rt; have_period(alloc, third, first, 3));
}

#[test]
fn other_patterns_have_the_turned_text(rt: HostRuntime) {
    let alloc = rt.alloc();
    // The r-pentomino has no period in so few generations: its next phase has another text.
    let start: &[u8] = b"x = 3, y = 3\nb2o$2o$bo!\n";
    let next: &[u8] = b"x = 3, y = 3\n3o$o$2o!\n";
    assert!(rt;
        are_one(
            alloc,
            start,
            10,
            b"#CXRLE Gen=3\nx = 3, y = 3\no$3o$bo!\n",
            0
        )
    );
    assert!(rt; !are_one(alloc, start, 10, next, 10));
    // Under a name there are no phases, and no table is needed.
    let named: &[u8] = b"#CXRLE Gen=2\nx = 2, y = 1, rule = WireWorld\nAB!\n";
    assert!(rt;
        are_one(
            alloc,
            named,
            1000,
            b"x = 1, y = 2, rule = WireWorld\nB$A!\n",
            0
        )
    );
    // The empty pattern, in any generation.
    assert!(rt;
        are_one(
            alloc,
            b"#CXRLE Gen=5\nx = 0, y = 0\n!\n",
            1000,
            b"x = 3, y = 3\n!\n",
            0
        )
    );
    // So is one of another rule.
    assert!(rt;
        !are_one(
            alloc,
            b"x = 0, y = 0\n!\n",
            1000,
            b"x = 0, y = 0, rule = B3/S2\n!\n",
            1000
        )
    );
}

#[test]
fn patterns_are_refused(rt: HostRuntime) {
    let alloc = rt.alloc();
    // Two columns of three cells, one at each side of the plane: in the next generation they are rows, and one cell of each leaves it.
    let wide: &[u8] =
        b"#CXRLE Pos=-2305843009213693952,0\nx = 4611686018427387904, y = 3\no4611686018427387902bo$o4611686018427387902bo$o4611686018427387902bo!\n";
    assert!(rt; text_of(alloc, wide, 0).is_ok());
    assert!(rt; is_refused(alloc, wide, 1, Kind::OutOfPlane));
    assert!(rt; is_refused(alloc, wide, 1000, Kind::OutOfPlane));
    // The same, one column less wide on each side: it stays on the plane, and has a period.
    let narrow: &[u8] =
        b"#CXRLE Pos=-2305843009213693951,0\nx = 4611686018427387902, y = 3\no4611686018427387900bo$o4611686018427387900bo$o4611686018427387900bo!\n";
    assert!(rt; text_of(alloc, narrow, 1000).is_ok());
    // Of two patterns, the first that leaves the plane is reported.
    assert!(rt; leaves(compare(alloc, wide, narrow, 1), false));
    assert!(rt; leaves(compare(alloc, narrow, wide, 1), true));
    assert!(rt; leaves(compare(alloc, wide, wide, 1), false));
}

#[test]
fn patterns_are_compared(rt: HostRuntime) {
    let alloc = rt.alloc();
    let first: &[u8] = b"x = 3, y = 3\nbo$2bo$3o!\n";
    let second: &[u8] = b"#CXRLE Gen=1\nx = 3, y = 3\n2bo$2o$b2o!\n";
    assert!(rt; is_answer(compare(alloc, first, second, 3), false));
    assert!(rt; is_answer(compare(alloc, first, second, 4), true));
    assert!(rt; is_answer(compare(alloc, first, second, 1000), true));
}
