//! Tests of `step_later`: patterns whose later generations were worked out by hand, and what is refused, in its order.
use super::*;
use life_quad::Seed;
use life_step::step_life;
use life_writer::text_of;

// How many squares a store may hold.
const SPACE: u64 = 100_000;

// The text of a file so many generations later, or the kind for which it is refused.
fn later_text(alloc: Global, file: &[u8], generations: u64) -> Result<Vec<u8>, Fault> {
    let mut store = Shared::seeded(alloc, Seed::fixed(), SPACE);
    step_later(alloc, &mut store, file, generations)
}

// The canonical text of a file.
fn canonical_text(alloc: Global, store: &mut Shared, file: &[u8]) -> Result<Vec<u8>, Fault> {
    let pattern = read(alloc, store, file)?;
    text_of(alloc, store, &pattern)
}

// Whether a file has the canonical text of another file so many generations later.
fn becomes(alloc: Global, file: &[u8], generations: u64, later: &[u8]) -> bool {
    let mut store = Shared::seeded(alloc, Seed::fixed(), SPACE);
    match (
        later_text(alloc, file, generations),
        canonical_text(alloc, &mut store, later),
    ) {
        (Ok(text), Ok(wanted)) => text.as_slice() == wanted.as_slice(),
        _ => false,
    }
}

// Whether a file is refused for this kind, on this line.
fn is_refused(alloc: Global, file: &[u8], generations: u64, kind: Kind, line: u64) -> bool {
    match later_text(alloc, file, generations) {
        Ok(_) => false,
        Err(fault) => fault.kind.number() == kind.number() && fault.place.line == line,
    }
}

// Whether a file has the text of its next generation one generation later.
fn is_stepped(alloc: Global, file: &[u8]) -> bool {
    let mut store = Shared::seeded(alloc, Seed::fixed(), SPACE);
    match (
        later_text(alloc, file, 1),
        step_life(alloc, &mut store, file),
    ) {
        (Ok(text), Ok(wanted)) => text.as_slice() == wanted.as_slice(),
        _ => false,
    }
}

#[test]
fn patterns_are_advanced(rt: HostRuntime) {
    let alloc = rt.alloc();
    // A glider comes back to its shape after four generations, one cell further in both directions.
    assert!(rt;
        becomes(
            alloc,
            b"x = 3, y = 3\nbo$2bo$3o!\n",
            4,
            b"#CXRLE Pos=1,1 Gen=4\nx = 3, y = 3\nbo$2bo$3o!\n"
        )
    );
    assert!(rt;
        becomes(
            alloc,
            b"#CXRLE Gen=100\nx = 3, y = 3\nbo$2bo$3o!\n",
            4_000,
            b"#CXRLE Pos=1000,1000 Gen=4100\nx = 3, y = 3\nbo$2bo$3o!\n"
        )
    );
    // Three cells in a row, after an odd and an even number of generations.
    assert!(rt;
        becomes(
            alloc,
            b"x = 3, y = 1\n3o!\n",
            1_000_001,
            b"#CXRLE Pos=1,-1 Gen=1000001\nx = 1, y = 3\no$o$o!\n"
        )
    );
    assert!(rt;
        becomes(
            alloc,
            b"x = 3, y = 1\n3o!\n",
            18_446_744_073_709_551_614,
            b"#CXRLE Gen=18446744073709551614\nx = 3, y = 1\n3o!\n"
        )
    );
    // No cell at all, up to the last generation.
    assert!(rt;
        becomes(
            alloc,
            b"#CXRLE Gen=5\nx = 0, y = 0, rule = B2/S\n!\n",
            18_446_744_073_709_551_610,
            b"#CXRLE Gen=18446744073709551615\nx = 0, y = 0, rule = B2/S\n!\n"
        )
    );
    // A block in the corner of the plane stays there.
    assert!(rt;
        becomes(
            alloc,
            b"#CXRLE Pos=2305843009213693950,2305843009213693950\nx = 2, y = 2\n2o$2o!\n",
            30,
            b"#CXRLE Pos=2305843009213693950,2305843009213693950 Gen=30\nx = 2, y = 2\n2o$2o!\n"
        )
    );
}

#[test]
fn no_generation_is_canonical_text(rt: HostRuntime) {
    let alloc = rt.alloc();
    assert!(rt;
        becomes(
            alloc,
            b"#CXRLE Gen=18446744073709551615\nx = 3, y = 3\nbo$2bo$3o!\n",
            0,
            b"#CXRLE Gen=18446744073709551615\nx = 3, y = 3\nbo$2bo$3o!\n"
        )
    );
    // Under a name too, and at the edge of the plane.
    assert!(rt;
        becomes(
            alloc,
            b"#CXRLE Gen=7\nx = 2, y = 1, rule = WireWorld\nApA!\n",
            0,
            b"#CXRLE Gen=7\nx = 2, y = 1, rule = WireWorld\nApA!\n"
        )
    );
    assert!(rt;
        becomes(
            alloc,
            b"#CXRLE Pos=0,2305843009213693951\nx = 3, y = 1\n3o!\n",
            0,
            b"#CXRLE Pos=0,2305843009213693951\nx = 3, y = 1\n3o!\n"
        )
    );
}

#[test]
fn one_generation_is_next(rt: HostRuntime) {
    let alloc = rt.alloc();
    assert!(rt; is_stepped(alloc, b"x = 3, y = 3\nbo$2bo$3o!\n"));
    assert!(rt; is_stepped(alloc, b"x = 5, y = 2, rule = B2/S13V\n2obo$bobo!\n"));
    assert!(rt;
        is_stepped(
            alloc,
            b"#CXRLE Pos=-2305843009213693952,0\nx = 2, y = 2\n2o$2o!\n"
        )
    );
}

#[test]
fn refusals_have_an_order(rt: HostRuntime) {
    let alloc = rt.alloc();
    // The file's fault, with its line.
    assert!(rt;
        is_refused(
            alloc,
            b"x = 1, y = 1, rule = WireWorld\nA\nz\n",
            5,
            Kind::BadItem,
            3
        )
    );
    // A name, from the last generation.
    assert!(rt;
        is_refused(
            alloc,
            b"#CXRLE Gen=18446744073709551615\nx = 2, y = 1, rule = WireWorld\nApA!\n",
            1,
            Kind::NeedsTable,
            0
        )
    );
    // A generation above the last one, at the edge of the plane.
    assert!(rt;
        is_refused(
            alloc,
            b"#CXRLE Pos=0,2305843009213693951 Gen=18446744073709551614\nx = 3, y = 1\n3o!\n",
            2,
            Kind::GenerationTooLarge,
            0
        )
    );
    // Three cells in a row at the edge leave the plane and come back.
    assert!(rt;
        is_refused(
            alloc,
            b"#CXRLE Pos=0,2305843009213693951\nx = 3, y = 1\n3o!\n",
            2,
            Kind::OutOfPlane,
            0
        )
    );
    // A glider that comes to the corner of the plane.
    assert!(rt;
        is_refused(
            alloc,
            b"#CXRLE Pos=2305843009213693940,2305843009213693940\nx = 3, y = 3\nbo$2bo$3o!\n",
            100,
            Kind::OutOfPlane,
            0
        )
    );
}
