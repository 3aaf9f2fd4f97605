//! Whitespace, limits, and what refused memory leaves.

use life_base::{
    Cell, Items, Kind, LONGEST_LINE, LifeRule, LineLog, MAX_LEVEL, Near, Rule, append, is_blank,
    is_digit_text, is_whitespace, trimmed, trimmed_start,
};
use std::mem::size_of_val;
use std::process::Abort;

/// A byte is whitespace or none, by each function that asks.
fn assert_whitespace(rt: &impl Abort, byte: u8, want: bool) {
    let around = [byte, b'x', byte];
    let trims = trimmed(&around).len() == 1 && trimmed_start(&around).len() == 2;
    let answers = [is_whitespace(byte), is_blank(&[b' ', byte]), trims];
    assert!(rt; answers == [want; 3], "byte {byte}");
}

#[test]
fn whitespace_is_three_bytes(rt: HostRuntime) {
    for byte in 0..=255u8 {
        assert_whitespace(&rt, byte, byte == 32 || byte == 9 || byte == 13);
    }
    assert!(rt; is_blank(b""));
    assert!(rt; trimmed(b" \t\r").is_empty());
    assert!(rt; trimmed(b"\t a b \r") == b"a b".as_slice());
}

#[test]
fn digits_are_ten_bytes(rt: HostRuntime) {
    for byte in 0..=255u8 {
        let want = 48 <= byte && byte <= 57;
        assert!(rt; is_digit_text(&[b'0', byte]) == want, "byte {byte}");
    }
    assert!(rt; !is_digit_text(b""));
}

#[test]
fn a_log_of_lines_takes_no_memory(rt: HostRuntime) {
    let log = LineLog::new().then(b"x = 3, y = 3").then(b"3o!");
    assert!(rt; size_of_val(&log) == 0);
}

/// What a call added to bytes is there, or no memory was and they are as before.
fn assert_added(
    rt: &impl Abort,
    answer: Result<(), Kind>,
    found: &[u8],
    before: &[u8],
    behind: &[u8],
) {
    let wanted = match answer {
        Ok(()) => behind,
        Err(_) => before,
    };
    assert!(rt; found == wanted);
    assert!(rt; answer == Ok(()) || answer == Err(Kind::Memory));
}

#[test]
fn a_refused_append_leaves_the_bytes(rt: HostRuntime) {
    let mut out = Vec::from_slice(rt.alloc(), b"ab").expect(&rt, "memory");
    let answer = append(&mut out, b"cdefghijklmnopqrstuvwxyz0123456789");
    assert_added(
        &rt,
        answer,
        &out,
        b"ab",
        b"abcdefghijklmnopqrstuvwxyz0123456789",
    );
}

#[test]
fn a_refused_push_leaves_the_items(rt: HostRuntime) {
    let out = Vec::from_slice(rt.alloc(), b"ab").expect(&rt, "memory");
    let mut items = Items::from_vec(out);
    let answer = items.push(b'!');
    assert_added(&rt, answer, items.as_slice(), b"ab", b"ab!");
}

#[test]
fn a_refused_write_leaves_the_vector(rt: HostRuntime) {
    let rule = Rule::Life(LifeRule {
        births: 0b1_1111_1110,
        survivals: 0b1_1111_1111,
        near: Near::Moore,
    });
    let mut out = Vec::from_slice(rt.alloc(), b"#R ").expect(&rt, "memory");
    let answer = rule.write(&mut out);
    assert_added(&rt, answer, &out, b"#R ", b"#R B12345678/S012345678");
}

#[test]
fn the_limits_are_those_of_the_formats(rt: HostRuntime) {
    let corner = Cell {
        x: -(1 << (MAX_LEVEL - 1)),
        y: 0,
        state: 255,
    };
    assert!(rt; MAX_LEVEL == 62 && corner.x == -2305843009213693952);
    assert!(rt; LONGEST_LINE == 1048576);
}
