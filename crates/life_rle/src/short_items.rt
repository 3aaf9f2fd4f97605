//! Short items of a line: cells whose count has at most one digit. Under a rule of two states their state is written `b` or `o`. Most items are short.

ghost use Rattle.std.specs.Prelude.{◌≡◌, ◌≤◌, ◌<◌, ◌+◌, ◌-◌, true, length, List, IfSome, IsTrue};
ghost use Rattle.life_rle.specs.Words.{vec_len, vec_capacity, is_state_of, IsNear, row_limit, RowHasSpace, ReadsOn, IsShortItem, IsStateAt, AreShortCells, PassesDead, short_count, short_digits, Rule, Run};

use crate::cursor::{Cursor, cursor_after};
use crate::item::{Item, prefixed_state, single_state};
use life_base::{LONGEST_LINE, MAX_LEVEL, Rule, Run, State};
use std::mem;

/// The count of a short item that begins with each byte, and then how many digits such an item has. They are one table, so that the loop over the
/// items needs one address for both.
static SHORT: [u8; 512] = [
    1, 1, 1, 1, 1, 1, 1, 1, 1, 1, 1, 1, 1, 1, 1, 1, 1, 1, 1, 1, 1, 1, 1, 1, 1, 1, 1, 1, 1, 1, 1, 1,
    1, 1, 1, 1, 1, 1, 1, 1, 1, 1, 1, 1, 1, 1, 1, 1, 1, 1, 2, 3, 4, 5, 6, 7, 8, 9, 1, 1, 1, 1, 1, 1,
    1, 1, 1, 1, 1, 1, 1, 1, 1, 1, 1, 1, 1, 1, 1, 1, 1, 1, 1, 1, 1, 1, 1, 1, 1, 1, 1, 1, 1, 1, 1, 1,
    1, 1, 1, 1, 1, 1, 1, 1, 1, 1, 1, 1, 1, 1, 1, 1, 1, 1, 1, 1, 1, 1, 1, 1, 1, 1, 1, 1, 1, 1, 1, 1,
    1, 1, 1, 1, 1, 1, 1, 1, 1, 1, 1, 1, 1, 1, 1, 1, 1, 1, 1, 1, 1, 1, 1, 1, 1, 1, 1, 1, 1, 1, 1, 1,
    1, 1, 1, 1, 1, 1, 1, 1, 1, 1, 1, 1, 1, 1, 1, 1, 1, 1, 1, 1, 1, 1, 1, 1, 1, 1, 1, 1, 1, 1, 1, 1,
    1, 1, 1, 1, 1, 1, 1, 1, 1, 1, 1, 1, 1, 1, 1, 1, 1, 1, 1, 1, 1, 1, 1, 1, 1, 1, 1, 1, 1, 1, 1, 1,
    1, 1, 1, 1, 1, 1, 1, 1, 1, 1, 1, 1, 1, 1, 1, 1, 1, 1, 1, 1, 1, 1, 1, 1, 1, 1, 1, 1, 1, 1, 1, 1,
    0, 0, 0, 0, 0, 0, 0, 0, 0, 0, 0, 0, 0, 0, 0, 0, 0, 0, 0, 0, 0, 0, 0, 0, 0, 0, 0, 0, 0, 0, 0, 0,
    0, 0, 0, 0, 0, 0, 0, 0, 0, 0, 0, 0, 0, 0, 0, 0, 0, 1, 1, 1, 1, 1, 1, 1, 1, 1, 0, 0, 0, 0, 0, 0,
    0, 0, 0, 0, 0, 0, 0, 0, 0, 0, 0, 0, 0, 0, 0, 0, 0, 0, 0, 0, 0, 0, 0, 0, 0, 0, 0, 0, 0, 0, 0, 0,
    0, 0, 0, 0, 0, 0, 0, 0, 0, 0, 0, 0, 0, 0, 0, 0, 0, 0, 0, 0, 0, 0, 0, 0, 0, 0, 0, 0, 0, 0, 0, 0,
    0, 0, 0, 0, 0, 0, 0, 0, 0, 0, 0, 0, 0, 0, 0, 0, 0, 0, 0, 0, 0, 0, 0, 0, 0, 0, 0, 0, 0, 0, 0, 0,
    0, 0, 0, 0, 0, 0, 0, 0, 0, 0, 0, 0, 0, 0, 0, 0, 0, 0, 0, 0, 0, 0, 0, 0, 0, 0, 0, 0, 0, 0, 0, 0,
    0, 0, 0, 0, 0, 0, 0, 0, 0, 0, 0, 0, 0, 0, 0, 0, 0, 0, 0, 0, 0, 0, 0, 0, 0, 0, 0, 0, 0, 0, 0, 0,
    0, 0, 0, 0, 0, 0, 0, 0, 0, 0, 0, 0, 0, 0, 0, 0, 0, 0, 0, 0, 0, 0, 0, 0, 0, 0, 0, 0, 0, 0, 0, 0,
];

/// A line of fewer bytes has few items, so that it doesn't pay to look for short ones.
const FEW_BYTES: usize = 32;

/// Short items of a line move the cursor by fewer columns than this: 9 for each byte of the longest line.
const FAR: i64 = 9 * LONGEST_LINE as i64;

/// The same, where cells whose count has two digits come first.
const FARTHER: i64 = FAR + 99;

/// A place of a line, and where the item there begins on the plane.
#[derive(Clone, Copy)]
pub(crate) struct ItemPlace {
    pub(crate) at: usize,
    pub(crate) cursor: Cursor,
}

/// The count that a byte begins a short item with.
#[inline(always)]
fn short_count(byte: u8) -> u64
    ensures { result ≡ short_count byte }
{
    u64::from(SHORT[usize::from(byte)])
}

/// How many digits a short item has that begins with a byte.
#[inline(always)]
fn short_digits(byte: u8) -> usize
    ensures { result ≡ short_digits byte }
{
    usize::from(SHORT[usize::from(byte) + 256])
}

/// The count of the short item at a place, and the place of its state. If there is no state, the item isn't short.
#[inline(always)]
fn short_item(line: &[u8], at: usize) -> (u64, usize)
    requires { at + 1 < length line.now }
    ensures { IsShortItem MAX_LEVEL line.now at result.0 result.1 }
{
    let first = line[at];
    (short_count(first), at + short_digits(first))
}

/// Whether a line begins with a short item of state 0 or 1, and has enough bytes for more of them.
#[inline(always)]
pub(crate) fn begins_short(line: &[u8]) -> bool {
    if line.len() < FEW_BYTES {
        return false;
    }
    let (_, last) = short_item(line, 0);
    matches!(line[last], b'b' | b'o')
}

/// The place after a short item of dead cells, if one is here.
#[inline(always)]
fn pass_dead(line: &[u8], here: ItemPlace) -> ItemPlace
    requires inside { here.at + 1 < length line.now }
    requires space { RowHasSpace MAX_LEVEL line.now here.at here.cursor }
    ensures { PassesDead MAX_LEVEL line.now here.at here.cursor result.at result.cursor }
{
    let (count, last) = short_item(line, here.at);
    if line[last] != b'b' {
        return here;
    }
    ItemPlace {
        at: last + 1,
        cursor: cursor_after(here.cursor, Item::Cells { count, state: 0 }),
    }
}

/// The place after dead cells whose count has two digits, if they are here. None are passed near the edge of the plane.
#[inline(always)]
fn pass_many_dead(line: &[u8], here: ItemPlace, limit: i64) -> ItemPlace
    requires line { length line.now ≤ LONGEST_LINE }
    requires inside { here.at + 2 < length line.now }
    requires space { RowHasSpace MAX_LEVEL line.now here.at here.cursor }
    requires limit { limit ≡ row_limit MAX_LEVEL here.cursor.y }
    ensures inside { (here.at ≤ result.at) × (result.at ≤ here.at + 3) }
    ensures row { result.cursor.y ≡ here.cursor.y }
    ensures space { RowHasSpace MAX_LEVEL line.now result.at result.cursor }
    ensures read { (rule : Rule) (found : List Run) → ReadsOn MAX_LEVEL rule line.now here.at
        here.cursor found result.at result.cursor found }
{
    let tens = line[here.at];
    let ones = line[here.at + 1];
    if tens < b'1' || tens > b'9' || ones < b'0' || ones > b'9' {
        return here;
    }
    if line[here.at + 2] != b'b' || here.cursor.x + FARTHER > limit {
        return here;
    }
    let count = 10 * u64::from(tens - b'0') + u64::from(ones - b'0');
    ItemPlace {
        at: here.at + 3,
        cursor: cursor_after(here.cursor, Item::Cells { count, state: 0 }),
    }
}

/// The state at a place and the place after it, if a state is there.
#[inline(always)]
fn state_at(line: &[u8], place: usize) -> Option<(State, usize)>
    requires { place + 1 < length line.now }
    ensures { IfSome result (λ found. IsStateAt line.now place found.0 found.1) }
{
    let byte = line[place];
    if let Some(state) = single_state(byte) {
        return Some((state, place + 1));
    }
    match prefixed_state(byte, line[place + 1]) {
        Some(state) => Some((state, place + 2)),
        None => None,
    }
}

/// The count and the state of the short item at a place, and the place after it, if a short item is there. Most have no count, and most
/// states are one byte.
#[inline(always)]
fn short_cells(line: &[u8], at: usize) -> Option<(u64, State, usize)>
    requires { at + 2 < length line.now }
    ensures { IfSome result
        (λ found. AreShortCells MAX_LEVEL line.now at found.0 found.1 found.2) }
{
    let first = line[at];
    if first == b'.' {
        return Some((1, 0, at + 1));
    }
    if let Some(state) = single_state(first) {
        return Some((1, state, at + 1));
    }
    let (count, place) = short_item(line, at);
    match state_at(line, place) {
        Some((state, after)) => Some((count, state, after)),
        None => None,
    }
}

/// The place of a line before which short items are taken that begin at another: this many bytes before the end, and before a run for which
/// there may be no capacity.
#[inline(always)]
fn short_end(line: &[u8], at: usize, runs: &Vec<Run>, rest: usize) -> usize
    requires { at < length line.now }
    ensures line { result ≤ length line.now - rest }
    ensures space { vec_len runs.now + (result - at) ≤ vec_capacity runs.now }
{
    let spare = runs.capacity() - runs.len();
    line.len()
        .saturating_sub(rest)
        .min(at.saturating_add(spare))
}

/// Takes short items of states 0 and 1, which take turns as a rule, from a place of a line on, and puts their runs after the runs. It stops
/// before the line's last four bytes, before another item (dead cells may have a count of two digits), and where there may be no capacity for one
/// more run.
#[inline(always)]
fn take_two_states(line: &[u8], from: ItemPlace, limit: i64, runs: &mut Vec<Run>) -> ItemPlace
    requires line { length line.now ≤ LONGEST_LINE }
    requires inside { from.at < length line.now }
    requires space { RowHasSpace MAX_LEVEL line.now from.at from.cursor }
    requires limit { limit ≡ row_limit MAX_LEVEL from.cursor.y }
    ensures inside { (from.at ≤ result.at) × (result.at ≤ length line.now) }
    ensures near { IsNear MAX_LEVEL result.cursor }
    ensures row { result.cursor.y ≡ from.cursor.y }
    ensures read { (rule : Rule) → ReadsOn MAX_LEVEL rule line.now from.at from.cursor
        runs.old.items result.at result.cursor runs.new.items }
{
    let alloc = *runs.allocator();
    let mut lent = mem::replace(runs, Vec::new(alloc));
    let end = short_end(line, from.at, &lent, 4);
    let mut here = from;
    while here.at < end {
        here = pass_dead(line, here);
        let (count, last) = short_item(line, here.at);
        if line[last] != b'o' {
            let next = pass_many_dead(line, here, limit);
            if next.at == here.at {
                break;
            }
            here = next;
            continue;
        }
        lent.push_reserved(Run {
            x: here.cursor.x,
            y: here.cursor.y,
            len: count,
            state: 1,
        });
        here = ItemPlace {
            at: last + 1,
            cursor: cursor_after(here.cursor, Item::Cells { count, state: 1 }),
        };
    }
    *runs = lent;
    here
}

/// The same under a rule of 256 states, for items of each state in any order. It stops before the line's last two bytes.
#[inline(always)]
fn take_many_states(line: &[u8], from: ItemPlace, runs: &mut Vec<Run>) -> ItemPlace
    requires inside { from.at < length line.now }
    requires space { RowHasSpace MAX_LEVEL line.now from.at from.cursor }
    ensures inside { (from.at ≤ result.at) × (result.at ≤ length line.now) }
    ensures near { IsNear MAX_LEVEL result.cursor }
    ensures row { result.cursor.y ≡ from.cursor.y }
    ensures read { (rule : Rule) → is_state_of rule 255 ≡ true
        → ReadsOn MAX_LEVEL rule line.now from.at
        from.cursor runs.old.items result.at result.cursor runs.new.items }
{
    let alloc = *runs.allocator();
    let mut lent = mem::replace(runs, Vec::new(alloc));
    let end = short_end(line, from.at, &lent, 2);
    let mut here = from;
    while here.at < end {
        let Some((count, state, after)) = short_cells(line, here.at) else {
            break;
        };
        if state != 0 {
            lent.push_reserved(Run {
                x: here.cursor.x,
                y: here.cursor.y,
                len: count,
                state,
            });
        }
        here = ItemPlace {
            at: after,
            cursor: cursor_after(here.cursor, Item::Cells { count, state }),
        };
    }
    *runs = lent;
    here
}

/// Takes short items from a place of a line on, of any state where there are `many`, and puts their runs after the runs. It takes none near the
/// edge of the plane.
#[inline(always)]
pub(crate) fn take_short_items(
    rule: &Rule,
    many: bool,
    line: &[u8],
    from: ItemPlace,
    limit: i64,
    runs: &mut Vec<Run>,
) -> ItemPlace
    requires states { IsTrue many → is_state_of rule.now 255 ≡ true }
    requires line { length line.now ≤ LONGEST_LINE }
    requires inside { from.at < length line.now }
    requires near { IsNear MAX_LEVEL from.cursor }
    requires limit { limit ≡ row_limit MAX_LEVEL from.cursor.y }
    ensures inside { (from.at ≤ result.at) × (result.at ≤ length line.now) }
    ensures near { IsNear MAX_LEVEL result.cursor }
    ensures row { result.cursor.y ≡ from.cursor.y }
    ensures read { ReadsOn MAX_LEVEL rule.now line.now from.at from.cursor runs.old.items result.at
        result.cursor runs.new.items }
{
    if from.cursor.x + FAR > limit {
        return from;
    }
    if many {
        take_many_states(line, from, runs)
    } else {
        take_two_states(line, from, limit, runs)
    }
}
