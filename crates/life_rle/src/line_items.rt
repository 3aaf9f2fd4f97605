//! The items of a line, read one after another.

ghost use Rattle.std.specs.Prelude.{◌≡◌, ◌≤◌, ◌<◌, ◌+◌, ◌⊎◌, ◌∷◌, ◌++◌, ◌==◌, not, [], Some, None, IfOk, IfErr, OnOk, OnErr, length, filter, position, take_while, true, IsTrue};
ghost use Rattle.life_rle.specs.Words.{vec_len, vec_capacity, byte, most_count, with_run, is_run_end, IsNear, cursor_after_item, item_count, row_limit, is_state_of, Cells, IsPrefixOfRuns, TakesItem, ReadsItems, ReadsOn, last_of, ItemsBreak, IsMemory};

use crate::cursor::{Cursor, cells_fault, cursor_after, end_rows, row_limit};
use crate::item::{Item, Token, token_at};
use crate::plane::is_state_of;
use crate::short_items::{ItemPlace, begins_short, take_short_items};
use bstr::ByteSlice;
use life_base::{Kind, LONGEST_LINE, MAX_LEVEL, Rule, Run, State};

/// A line of more bytes is long: its runs are counted before memory is reserved for them.
const LONG_LINE: usize = 256;

/// In so many last bytes of a line it doesn't pay to look for short items.
const FEWEST_BYTES: usize = 4;

/// Where the items of a line end: the place after them, and whether `!` is there.
#[derive(Clone, Copy)]
pub(crate) struct ItemsRead {
    pub(crate) cursor: Cursor,
    pub(crate) marked: bool,
}

/// The place of the first `!`.
fn mark_place(line: &[u8]) -> Option<usize>
    ensures { result ≡ position (λ b. b == byte "!") line.now }
{
    line.find_byte(b'!')
}

/// The bytes of a line before its first `!`.
fn before_mark(line: &[u8]) -> &[u8]
    ensures { result.now ≡ take_while (λ b. not (b == byte "!")) line.now }
{
    match mark_place(line) {
        Some(end) => &line[..end],
        None => line,
    }
}

/// Whether a byte can end the text of a nonzero state.
fn is_run_end(byte: u8) -> bool
    ensures { result ≡ is_run_end byte }
{
    matches!(byte, b'o' | b'A'..=b'X')
}

/// How many bytes can end the text of a nonzero state. They are counted without a branch on any of them, so that many are counted at once.
fn run_ends(text: &[u8]) -> usize
    ensures { result ≡ length (filter is_run_end text.now) }
{
    let mut count = 0;
    for byte in text {
        count += usize::from(is_run_end(*byte));
    }
    count
}

/// How many runs a line brings at most. Those of a line that is long are counted; else it may have one at each byte.
fn most_runs(line: &[u8]) -> usize
    ensures { length (filter is_run_end (take_while (λ b. not (b == byte "!")) line.now)) ≤ result }
{
    if line.len() <= LONG_LINE {
        line.len()
    } else {
        run_ends(before_mark(line))
    }
}

/// Reserves capacity for the runs of a line, so that it takes memory once at most. If there is capacity for a run at each byte, they aren't counted.
fn reserve_runs(line: &[u8], runs: &mut Vec<Run>) -> Result<(), Kind>
    ensures runs { runs.new.items ≡ runs.old.items }
    ensures space { OnOk result (vec_len runs.old
        + length (filter is_run_end (take_while (λ b. not (b == byte "!")) line.now))
        ≤ vec_capacity runs.new) }
    ensures memory { IfErr result IsMemory }
{
    if runs.capacity() - runs.len() < line.len() {
        runs.reserve(most_runs(line))?;
    }
    Ok(())
}

/// Puts a run after the runs. The vector grows here, outside the loop over the items: there is capacity as a rule.
#[cold]
#[inline(never)]
fn push_growing(run: Run, runs: &mut Vec<Run>) -> Result<(), Kind>
    ensures runs { OnOk result (runs.new.items ≡ runs.old.items ++ run ∷ []) }
    ensures kept { OnErr result (runs.new.items ≡ runs.old.items) }
    ensures memory { IfErr result IsMemory }
{
    runs.push(run)?;
    Ok(())
}

/// Puts the run of an item of nonzero state after the runs.
#[inline(always)]
fn push_run(cursor: Cursor, item: Item, runs: &mut Vec<Run>) -> Result<(), Kind>
    ensures runs { OnOk result
        (runs.new.items ≡ runs.old.items ++ with_run cursor.y cursor.x item []) }
    ensures kept { OnErr result (runs.new.items ≡ runs.old.items) }
    ensures memory { IfErr result IsMemory }
{
    let Item::Cells { count, state } = item else {
        return Ok(());
    };
    if state == 0 {
        return Ok(());
    }
    let Cursor { x, y, .. } = cursor;
    if runs.len() == runs.capacity() {
        return push_growing(
            Run {
                x,
                y,
                len: count,
                state,
            },
            runs,
        );
    }
    runs.push(Run {
        x,
        y,
        len: count,
        state,
    })?;
    Ok(())
}

/// Takes cells of one state, and returns the place after them.
#[inline(always)]
fn take_cells(
    rule: &Rule,
    cursor: Cursor,
    limit: i64,
    count: u64,
    state: State,
    runs: &mut Vec<Run>,
) -> Result<Cursor, Kind>
    requires count { count ≤ most_count MAX_LEVEL }
    requires near { IsNear MAX_LEVEL cursor }
    requires limit { limit ≡ row_limit MAX_LEVEL cursor.y }
    ensures { TakesItem MAX_LEVEL rule.now cursor (Cells count state) runs.old.items runs.new.items
        result }
{
    if let Some(kind) = cells_fault(rule, cursor, limit, count, state) {
        return Err(kind);
    }
    let item = Item::Cells { count, state };
    push_run(cursor, item, runs)?;
    Ok(cursor_after(cursor, item))
}

/// Takes an item that begins at the cursor, and returns the place after it. Cells of state 0 are a kind of their own: they bring no run.
#[inline(always)]
fn take_item(
    rule: &Rule,
    cursor: Cursor,
    limit: i64,
    item: Item,
    runs: &mut Vec<Run>,
) -> Result<Cursor, Kind>
    requires near { IsNear MAX_LEVEL cursor }
    requires limit { limit ≡ row_limit MAX_LEVEL cursor.y }
    requires count { item_count item ≤ most_count MAX_LEVEL }
    ensures { TakesItem MAX_LEVEL rule.now cursor item runs.old.items runs.new.items result }
{
    match item {
        Item::Cells { count, state: 0 } => take_cells(rule, cursor, limit, count, 0, runs),
        Item::Cells { count, state } => take_cells(rule, cursor, limit, count, state, runs),
        Item::RowEnds { count } => end_rows(cursor, count),
    }
}

/// The limit of the row after an item that brought the cursor here.
#[inline(always)]
fn limit_behind(limit: i64, item: Item, cursor: Cursor) -> i64
    ensures { (before : Cursor) → limit ≡ row_limit MAX_LEVEL before.y
        → cursor ≡ cursor_after_item before item → result ≡ row_limit MAX_LEVEL cursor.y }
{
    match item {
        Item::Cells { .. } => limit,
        Item::RowEnds { .. } => row_limit(cursor.y),
    }
}

/// Takes the item at a place if there is one and it breaks no rule; anything else stays for the caller.
#[inline(always)]
fn take_one_item(
    rule: &Rule,
    here: ItemPlace,
    limit: i64,
    line: &[u8],
    runs: &mut Vec<Run>,
) -> ItemPlace
    requires inside { here.at < length line.now }
    requires near { IsNear MAX_LEVEL here.cursor }
    requires limit { limit ≡ row_limit MAX_LEVEL here.cursor.y }
    ensures inside { (here.at ≤ result.at) × (result.at ≤ length line.now) }
    ensures near { IsNear MAX_LEVEL result.cursor }
    ensures read { ReadsOn MAX_LEVEL rule.now line.now here.at here.cursor runs.old.items result.at
        result.cursor runs.new.items }
{
    let Token::Spelled(item, behind) = token_at(line, here.at) else {
        return here;
    };
    match take_item(rule, here.cursor, limit, item, runs) {
        Ok(cursor) => ItemPlace { at: behind, cursor },
        Err(_) => here,
    }
}

/// Takes items from the start of a line on, as long as there are short ones among them, of any state where there are `many`.
#[inline(always)]
fn take_mixed_items(
    rule: &Rule,
    many: bool,
    from: Cursor,
    line: &[u8],
    runs: &mut Vec<Run>,
) -> ItemPlace
    requires states { IsTrue many → is_state_of rule.now 255 ≡ true }
    requires line { length line.now ≤ LONGEST_LINE }
    requires near { IsNear MAX_LEVEL from }
    ensures inside { result.at ≤ length line.now }
    ensures near { IsNear MAX_LEVEL result.cursor }
    ensures read { ReadsOn MAX_LEVEL rule.now line.now 0 from runs.old.items result.at
        result.cursor runs.new.items }
{
    let mut here = ItemPlace {
        at: 0,
        cursor: from,
    };
    let end = line.len().saturating_sub(FEWEST_BYTES);
    while here.at < end {
        let limit = row_limit(here.cursor.y);
        let short = take_short_items(rule, many, line, here, limit, runs);
        if short.at == here.at || short.at >= end {
            return short;
        }
        here = take_one_item(rule, short, limit, line, runs);
    }
    here
}

/// The same under a rule of 256 states. It stays apart, so that it costs lines of two states nothing.
#[inline(never)]
fn take_many_items(rule: &Rule, from: Cursor, line: &[u8], runs: &mut Vec<Run>) -> ItemPlace
    requires states { is_state_of rule.now 255 ≡ true }
    requires line { length line.now ≤ LONGEST_LINE }
    requires near { IsNear MAX_LEVEL from }
    ensures inside { result.at ≤ length line.now }
    ensures near { IsNear MAX_LEVEL result.cursor }
    ensures read { ReadsOn MAX_LEVEL rule.now line.now 0 from runs.old.items result.at
        result.cursor runs.new.items }
{
    take_mixed_items(rule, true, from, line, runs)
}

/// The same under any rule. Under one of two states no items are taken unless the line begins with a short one: few lines that don't have
/// any later.
#[inline(always)]
fn take_first_items(rule: &Rule, from: Cursor, line: &[u8], runs: &mut Vec<Run>) -> ItemPlace
    requires line { length line.now ≤ LONGEST_LINE }
    requires near { IsNear MAX_LEVEL from }
    ensures inside { result.at ≤ length line.now }
    ensures near { IsNear MAX_LEVEL result.cursor }
    ensures read { ReadsOn MAX_LEVEL rule.now line.now 0 from runs.old.items result.at
        result.cursor runs.new.items }
{
    if is_state_of(rule, State::MAX) {
        return take_many_items(rule, from, line, runs);
    }
    if begins_short(line) {
        return take_mixed_items(rule, false, from, line, runs);
    }
    ItemPlace {
        at: 0,
        cursor: from,
    }
}

/// Reads the items of a line from the cursor on, and puts their runs after the runs.
#[inline(never)]
pub(crate) fn read_items(
    rule: &Rule,
    from: Cursor,
    line: &[u8],
    runs: &mut Vec<Run>,
) -> Result<ItemsRead, Kind>
    requires near { IsNear MAX_LEVEL from }
    requires line { length line.now ≤ LONGEST_LINE }
    ensures read { IfOk result (λ read. ReadsItems MAX_LEVEL rule.now from line.now
        (last_of read.marked) read.cursor runs.old.items runs.new.items) }
    ensures fault { IfErr result
        (λ kind. (kind ≡ Kind.Memory) ⊎ ItemsBreak MAX_LEVEL rule.now from line.now kind) }
    ensures kept { OnErr result (IsPrefixOfRuns runs.old.items runs.new.items) }
{
    reserve_runs(line, runs)?;
    let ItemPlace { mut at, mut cursor } = take_first_items(rule, from, line, runs);
    let mut limit = row_limit(cursor.y);
    while at < line.len() {
        match token_at(line, at) {
            Token::Space => at += 1,
            Token::Mark => {
                return Ok(ItemsRead {
                    cursor,
                    marked: true,
                });
            }
            Token::Broken(kind) => return Err(kind),
            Token::Spelled(item, behind) => {
                cursor = take_item(rule, cursor, limit, item, runs)?;
                limit = limit_behind(limit, item, cursor);
                at = behind;
            }
        }
    }
    Ok(ItemsRead {
        cursor,
        marked: false,
    })
}
