//! Strips one below the other.
ghost use Rattle.std.specs.Prelude.{◌≡◌, ℕ, suc, ◌+◌, ◌-◌, ◌^◌, ◌<◌, ◌≤◌, ◌++◌, ◌∷◌, [], All, length, IsTrue, MatchOption, IfSome, IfOk, OnOk};
ghost use Rattle.life_strip.specs.Words.{depth, state_at, Grows, quad_at, picture, height, AreFalling, AreStacked, IsLowest, IsNotLast, IsRow, IsSoundStrip, IsStack, rows_state, SomeColumn, SomeSquare};

use crate::bands::band_spans;
use crate::row::Row;
use crate::single::{only_columns, pair_only};
use crate::spans::{Strip, first_square, pair};
use crate::spare::Spare;
use life_base::{Kind, MAX_LEVEL};
use life_quad::{Id, Squares};
use std::alloc::Global;

// The strip of the next level with the upper strip above the lower, where they may have many squares. It is never inlined, so that `merge` can be.
#[inline(never)]
fn merge_long<S: Squares>(
    squares: &mut S,
    spare: &mut Spare,
    upper: Strip,
    lower: Strip,
) -> Result<Strip, Kind>
    requires low { upper.level < MAX_LEVEL }
    requires one_level { lower.level ≡ upper.level }
    requires upper { IsSoundStrip (S.knows squares.old) (S.content squares.old) upper }
    requires lower { IsSoundStrip (S.knows squares.old) (S.content squares.old) lower }
    ensures sound { IfOk result (λ r. IsSoundStrip (S.knows squares.new) (S.content squares.new)
        r) }
    ensures level { IfOk result (λ r. r.level ≡ suc upper.level) }
    ensures stack { IfOk result
        (λ r. IsStack (S.content squares.old) (S.content squares.new) upper lower r) }
    ensures grows { Grows S.Squares squares.old squares.new result
        (λ P. SomeColumn P (upper.level + 1) (quad_at (S.content squares.old)
        upper.level upper.spans.items lower.spans.items)) }
{
    let spans = pair(
        squares,
        spare,
        upper.level,
        upper.spans.as_slice(),
        lower.spans.as_slice(),
    )?;
    let level = upper.level + 1;
    spare.give(upper.spans);
    spare.give(lower.spans);
    Ok(Strip { level, spans })
}

// The strip of the next level with the upper strip above the lower.
#[inline(always)]
pub(crate) fn merge<S: Squares>(
    squares: &mut S,
    spare: &mut Spare,
    upper: Strip,
    lower: Strip,
) -> Result<Strip, Kind>
    requires low { upper.level < MAX_LEVEL }
    requires one_level { lower.level ≡ upper.level }
    requires upper { IsSoundStrip (S.knows squares.old) (S.content squares.old) upper }
    requires lower { IsSoundStrip (S.knows squares.old) (S.content squares.old) lower }
    ensures sound { IfOk result (λ r. IsSoundStrip (S.knows squares.new) (S.content squares.new)
        r) }
    ensures level { IfOk result (λ r. r.level ≡ suc upper.level) }
    ensures stack { IfOk result
        (λ r. IsStack (S.content squares.old) (S.content squares.new) upper lower r) }
    ensures grows { Grows S.Squares squares.old squares.new result
        (λ P. SomeColumn P (upper.level + 1) (quad_at (S.content squares.old)
        upper.level upper.spans.items lower.spans.items)) }
{
    let level = upper.level;
    let Some(columns) = only_columns(upper.spans.as_slice(), lower.spans.as_slice()) else {
        return merge_long(squares, spare, upper, lower);
    };
    let spans = pair_only(squares, spare, level, columns, upper.spans, lower.spans)?;
    Ok(Strip {
        level: level + 1,
        spans,
    })
}

// Takes the last strip, if it has the level.
#[inline(always)]
pub(crate) fn take_last(strips: &mut Vec<Strip>, level: u8) -> Option<Strip>
    ensures { MatchOption result
        ((strips.new.items ≡ strips.old.items) × IsNotLast level strips.old.items)
        (λ last. (strips.old.items ≡ strips.new.items ++ last ∷ []) × (last.level ≡ level)) }
{
    let Some(last) = strips.last() else {
        return None;
    };
    if last.level != level {
        return None;
    }
    strips.pop()
}

// One strip more, below the others. While the last two have one level, they become one of the next.
pub(crate) fn push_strip<S: Squares>(
    squares: &mut S,
    spare: &mut Spare,
    strips: &mut Vec<Strip>,
    strip: Strip,
) -> Result<(), Kind>
    requires strips { AreStacked (S.knows squares.old) (S.content squares.old) strips.old.items }
    requires strip { IsSoundStrip (S.knows squares.old) (S.content squares.old) strip }
    requires space { height strips.old.items + 2 ^ strip.level ≤ 2 ^ MAX_LEVEL }
    requires lowest { IsLowest strip.level strips.old.items }
    ensures strips { OnOk result
        (AreStacked (S.knows squares.new) (S.content squares.new) strips.new.items) }
    ensures height { OnOk result
        (height strips.new.items ≡ height strips.old.items + 2 ^ strip.level) }
    ensures picture { OnOk result ((column row : ℕ)
        → picture (S.content squares.new) strips.new.items column row
        ≡ picture (S.content squares.old) (strips.old.items ++ strip ∷ []) column row) }
    ensures grows { Grows S.Squares squares.old squares.new result
        (λ P. SomeSquare P (height strips.old.items + 2 ^ strip.level)
        (picture (S.content squares.old) (strips.old.items ++ strip ∷ []))) }
{
    let mut lowest = strip;
    while let Some(last) = take_last(strips, lowest.level) {
        lowest = merge(squares, spare, last, lowest)?;
    }
    strips.push(lowest)?;
    Ok(())
}

// The strip with blank rows below it that fill it up to a level.
fn raise<S: Squares>(
    squares: &mut S,
    spare: &mut Spare,
    alloc: Global,
    strip: Strip,
    top: u8,
) -> Result<Strip, Kind>
    requires low { strip.level ≤ top }
    requires high { top ≤ MAX_LEVEL }
    requires strip { IsSoundStrip (S.knows squares.old) (S.content squares.old) strip }
    ensures sound { IfOk result (λ r. IsSoundStrip (S.knows squares.new) (S.content squares.new)
        r) }
    ensures level { IfOk result (λ r. r.level ≡ top) }
    ensures picture { IfOk result (λ r. (column row : ℕ)
        → picture (S.content squares.new) (r ∷ []) column row
        ≡ picture (S.content squares.old) (strip ∷ []) column row) }
    ensures grows { Grows S.Squares squares.old squares.new result
        (λ P. SomeSquare P (2 ^ top) (picture (S.content squares.old) (strip ∷ []))) }
{
    let mut raised = strip;
    while raised.level < top {
        let blank = Strip {
            level: raised.level,
            spans: Vec::new(alloc),
        };
        raised = merge(squares, spare, raised, blank)?;
    }
    Ok(raised)
}

// One strip more, below the others, and below it as many blank rows as let it grow at once. Returns how many these are.
pub(crate) fn push_and_raise<S: Squares>(
    squares: &mut S,
    spare: &mut Spare,
    alloc: Global,
    strips: &mut Vec<Strip>,
    strip: Strip,
    rows: u64,
) -> Result<u64, Kind>
    requires strips { AreStacked (S.knows squares.old) (S.content squares.old) strips.old.items }
    requires strip { IsSoundStrip (S.knows squares.old) (S.content squares.old) strip }
    requires lowest { IsLowest (suc strip.level) strips.old.items }
    requires high { strip.level ≤ MAX_LEVEL }
    requires fits { 2 ^ strip.level ≤ rows }
    requires space { height strips.old.items + 2 ^ strip.level + rows ≤ 2 ^ MAX_LEVEL }
    ensures strips { OnOk result
        (AreStacked (S.knows squares.new) (S.content squares.new) strips.new.items) }
    ensures count { IfOk result (λ r. (top : ℕ) × (strip.level < top)
        × (r + 2 ^ strip.level ≡ 2 ^ top) × (r ≤ rows)) }
    ensures height { IfOk result
        (λ r. height strips.new.items ≡ height strips.old.items + 2 ^ strip.level + r) }
    ensures picture { OnOk result ((column row : ℕ)
        → picture (S.content squares.new) strips.new.items column row
        ≡ picture (S.content squares.old) (strips.old.items ++ strip ∷ []) column row) }
    ensures grows { Grows S.Squares squares.old squares.new result
        (λ P. SomeSquare P (height strips.old.items + 2 ^ strip.level + rows)
        (picture (S.content squares.old) (strips.old.items ++ strip ∷ []))) }
{
    let side = 1 << strip.level;
    let top = blank_level(strips.as_slice(), rows + side);
    let raised = raise(squares, spare, alloc, strip, top)?;
    push_strip(squares, spare, strips, raised)?;
    Ok((1 << top) - side)
}

// The largest level of a blank strip that fits below the others and into this many rows.
pub(crate) fn blank_level(strips: &[Strip], rows: u64) -> u8
    requires positive { 1 ≤ rows }
    requires within { rows ≤ 2 ^ MAX_LEVEL }
    requires falling { AreFalling strips.now }
    ensures lowest { IsLowest result strips.now }
    ensures most { result ≤ MAX_LEVEL }
    ensures fits { 2 ^ result ≤ rows }
    ensures largest { (level : ℕ) → IsLowest level strips.now → level ≤ MAX_LEVEL
        → 2 ^ level ≤ rows → level ≤ result }
{
    let fitting = rows.ilog2() as u8;
    match strips.last() {
        Some(last) => fitting.min(last.level),
        None => fitting,
    }
}

// Whether no row has spans.
fn have_blocks(rows: &[Row]) -> bool
    ensures { IsTrue result → All (λ row. row.spans.items ≡ []) rows.now }
{
    for row in rows {
        if !row.spans.is_empty() {
            return false;
        }
    }
    true
}

// The strip of level 2 of four rows, if all of them are rows of blocks.
pub(crate) fn band_strip<S: Squares>(
    squares: &mut S,
    spare: &mut Spare,
    rows: &[Row],
) -> Result<Option<Strip>, Kind>
    requires count { length rows.now ≡ 4 }
    requires rows { All (IsRow (S.knows squares.old) (S.content squares.old)) rows.now }
    ensures sound { IfOk result
        (λ r. IfSome r (λ s. IsSoundStrip (S.knows squares.new) (S.content squares.new) s)) }
    ensures level { IfOk result (λ r. IfSome r (λ s. s.level ≡ 2)) }
    ensures picture { IfOk result (λ r. IfSome r (λ s. (column row : ℕ)
        → picture (S.content squares.new) (s ∷ []) column row
        ≡ rows_state (S.content squares.old) rows.now column row)) }
    ensures grows { Grows S.Squares squares.old squares.new result
        (λ P. SomeSquare P 4 (rows_state (S.content squares.old) rows.now)) }
{
    if !have_blocks(rows) {
        return Ok(None);
    }
    let first = rows[0].blocks.as_slice();
    let second = rows[1].blocks.as_slice();
    let third = rows[2].blocks.as_slice();
    let fourth = rows[3].blocks.as_slice();
    let spans = band_spans(squares, spare, first, second, third, fourth)?;
    Ok(Some(Strip { level: 2, spans }))
}

// The square of strips that fill the plane.
pub(crate) fn whole<S: Squares>(squares: &S, strips: &[Strip]) -> Id
    requires strips { AreStacked (S.knows squares.now) (S.content squares.now) strips.now }
    requires full { height strips.now ≡ 2 ^ MAX_LEVEL }
    ensures known { S.knows squares.now result }
    ensures level { depth (S.content squares.now result) ≡ MAX_LEVEL }
    ensures cells { (column row : ℕ) → column < 2 ^ MAX_LEVEL → row < 2 ^ MAX_LEVEL
        → state_at (S.content squares.now result) column row
        ≡ picture (S.content squares.now) strips.now column row }
{
    let blank = squares.empty(MAX_LEVEL);
    match strips.first() {
        Some(strip) => first_square(strip.spans.as_slice(), blank),
        None => blank,
    }
}
