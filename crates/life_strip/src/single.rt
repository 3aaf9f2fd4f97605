//! Two strips that have one span each at most, whose squares make one square of the next level, or the same one in several columns. Above and below
//! a small pattern each strip is blank or has one square, and a whole row is one span, so this saves most of the work there.
ghost use Rattle.std.specs.Prelude.{◌≡◌, ℕ, suc, ◌+◌, ◌-◌, ◌*◌, ◌^◌, ◌<◌, ◌≤◌, ◌∷◌, [], IsTrue, length, IfSome, IfOk, IfErr};
ghost use Rattle.life_strip.specs.Words.{AreOnlyColumns, AreWithin, blank, Grows, GrowsOnly, HasSpan, HaveColumns, id_at, id_or, IsMemory, IsOnly, IsPaired, IsStrip, quad_at, Rise, SomeColumn};

use crate::spans::Span;
use crate::spare::Spare;
use life_base::{Kind, MAX_LEVEL};
use life_quad::{Id, Squares};

// Columns of the next level, from `start` to before `end`.
#[derive(Clone, Copy)]
pub(crate) struct Columns {
    pub(crate) start: u64,
    pub(crate) end: u64,
}

// The columns of the next level that have columns of a span.
#[inline(always)]
fn columns_of(span: &Span) -> Columns
    requires { span.now.start < span.now.end }
    ensures { HasSpan result span.now }
{
    Columns {
        start: span.start / 2,
        end: (span.end - 1) / 2 + 1,
    }
}

// Whether a strip has one span at most, in these columns of the next level, which are one column, or all of which the span fills.
#[inline(always)]
fn is_only(spans: &[Span], columns: Columns) -> bool
    requires { HaveColumns spans.now }
    ensures { IsTrue result → IsOnly spans.now columns }
{
    if spans.len() > 1 {
        return false;
    }
    match spans.first() {
        Some(span) => {
            let own = columns_of(span);
            let are_same = own.start == columns.start && own.end == columns.end;
            let is_one = own.start + 1 == own.end;
            are_same && (is_one || (span.start % 2 == 0 && span.end % 2 == 0))
        }
        None => true,
    }
}

// The columns of the next level that have all squares of two strips, and one square each, if each strip has one span at most and one of them isn't
// blank.
#[inline(always)]
pub(crate) fn only_columns(upper: &[Span], lower: &[Span]) -> Option<Columns>
    requires upper { HaveColumns upper.now }
    requires lower { HaveColumns lower.now }
    ensures { IfSome result (AreOnlyColumns upper.now lower.now) }
{
    let Some(span) = upper.first().or(lower.first()) else {
        return None;
    };
    let columns = columns_of(span);
    if is_only(upper, columns) && is_only(lower, columns) {
        Some(columns)
    } else {
        None
    }
}

// The square in a column of a strip of one span at most.
#[inline(always)]
fn square_in_only(spans: &[Span], column: u64, blank: Id) -> Id
    requires { length spans.now ≤ 1 }
    ensures { result ≡ id_or blank (id_at spans.now column) }
{
    match spans.first() {
        Some(span) if span.start <= column && column < span.end => span.square,
        _ => blank,
    }
}

// The square of two columns of the upper strip above two of the lower, where each has one span at most.
#[inline(always)]
fn join_only<S: Squares>(
    squares: &mut S,
    level: u8,
    column: u64,
    upper: &[Span],
    lower: &[Span],
) -> Result<Id, Kind>
    requires low { level < MAX_LEVEL }
    requires column { column ≤ 2 ^ MAX_LEVEL }
    requires upper { IsStrip (S.knows squares.old) (S.content squares.old) level upper.now }
    requires lower { IsStrip (S.knows squares.old) (S.content squares.old) level lower.now }
    requires upper_few { length upper.now ≤ 1 }
    requires lower_few { length lower.now ≤ 1 }
    ensures known { IfOk result (S.knows squares.new) }
    ensures square { IfOk result (λ r. S.content squares.new r
        ≡ quad_at (S.content squares.old) level upper.now lower.now column) }
    ensures grows { GrowsOnly S.Squares squares.old squares.new result
        (λ P. P (quad_at (S.content squares.old) level upper.now lower.now column)) }
{
    let blank = squares.empty(level);
    let west = 2 * column;
    let east = west + 1;
    let nw = square_in_only(upper, west, blank);
    let ne = square_in_only(upper, east, blank);
    let sw = square_in_only(lower, west, blank);
    let se = square_in_only(lower, east, blank);
    squares.join(nw, ne, sw, se)
}

// The span alone, in the memory of one of two strips. The memory of the other one waits for another strip.
#[inline(always)]
fn put_only(
    spare: &mut Spare,
    upper: Vec<Span>,
    lower: Vec<Span>,
    span: Span,
) -> Result<Vec<Span>, Kind>
    ensures items { IfOk result (λ r. r.items ≡ span ∷ []) }
    ensures refusals { IfErr result IsMemory }
{
    let (mut spans, other) = if upper.is_empty() {
        (lower, upper)
    } else {
        (upper, lower)
    };
    spare.give(other);
    spans.clear();
    spans.push(span)?;
    Ok(spans)
}

// The strip of the next level, whose only square has two squares of the upper strip above two of the lower.
#[inline(always)]
pub(crate) fn pair_only<S: Squares>(
    squares: &mut S,
    spare: &mut Spare,
    level: u8,
    columns: Columns,
    upper: Vec<Span>,
    lower: Vec<Span>,
) -> Result<Vec<Span>, Kind>
    requires low { level < MAX_LEVEL }
    requires only { AreOnlyColumns upper.items lower.items columns }
    requires upper { IsStrip (S.knows squares.old) (S.content squares.old) level upper.items }
    requires lower { IsStrip (S.knows squares.old) (S.content squares.old) level lower.items }
    requires upper_within { AreWithin level upper.items }
    requires lower_within { AreWithin level lower.items }
    ensures strip { IfOk result
        (λ r. IsStrip (S.knows squares.new) (S.content squares.new) (level + 1) r.items) }
    ensures rises { IfOk result (λ r. Rise r.items) }
    ensures within { IfOk result (λ r. AreWithin (level + 1) r.items) }
    ensures paired { IfOk result (λ r. IsPaired (S.content squares.old) (S.content squares.new)
        level upper.items lower.items r.items) }
    ensures grows { Grows S.Squares squares.old squares.new result
        (λ P. SomeColumn P (level + 1)
        (quad_at (S.content squares.old) level upper.items lower.items)) }
{
    let square = join_only(
        squares,
        level,
        columns.start,
        upper.as_slice(),
        lower.as_slice(),
    )?;
    let span = Span {
        start: columns.start,
        end: columns.end,
        square,
    };
    put_only(spare, upper, lower, span)
}
