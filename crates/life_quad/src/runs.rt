//! Runs of cells.
ghost use Rattle.std.specs.Prelude.{◌≡◌, ◌⊎◌, ℤ, pos, neg_ℤ, ◌≤ℤ◌, ◌<ℤ◌, ◌+ℤ◌, ◌-◌, ◌+◌, ◌^◌, ◌<◌, ◌≤◌};
ghost use Rattle.life_quad.specs.Words.{Tree, depth, SetsSpan, SetsHalves, IsRunInside, SetsRun, SomePart, Makes, MakesSomeSquare};

use crate::moves::{Quarters, divide};
use crate::{Id, Squares};
use life_base::{Kind, MAX_LEVEL, Run, State};

/// Cells of one state, side by side in a row of a square: columns and rows are counted from its north-west corner.
#[derive(Clone, Copy)]
struct RowSpan {
    column: u64,
    row: u64,
    len: u64,
    state: State,
}

/// Half of the side of a square of a level.
pub(crate) fn half_side(level: u8) -> u64
    requires low { 1 ≤ level }
    requires high { level ≤ MAX_LEVEL }
    ensures half { result ≡ 2 ^ (level - 1) }
    ensures small { result ≤ 2 ^ 61 }
{
    1 << (level - 1)
}

/// How far a coordinate is from the west or north side.
fn offset(x: i64, half: u64) -> u64
    requires small { half ≤ 2 ^ 61 }
    requires low { neg_ℤ (pos half) ≤ℤ x }
    requires high { x <ℤ pos half }
    ensures { pos result ≡ (x +ℤ pos half) }
{
    (x + half as i64) as u64
}

/// The square with a span of one row set. The span goes down both halves, and one half serves for
/// both where it covers both and they are one square.
#[cycle(span)]
fn set_span<S: Squares>(squares: &mut S, id: Id, span: RowSpan) -> Result<Id, Kind>
    requires known { S.knows squares.old id }
    requires positive { 1 ≤ span.len }
    requires columns { span.column + span.len ≤ 2 ^ depth (S.content squares.old id) }
    requires rows { span.row < 2 ^ depth (S.content squares.old id) }
    ensures { MakesSomeSquare S.Squares squares.old squares.new
        (λ t. SetsSpan (S.content squares.old id) t span) result }
{
    let level = squares.level(id);
    if level == 0 {
        return Ok(squares.cell(span.state));
    }
    let half = half_side(level);
    let Quarters { nw, ne, sw, se } = divide(squares, id);
    if span.row < half {
        let (left, right) = set_halves(squares, nw, ne, half, span)?;
        squares.join(left, right, sw, se)
    } else {
        let row = span.row - half;
        let (left, right) = set_halves(squares, sw, se, half, RowSpan { row, ..span })?;
        squares.join(nw, ne, left, right)
    }
}

/// Two squares side by side, of side `half`, with a span of one row set.
#[cycle(span)]
fn set_halves<S: Squares>(
    squares: &mut S,
    left: Id,
    right: Id,
    half: u64,
    span: RowSpan,
) -> Result<(Id, Id), Kind>
    requires left { S.knows squares.old left }
    requires right { S.knows squares.old right }
    requires one_level { depth (S.content squares.old right) ≡ depth (S.content squares.old left) }
    requires side { half ≡ 2 ^ depth (S.content squares.old left) }
    requires low { depth (S.content squares.old left) < MAX_LEVEL }
    requires positive { 1 ≤ span.len }
    requires columns { span.column + span.len ≤ half + half }
    requires rows { span.row < half }
    ensures { let SetsIn = SetsHalves (S.content squares.old left) (S.content squares.old right) in
        Makes S.Squares squares.old squares.new
        (λ r. S.knows squares.new r.0 × S.knows squares.new r.1)
        (λ r. SetsIn (S.content squares.new r.0) (S.content squares.new r.1) span)
        ((a b : Tree) × SetsIn a b span
        × (SomePart (S.needs_node squares.new) a ⊎ SomePart (S.needs_node squares.new) b))
        result }
{
    let end = span.column + span.len;
    if end <= half {
        return Ok((set_span(squares, left, span)?, right));
    }
    if half <= span.column {
        let column = span.column - half;
        return Ok((left, set_span(squares, right, RowSpan { column, ..span })?));
    }
    let first = RowSpan {
        len: half - span.column,
        ..span
    };
    let new_left = set_span(squares, left, first)?;
    if left == right && span.len == half + half {
        return Ok((new_left, new_left));
    }
    let rest = RowSpan {
        column: 0,
        len: end - half,
        ..span
    };
    let new_right = set_span(squares, right, rest)?;
    Ok((new_left, new_right))
}

/// The root's square with the cells of a run set.
///
/// # Errors
///
/// `Full` where a square is new and the store holds its limit, and `Memory`. After either each Id has its square.
pub fn set_run<S: Squares>(squares: &mut S, root: Id, run: Run) -> Result<Id, Kind>
    requires known { S.knows squares.old root }
    requires high { 1 ≤ depth (S.content squares.old root) }
    requires positive { 1 ≤ run.len }
    requires inside { IsRunInside (S.content squares.old root) run }
    ensures { MakesSomeSquare S.Squares squares.old squares.new
        (λ t. SetsRun (S.content squares.old root) t run) result }
{
    let half = half_side(squares.level(root));
    let span = RowSpan {
        column: offset(run.x, half),
        row: offset(run.y, half),
        len: run.len,
        state: run.state,
    };
    set_span(squares, root, span)
}

/// The root's square with the cells (x, y) to (x + len - 1, y) set to the state. `set_run` takes the same as a `Run`.
///
/// # Errors
///
/// Those of `set_run`.
pub fn put_run<S: Squares>(
    squares: &mut S,
    root: Id,
    x: i64,
    y: i64,
    len: u64,
    state: State,
) -> Result<Id, Kind>
    requires known { S.knows squares.old root }
    requires high { 1 ≤ depth (S.content squares.old root) }
    requires positive { 1 ≤ len }
    requires inside { IsRunInside (S.content squares.old root)
        (record { x = x; y = y; len = len; state = state }) }
    ensures { MakesSomeSquare S.Squares squares.old squares.new
        (λ t. SetsRun (S.content squares.old root) t
        (record { x = x; y = y; len = len; state = state })) result }
{
    set_run(squares, root, Run { x, y, len, state })
}
