//! Runs put into a square one by one, and row by row.

ghost use Rattle.std.specs.Prelude.{◌≡◌, [], ◌<◌, ◌≤◌, ◌-◌, ◌^◌, ◌+ℤ◌, pos, IfOk, IfSome, IsTrue, OnOk, ℤ};
ghost use Rattle.life_base.specs.Tree.{depth};
ghost use Rattle.life_quad.specs.Grows.{KeepsStore};
ghost use Rattle.life_strip.specs.Filling.{IsFilling};
ghost use Rattle.life_strip.specs.Given.{AreNext, IsAfterRun, IsNextRunStart, IsRunOnPlane};

use crate::answer::Answer;
use crate::row::runs_of;
use life_base::{Kind, MAX_LEVEL, Run};
use life_quad::{Id, Squares, set_run};
use life_strip::{Builder, laws};
use std::alloc::Global;

/// Half of the side of a square of a level.
fn half_side(level: u8) -> u64
    requires low { 1 ≤ level }
    requires high { level ≤ MAX_LEVEL }
    ensures half { result ≡ 2 ^ (level - 1) }
    ensures small { result ≤ 2 ^ 61 }
{
    1 << (level - 1)
}

/// A run put into a square, and refused where it isn't in it.
pub(crate) fn put<S: Squares>(
    squares: &mut S,
    root: Id,
    x: i64,
    y: i64,
    len: u64,
    state: u8,
) -> Result<Id, Kind>
    requires { S.knows squares.old root }
    ensures known { IfOk result (S.knows squares.new) }
    ensures keeps { KeepsStore S.Squares squares.old squares.new }
{
    let level = squares.level(root);
    if level == 0 || len == 0 {
        return Err(Kind::OutOfPlane);
    }
    let half = half_side(level) as i64;
    if x < -half || half <= x || y < -half || half <= y || len > (half - x) as u64 {
        return Err(Kind::OutOfPlane);
    }
    set_run(squares, root, Run { x, y, len, state })
}

/// A builder without runs.
fn begun<S: Squares>(alloc: Global, squares: &S) -> Builder
    ensures filling { IsFilling (S.knows squares.now) (S.content squares.now) result }
    ensures none { result.runs ≡ [] }
    ensures next { (x y : ℤ) → IsNextRunStart result.runs x y }
{
    let _ = squares;
    laws::empty_builder_fills::<S>();
    Builder::new(alloc)
}

/// Whether a run has cells, all of them on the plane.
fn is_on_plane(x: i64, y: i64, len: u64) -> bool
    ensures positive { IsTrue result → 1 ≤ len }
    ensures inside { IsTrue result → IsRunOnPlane x y len }
{
    let half = half_side(MAX_LEVEL) as i64;
    if len == 0 || x < -half || half <= x || y < -half || half <= y {
        return false;
    }
    if len > (half - x) as u64 {
        return false;
    }
    true
}

/// The column after so many cells from a column on, if both are near the plane.
fn end_of(x: i64, len: u64) -> Option<i64>
    ensures { IfSome result (λ end. end ≡ x +ℤ pos len) }
{
    if x < -2305843009213693952 || x > 2305843009213693952 || len > 4611686018427387904 {
        return None;
    }
    Some(x + len as i64)
}

/// Whether a run begins after another one.
fn is_after(last: Run, run: Run) -> bool
    ensures { IsTrue result → IsAfterRun last run.x run.y }
{
    if last.y < run.y {
        return true;
    }
    let Some(end) = end_of(last.x, last.len) else {
        return false;
    };
    if run.y < last.y || run.x < end {
        return false;
    }
    true
}

/// Gives a builder a run that comes after its last one.
fn add<S: Squares>(
    out: &mut Answer,
    squares: &mut S,
    builder: &mut Builder,
    last: Run,
    run: Run,
) -> Result<(), Kind>
    requires filling { IsFilling (S.knows squares.old) (S.content squares.old) builder.old }
    requires next { (x y : ℤ) → IsAfterRun last x y → IsNextRunStart builder.old.runs x y }
    ensures filling { OnOk result
        (IsFilling (S.knows squares.new) (S.content squares.new) builder.new) }
    ensures next { OnOk result
        ((x y : ℤ) → IsAfterRun run x y → IsNextRunStart builder.new.runs x y) }
    ensures keeps { KeepsStore S.Squares squares.old squares.new }
{
    if !is_on_plane(run.x, run.y, run.len) || !is_after(last, run) {
        out.is_bad = true;
        return Err(Kind::OutOfPlane);
    }
    builder.add_run(squares, run)
}

/// A run in the row north of the plane, which is before every other.
const FIRST: Run = Run {
    x: 0,
    y: -(1 << 61) - 1,
    len: 1,
    state: 0,
};

/// A builder with runs, each of which comes after the one before it.
fn built<S: Squares>(
    alloc: Global,
    out: &mut Answer,
    squares: &mut S,
    runs: &[Run],
) -> Result<Builder, Kind>
    ensures filling { IfOk result (λ b. IsFilling (S.knows squares.new) (S.content squares.new) b) }
    ensures keeps { KeepsStore S.Squares squares.old squares.new }
{
    let mut builder = begun(alloc, squares);
    let mut last = FIRST;
    for run in runs {
        match add(out, squares, &mut builder, last, *run) {
            Ok(()) => last = *run,
            Err(kind) => return Err(kind),
        }
    }
    Ok(builder)
}

/// Adds a run that comes after the last one, and answers which is the last one then.
fn push_run(out: &mut Answer, runs: &mut Vec<Run>, last: Run, run: Run) -> Run
    requires all { AreNext [] runs.old.items }
    requires next { (x y : ℤ) → IsAfterRun last x y → IsNextRunStart runs.old.items x y }
    ensures all { AreNext [] runs.new.items }
    ensures next { (x y : ℤ) → IsAfterRun result x y → IsNextRunStart runs.new.items x y }
{
    if !is_on_plane(run.x, run.y, run.len) || !is_after(last, run) {
        out.is_bad = true;
        return last;
    }
    match runs.push(run) {
        Ok(()) => run,
        Err(_) => {
            out.is_cut = true;
            last
        }
    }
}

/// Runs each of which comes after the one before it.
fn in_order(alloc: Global, out: &mut Answer, runs: &[Run]) -> Vec<Run>
    ensures { AreNext [] result.items }
{
    let mut sorted = Vec::new(alloc);
    let mut last = FIRST;
    for run in runs {
        last = push_run(out, &mut sorted, last, *run);
    }
    sorted
}

/// The plane with the runs of a text, which a builder is given one by one.
pub(crate) fn fill_plane<S: Squares>(
    alloc: Global,
    out: &mut Answer,
    squares: &mut S,
    text: &[u8],
) -> Result<Id, Kind>
    ensures known { IfOk result (S.knows squares.new) }
    ensures keeps { KeepsStore S.Squares squares.old squares.new }
{
    let runs = runs_of(alloc, out, text);
    match built(alloc, out, squares, &runs) {
        Ok(builder) => builder.finish(squares),
        Err(kind) => Err(kind),
    }
}

/// The plane with the runs of a text, which a builder is given as a slice.
pub(crate) fn fill_at_once<S: Squares>(
    alloc: Global,
    out: &mut Answer,
    squares: &mut S,
    text: &[u8],
) -> Result<Id, Kind>
    ensures known { IfOk result (S.knows squares.new) }
    ensures keeps { KeepsStore S.Squares squares.old squares.new }
{
    let runs = runs_of(alloc, out, text);
    let runs = in_order(alloc, out, &runs);
    let mut builder = begun(alloc, squares);
    match builder.add_runs(squares, runs.as_slice()) {
        Ok(()) => builder.finish(squares),
        Err(kind) => Err(kind),
    }
}

/// Gives a builder the runs of a text, and drops it.
pub(crate) fn unfinished<S: Squares>(
    alloc: Global,
    out: &mut Answer,
    squares: &mut S,
    text: &[u8],
) -> Result<(), Kind>
    ensures keeps { KeepsStore S.Squares squares.old squares.new }
{
    let runs = runs_of(alloc, out, text);
    match built(alloc, out, squares, &runs) {
        Ok(_) => Ok(()),
        Err(kind) => Err(kind),
    }
}
