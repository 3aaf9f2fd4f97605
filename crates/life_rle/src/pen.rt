//! Cells as items.

ghost use Rattle.std.specs.Prelude.{◌≡◌, ◌++◌, ◌∷◌, [], neg_ℤ, ◌+ℤ◌, ◌-ℤ◌, ◌≤ℤ◌, nat_abs, OnOk, IfOk, IfErr};
ghost use Rattle.life_rle.specs.Words.{rle_plane_end, items_from, way_to, PutsItems, IsLiveRun, IsPen, IsGoodCell, IsAhead, Follow, run_of, longer_run, column_after_run, continues_run, item_of, pen_text, items_text, WritesCell, IsMemory};

use crate::item::Item;
use crate::wrapping::ItemLines;
use life_base::{Bounds, Cell, Kind, MAX_LEVEL, Rule, Run};

/// The run of one cell.
fn run_of(cell: &Cell) -> Run
    ensures { result ≡ run_of cell.now }
{
    Run {
        x: cell.x,
        y: cell.y,
        len: 1,
        state: cell.state,
    }
}

/// A run with one cell more.
fn longer(run: Run) -> Run
    requires { IsLiveRun run }
    ensures { result ≡ longer_run run }
{
    Run {
        len: run.len + 1,
        ..run
    }
}

/// The column after a run.
fn column_behind(run: Run) -> i64
    requires { IsLiveRun run }
    ensures { result ≡ column_after_run run }
{
    run.x + run.len as i64
}

/// Whether a cell goes on with a run.
fn joins(run: Run, cell: &Cell) -> bool
    requires { IsLiveRun run }
    ensures { result ≡ continues_run run cell.now }
{
    cell.y == run.y && cell.x == column_behind(run) && cell.state == run.state
}

/// The item of a run.
fn item_of(run: Run) -> Item
    ensures { result ≡ item_of run }
{
    Item::Cells {
        count: run.len,
        state: run.state,
    }
}

/// How far a coordinate is ahead of another.
fn distance(from: i64, to: i64) -> u64
    requires low { neg_ℤ (rle_plane_end MAX_LEVEL) ≤ℤ from }
    requires rises { from ≤ℤ to }
    requires high { to ≤ℤ rle_plane_end MAX_LEVEL }
    ensures { result ≡ nat_abs (to -ℤ from) }
{
    (to - from) as u64
}

/// Writes a run and what is between it and a cell ahead of it, where rows begin at a column.
#[inline(always)]
fn put_run_and_way(
    lines: &mut ItemLines,
    rule: &Rule,
    left: i64,
    run: Run,
    cell: &Cell,
) -> Result<(), Kind>
    requires pen { IsPen (record { lines = lines.old; left = left; run = run }) }
    requires cell { IsGoodCell rule.now cell.now }
    requires ahead { IsAhead left (column_after_run run) run.y cell.now }
    ensures way { OnOk result (PutsItems rule.now lines.old
        (item_of run ∷ way_to left (column_after_run run) run.y cell.now []) lines.new) }
    ensures memory { IfErr result IsMemory }
{
    let count = distance(run.y, cell.y);
    if count == 0 {
        let gap = distance(column_behind(run), cell.x);
        return lines.put_run(rule, run.len, run.state, gap);
    }
    lines.put_item(rule, item_of(run))?;
    lines.put_item(rule, Item::RowEnds { count })?;
    lines.put_gap(rule, distance(left, cell.x))
}

/// Takes the next cell: it joins the run, or the run is written with what is before the cell. Returns the run that isn't written then.
#[inline(always)]
fn take(lines: &mut ItemLines, rule: &Rule, left: i64, run: Run, cell: &Cell) -> Result<Run, Kind>
    requires pen { IsPen (record { lines = lines.old; left = left; run = run }) }
    requires cell { IsGoodCell rule.now cell.now }
    requires ahead { IsAhead left (column_after_run run) run.y cell.now }
    ensures cell { IfOk result (λ next. WritesCell rule.now
        (record { lines = lines.old; left = left; run = run }) cell.now
        (record { lines = lines.new; left = left; run = next })) }
    ensures memory { IfErr result IsMemory }
{
    if joins(run, cell) {
        return Ok(longer(run));
    }
    put_run_and_way(lines, rule, left, run, cell)?;
    Ok(run_of(cell))
}

/// Where the writer is: its lines, the column at which rows begin, and the run that isn't written yet.
#[derive(Drop)]
pub(crate) struct Pen {
    pub(crate) lines: ItemLines,
    pub(crate) left: i64,
    pub(crate) run: Run,
}

impl Pen {
    /// The pen after the first cell, which isn't written yet.
    fn new(lines: ItemLines, bounds: Bounds, first: &Cell) -> Pen
        ensures { result ≡ record { lines = lines; left = bounds.left; run = run_of first.now } }
    {
        Pen {
            lines,
            left: bounds.left,
            run: run_of(first),
        }
    }

    /// Writes the run and the cells after it, with `!` at the end, and returns the text.
    fn finish(self, rule: &Rule, cells: &[Cell]) -> Result<Vec<u8>, Kind>
        requires pen { IsPen self }
        requires cells { Follow rule.now self.left (column_after_run self.run) self.run.y
            cells.now }
        ensures text { IfOk result (λ text. text.items ≡ pen_text rule.now self cells.now) }
        ensures memory { IfErr result IsMemory }
    {
        let Pen {
            mut lines,
            left,
            mut run,
        } = self;
        for cell in cells {
            run = take(&mut lines, rule, left, run, cell)?;
        }
        lines.put_item(rule, item_of(run))?;
        lines.finish()
    }
}

/// Writes a cell and more cells after a text, from the corner of their box on, with `!` at the end, and returns the text.
pub(crate) fn write_cells(
    text: Vec<u8>,
    rule: &Rule,
    bounds: Bounds,
    first: &Cell,
    cells: &[Cell],
) -> Result<Vec<u8>, Kind>
    requires left { neg_ℤ (rle_plane_end MAX_LEVEL) ≤ℤ bounds.left }
    requires top { bounds.top ≡ first.now.y }
    requires cells { Follow rule.now bounds.left bounds.left bounds.top (first.now ∷ cells.now) }
    ensures text { IfOk result (λ whole. whole.items ≡ text.items ++ items_text rule.now 0
        (items_from bounds.left bounds.left bounds.top (first.now ∷ cells.now))) }
    ensures memory { IfErr result IsMemory }
{
    let mut lines = ItemLines::behind(text);
    lines.put_gap(rule, distance(bounds.left, first.x))?;
    Pen::new(lines, bounds, first).finish(rule, cells)
}
