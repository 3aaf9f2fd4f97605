//! How many node lines and cells a pattern has, counted by its node lines as they come.

ghost use Rattle.std.specs.Prelude.{◌≡◌, ◌==◌, false, ℕ, List, ◌-◌, ◌<◌, ◌≤◌, ◌^◌, [], length, slice_index_or, IfOk, IfErr, refl};
ghost use Rattle.life_writer.specs.Words.{Memory, depth, largest_state, HasStatesUpTo, leaf_tree, population, CountsLines, line_count, number_count, listed_squares, least_level, IsMemory};

use crate::line_sink::LineSink;
use crate::node_walk::walk_pattern;
use crate::orientation::{Orientation, Upright};
use life_base::Kind;
use life_mc::Line;
use life_pattern::Pattern;
use life_quad::{Id, IdNumbers, SharedSquares, Squares};
use std::alloc::Global;

/// What a walk over a pattern counts.
#[derive(Clone, Copy)]
pub(crate) struct Tally {
    /// Its node lines.
    pub(crate) lines: u64,
    /// Its cells of a state other than 0.
    pub(crate) cells: u128,
}

/// How many live cells the rows of a leaf have.
#[inline(always)]
fn leaf_count(rows: &[u8; 8]) -> u128
    ensures { result ≡ population (leaf_tree rows.now) }
{
    u128::from(u64::from_be_bytes(*rows).count_ones())
}

/// Whether a number represents a cell of a state other than 0 in a line of level 1: 1 or 0.
#[inline(always)]
fn cell_count(number: u64) -> u128
    ensures count { (counts : List ℕ) → result ≡ number_count counts 1 number }
    ensures few { result ≤ 1 }
{
    u128::from(number != 0)
}

/// How many cells the square has that a number represents in a line above level 1, given how many the squares of the lines before have.
#[inline(always)]
fn square_count(counts: &[u128], number: u64) -> u128
    ensures { (level : ℕ) → (level == 1) ≡ false
        → result ≡ number_count counts.now level number }
{
    match counts.get((number as usize).wrapping_sub(1)) {
        Some(count) => *count,
        None => 0,
    }
}

/// How many cells the square of a line has, where the squares of the lines before have so many. No sum of a pattern wraps.
#[inline(always)]
fn line_count(counts: &[u128], line: &Line) -> u128
    ensures { line_count counts.now line.now < 2 ^ 128
        → result ≡ line_count counts.now line.now }
{
    match line {
        Line::Leaf(rows) => leaf_count(rows),
        Line::Quad {
            level: 1,
            nw,
            ne,
            sw,
            se,
        } => { cell_count(*nw) + cell_count(*ne) + cell_count(*sw) + cell_count(*se) }
        Line::Quad { nw, ne, sw, se, .. } => {
            let north = square_count(counts, *nw).wrapping_add(square_count(counts, *ne));
            let south = square_count(counts, *sw).wrapping_add(square_count(counts, *se));
            north.wrapping_add(south)
        }
    }
}

/// For each line that was taken, how many cells its square has.
#[derive(Drop)]
struct CellCounts {
    counts: Vec<u128>,
}

impl LineSink<()> for CellCounts {
    ghost ready = { λ _. Unit {0} };

    ghost took = { λ a b lines. CountsLines a.0.counts.items b.0.counts.items lines };

    ghost broke = { λ _ _ _. Unit {0} };

    ghost refuses = { λ _ kind. kind ≡ Memory };

    ghost begins = { λ _ _. refl };

    ghost stops = { λ _ _ _ _ _ _. tt };

    #[inline(always)]
    fn take(&mut self, _device: &mut (), line: &Line) -> Result<(), Kind> {
        let count = line_count(&self.counts, line);
        self.counts.push(count)?;
        Ok(())
    }

    #[inline(always)]
    fn take_leaf<S: Squares, O: Orientation>(
        &mut self,
        _device: &mut (),
        squares: &S,
        orientation: &O,
        id: Id,
    ) -> Result<(), Kind> {
        let count = orientation.leaf_population(squares, 3, id);
        self.counts.push(count)?;
        Ok(())
    }
}

/// The count of the last line, or 0 for none.
fn last_count(counts: &[u128]) -> u128
    ensures { result ≡ slice_index_or counts.now (length counts.now - 1) 0 }
{
    match counts.last() {
        Some(count) => *count,
        None => 0,
    }
}

/// The node lines of a pattern, and its cells of a state other than 0. No square has a number yet.
pub(crate) fn count_all<S: SharedSquares>(
    alloc: Global,
    squares: &S,
    pattern: &Pattern,
    numbers: IdNumbers,
) -> Result<Tally, Kind>
    requires known { S.knows squares.now pattern.now.root }
    requires level { least_level pattern.now.rule ≤ depth (S.content squares.now pattern.now.root) }
    requires states { HasStatesUpTo (largest_state pattern.now.rule)
        (S.content squares.now pattern.now.root) }
    requires none { numbers.ids ≡ [] }
    ensures lines { IfOk result (λ counts. counts.lines ≡ length
        (listed_squares (S.content squares.now pattern.now.root) (least_level pattern.now.rule))) }
    ensures cells { IfOk result
        (λ counts. counts.cells ≡ population (S.content squares.now pattern.now.root)) }
    ensures kind { IfErr result IsMemory }
{
    let mut list = CellCounts {
        counts: Vec::new(alloc),
    };
    walk_pattern(squares, &Upright, pattern, numbers, &mut list, &mut ())?;
    Ok(Tally {
        lines: list.counts.len() as u64,
        cells: last_count(&list.counts),
    })
}
