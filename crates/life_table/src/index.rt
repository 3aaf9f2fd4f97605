//! A table with an index of its lines.
ghost use Rattle.std.specs.Prelude.{◌≡◌, ℕ, ◌+◌, ◌*◌, ◌<◌, ◌≤◌, ◌∷◌, List, Contains, length, take, All, Option};
ghost use Rattle.life_table.specs.Words.{bit_at, GivesNothing, neighbour_count, states_of_neighbours, images, AnswersAmong, AnswersNext, MayGive, MayFit, AreBlocks, IsQuery, Asks, IsSite, IsLineAt, GoesRound, TurnsAreImages, centre_of, others_of};

use crate::block::{Block, LINES};
use crate::found::Found;
use crate::image_list::Images;
use crate::next::{Neighbours, given_by};
use crate::seen::Seen;
use crate::site::Site;
use crate::some_order::Counts;
use crate::table::{Symmetry, Table, Transition};
use crate::turn::turns_of;
use life_base::{Fault, Kind, Place, State};
use std::alloc::Global;
use std::marker::Model;

/// A table and an index of its first lines, by which those that give nothing at a cell are passed over, 64 at once. The rest is walked, as
/// `Table::next` walks all. What is indexed is no part of its value: it is the table.
#[derive(Drop)]
pub struct Index<'a> {
    table: &'a Table,
    blocks: Vec<Block>,
}

impl<'a> Model for Index<'a> {
    ghost use Rattle.life_table.specs.declared.table.Table.{Table as TableValue};
    ghost use Rattle.life_table.specs.Index.{AreBlocks};

    ghost Value = { TableValue };

    ghost view = { λ index. index.table.now };

    ghost invariant = { λ index. AreBlocks index.table.now.vars index.table.now.lines index.blocks.items };
}

// So many blocks are indexed at once.
const GROWTH: usize = 8;

/// The answer of the first line that gives anything, of at most 64 from a number on, if one of them does. Lines whose bit isn't set give
/// nothing.
fn answer_among(
    symmetry: Symmetry,
    site: &Site,
    lines: &[Transition],
    from: usize,
    may: u64,
) -> Option<Result<State, Fault>>
    requires site { IsSite site.now }
    requires turns { GoesRound site.now }
    requires images { TurnsAreImages symmetry site.now }
    requires lines { All (IsLineAt site.now) lines.now }
    requires from { from ≤ length lines.now }
    requires may { MayGive symmetry site.now.vars.now (centre_of site.now) (others_of site.now)
        lines.now from may }
    requires silent { All
        (GivesNothing symmetry site.now.vars.now (centre_of site.now) (others_of site.now))
        (take from lines.now) }
    ensures { AnswersAmong symmetry site.now.vars.now (centre_of site.now) (others_of site.now)
        lines.now (from + 64) result }
{
    for k in 0..LINES.min(lines.len() - from) {
        if may >> k == 0 {
            return None;
        }
        if may >> k & 1 == 1 {
            let line = &lines[from + k];
            match given_by(symmetry, site, line) {
                Found::Nothing => {}
                Found::One(state) => return Some(Ok(state)),
                Found::Two => {
                    return Some(Err(Fault {
                        place: Place { line: line.line },
                        kind: Kind::Ambiguous,
                    }));
                }
            }
        }
    }
    None
}

/// What the index is asked of a cell: the lines that may give something at one of its images, or in any order of its neighbours.
#[derive(Clone, Copy)]
pub(crate) enum Query {
    Images(Images),
    Counts(Counts),
}

/// What the index is asked of a cell under a symmetry.
fn query_of(symmetry: Symmetry, site: &Site) -> Query
    requires site { IsSite site.now }
    requires turns { GoesRound site.now }
    requires images { TurnsAreImages symmetry site.now }
    ensures query { IsQuery site.now result }
    ensures asks { (v : List ℕ) → Contains (images symmetry (others_of site.now)) v
        → Asks site.now result v }
{
    match symmetry {
        Symmetry::Permute => Query::Counts(Counts::of(&site.cells[1..])),
        _ => Query::Images(Images::new(site.cells, site.ways)),
    }
}

/// The lines of a block that may give something: all of them that do are there.
fn of_block(site: &Site, block: &Block, query: &Query) -> u64
    requires some { 0 < length site.now.cells.now }
    requires space { length site.now.cells.now ≤ 9 }
    requires query { IsQuery site.now query.now }
    ensures { (k : ℕ) (v : List ℕ) → k < 64 → Asks site.now query.now v
        → MayFit block.now (centre_of site.now ∷ v) k → bit_at result k ≡ 1 }
{
    match query {
        Query::Images(turned) => block.that_may_give(turned, site.cells.len()),
        Query::Counts(counts) => block.that_may_give_in_some_order(site.cells, counts),
    }
}

/// The answer of the first line that gives anything, if one does: of those that the blocks have by the blocks, and of the others one by one.
fn answer_by_blocks(
    symmetry: Symmetry,
    site: &Site,
    lines: &[Transition],
    blocks: &[Block],
) -> Option<Result<State, Fault>>
    requires site { IsSite site.now }
    requires turns { GoesRound site.now }
    requires images { TurnsAreImages symmetry site.now }
    requires lines { All (IsLineAt site.now) lines.now }
    requires blocks { AreBlocks site.now.vars.now lines.now blocks.now }
    ensures { AnswersAmong symmetry site.now.vars.now (centre_of site.now) (others_of site.now)
        lines.now (length lines.now) result }
{
    let query = query_of(symmetry, site);
    for b in 0..lines.len() / LINES + 1 {
        let may = if b < blocks.len() {
            of_block(site, &blocks[b], &query)
        } else {
            u64::MAX
        };
        if let Some(answer) = answer_among(symmetry, site, lines, LINES * b, may) {
            return Some(answer);
        }
    }
    None
}

/// The next state of a cell by a table and blocks of its lines.
fn next_by_blocks(table: &Table, blocks: &[Block], around: &Neighbours) -> Result<State, Fault>
    requires neighbours { length (states_of_neighbours around.now)
        ≡ neighbour_count table.now.neighborhood + 1 }
    requires blocks { AreBlocks table.now.vars table.now.lines blocks.now }
    ensures { AnswersNext table.now (states_of_neighbours around.now) result }
{
    let cells = around.as_slice();
    let vars = table.vars.as_slice();
    let lines = table.lines.as_slice();
    let seen = Seen::of_lines(vars, &cells[1..], blocks.len() > lines.len() / LINES);
    let ways = turns_of(table.symmetry, cells.len() - 1);
    let site = Site {
        vars,
        cells,
        seen: &seen,
        ways,
    };
    match answer_by_blocks(table.symmetry, &site, lines, blocks) {
        Some(answer) => answer,
        None => Ok(cells[0]),
    }
}

impl<'a> Index<'a> {
    /// The table, with no line indexed.
    pub fn new(alloc: Global, table: &'a Table) -> Index<'a>
        ensures { result ≡ table.now }
    {
        Index {
            table,
            blocks: Vec::new(alloc),
        }
    }

    /// The table.
    pub fn table(&self) -> &'a Table
        ensures { result.now ≡ self.now }
    {
        self.table
    }

    /// Indexes the next 64 lines, or as many as are left (a block of none where all lines fill whole blocks).
    fn grow_by_block(&mut self)
        ensures { self.new ≡ self.old }
    {
        let blocks = self.blocks.len();
        if blocks <= self.table.lines.as_slice().len() / LINES {
            let block = Block::new(self.table, LINES * blocks);
            let _refused = self.blocks.push(block).is_err();
        }
    }

    /// Indexes up to 512 more lines, with 19 KB for each 64. If memory is refused, the lines are searched without an index.
    pub fn grow(&mut self)
        ensures { self.new ≡ self.old }
    {
        for _ in 0..GROWTH {
            self.grow_by_block();
        }
    }

    /// The next state of a cell, as `Table::next` answers it.
    ///
    /// # Errors
    ///
    /// `Ambiguous`, as there.
    pub fn next(&self, around: &Neighbours) -> Result<State, Fault>
        requires neighbours { length (states_of_neighbours around.now)
            ≡ neighbour_count self.now.neighborhood + 1 }
        requires states { All (λ s. s < self.now.n_states) (states_of_neighbours around.now) }
        ensures { AnswersNext self.now (states_of_neighbours around.now) result }
    {
        if self.blocks.is_empty() {
            return self.table.next(around);
        }
        next_by_blocks(self.table, self.blocks.as_slice(), around)
    }
}
