//! Which of four squares are seen.
ghost use Rattle.std.specs.Prelude.{◌≡◌, ℕ, ℤ, ◌^◌, ◌%◌, ◌≤◌, ◌<◌};
ghost use Rattle.life_slide.specs.Words.{MAX_LEVEL, IsOfLevel, InBlock, IsBlock, AreMargins, IsSeenAs, AreViews, IdValue, KeyValue, TableGives, Tree};

use crate::grid::has;
use crate::margins::{LEAST_LEVEL, MarginTable, margins_of, seen_or_other};
use crate::parts::{Parts, with_firsts};
use crate::remembered::is_kept;
use crate::slide::Offset;
use life_base::MAX_LEVEL;
use life_quad::{Quarters, Seed, Squares};
use std::alloc::Global;

/// What is known of the squares that were visited.
#[derive(Drop)]
pub(crate) struct Views {
    pub(crate) margins: MarginTable,
    pub(crate) parts: Parts,
}

impl Views {
    /// Nothing. It takes no memory.
    pub(crate) fn new(alloc: Global, seed: Seed) -> Views
        ensures margins { (content : IdValue → Tree) → AreMargins content result.margins }
        ensures known { (key : KeyValue) (id : IdValue) → ¬ TableGives result.parts.known key id }
        ensures firsts { (key : KeyValue) (id : IdValue)
            → ¬ TableGives result.parts.firsts key id }
    {
        Views {
            margins: MarginTable::new(alloc),
            parts: Parts::new(alloc, seed),
        }
    }
}

/// From this level on the margins of each square are found, and below it where one of the four is blank: of small squares of which none is blank few can
/// be left out.
const EACH_LEVEL: u8 = 6;

// The side length of a square of a level.
fn side_of(level: u8) -> u64
    requires { level ≤ MAX_LEVEL }
    ensures { result ≡ 2 ^ level }
{
    1 << level
}

// Of four squares those in which the square that begins so far in sees more than a margin, and blank ones for the others.
fn without_margins<S: Squares>(
    squares: &S,
    margins: &mut MarginTable,
    offset: Offset,
    level: u8,
    block: &Quarters,
) -> Quarters
    requires known { InBlock (IsOfLevel (S.knows squares.now) (S.content squares.now) level)
        block.now }
    requires high { level ≤ MAX_LEVEL }
    requires right { AreMargins (S.content squares.now) margins.old }
    ensures known { InBlock (IsOfLevel (S.knows squares.now) (S.content squares.now) level) result }
    ensures seen { (cells : ℤ → ℤ → ℕ) (x y : ℤ)
        → IsBlock (S.content squares.now) cells (2 ^ level) x y block.now
        → IsSeenAs (S.content squares.now) cells offset.columns offset.rows level x y result }
    ensures right { AreMargins (S.content squares.now) margins.new }
{
    let blank = squares.empty(level);
    let wanted = level >= LEAST_LEVEL && (level >= EACH_LEVEL || has(block, blank));
    let side = side_of(level);
    let inside = Offset {
        columns: offset.columns % side,
        rows: offset.rows % side,
    };
    let nw = margins_of(squares, level, block.nw, margins, wanted);
    let ne = margins_of(squares, level, block.ne, margins, wanted);
    let sw = margins_of(squares, level, block.sw, margins, wanted);
    let se = margins_of(squares, level, block.se, margins, wanted);
    Quarters {
        nw: seen_or_other(inside, side, false, false, &nw, block.nw, blank),
        ne: seen_or_other(inside, side, true, false, &ne, block.ne, blank),
        sw: seen_or_other(inside, side, false, true, &sw, block.sw, blank),
        se: seen_or_other(inside, side, true, true, &se, block.se, blank),
    }
}

/// Four squares in place of these: the square that begins so far in the first sees the same of them. Where `alike` says so, all four squares of which it
/// sees the same are replaced by the same.
pub(crate) fn seen<S: Squares>(
    squares: &S,
    views: &mut Views,
    offset: Offset,
    level: u8,
    block: &Quarters,
    alike: bool,
) -> Quarters
    requires known { InBlock (IsOfLevel (S.knows squares.now) (S.content squares.now) level)
        block.now }
    requires high { level ≤ MAX_LEVEL }
    requires right { AreViews (S.knows squares.now) (S.content squares.now) offset.columns
        offset.rows views.old }
    ensures known { InBlock (IsOfLevel (S.knows squares.now) (S.content squares.now) level) result }
    ensures seen { (cells : ℤ → ℤ → ℕ) (x y : ℤ)
        → IsBlock (S.content squares.now) cells (2 ^ level) x y block.now
        → IsSeenAs (S.content squares.now) cells offset.columns offset.rows level x y result }
    ensures right { AreViews (S.knows squares.now) (S.content squares.now) offset.columns
        offset.rows views.new }
{
    let kept = without_margins(squares, &mut views.margins, offset, level, block);
    if !alike || !is_kept(level) {
        return kept;
    }
    with_firsts(squares, &mut views.parts, offset, level, &kept)
}
