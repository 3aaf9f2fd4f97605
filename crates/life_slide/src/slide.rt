//! The square that begins at another place.
ghost use Rattle.std.specs.Prelude.{◌≡◌, ℕ, ℤ, ◌+◌, ◌^◌, ◌%◌, ◌/◌, ◌==◌, ◌<◌, ◌≤◌, IfOk, IfErr, OnErr};
ghost use Rattle.life_slide.specs.Words.{MAX_LEVEL, SomeOfBlock, SomeOfNineSquares, RemembersSlides, IsPiece, IsOfLevel, InBlock, InNine, IsBlock, AreNinePieces, HasBlockAt, step_ahead, AreViews, AddsOnly, KeepsStore, IsShortageIn};

use crate::grid::{are_all, eastern, quarters, western};
use crate::leaf::{leaf_cells, leaf_of_block};
use crate::remembered::{Answers, recalled, remember};
use crate::seen::{Views, seen};
use life_base::{Kind, MAX_LEVEL};
use life_pieces::Nine;
use life_quad::{Id, Quarters, SharedSquares, Squares};
use std::alloc::Global;

/// How far east and south a square begins. For a square of level k only the lowest k binary digits of both count.
#[derive(Clone, Copy)]
pub struct Offset {
    /// How many columns east.
    pub columns: u64,
    /// How many rows south.
    pub rows: u64,
}

// The digit of an offset that counts squares of this level.
pub(crate) fn digit(offset: u64, level: u8) -> bool
    requires { level ≤ MAX_LEVEL }
    ensures { result ≡ (offset / 2 ^ level % 2 == 1) }
{
    (offset >> level) % 2 == 1
}

#[cycle(slide)]
// The square of this level that begins in the first of four, in another store.
fn slid_of<S: Squares, T: Squares>(
    from: &S,
    to: &mut T,
    answers: &mut Answers,
    views: &mut Views,
    offset: Offset,
    level: u8,
    block: &Quarters,
) -> Result<Id, Kind>
    requires remembers { RemembersSlides (S.knows from.now) (S.content from.now) (T.knows to.old)
        (T.content to.old) offset.columns offset.rows answers.old.table }
    requires right { AreViews (S.knows from.now) (S.content from.now) offset.columns offset.rows
        views.old }
    requires known { InBlock (IsOfLevel (S.knows from.now) (S.content from.now) level) block.now }
    requires high { level ≤ MAX_LEVEL }
    ensures at { IfOk result (IsOfLevel (T.knows to.new) (T.content to.new) level) }
    ensures remembers { IfOk result (λ _. RemembersSlides (S.knows from.now) (S.content from.now)
        (T.knows to.new) (T.content to.new) offset.columns offset.rows answers.new.table) }
    ensures right { IfOk result (λ _. AreViews (S.knows from.now) (S.content from.now)
        offset.columns offset.rows views.new) }
    ensures slid { IfOk result (λ r. (cells : ℤ → ℤ → ℕ) (x y : ℤ)
        → IsBlock (S.content from.now) cells (2 ^ level) x y block.now
        → IsPiece cells (step_ahead x (offset.columns % 2 ^ level))
        (step_ahead y (offset.rows % 2 ^ level))
        (T.content to.new r)) }
    ensures keeps { KeepsStore T.Squares to.old to.new }
    ensures refusals { IfErr result (IsShortageIn T.Squares to.new) }
    ensures needed { OnErr result (SomeOfBlock (T.needs_node to.new) (S.content from.now)
        offset.columns offset.rows level block.now) }
    ensures adds { AddsOnly T.stored
        (λ P. SomeOfBlock P (S.content from.now) offset.columns offset.rows level block.now)
        to.old to.new }
{
    if are_all(block, from.empty(level)) {
        return Ok(to.empty(level));
    }
    let inside = seen(from, views, offset, level, block, answers.are_repeated());
    slid_of_seen(from, to, answers, views, offset, level, &inside)
}

#[cycle(slide)]
// The same of four squares of which it may see each.
fn slid_of_seen<S: Squares, T: Squares>(
    from: &S,
    to: &mut T,
    answers: &mut Answers,
    views: &mut Views,
    offset: Offset,
    level: u8,
    block: &Quarters,
) -> Result<Id, Kind>
    requires remembers { RemembersSlides (S.knows from.now) (S.content from.now) (T.knows to.old)
        (T.content to.old) offset.columns offset.rows answers.old.table }
    requires right { AreViews (S.knows from.now) (S.content from.now) offset.columns offset.rows
        views.old }
    requires known { InBlock (IsOfLevel (S.knows from.now) (S.content from.now) level) block.now }
    requires high { level ≤ MAX_LEVEL }
    ensures at { IfOk result (IsOfLevel (T.knows to.new) (T.content to.new) level) }
    ensures remembers { IfOk result (λ _. RemembersSlides (S.knows from.now) (S.content from.now)
        (T.knows to.new) (T.content to.new) offset.columns offset.rows answers.new.table) }
    ensures right { IfOk result (λ _. AreViews (S.knows from.now) (S.content from.now)
        offset.columns offset.rows views.new) }
    ensures slid { IfOk result (λ r. (cells : ℤ → ℤ → ℕ) (x y : ℤ)
        → IsBlock (S.content from.now) cells (2 ^ level) x y block.now
        → IsPiece cells (step_ahead x (offset.columns % 2 ^ level))
        (step_ahead y (offset.rows % 2 ^ level))
        (T.content to.new r)) }
    ensures keeps { KeepsStore T.Squares to.old to.new }
    ensures refusals { IfErr result (IsShortageIn T.Squares to.new) }
    ensures needed { OnErr result (SomeOfBlock (T.needs_node to.new) (S.content from.now)
        offset.columns offset.rows level block.now) }
    ensures adds { AddsOnly T.stored
        (λ P. SomeOfBlock P (S.content from.now) offset.columns offset.rows level block.now)
        to.old to.new }
{
    if are_all(block, from.empty(level)) {
        return Ok(to.empty(level));
    }
    if let Some(state) = from.state(block.nw) {
        return Ok(to.cell(state));
    }
    if let Some(cells) = leaf_cells(from, offset, level, block) {
        return to.small(cells);
    }
    if let Some(cells) = leaf_of_block(from, offset, level, block) {
        return to.leaf(cells);
    }
    slid_by_quarters(from, to, answers, views, offset, level, block)
}

#[cycle(slide)]
// The same of squares with quarters.
fn slid_by_quarters<S: Squares, T: Squares>(
    from: &S,
    to: &mut T,
    answers: &mut Answers,
    views: &mut Views,
    offset: Offset,
    level: u8,
    block: &Quarters,
) -> Result<Id, Kind>
    requires remembers { RemembersSlides (S.knows from.now) (S.content from.now) (T.knows to.old)
        (T.content to.old) offset.columns offset.rows answers.old.table }
    requires right { AreViews (S.knows from.now) (S.content from.now) offset.columns offset.rows
        views.old }
    requires known { InBlock (IsOfLevel (S.knows from.now) (S.content from.now) level) block.now }
    requires high { level ≤ MAX_LEVEL }
    requires low { 1 ≤ level }
    ensures at { IfOk result (IsOfLevel (T.knows to.new) (T.content to.new) level) }
    ensures remembers { IfOk result (λ _. RemembersSlides (S.knows from.now) (S.content from.now)
        (T.knows to.new) (T.content to.new) offset.columns offset.rows answers.new.table) }
    ensures right { IfOk result (λ _. AreViews (S.knows from.now) (S.content from.now)
        offset.columns offset.rows views.new) }
    ensures slid { IfOk result (λ r. (cells : ℤ → ℤ → ℕ) (x y : ℤ)
        → IsBlock (S.content from.now) cells (2 ^ level) x y block.now
        → IsPiece cells (step_ahead x (offset.columns % 2 ^ level))
        (step_ahead y (offset.rows % 2 ^ level))
        (T.content to.new r)) }
    ensures keeps { KeepsStore T.Squares to.old to.new }
    ensures refusals { IfErr result (IsShortageIn T.Squares to.new) }
    ensures needed { OnErr result (SomeOfBlock (T.needs_node to.new) (S.content from.now)
        offset.columns offset.rows level block.now) }
    ensures adds { AddsOnly T.stored
        (λ P. SomeOfBlock P (S.content from.now) offset.columns offset.rows level block.now)
        to.old to.new }
{
    if let Some(answer) = recalled(answers, level, block) {
        return Ok(answer);
    }
    let below = level - 1;
    let nine = quarters(
        from,
        below,
        block,
        digit(offset.columns, below),
        digit(offset.rows, below),
    );
    let answer = slid_of_nine(from, to, answers, views, offset, below, &nine)?;
    remember(answers, level, block, answer);
    Ok(answer)
}

#[cycle(slide)]
// The square one level higher that begins in the first of nine.
fn slid_of_nine<S: Squares, T: Squares>(
    from: &S,
    to: &mut T,
    answers: &mut Answers,
    views: &mut Views,
    offset: Offset,
    level: u8,
    nine: &Nine,
) -> Result<Id, Kind>
    requires remembers { RemembersSlides (S.knows from.now) (S.content from.now) (T.knows to.old)
        (T.content to.old) offset.columns offset.rows answers.old.table }
    requires right { AreViews (S.knows from.now) (S.content from.now) offset.columns offset.rows
        views.old }
    requires known { InNine (IsOfLevel (S.knows from.now) (S.content from.now) level) nine.now }
    requires high { level < MAX_LEVEL }
    ensures at { IfOk result (IsOfLevel (T.knows to.new) (T.content to.new) (level + 1)) }
    ensures remembers { IfOk result (λ _. RemembersSlides (S.knows from.now) (S.content from.now)
        (T.knows to.new) (T.content to.new) offset.columns offset.rows answers.new.table) }
    ensures right { IfOk result (λ _. AreViews (S.knows from.now) (S.content from.now)
        offset.columns offset.rows views.new) }
    ensures slid { IfOk result (λ r. (cells : ℤ → ℤ → ℕ) (x y : ℤ)
        → AreNinePieces (S.content from.now) cells (2 ^ level) x y nine.now
        → IsPiece cells (step_ahead x (offset.columns % 2 ^ level))
        (step_ahead y (offset.rows % 2 ^ level))
        (T.content to.new r)) }
    ensures keeps { KeepsStore T.Squares to.old to.new }
    ensures refusals { IfErr result (IsShortageIn T.Squares to.new) }
    ensures needed { OnErr result (SomeOfNineSquares (T.needs_node to.new) (S.content from.now)
        offset.columns offset.rows level nine.now) }
    ensures adds { AddsOnly T.stored
        (λ P. SomeOfNineSquares P (S.content from.now) offset.columns offset.rows level nine.now)
        to.old to.new }
{
    let nw = slid_of(
        from,
        to,
        answers,
        views,
        offset,
        level,
        &western(&nine.before, &nine.here),
    )?;
    let ne = slid_of(
        from,
        to,
        answers,
        views,
        offset,
        level,
        &eastern(&nine.before, &nine.here),
    )?;
    let sw = slid_of(
        from,
        to,
        answers,
        views,
        offset,
        level,
        &western(&nine.here, &nine.after),
    )?;
    let se = slid_of(
        from,
        to,
        answers,
        views,
        offset,
        level,
        &eastern(&nine.here, &nine.after),
    )?;
    to.join(nw, ne, sw, se)
}

/// Of four squares of a level, two by two, and a lower level: the four squares of that level, two by two, in the first of which the square of that level
/// begins that begins so many columns east and rows south of the first of the given ones.
pub(crate) fn window<S: Squares>(
    squares: &S,
    offset: Offset,
    level: u8,
    low: u8,
    block: &Quarters,
) -> Quarters
    requires known { InBlock (IsOfLevel (S.knows squares.now) (S.content squares.now) level)
        block.now }
    requires low { low ≤ level }
    requires high { level ≤ MAX_LEVEL }
    ensures known { InBlock (IsOfLevel (S.knows squares.now) (S.content squares.now) low) result }
    ensures begins { (cells : ℤ → ℤ → ℕ) (x y : ℤ)
        → IsBlock (S.content squares.now) cells (2 ^ level) x y block.now
        → HasBlockAt (S.content squares.now) cells offset.columns offset.rows low
        (step_ahead x (offset.columns % 2 ^ level)) (step_ahead y (offset.rows % 2 ^ level))
        result }
{
    if level == low {
        return *block;
    }
    let below = level - 1;
    let nine = quarters(
        squares,
        below,
        block,
        digit(offset.columns, below),
        digit(offset.rows, below),
    );
    window(
        squares,
        offset,
        below,
        low,
        &western(&nine.before, &nine.here),
    )
}

/// The square that begins so many columns east and rows south of the first of four squares, two by two, and has their level, in another store. Each
/// square that is stored there is part of that one. Of the offset only what is left after division by the side length of the squares matters.
///
/// # Errors
///
/// `Full` if the other store holds its limit and lacks a part of that square, or `Memory`. After an error each Id has its square.
pub fn slid<S: SharedSquares, T: Squares>(
    alloc: Global,
    from: &S,
    to: &mut T,
    offset: Offset,
    level: u8,
    block: &Quarters,
) -> Result<Id, Kind>
    requires known { InBlock (IsOfLevel (S.knows from.now) (S.content from.now) level) block.now }
    requires high { level ≤ MAX_LEVEL }
    ensures at { IfOk result (IsOfLevel (T.knows to.new) (T.content to.new) level) }
    ensures slid { IfOk result (λ r. (cells : ℤ → ℤ → ℕ) (x y : ℤ)
        → IsBlock (S.content from.now) cells (2 ^ level) x y block.now
        → IsPiece cells (step_ahead x (offset.columns % 2 ^ level))
        (step_ahead y (offset.rows % 2 ^ level))
        (T.content to.new r)) }
    ensures keeps { KeepsStore T.Squares to.old to.new }
    ensures refusals { IfErr result (IsShortageIn T.Squares to.new) }
    ensures needed { OnErr result (SomeOfBlock (T.needs_node to.new) (S.content from.now)
        offset.columns offset.rows level block.now) }
    ensures adds { AddsOnly T.stored
        (λ P. SomeOfBlock P (S.content from.now) offset.columns offset.rows level block.now)
        to.old to.new }
{
    let mut answers = Answers::new(alloc, from.seed());
    let mut views = Views::new(alloc, from.seed());
    slid_of(from, to, &mut answers, &mut views, offset, level, block)
}
