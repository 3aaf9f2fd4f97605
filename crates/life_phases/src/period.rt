//! The period of a pattern: one generation after another, until a phase is a shift of the first one.
ghost use Rattle.std.specs.Prelude.{◌≡◌, ◌≢◌, ℤ, ◌+◌, ◌<◌, ◌≤◌, true, false, Some, None, IfOk, IfErr, MatchOption};
ghost use Rattle.life_phases.specs.Words.{content, depth, tree_cell, IsAsLargeAs, IsBoxOnPlane, IsKnownInShared, IsSquareInMiddle, IsMovedBy, IsPeriodFault, IsPeriodUpTo, IsFirstFault, IsShortageKind, KeepsShared, LeavesFirst, LeavesFromMiddle, NoShift, still_life, stored_squares};

use crate::middle::{Shift, are_as_large, in_middle, way_to_middle};
use crate::next::next_phase;
use life_base::{Bounds, Fault, Kind, LifeRule};
use life_quad::{Id, Shared, SharedSquares, bounds, is_blank};
use std::alloc::Global;

/// After how many generations a pattern is the same again, and how far it has moved by then.
#[derive(Clone, Copy, Debug, PartialEq, Eq)]
pub struct Period {
    pub generations: u64,
    pub shift: Shift,
}

/// Whether two Ids are the same.
fn is_same(a: Id, b: Id) -> bool
    ensures same { result ≡ true → a ≡ b }
    ensures other { result ≡ false → a ≢ b }
{
    a == b
}

/// How far the cells of the first square are moved in the second one, if the second one has the same cells but for that. The first square is in the middle of
/// the plane and has a cell, and its box is as large as the given one. If the second one's box is too, the second one is moved there, in the store of the first
/// one.
fn shift_to(
    alloc: Global,
    middles: &mut Shared,
    first: Id,
    outline: &Bounds,
    course: &Shared,
    now: Id,
) -> Result<Option<Shift>, Kind>
    requires first { IsKnownInShared middles.old first }
    requires middle { IsSquareInMiddle (content middles.old first) }
    requires plane { IsBoxOnPlane outline.now }
    requires outline { IsAsLargeAs outline.now (content middles.old first) }
    requires now { IsKnownInShared course.now now }
    requires low { 3 ≤ depth (content course.now now) }
    ensures shift { IfOk result (λ found. MatchOption found
        (NoShift (tree_cell (content middles.old first)) (tree_cell (content course.now now)))
        (λ shift. IsMovedBy shift.columns shift.rows (tree_cell (content middles.old first))
        (tree_cell (content course.now now)))) }
    ensures keeps { KeepsShared middles.old middles.new }
    ensures refusals { IfErr result (λ kind. IsShortageKind (stored_squares middles.new)
        middles.new.limit kind) }
{
    let Some(found) = bounds(alloc, course, now)? else {
        return Ok(None);
    };
    if !are_as_large(outline, &found) {
        return Ok(None);
    }
    let way = way_to_middle(&found);
    let id = in_middle(alloc, course, middles, now, &found, way)?;
    if is_same(id, first) {
        return Ok(Some(Shift {
            columns: 0 - way.columns,
            rows: 0 - way.rows,
        }));
    }
    Ok(None)
}

/// The least period of a square in the middle of the plane that has a cell. The other square has the same cells, in the store of the phases that are moved to
/// the middle, and its box is as large as the given one.
fn first_period(
    alloc: Global,
    course: &mut Shared,
    middles: &mut Shared,
    rule: &LifeRule,
    start: Id,
    first: Id,
    outline: &Bounds,
    most: u64,
) -> Result<Option<Period>, Fault>
    requires start { IsKnownInShared course.old start }
    requires low { 3 ≤ depth (content course.old start) }
    requires states { (x y : ℤ) → tree_cell (content course.old start) x y < 2 }
    requires first { IsKnownInShared middles.old first }
    requires middle { IsSquareInMiddle (content middles.old first) }
    requires plane { IsBoxOnPlane outline.now }
    requires outline { IsAsLargeAs outline.now (content middles.old first) }
    requires same { (x y : ℤ) → tree_cell (content middles.old first) x y
        ≡ tree_cell (content course.old start) x y }
    ensures period { IfOk result (IsPeriodUpTo rule.now (tree_cell (content course.old start))
        most) }
    ensures stays { IfOk result
        (λ _. ¬ (LeavesFirst rule.now most (tree_cell (content course.old start)))) }
    ensures refusals { IfErr result (IsFirstFault rule.now most
        (tree_cell (content course.old start))) }
{
    // Reading a field gives its invariant to the proof: no cell is born without live neighbours.
    let _ = &rule.births;
    let mut now = start;
    let mut done = 0;
    while done < most {
        let next = next_phase(alloc, course, rule, now)?;
        if is_blank(&*course, next) {
            return Ok(None);
        }
        let found = shift_to(alloc, middles, first, outline, &*course, next)?;
        if let Some(shift) = found {
            return Ok(Some(Period {
                generations: done + 1,
                shift,
            }));
        }
        now = next;
        done += 1;
    }
    Ok(None)
}

/// The period of a pattern without cells: it is a still life.
fn period_of_blank(most: u64) -> Option<Period>
    ensures none { most ≡ 0 → result ≡ None }
    ensures still { 1 ≤ most → result ≡ Some still_life }
{
    if most == 0 {
        return None;
    }
    Some(Period {
        generations: 1,
        shift: Shift {
            columns: 0,
            rows: 0,
        },
    })
}

/// The least number of generations, from 1 to `most`, after which a pattern is the same again, moved or not, and how far it has moved by then. `None` if there
/// is no such number. A pattern without cells has period 1 and moves by nothing.
///
/// The pattern is moved to the middle of the plane first. So the answer is the same wherever on the plane it is.
///
/// # Errors
///
/// `OutOfPlane` if the pattern, moved to the middle of the plane, leaves the plane in one of these generations, before a period is found. A pattern of at most
/// 2^61 columns and rows takes 2^60 generations at least to leave it. `Full` if one of the call's own stores reaches the limit of the given one, and
/// `Memory` if memory runs out. The given store isn't changed.
pub fn period_of(
    alloc: Global,
    squares: &Shared,
    rule: &LifeRule,
    root: Id,
    most: u64,
) -> Result<Option<Period>, Fault>
    requires known { IsKnownInShared squares.now root }
    requires low { 3 ≤ depth (content squares.now root) }
    requires states { (x y : ℤ) → tree_cell (content squares.now root) x y < 2 }
    ensures period { IfOk result (IsPeriodUpTo rule.now (tree_cell (content squares.now root))
        most) }
    ensures stays { IfOk result
        (λ _. ¬ (LeavesFromMiddle rule.now most (tree_cell (content squares.now root)))) }
    ensures refusals { IfErr result (IsPeriodFault rule.now most
        (tree_cell (content squares.now root))) }
{
    // Reading a field gives its invariant to the proof: no cell is born without live neighbours.
    let _ = &rule.births;
    let Some(found) = bounds(alloc, squares, root)? else {
        return Ok(period_of_blank(most));
    };
    let way = way_to_middle(&found);
    let mut course = Shared::seeded(alloc, squares.seed(), squares.limit());
    let start = in_middle(alloc, squares, &mut course, root, &found, way)?;
    let mut middles = Shared::seeded(alloc, squares.seed(), squares.limit());
    let first = in_middle(alloc, squares, &mut middles, root, &found, way)?;
    first_period(
        alloc,
        &mut course,
        &mut middles,
        rule,
        start,
        first,
        &found,
        most,
    )
}
