//! A leap that is shorter than the squares at its top allow: above level pace + 2 only the second part of a leap takes generations. Below, squares leap as far as
//! their level allows, whatever the pace is, so that their answers serve the leaps of every pace.
ghost use Rattle.std.specs.Prelude.{◌≡◌, ◌+◌, ◌-◌, ◌^◌, ◌<◌, ◌≤◌, false, IfOk, IfErr, Some};
ghost use Rattle.life_leap.specs.Words.{has_digit, is_blank_tree, IsOfLevel, InTriple, IsMiddleAfter, IsMiddleOfNine, leap_length, RemembersLeaps, KeepsStore, IsShortageIn, value_of_id};

use crate::grid::{Nine, sixteenths};
use crate::growing::FASTEST;
use crate::leap::{four_joined, middle_after, nine_centres};
use life_base::{Kind, LifeRule, MAX_LEVEL};
use life_quad::{Id, IdMap, Squares, is_blank_at};

/// The square in the middle of a square of this level, `leap_length` generations later. `fast` has the answers of the squares that leap as far as their level
/// allows, and `slow` those of this pace.
#[cycle(slow)]
fn middle_at_pace<S: Squares>(
    squares: &mut S,
    fast: &mut IdMap<Option<Id>>,
    slow: &mut IdMap<Option<Id>>,
    rule: &LifeRule,
    pace: u8,
    level: u8,
    id: Id,
) -> Result<Id, Kind>
    requires fast { RemembersLeaps (S.knows squares.old) (S.content squares.old) rule.now FASTEST
        (value_of_id fast.old) }
    requires slow { RemembersLeaps (S.knows squares.old) (S.content squares.old) rule.now pace
        (value_of_id slow.old) }
    requires known { IsOfLevel (S.knows squares.old) (S.content squares.old) level id }
    requires low { 4 ≤ level }
    requires high { level ≤ MAX_LEVEL }
    requires pace { pace ≤ FASTEST }
    requires quiet { has_digit rule.now.sets.births 0 ≡ false }
    ensures at { IfOk result
        (IsOfLevel (S.knows squares.new) (S.content squares.new) (level - 1)) }
    ensures fast { IfOk result
        (λ _. RemembersLeaps (S.knows squares.new)
        (S.content squares.new) rule.now FASTEST (value_of_id fast.new)) }
    ensures slow { IfOk result
        (λ _. RemembersLeaps (S.knows squares.new)
        (S.content squares.new) rule.now pace (value_of_id slow.new)) }
    ensures later { IfOk result
        (λ r. IsMiddleAfter rule.now (leap_length pace level) (2 ^ (level - 2))
        (S.content squares.old id) (S.content squares.new r)) }
    ensures keeps { KeepsStore S.Squares squares.old squares.new }
    ensures refusals { IfErr result (IsShortageIn S.Squares squares.new) }
{
    if level <= pace + 2 {
        return middle_after(squares, fast, rule, FASTEST, level, id);
    }
    if level == 4 {
        return middle_after(squares, slow, rule, pace, level, id);
    }
    middle_above(squares, fast, slow, rule, pace, level, id)
}

/// The same of a square that is above the level at which its pace is the fastest.
#[cycle(slow)]
fn middle_above<S: Squares>(
    squares: &mut S,
    fast: &mut IdMap<Option<Id>>,
    slow: &mut IdMap<Option<Id>>,
    rule: &LifeRule,
    pace: u8,
    level: u8,
    id: Id,
) -> Result<Id, Kind>
    requires fast { RemembersLeaps (S.knows squares.old) (S.content squares.old) rule.now FASTEST
        (value_of_id fast.old) }
    requires slow { RemembersLeaps (S.knows squares.old) (S.content squares.old) rule.now pace
        (value_of_id slow.old) }
    requires known { IsOfLevel (S.knows squares.old) (S.content squares.old) level id }
    requires low { 5 ≤ level }
    requires high { level ≤ MAX_LEVEL }
    requires above { pace + 2 < level }
    requires pace { pace ≤ FASTEST }
    requires quiet { has_digit rule.now.sets.births 0 ≡ false }
    ensures at { IfOk result
        (IsOfLevel (S.knows squares.new) (S.content squares.new) (level - 1)) }
    ensures fast { IfOk result
        (λ _. RemembersLeaps (S.knows squares.new)
        (S.content squares.new) rule.now FASTEST (value_of_id fast.new)) }
    ensures slow { IfOk result
        (λ _. RemembersLeaps (S.knows squares.new)
        (S.content squares.new) rule.now pace (value_of_id slow.new)) }
    ensures put { is_blank_tree (S.content squares.old id) ≡ false
        → IfOk result (λ r. value_of_id slow.new id ≡ Some r) }
    ensures later { IfOk result
        (λ r. IsMiddleAfter rule.now (leap_length pace level) (2 ^ (level - 2))
        (S.content squares.old id) (S.content squares.new r)) }
    ensures keeps { KeepsStore S.Squares squares.old squares.new }
    ensures refusals { IfErr result (IsShortageIn S.Squares squares.new) }
{
    if is_blank_at(squares, level, id) {
        return Ok(squares.empty(level - 1));
    }
    if let Some(answer) = slow.get(id) {
        return Ok(answer);
    }
    let sixteen = sixteenths(squares, level - 2, id);
    let nine = nine_centres(squares, level - 2, &sixteen)?;
    let answer = middle_of_nine_at_pace(squares, fast, slow, rule, pace, level - 2, &nine)?;
    slow.set(id, Some(answer))?;
    Ok(answer)
}

/// The second part of a leap: the square in the middle of nine squares of this level, one level higher and `leap_length` generations later.
#[cycle(slow)]
pub(crate) fn middle_of_nine_at_pace<S: Squares>(
    squares: &mut S,
    fast: &mut IdMap<Option<Id>>,
    slow: &mut IdMap<Option<Id>>,
    rule: &LifeRule,
    pace: u8,
    level: u8,
    nine: &Nine,
) -> Result<Id, Kind>
    requires fast { RemembersLeaps (S.knows squares.old) (S.content squares.old) rule.now FASTEST
        (value_of_id fast.old) }
    requires slow { RemembersLeaps (S.knows squares.old) (S.content squares.old) rule.now pace
        (value_of_id slow.old) }
    requires known { InTriple (InTriple (IsOfLevel (S.knows squares.old)
        (S.content squares.old) level)) nine.now }
    requires low { 3 ≤ level }
    requires high { level < MAX_LEVEL }
    requires pace { pace ≤ FASTEST }
    requires quiet { has_digit rule.now.sets.births 0 ≡ false }
    ensures at { IfOk result (IsOfLevel (S.knows squares.new) (S.content squares.new) (level + 1)) }
    ensures fast { IfOk result
        (λ _. RemembersLeaps (S.knows squares.new)
        (S.content squares.new) rule.now FASTEST (value_of_id fast.new)) }
    ensures slow { IfOk result
        (λ _. RemembersLeaps (S.knows squares.new)
        (S.content squares.new) rule.now pace (value_of_id slow.new)) }
    ensures later { IfOk result (λ r. IsMiddleOfNine rule.now (leap_length pace (level + 1))
        (2 ^ (level - 1)) (S.content squares.old) level nine.now (S.content squares.new r)) }
    ensures keeps { KeepsStore S.Squares squares.old squares.new }
    ensures refusals { IfErr result (IsShortageIn S.Squares squares.new) }
{
    let joined = four_joined(squares, level, nine)?;
    let nw = middle_at_pace(squares, fast, slow, rule, pace, level + 1, joined.nw)?;
    let ne = middle_at_pace(squares, fast, slow, rule, pace, level + 1, joined.ne)?;
    let sw = middle_at_pace(squares, fast, slow, rule, pace, level + 1, joined.sw)?;
    let se = middle_at_pace(squares, fast, slow, rule, pace, level + 1, joined.se)?;
    squares.join(nw, ne, sw, se)
}
