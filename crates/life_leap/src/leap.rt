//! The square in the middle of a square, many generations later: the recursion of HashLife with its memory.
//!
//! `middle_after` returns the middle of a square of level k, which has level k - 1, after `leap_length` generations: 2^pace, but at most 2^(k - 2), because a
//! state spreads by one cell in a generation. It divides the square into sixteen, makes the nine squares in the middle of each block of two by two
//! (`nine_halfway`), and of these the four in the middle of each block again (`middle_of_nine`). If the pace is less than the level of the sixteen squares,
//! the second
//! part already takes all generations, so that the first part takes none (`nine_centres`).
ghost use Rattle.std.specs.Prelude.{◌≡◌, ℕ, ℤ, ◌+◌, ◌-◌, ◌^◌, ◌<◌, ◌≤◌, false, IfOk, IfErr, IfSome, Some};
ghost use Rattle.life_leap.specs.Words.{after, AreKnownCorners, HasEnds, has_digit, depth, tree_cell, HasMargin, IsOfLevel, InRow, InTriple, InFourIds, IsBlankSquareBeyond, OuterTotalistic, IsMiddleAfter, IsMiddleOfNine, IsPiece, AreMiddlesOfSixteen, AreThreeMiddles, nine_blocks_of, AreNineJoined, AreFourJoined, IsInnerBlock, AreThreeInner, AreNineSquares, AreThreeSquares, IsFirstPart, leap_length, RemembersLeaps, KeepsStore, IsShortageIn, step_ahead, step_back, is_blank_tree, value_of_id};

use crate::bands::leaf_after;
use crate::grid::{Nine, NineBlocks, Row, Sixteen, Triple, sixteenths};
use crate::growing::FASTEST;
use crate::slow::middle_of_nine_at_pace;
use life_base::{Kind, LifeRule, MAX_LEVEL};
use life_quad::{Id, IdMap, Quarters, SharedSquares, Squares, divide, is_blank_at};
use std::alloc::Global;

/// The square in the middle of a square of this level, `leap_length` generations later. It has half of the side. The memory has the answers of earlier calls by
/// the Ids of their squares. All are for one rule and one pace, so that the Id is the whole key.
#[cycle(leap)]
pub(crate) fn middle_after<S: Squares>(
    squares: &mut S,
    memory: &mut IdMap<Option<Id>>,
    rule: &LifeRule,
    pace: u8,
    level: u8,
    id: Id,
) -> Result<Id, Kind>
    requires remembers { RemembersLeaps (S.knows squares.old) (S.content squares.old) rule.now pace
        (value_of_id memory.old) }
    requires known { IsOfLevel (S.knows squares.old) (S.content squares.old) level id }
    requires low { 4 ≤ level }
    requires high { level ≤ MAX_LEVEL }
    requires quiet { has_digit rule.now.sets.births 0 ≡ false }
    ensures at { IfOk result
        (IsOfLevel (S.knows squares.new) (S.content squares.new) (level - 1)) }
    ensures remembers { IfOk result
        (λ _. RemembersLeaps (S.knows squares.new)
        (S.content squares.new) rule.now pace (value_of_id memory.new)) }
    ensures put { is_blank_tree (S.content squares.old id) ≡ false
        → IfOk result (λ r. value_of_id memory.new id ≡ Some r) }
    ensures later { IfOk result
        (λ r. IsMiddleAfter rule.now (leap_length pace level) (2 ^ (level - 2))
        (S.content squares.old id) (S.content squares.new r)) }
    ensures keeps { KeepsStore S.Squares squares.old squares.new }
    ensures refusals { IfErr result (IsShortageIn S.Squares squares.new) }
{
    if is_blank_at(squares, level, id) {
        return Ok(squares.empty(level - 1));
    }
    if let Some(answer) = memory.get(id) {
        return Ok(answer);
    }
    let answer = middle_of_new(squares, memory, rule, pace, level, id)?;
    memory.set(id, Some(answer))?;
    Ok(answer)
}

/// What `middle_after` returns, for a square whose answer isn't remembered.
#[cycle(leap)]
fn middle_of_new<S: Squares>(
    squares: &mut S,
    memory: &mut IdMap<Option<Id>>,
    rule: &LifeRule,
    pace: u8,
    level: u8,
    id: Id,
) -> Result<Id, Kind>
    requires remembers { RemembersLeaps (S.knows squares.old) (S.content squares.old) rule.now pace
        (value_of_id memory.old) }
    requires known { IsOfLevel (S.knows squares.old) (S.content squares.old) level id }
    requires low { 4 ≤ level }
    requires high { level ≤ MAX_LEVEL }
    requires quiet { has_digit rule.now.sets.births 0 ≡ false }
    ensures at { IfOk result
        (IsOfLevel (S.knows squares.new) (S.content squares.new) (level - 1)) }
    ensures remembers { IfOk result
        (λ _. RemembersLeaps (S.knows squares.new)
        (S.content squares.new) rule.now pace (value_of_id memory.new)) }
    ensures later { IfOk result
        (λ r. IsMiddleAfter rule.now (leap_length pace level) (2 ^ (level - 2))
        (S.content squares.old id) (S.content squares.new r)) }
    ensures keeps { KeepsStore S.Squares squares.old squares.new }
    ensures refusals { IfErr result (IsShortageIn S.Squares squares.new) }
{
    if level == 4 {
        return leaf_after(squares, rule, pace, id);
    }
    let below = level - 2;
    let corners = divide(squares, id);
    let sixteen = sixteenths(squares, below, id);
    let nine = nine_halfway(squares, memory, rule, pace, below, &sixteen, &Some(corners))?;
    middle_of_nine(squares, memory, rule, pace, below, &nine)
}

/// The first part of a leap: of sixteen squares of this level, the nine squares of the same level in the middle of each block of two by two.
#[cycle(leap)]
fn nine_halfway<S: Squares>(
    squares: &mut S,
    memory: &mut IdMap<Option<Id>>,
    rule: &LifeRule,
    pace: u8,
    level: u8,
    sixteen: &Sixteen,
    corners: &Option<Quarters>,
) -> Result<Nine, Kind>
    requires remembers { RemembersLeaps (S.knows squares.old) (S.content squares.old) rule.now pace
        (value_of_id memory.old) }
    requires known { InRow (InRow (IsOfLevel (S.knows squares.old)
        (S.content squares.old) level)) sixteen.now }
    requires corners { IfSome corners.now (AreKnownCorners (S.knows squares.old)
        (S.content squares.old) level (nine_blocks_of sixteen.now)) }
    requires low { 3 ≤ level }
    requires high { level < MAX_LEVEL }
    requires quiet { has_digit rule.now.sets.births 0 ≡ false }
    ensures known { IfOk result (InTriple (InTriple (IsOfLevel (S.knows squares.new)
        (S.content squares.new) level))) }
    ensures remembers { IfOk result
        (λ _. RemembersLeaps (S.knows squares.new)
        (S.content squares.new) rule.now pace (value_of_id memory.new)) }
    ensures later { IfOk result (λ r. IsFirstPart rule.now pace (S.content squares.old)
        (S.content squares.new) level sixteen.now r) }
    ensures keeps { KeepsStore S.Squares squares.old squares.new }
    ensures refusals { IfErr result (IsShortageIn S.Squares squares.new) }
{
    if pace < level {
        return nine_centres(squares, level, sixteen);
    }
    nine_after(squares, memory, rule, pace, level, sixteen, corners)
}

/// The squares in the middle of the nine blocks of two by two, `leap_length` generations later. The corners are the squares that the four blocks
/// there make, if they are known.
#[cycle(leap)]
pub(crate) fn nine_after<S: Squares>(
    squares: &mut S,
    memory: &mut IdMap<Option<Id>>,
    rule: &LifeRule,
    pace: u8,
    level: u8,
    sixteen: &Sixteen,
    corners: &Option<Quarters>,
) -> Result<Nine, Kind>
    requires remembers { RemembersLeaps (S.knows squares.old) (S.content squares.old) rule.now pace
        (value_of_id memory.old) }
    requires known { InRow (InRow (IsOfLevel (S.knows squares.old)
        (S.content squares.old) level)) sixteen.now }
    requires corners { IfSome corners.now (AreKnownCorners (S.knows squares.old)
        (S.content squares.old) level (nine_blocks_of sixteen.now)) }
    requires low { 3 ≤ level }
    requires high { level < MAX_LEVEL }
    requires quiet { has_digit rule.now.sets.births 0 ≡ false }
    ensures known { IfOk result (InTriple (InTriple (IsOfLevel (S.knows squares.new)
        (S.content squares.new) level))) }
    ensures remembers { IfOk result
        (λ _. RemembersLeaps (S.knows squares.new)
        (S.content squares.new) rule.now pace (value_of_id memory.new)) }
    ensures later { IfOk result (λ r. AreMiddlesOfSixteen rule.now (leap_length pace (level + 1))
        (2 ^ (level - 1)) (S.content squares.old) (S.content squares.new) level sixteen.now r) }
    ensures keeps { KeepsStore S.Squares squares.old squares.new }
    ensures refusals { IfErr result (IsShortageIn S.Squares squares.new) }
{
    let blocks = sixteen.blocks();
    let joined = nine_made(squares, level, &blocks, corners)?;
    let first = three_after(squares, memory, rule, pace, level + 1, &joined.first)?;
    let second = three_after(squares, memory, rule, pace, level + 1, &joined.second)?;
    let third = three_after(squares, memory, rule, pace, level + 1, &joined.third)?;
    Ok(Triple {
        first,
        second,
        third,
    })
}

/// The squares in the middle of three squares of this level, `leap_length` generations later.
#[cycle(leap)]
fn three_after<S: Squares>(
    squares: &mut S,
    memory: &mut IdMap<Option<Id>>,
    rule: &LifeRule,
    pace: u8,
    level: u8,
    ids: &Triple<Id>,
) -> Result<Triple<Id>, Kind>
    requires remembers { RemembersLeaps (S.knows squares.old) (S.content squares.old) rule.now pace
        (value_of_id memory.old) }
    requires known { InTriple (IsOfLevel (S.knows squares.old)
        (S.content squares.old) level) ids.now }
    requires low { 4 ≤ level }
    requires high { level ≤ MAX_LEVEL }
    requires quiet { has_digit rule.now.sets.births 0 ≡ false }
    ensures known { IfOk result (InTriple (IsOfLevel (S.knows squares.new)
        (S.content squares.new) (level - 1))) }
    ensures remembers { IfOk result
        (λ _. RemembersLeaps (S.knows squares.new)
        (S.content squares.new) rule.now pace (value_of_id memory.new)) }
    ensures later { IfOk result (AreThreeMiddles rule.now (leap_length pace level)
        (2 ^ (level - 2)) (S.content squares.old) (S.content squares.new) ids.now) }
    ensures keeps { KeepsStore S.Squares squares.old squares.new }
    ensures refusals { IfErr result (IsShortageIn S.Squares squares.new) }
{
    let first = middle_after(squares, memory, rule, pace, level, ids.first)?;
    let second = middle_after(squares, memory, rule, pace, level, ids.second)?;
    let third = middle_after(squares, memory, rule, pace, level, ids.third)?;
    Ok(Triple {
        first,
        second,
        third,
    })
}

/// The second part of a leap: the square in the middle of nine squares of this level, one level higher and `leap_length` generations later.
#[cycle(leap)]
fn middle_of_nine<S: Squares>(
    squares: &mut S,
    memory: &mut IdMap<Option<Id>>,
    rule: &LifeRule,
    pace: u8,
    level: u8,
    nine: &Nine,
) -> Result<Id, Kind>
    requires remembers { RemembersLeaps (S.knows squares.old) (S.content squares.old) rule.now pace
        (value_of_id memory.old) }
    requires known { InTriple (InTriple (IsOfLevel (S.knows squares.old)
        (S.content squares.old) level)) nine.now }
    requires low { 3 ≤ level }
    requires high { level < MAX_LEVEL }
    requires quiet { has_digit rule.now.sets.births 0 ≡ false }
    ensures at { IfOk result (IsOfLevel (S.knows squares.new) (S.content squares.new) (level + 1)) }
    ensures remembers { IfOk result
        (λ _. RemembersLeaps (S.knows squares.new)
        (S.content squares.new) rule.now pace (value_of_id memory.new)) }
    ensures later { IfOk result (λ r. IsMiddleOfNine rule.now (leap_length pace (level + 1))
        (2 ^ (level - 1)) (S.content squares.old) level nine.now (S.content squares.new r)) }
    ensures keeps { KeepsStore S.Squares squares.old squares.new }
    ensures refusals { IfErr result (IsShortageIn S.Squares squares.new) }
{
    let joined = four_joined(squares, level, nine)?;
    let nw = middle_after(squares, memory, rule, pace, level + 1, joined.nw)?;
    let ne = middle_after(squares, memory, rule, pace, level + 1, joined.ne)?;
    let sw = middle_after(squares, memory, rule, pace, level + 1, joined.sw)?;
    let se = middle_after(squares, memory, rule, pace, level + 1, joined.se)?;
    squares.join(nw, ne, sw, se)
}

/// The squares that nine blocks of two by two squares make, each one level higher. They are joined in one call, so that their look-ups wait for memory
/// together.
fn nine_joined<S: Squares>(squares: &mut S, level: u8, blocks: &NineBlocks) -> Result<Nine, Kind>
    requires known { InTriple (InTriple (InFourIds (IsOfLevel (S.knows squares.old)
        (S.content squares.old) level))) blocks.now }
    requires high { level < MAX_LEVEL }
    ensures known { IfOk result
        (InTriple (InTriple (IsOfLevel (S.knows squares.new) (S.content squares.new)
        (level + 1)))) }
    ensures squares { IfOk result (AreNineJoined (S.content squares.old)
        (S.content squares.new) blocks.now) }
    ensures keeps { KeepsStore S.Squares squares.old squares.new }
    ensures refusals { IfErr result (IsShortageIn S.Squares squares.new) }
{
    let Triple {
        first,
        second,
        third,
    } = blocks;
    let nine = [
        first.first,
        first.second,
        first.third,
        second.first,
        second.second,
        second.third,
        third.first,
        third.second,
        third.third,
    ];
    let mut ids = [first.first.nw; 9];
    squares.join_all(&nine, &mut ids)?;
    Ok(Triple {
        first: Triple {
            first: ids[0],
            second: ids[1],
            third: ids[2],
        },
        second: Triple {
            first: ids[3],
            second: ids[4],
            third: ids[5],
        },
        third: Triple {
            first: ids[6],
            second: ids[7],
            third: ids[8],
        },
    })
}

/// The same of nine blocks whose four at the corners make known squares, so that only five are joined.
fn nine_amid<S: Squares>(
    squares: &mut S,
    level: u8,
    blocks: &NineBlocks,
    corners: &Quarters,
) -> Result<Nine, Kind>
    requires known { InTriple (InTriple (InFourIds (IsOfLevel (S.knows squares.old)
        (S.content squares.old) level))) blocks.now }
    requires corners { AreKnownCorners (S.knows squares.old)
        (S.content squares.old) level blocks.now corners.now }
    requires high { level < MAX_LEVEL }
    ensures known { IfOk result
        (InTriple (InTriple (IsOfLevel (S.knows squares.new) (S.content squares.new)
        (level + 1)))) }
    ensures squares { IfOk result (AreNineJoined (S.content squares.old)
        (S.content squares.new) blocks.now) }
    ensures keeps { KeepsStore S.Squares squares.old squares.new }
    ensures refusals { IfErr result (IsShortageIn S.Squares squares.new) }
{
    let five = [
        blocks.first.second,
        blocks.second.first,
        blocks.second.second,
        blocks.second.third,
        blocks.third.second,
    ];
    let mut ids = [corners.nw; 5];
    squares.join_all(&five, &mut ids)?;
    Ok(Triple {
        first: Triple {
            first: corners.nw,
            second: ids[0],
            third: corners.ne,
        },
        second: Triple {
            first: ids[1],
            second: ids[2],
            third: ids[3],
        },
        third: Triple {
            first: corners.sw,
            second: ids[4],
            third: corners.se,
        },
    })
}

/// The squares that nine blocks make, where those of the four at the corners may be known.
fn nine_made<S: Squares>(
    squares: &mut S,
    level: u8,
    blocks: &NineBlocks,
    corners: &Option<Quarters>,
) -> Result<Nine, Kind>
    requires known { InTriple (InTriple (InFourIds (IsOfLevel (S.knows squares.old)
        (S.content squares.old) level))) blocks.now }
    requires corners { IfSome corners.now (AreKnownCorners (S.knows squares.old)
        (S.content squares.old) level blocks.now) }
    requires high { level < MAX_LEVEL }
    ensures known { IfOk result
        (InTriple (InTriple (IsOfLevel (S.knows squares.new) (S.content squares.new)
        (level + 1)))) }
    ensures squares { IfOk result (AreNineJoined (S.content squares.old)
        (S.content squares.new) blocks.now) }
    ensures keeps { KeepsStore S.Squares squares.old squares.new }
    ensures refusals { IfErr result (IsShortageIn S.Squares squares.new) }
{
    match corners {
        Some(corners) => nine_amid(squares, level, blocks, corners),
        None => nine_joined(squares, level, blocks),
    }
}

/// The squares that the four blocks of two by two among nine squares make, each one level higher.
pub(crate) fn four_joined<S: Squares>(
    squares: &mut S,
    level: u8,
    nine: &Nine,
) -> Result<Quarters, Kind>
    requires known { InTriple (InTriple (IsOfLevel (S.knows squares.old)
        (S.content squares.old) level)) nine.now }
    requires high { level < MAX_LEVEL }
    ensures known { IfOk result (InFourIds (IsOfLevel (S.knows squares.new)
        (S.content squares.new) (level + 1))) }
    ensures squares { IfOk result (AreFourJoined (S.content squares.old)
        (S.content squares.new) nine.now) }
    ensures keeps { KeepsStore S.Squares squares.old squares.new }
    ensures refusals { IfErr result (IsShortageIn S.Squares squares.new) }
{
    let four = [
        nine.first.western(&nine.second),
        nine.first.eastern(&nine.second),
        nine.second.western(&nine.third),
        nine.second.eastern(&nine.third),
    ];
    let mut ids = [nine.first.first; 4];
    squares.join_all(&four, &mut ids)?;
    Ok(Quarters {
        nw: ids[0],
        ne: ids[1],
        sw: ids[2],
        se: ids[3],
    })
}

/// The four squares around the middle of a block of two by two squares of this level. They are one level lower.
pub(crate) fn inner_block<S: Squares>(squares: &S, level: u8, block: &Quarters) -> Quarters
    requires known { InFourIds (IsOfLevel (S.knows squares.now)
        (S.content squares.now) level) block.now }
    requires low { 3 ≤ level }
    ensures known { InFourIds (IsOfLevel (S.knows squares.now) (S.content squares.now)
        (level - 1)) result }
    ensures inner { IsInnerBlock (S.content squares.now) level block.now result }
{
    let nw = divide(squares, block.nw).se;
    let ne = divide(squares, block.ne).sw;
    let sw = divide(squares, block.sw).ne;
    let se = divide(squares, block.se).nw;
    Quarters { nw, ne, sw, se }
}

/// The same for each of three blocks.
fn three_inner_blocks<S: Squares>(
    squares: &S,
    level: u8,
    blocks: &Triple<Quarters>,
) -> Triple<Quarters>
    requires known { InTriple (InFourIds (IsOfLevel (S.knows squares.now)
        (S.content squares.now) level)) blocks.now }
    requires low { 3 ≤ level }
    ensures known { InTriple (InFourIds (IsOfLevel (S.knows squares.now) (S.content squares.now)
        (level - 1))) result }
    ensures inner { AreThreeInner (S.content squares.now) level blocks.now result }
{
    Triple {
        first: inner_block(squares, level, &blocks.first),
        second: inner_block(squares, level, &blocks.second),
        third: inner_block(squares, level, &blocks.third),
    }
}

/// The squares in the middle of the nine blocks of sixteen squares, in the same generation.
pub(crate) fn nine_centres<S: Squares>(
    squares: &mut S,
    level: u8,
    sixteen: &Sixteen,
) -> Result<Nine, Kind>
    requires known { InRow (InRow (IsOfLevel (S.knows squares.old)
        (S.content squares.old) level)) sixteen.now }
    requires low { 3 ≤ level }
    requires high { level < MAX_LEVEL }
    ensures known { IfOk result (InTriple (InTriple (IsOfLevel (S.knows squares.new)
        (S.content squares.new) level))) }
    ensures later { IfOk result (λ r. (rule : OuterTotalistic) → AreMiddlesOfSixteen rule 0
        (2 ^ (level - 1)) (S.content squares.old) (S.content squares.new) level sixteen.now r) }
    ensures keeps { KeepsStore S.Squares squares.old squares.new }
    ensures refusals { IfErr result (IsShortageIn S.Squares squares.new) }
{
    let blocks = sixteen.blocks();
    let inner = Triple {
        first: three_inner_blocks(&*squares, level, &blocks.first),
        second: three_inner_blocks(&*squares, level, &blocks.second),
        third: three_inner_blocks(&*squares, level, &blocks.third),
    };
    nine_joined(squares, level - 1, &inner)
}

/// The three squares that two rows of four squares make with a blank square at each end, each one level higher.
fn three_with_ends<S: Squares>(
    squares: &mut S,
    level: u8,
    blank: Id,
    north: &Row<Id>,
    south: &Row<Id>,
) -> Result<Triple<Id>, Kind>
    requires blank { IsOfLevel (S.knows squares.old) (S.content squares.old) level blank }
    requires known_north { InRow (IsOfLevel (S.knows squares.old)
        (S.content squares.old) level) north.now }
    requires known_south { InRow (IsOfLevel (S.knows squares.old)
        (S.content squares.old) level) south.now }
    requires high { level < MAX_LEVEL }
    ensures known { IfOk result
        (InTriple (IsOfLevel (S.knows squares.new) (S.content squares.new) (level + 1))) }
    ensures pieces { IfOk result (λ r. (cells : ℤ → ℤ → ℕ) (x y : ℤ)
        → HasEnds (S.content squares.old) cells (2 ^ level) x y blank north.now
        → HasEnds (S.content squares.old) cells (2 ^ level) x (step_ahead y (2 ^ level)) blank
        south.now
        → AreThreeSquares (S.content squares.new) cells (2 ^ (level + 1))
        (step_back x (2 ^ level)) y r) }
    ensures keeps { KeepsStore S.Squares squares.old squares.new }
    ensures refusals { IfErr result (IsShortageIn S.Squares squares.new) }
{
    let first = squares.join(blank, north.first, blank, south.first)?;
    let second = squares.join(north.second, north.third, south.second, south.third)?;
    let third = squares.join(north.fourth, blank, south.fourth, blank)?;
    Ok(Triple {
        first,
        second,
        third,
    })
}

/// Of a square amid blank squares: the square in its middle and the eight around that, each with half of its side. The square is two levels above this one.
fn nine_around<S: Squares>(squares: &mut S, level: u8, id: Id) -> Result<Nine, Kind>
    requires known { IsOfLevel (S.knows squares.old) (S.content squares.old) (level + 2) id }
    requires high { level + 2 ≤ MAX_LEVEL }
    ensures known { IfOk result
        (InTriple (InTriple (IsOfLevel (S.knows squares.new) (S.content squares.new)
        (level + 1)))) }
    ensures pieces { IfOk result (λ r. (cells : ℤ → ℤ → ℕ) (start : ℤ)
        → IsPiece cells start start (S.content squares.old id)
        → IsBlankSquareBeyond cells start (2 ^ (level + 2))
        → AreNineSquares (S.content squares.new) cells (2 ^ (level + 1)) (step_back start
        (2 ^ level))
        (step_back start (2 ^ level)) r) }
    ensures keeps { KeepsStore S.Squares squares.old squares.new }
    ensures refusals { IfErr result (IsShortageIn S.Squares squares.new) }
{
    let sixteen = sixteenths(squares, level, id);
    let b = squares.empty(level);
    let blank = Row {
        first: b,
        second: b,
        third: b,
        fourth: b,
    };
    let north = three_with_ends(squares, level, b, &blank, &sixteen.first)?;
    let middle = three_with_ends(squares, level, b, &sixteen.second, &sixteen.third)?;
    let south = three_with_ends(squares, level, b, &sixteen.fourth, &blank)?;
    Ok(Triple {
        first: north,
        second: middle,
        third: south,
    })
}

/// The cells of a square 2^pace generations later, as a square of the same level around the same centre. The square requires level 4 or more, and at least
/// two more than the pace. It also requires at least 2^pace columns and rows of the square beyond each cell on each side, so that none can leave it.
///
/// The memory has the answers of earlier leaps in the same store, of any pace and under the same rule. This leap adds its own.
///
/// # Errors
///
/// `Full` if the store has reached its limit, and `Memory` if memory ran out. After an error each Id still has its square.
pub fn square_after<S: SharedSquares>(
    alloc: Global,
    squares: &mut S,
    memory: &mut IdMap<Option<Id>>,
    rule: &LifeRule,
    pace: u8,
    id: Id,
) -> Result<Id, Kind>
    requires remembers { RemembersLeaps (S.knows squares.old) (S.content squares.old) rule.now
        FASTEST (value_of_id memory.old) }
    requires known { S.knows squares.old id }
    requires low { 4 ≤ depth (S.content squares.old id) }
    requires slow { pace + 2 ≤ depth (S.content squares.old id) }
    requires states { (x y : ℤ) → tree_cell (S.content squares.old id) x y < 2 }
    requires margin { HasMargin (2 ^ pace) (S.content squares.old id) }
    ensures remembers { IfOk result
        (λ _. RemembersLeaps (S.knows squares.new)
        (S.content squares.new) rule.now FASTEST (value_of_id memory.new)) }
    ensures known { IfOk result (S.knows squares.new) }
    ensures level { IfOk result
        (λ r. depth (S.content squares.new r) ≡ depth (S.content squares.old id)) }
    ensures later { IfOk result (λ r. (x y : ℤ) → tree_cell (S.content squares.new r) x y
        ≡ after rule.now (2 ^ pace) (tree_cell (S.content squares.old id)) x y) }
    ensures keeps { KeepsStore S.Squares squares.old squares.new }
    ensures refusals { IfErr result (IsShortageIn S.Squares squares.new) }
{
    // Reading a field gives its invariant to the proof: no cell is born without live neighbours.
    let _ = &rule.births;
    let level = squares.level(id);
    let mut slow = IdMap::new(alloc, None);
    let nine = nine_around(squares, level - 2, id)?;
    middle_of_nine_at_pace(squares, memory, &mut slow, rule, pace, level - 1, &nine)
}
