//! Squares made of other squares.
ghost use Rattle.std.specs.Prelude.{◌≡◌, ◌&&◌, ◌+◌, ◌<◌, ◌≤◌, is_some, IfSome};
ghost use Rattle.life_quad.specs.Words.{quad, depth, is_blank_tree, AreQuarters, quad_of, grown_square, trimmed_square, inner, can_trim, SomePart, TrimmedTo, MakesSquare};

use crate::{Id, Squares};
use life_base::{Kind, MAX_LEVEL};

/// The Ids of the four quarters of a square.
#[derive(Clone, Copy)]
pub struct Quarters {
    pub nw: Id,
    pub ne: Id,
    pub sw: Id,
    pub se: Id,
}

/// The quarters of a square of level 1 or more, each of the level below. No square is made.
pub fn divide<S: Squares>(squares: &S, id: Id) -> Quarters
    requires known { S.knows squares.now id }
    requires deep { 1 ≤ depth (S.content squares.now id) }
    ensures square { S.content squares.now id
        ≡ quad (S.content squares.now result.nw) (S.content squares.now result.ne)
        (S.content squares.now result.sw) (S.content squares.now result.se) }
    ensures quarters { AreQuarters (S.knows squares.now) (S.content squares.now)
        (S.content squares.now id) result }
{
    match squares.parts(id) {
        Some(parts) => Quarters {
            nw: parts[0],
            ne: parts[1],
            sw: parts[2],
            se: parts[3],
        },
        None => unreachable!(),
    }
}

/// One level higher, with the square in the middle.
///
/// # Errors
///
/// `Full` where a square is new and the store holds its limit, and `Memory`. After either each Id has its square.
pub fn grow<S: Squares>(squares: &mut S, id: Id) -> Result<Id, Kind>
    requires known { S.knows squares.old id }
    requires low { 1 ≤ depth (S.content squares.old id) }
    requires high { depth (S.content squares.old id) < MAX_LEVEL }
    ensures { MakesSquare S.Squares squares.old squares.new
        (grown_square (S.content squares.old id))
        (λ P. SomePart P (grown_square (S.content squares.old id))) result }
{
    let Quarters { nw, ne, sw, se } = divide(squares, id);
    let e = squares.empty(squares.level(nw));
    let north_west = squares.join(e, e, e, nw)?;
    let north_east = squares.join(e, e, ne, e)?;
    let south_west = squares.join(e, sw, e, e)?;
    let south_east = squares.join(se, e, e, e)?;
    squares.join(north_west, north_east, south_west, south_east)
}

/// Whether every cell of a square has state 0. No cell is visited.
pub fn is_blank<S: Squares>(squares: &S, id: Id) -> bool
    requires { S.knows squares.now id }
    ensures { result ≡ is_blank_tree (S.content squares.now id) }
{
    is_blank_at(squares, squares.level(id), id)
}

/// The same, of a square of this level: its level is not looked up.
pub fn is_blank_at<S: Squares>(squares: &S, level: u8, id: Id) -> bool
    requires known { S.knows squares.now id }
    requires level { level ≡ depth (S.content squares.now id) }
    ensures { result ≡ is_blank_tree (S.content squares.now id) }
{
    id == squares.empty(level)
}

/// The four inner grandchildren of the square of these quarters, where it is above the least level and its twelve outer grandchildren are blank.
fn middle<S: Squares>(squares: &S, whole: Quarters, least: u8) -> Option<Quarters>
    requires quarters { AreQuarters (S.knows squares.now) (S.content squares.now)
        (quad_of (S.content squares.now) whole) whole }
    requires positive { 1 ≤ least }
    ensures trims { is_some result ≡ can_trim (quad_of (S.content squares.now) whole) least }
    ensures square { IfSome result
        (λ q. inner (quad_of (S.content squares.now) whole) ≡ quad_of (S.content squares.now) q) }
    ensures lower { IfSome result
        (λ q. depth (S.content squares.now q.nw) + 1 ≡ depth (S.content squares.now whole.nw)) }
    ensures quarters { IfSome result (λ q. AreQuarters (S.knows squares.now)
        (S.content squares.now) (quad_of (S.content squares.now) q) q) }
{
    let level = squares.level(whole.nw);
    if level < least {
        return None;
    }
    let nw = divide(squares, whole.nw);
    let ne = divide(squares, whole.ne);
    let sw = divide(squares, whole.sw);
    let se = divide(squares, whole.se);
    let level = level - 1;
    let can_trim = are_three_blank(squares, level, nw.nw, nw.ne, nw.sw)
        && are_three_blank(squares, level, ne.nw, ne.ne, ne.se)
        && are_three_blank(squares, level, sw.nw, sw.sw, sw.se)
        && are_three_blank(squares, level, se.ne, se.sw, se.se);
    if !can_trim {
        return None;
    }
    Some(Quarters {
        nw: nw.se,
        ne: ne.sw,
        sw: sw.ne,
        se: se.nw,
    })
}

/// Whether three squares of a level are blank.
fn are_three_blank<S: Squares>(squares: &S, level: u8, a: Id, b: Id, c: Id) -> bool
    requires a { S.knows squares.now a }
    requires b { S.knows squares.now b }
    requires c { S.knows squares.now c }
    requires a_level { level ≡ depth (S.content squares.now a) }
    requires b_level { level ≡ depth (S.content squares.now b) }
    requires c_level { level ≡ depth (S.content squares.now c) }
    ensures { result ≡ (is_blank_tree (S.content squares.now a) &&
        (is_blank_tree (S.content squares.now b) && is_blank_tree (S.content squares.now c))) }
{
    is_blank_at(squares, level, a)
        && is_blank_at(squares, level, b)
        && is_blank_at(squares, level, c)
}

/// The quarters of what is left of the square of these quarters when its blank outer rings are taken away. No square is made.
fn innermost<S: Squares>(squares: &S, quarters: Quarters, least: u8) -> Quarters
    requires quarters { AreQuarters (S.knows squares.now) (S.content squares.now)
        (quad_of (S.content squares.now) quarters) quarters }
    requires positive { 1 ≤ least }
    ensures square { quad_of (S.content squares.now) result
        ≡ trimmed_square (quad_of (S.content squares.now) quarters) least }
    ensures low { depth (S.content squares.now result.nw)
        ≤ depth (S.content squares.now quarters.nw) }
    ensures quarters { AreQuarters (S.knows squares.now) (S.content squares.now)
        (quad_of (S.content squares.now) result) result }
{
    match middle(squares, quarters, least) {
        Some(inner) => innermost(squares, inner, least),
        None => quarters,
    }
}

/// Takes the blank outer rings of a square away, and returns the square that is left. A square consists of sixteen squares two levels below it: four in the
/// middle, and a ring of twelve around these. While the square is above the level `least` and the twelve are blank, the square of the four takes its place.
/// Only the last one is joined.
///
/// # Errors
///
/// `Full` where that square is new and the store holds its limit, and `Memory`. After either each Id has its square.
pub fn trim<S: Squares>(squares: &mut S, id: Id, least: u8) -> Result<Id, Kind>
    requires known { S.knows squares.old id }
    requires positive { 1 ≤ least }
    ensures { MakesSquare S.Squares squares.old squares.new
        (trimmed_square (S.content squares.old id) least)
        (λ P. TrimmedTo P (S.content squares.old id) least) result }
{
    if squares.level(id) <= least {
        return Ok(id);
    }
    let Some(inner) = middle(squares, divide(squares, id), least) else {
        return Ok(id);
    };
    let Quarters { nw, ne, sw, se } = innermost(squares, inner, least);
    squares.join(nw, ne, sw, se)
}
