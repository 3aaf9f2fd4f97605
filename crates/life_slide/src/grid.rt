//! Squares of one level side by side.
ghost use Rattle.std.specs.Prelude.{◌≡◌, ℕ, ℤ, ◌+◌, ◌^◌, true};
ghost use Rattle.life_slide.specs.Words.{IsOfLevel, InFour, InNine, InBlock, IsBlock, AreNinePieces, AreFourPieces, AreTwo, step_ahead, start, three_from, western_quarters, eastern_quarters};

use life_pieces::{Four, Nine, Three};
use life_quad::{Id, Quarters, Squares, divide};

// The last three of four, or the first three.
fn three_of<T: Copy>(four: &Four<T>, last: bool) -> Three<T>
    ensures { result ≡ three_from last four.now }
{
    if last { four.rear() } else { four.north() }
}

// The northern halves of two squares side by side, and their southern halves.
#[inline(always)]
fn halves<S: Squares>(squares: &S, level: u8, west: Id, east: Id) -> (Four<Id>, Four<Id>)
    requires west { IsOfLevel (S.knows squares.now) (S.content squares.now) (level + 1) west }
    requires east { IsOfLevel (S.knows squares.now) (S.content squares.now) (level + 1) east }
    ensures northern { InFour (IsOfLevel (S.knows squares.now) (S.content squares.now) level)
        result.0 }
    ensures southern { InFour (IsOfLevel (S.knows squares.now) (S.content squares.now) level)
        result.1 }
    ensures north { (cells : ℤ → ℤ → ℕ) (x y : ℤ)
        → AreTwo (S.content squares.now) cells (2 ^ (level + 1)) x y west east
        → AreFourPieces (S.content squares.now) cells (2 ^ level) x y result.0 }
    ensures south { (cells : ℤ → ℤ → ℕ) (x y : ℤ)
        → AreTwo (S.content squares.now) cells (2 ^ (level + 1)) x y west east
        → AreFourPieces (S.content squares.now) cells (2 ^ level) x (step_ahead y (2 ^ level))
        result.1 }
{
    let west = divide(squares, west);
    let east = divide(squares, east);
    (
        Four::of(west.nw, west.ne, east.nw, east.ne),
        Four::of(west.sw, west.se, east.sw, east.se),
    )
}

/// Of the sixteen quarters of four squares, two by two, nine: the last three of each row or the first three, of the last three rows or the first.
pub(crate) fn quarters<S: Squares>(
    squares: &S,
    level: u8,
    block: &Quarters,
    east: bool,
    south: bool,
) -> Nine
    requires { InBlock (IsOfLevel (S.knows squares.now) (S.content squares.now) (level + 1))
        block.now }
    ensures known { InNine (IsOfLevel (S.knows squares.now) (S.content squares.now) level)
        result }
    ensures pieces { (cells : ℤ → ℤ → ℕ) (x y : ℤ)
        → IsBlock (S.content squares.now) cells (2 ^ (level + 1)) x y block.now
        → AreNinePieces (S.content squares.now) cells (2 ^ level) (start east x (2 ^ level))
        (start south y (2 ^ level)) result }
{
    let (a, b) = halves(squares, level, block.nw, block.ne);
    let (c, d) = halves(squares, level, block.sw, block.se);
    let rows = Four::of(
        three_of(&a, east),
        three_of(&b, east),
        three_of(&c, east),
        three_of(&d, east),
    );
    three_of(&rows, south)
}

// The four western squares of two rows of three.
pub(crate) fn western(north: &Three<Id>, south: &Three<Id>) -> Quarters
    ensures { result ≡ western_quarters north.now south.now }
{
    Quarters {
        nw: north.before,
        ne: north.here,
        sw: south.before,
        se: south.here,
    }
}

// The four eastern ones.
pub(crate) fn eastern(north: &Three<Id>, south: &Three<Id>) -> Quarters
    ensures { result ≡ eastern_quarters north.now south.now }
{
    Quarters {
        nw: north.here,
        ne: north.after,
        sw: south.here,
        se: south.after,
    }
}

/// Whether one of four is this square.
pub(crate) fn has(block: &Quarters, id: Id) -> bool {
    block.nw == id || block.ne == id || block.sw == id || block.se == id
}

/// Whether each of four is this square.
pub(crate) fn are_all(block: &Quarters, id: Id) -> bool
    ensures { result ≡ true → InBlock (λ other. other ≡ id) block.now }
{
    block.nw == id && block.ne == id && block.sw == id && block.se == id
}
