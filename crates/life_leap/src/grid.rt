//! Squares of one level side by side: rows of three and of four, and their blocks of two by two.
ghost use Rattle.std.specs.Prelude.{◌≡◌, ℕ, ℤ, ◌+◌, ◌^◌};
ghost use Rattle.life_leap.specs.Words.{IsOfLevel, IsPiece, InRow, AreFourSquares, AreSixteenSquares, IsTwoAt, step_ahead, AreCorners, quad, quad_of, QuartersValue, blocks_of_rows, nine_blocks_of, western_block, eastern_block};

use life_quad::{Id, Quarters, Squares, divide};

/// Three values side by side, from west to east or from north to south.
#[derive(Clone, Copy)]
pub(crate) struct Triple<T> {
    pub(crate) first: T,
    pub(crate) second: T,
    pub(crate) third: T,
}

/// Four values side by side, from west to east or from north to south.
#[derive(Clone, Copy)]
pub(crate) struct Row<T> {
    pub(crate) first: T,
    pub(crate) second: T,
    pub(crate) third: T,
    pub(crate) fourth: T,
}

/// Three rows of three squares.
pub(crate) type Nine = Triple<Triple<Id>>;

/// Four rows of four squares.
pub(crate) type Sixteen = Row<Row<Id>>;

/// Three rows of three blocks, each of two by two squares.
pub(crate) type NineBlocks = Triple<Triple<Quarters>>;

/// The northern quarters of two squares side by side, and their southern quarters. Each quarter has this level.
fn halves_of_two<S: Squares>(squares: &S, level: u8, west: Id, east: Id) -> (Row<Id>, Row<Id>)
    requires west { IsOfLevel (S.knows squares.now) (S.content squares.now) (level + 1) west }
    requires east { IsOfLevel (S.knows squares.now) (S.content squares.now) (level + 1) east }
    ensures northern { InRow (IsOfLevel (S.knows squares.now) (S.content squares.now) level)
        result.0 }
    ensures southern { InRow (IsOfLevel (S.knows squares.now) (S.content squares.now) level)
        result.1 }
    ensures north { (cells : ℤ → ℤ → ℕ) (x y : ℤ)
        → IsTwoAt (S.content squares.now) cells (2 ^ (level + 1)) x y west east
        → AreFourSquares (S.content squares.now) cells (2 ^ level) x y result.0 }
    ensures south { (cells : ℤ → ℤ → ℕ) (x y : ℤ)
        → IsTwoAt (S.content squares.now) cells (2 ^ (level + 1)) x y west east
        → AreFourSquares (S.content squares.now) cells (2 ^ level) x (step_ahead y (2 ^ level))
        result.1 }
    ensures west { S.content squares.now west ≡ quad
        (S.content squares.now result.0.first) (S.content squares.now result.0.second)
        (S.content squares.now result.1.first) (S.content squares.now result.1.second) }
    ensures east { S.content squares.now east ≡ quad
        (S.content squares.now result.0.third) (S.content squares.now result.0.fourth)
        (S.content squares.now result.1.third) (S.content squares.now result.1.fourth) }
{
    let west = divide(squares, west);
    let east = divide(squares, east);
    let north = Row {
        first: west.nw,
        second: west.ne,
        third: east.nw,
        fourth: east.ne,
    };
    let south = Row {
        first: west.sw,
        second: west.se,
        third: east.sw,
        fourth: east.se,
    };
    (north, south)
}

/// The sixteen quarters of a square's quarters. Each has this level.
pub(crate) fn sixteenths<S: Squares>(squares: &S, level: u8, id: Id) -> Sixteen
    requires { IsOfLevel (S.knows squares.now) (S.content squares.now) (level + 2) id }
    ensures known { InRow (InRow (IsOfLevel (S.knows squares.now) (S.content squares.now) level))
        result }
    ensures pieces { (cells : ℤ → ℤ → ℕ) (x y : ℤ) → IsPiece cells x y (S.content squares.now id)
        → AreSixteenSquares (S.content squares.now) cells (2 ^ level) x y result }
    ensures corners { (quarters : QuartersValue)
        → S.content squares.now id ≡ quad_of (S.content squares.now) quarters
        → AreCorners (S.content squares.now) (nine_blocks_of result) quarters }
{
    let Quarters { nw, ne, sw, se } = divide(squares, id);
    let (first, second) = halves_of_two(squares, level, nw, ne);
    let (third, fourth) = halves_of_two(squares, level, sw, se);
    Row {
        first,
        second,
        third,
        fourth,
    }
}

impl Row<Id> {
    /// The three blocks of two by two squares of this row and the row south of it.
    pub(crate) fn blocks(&self, south: &Row<Id>) -> Triple<Quarters>
        ensures { result ≡ blocks_of_rows self.now south.now }
    {
        Triple {
            first: Quarters {
                nw: self.first,
                ne: self.second,
                sw: south.first,
                se: south.second,
            },
            second: Quarters {
                nw: self.second,
                ne: self.third,
                sw: south.second,
                se: south.third,
            },
            third: Quarters {
                nw: self.third,
                ne: self.fourth,
                sw: south.third,
                se: south.fourth,
            },
        }
    }
}

impl Row<Row<Id>> {
    /// The nine blocks of two by two squares of four rows.
    pub(crate) fn blocks(&self) -> NineBlocks
        ensures { result ≡ nine_blocks_of self.now }
    {
        Triple {
            first: self.first.blocks(&self.second),
            second: self.second.blocks(&self.third),
            third: self.third.blocks(&self.fourth),
        }
    }
}

impl Triple<Id> {
    /// The two western squares of this row and of the row south of it.
    pub(crate) fn western(&self, south: &Triple<Id>) -> Quarters
        ensures { result ≡ western_block self.now south.now }
    {
        Quarters {
            nw: self.first,
            ne: self.second,
            sw: south.first,
            se: south.second,
        }
    }

    /// The two eastern squares of this row and of the row south of it.
    pub(crate) fn eastern(&self, south: &Triple<Id>) -> Quarters
        ensures { result ≡ eastern_block self.now south.now }
    {
        Quarters {
            nw: self.second,
            ne: self.third,
            sw: south.second,
            se: south.third,
        }
    }
}
