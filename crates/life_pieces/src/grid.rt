//! Squares of one level side by side.
ghost use Rattle.std.specs.Prelude.{◌≡◌, ℕ, ℤ, ◌+◌, ◌^◌, true};
ghost use Rattle.life_pieces.specs.Words.{IsOfLevel, InThree, InNine, InFour, InSixteen, AreThree, AreNine, AreFour, AreSixteen, step_ahead, four_of, first_three, last_three, western, eastern, ids_of_nine};

use life_quad::{Id, Squares, divide};

/// Three values side by side, from west to east or from north to south.
#[derive(Clone, Copy)]
pub struct Three<T> {
    /// The western or northern one.
    pub before: T,
    /// The one in the middle.
    pub here: T,
    /// The eastern or southern one.
    pub after: T,
}

/// Four values side by side, from west to east or from north to south.
#[derive(Clone, Copy)]
pub struct Four<T> {
    pub first: T,
    pub second: T,
    pub third: T,
    pub fourth: T,
}

/// A square amid its eight neighbours.
pub type Nine = Three<Three<Id>>;

/// Four rows of four squares: four in the middle, and the twelve around them.
pub type Sixteen = Four<Four<Id>>;

impl<T: Copy> Three<T> {
    /// These three, in order.
    pub fn of(before: T, here: T, after: T) -> Three<T>
        ensures { result ≡ record { before = before; here = here; after = after } }
    {
        Three {
            before,
            here,
            after,
        }
    }
}

impl Three<Id> {
    // Whether each is this square.
    fn are_all(&self, id: Id) -> bool
        ensures { result ≡ true → InThree (λ other. other ≡ id) self.now }
    {
        self.here == id && self.before == id && self.after == id
    }

    // Their northern halves, and their southern halves. Inlined, the generation of a soup takes a third less time.
    #[inline(always)]
    fn halves<S: Squares>(&self, squares: &S, level: u8) -> (Four<Id>, Four<Id>)
        requires { InThree (IsOfLevel (S.knows squares.now) (S.content squares.now) (level + 1))
            self.now }
        ensures northern { InFour (IsOfLevel (S.knows squares.now) (S.content squares.now) level)
            result.0 }
        ensures southern { InFour (IsOfLevel (S.knows squares.now) (S.content squares.now) level)
            result.1 }
        ensures north { (cells : ℤ → ℤ → ℕ) (x y : ℤ)
            → AreThree (S.content squares.now) cells (2 ^ (level + 1)) x y self.now
            → AreFour (S.content squares.now) cells (2 ^ level) x y result.0 }
        ensures south { (cells : ℤ → ℤ → ℕ) (x y : ℤ)
            → AreThree (S.content squares.now) cells (2 ^ (level + 1)) x y self.now
            → AreFour (S.content squares.now) cells (2 ^ level) x (step_ahead y (2 ^ level))
            result.1 }
    {
        let west = divide(squares, self.before);
        let middle = divide(squares, self.here);
        let east = divide(squares, self.after);
        (
            Four::of(west.ne, middle.nw, middle.ne, east.nw),
            Four::of(west.se, middle.sw, middle.se, east.sw),
        )
    }
}

impl Nine {
    /// Whether each is this square.
    pub fn are_all(&self, id: Id) -> bool
        ensures { result ≡ true → InNine (λ other. other ≡ id) self.now }
    {
        self.here.are_all(id) && self.before.are_all(id) && self.after.are_all(id)
    }

    /// The nine squares, row by row.
    pub fn ids(&self) -> [Id; 9]
        ensures { result ≡ ids_of_nine self.now }
    {
        let Three {
            before,
            here,
            after,
        } = *self;
        [
            before.before,
            before.here,
            before.after,
            here.before,
            here.here,
            here.after,
            after.before,
            after.here,
            after.after,
        ]
    }

    /// The four quarters of the square in the middle, and the twelve around them.
    pub fn quarters<S: Squares>(&self, squares: &S, level: u8) -> Sixteen
        requires { InNine (IsOfLevel (S.knows squares.now) (S.content squares.now) (level + 1))
            self.now }
        ensures known { InSixteen (IsOfLevel (S.knows squares.now) (S.content squares.now) level)
            result }
        ensures pieces { (cells : ℤ → ℤ → ℕ) (x y : ℤ)
            → AreNine (S.content squares.now) cells (2 ^ (level + 1)) x y self.now
            → AreSixteen (S.content squares.now) cells (2 ^ level) x y result }
    {
        let (_, far_north) = self.before.halves(squares, level);
        let (north, south) = self.here.halves(squares, level);
        let (far_south, _) = self.after.halves(squares, level);
        Four::of(far_north, north, south, far_south)
    }
}

impl<T: Copy> Four<T> {
    /// These four, in order.
    pub fn of(first: T, second: T, third: T, fourth: T) -> Four<T>
        ensures { result ≡ four_of first second third fourth }
    {
        Four {
            first,
            second,
            third,
            fourth,
        }
    }

    /// The first three.
    pub fn north(&self) -> Three<T>
        ensures { result ≡ first_three self.now }
    {
        Three::of(self.first, self.second, self.third)
    }

    /// The last three.
    pub fn rear(&self) -> Three<T>
        ensures { result ≡ last_three self.now }
    {
        Three::of(self.second, self.third, self.fourth)
    }
}

impl<T: Copy> Three<Four<T>> {
    /// The three western ones of each row.
    pub fn western(&self) -> Three<Three<T>>
        ensures { result ≡ western self.now }
    {
        Three::of(self.before.north(), self.here.north(), self.after.north())
    }

    /// The three eastern ones.
    pub fn eastern(&self) -> Three<Three<T>>
        ensures { result ≡ eastern self.now }
    {
        Three::of(self.before.rear(), self.here.rear(), self.after.rear())
    }
}
