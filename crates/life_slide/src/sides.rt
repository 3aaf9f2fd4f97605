//! Which columns of a square are seen, or which rows.
ghost use Rattle.std.specs.Prelude.{◌≡◌, ◌↔◌, true};
ghost use Rattle.life_slide.specs.Words.{first_side, second_side, SideValue, All, Nothing, Until};

/// Which columns of a square another square of its level overlaps, if it begins some columns to the east or to the west; the same for rows.
#[derive(Clone, Copy, PartialEq, Eq, Hash)]
pub(crate) enum Side {
    /// Each of them.
    All,
    /// Those from where the other square begins.
    From,
    /// Those before it.
    Until,
    /// None of them.
    Nothing,
}

impl Side {
    /// Which of them are seen in the first half, where the other square begins in the later half or not.
    pub(crate) fn first(self, later: bool) -> Side
        ensures { result ≡ first_side self later }
    {
        match (self, later) {
            (Side::From, true) => Side::Nothing,
            (Side::Until, true) => Side::All,
            (side, _) => side,
        }
    }

    /// Which are seen in the second half.
    pub(crate) fn second(self, later: bool) -> Side
        ensures { result ≡ second_side self later }
    {
        match (self, later) {
            (Side::From, false) => Side::All,
            (Side::Until, false) => Side::Nothing,
            (side, _) => side,
        }
    }

    pub(crate) fn is_all(self) -> bool
        ensures { result ≡ true → self ≡ All }
    {
        matches!(self, Side::All)
    }

    pub(crate) fn is_nothing(self) -> bool
        ensures { result ≡ true → self ≡ Nothing }
    {
        matches!(self, Side::Nothing)
    }

    pub(crate) fn is_until(self) -> bool
        ensures { result ≡ true → self ≡ Until }
    {
        matches!(self, Side::Until)
    }
}
