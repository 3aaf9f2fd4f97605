//! The orientations in which a walk sees squares.

ghost use Rattle.std.specs.Prelude.{◌≡◌, ◌<◌, ◌≤◌, IfSome, MatchOption};
ghost use Rattle.life_base.specs.Tree.{IsFull, point, quad, Tree};
ghost use Rattle.life_writer.specs.Words.{depth, four, is_blank_tree, population, seen_in, turned_tree};
ghost use Rattle.life_quad.specs.Moves.{AreQuarters};
ghost use Rattle.life_quad.proofs.TurningLemmas.{apart-turned, full-turned};

use life_base::State;
use life_quad::{
    Id, Quarters, Squares, Turn, divide, divide_turned, is_blank_at, leaf_population, turned_cells,
};

/// An orientation in which the squares of a store are seen: each as it is, or each turned about its middle.
pub(crate) trait Orientation {
    // The square that is seen in the place of this one.
    ghost seen: { Self → Tree → Tree };

    /// The level of a square.
    fn level<S: Squares>(&self, squares: &S, id: Id) -> u8
        requires { S.knows squares.now id }
        ensures { result ≡ depth (seen self.now (S.content squares.now id)) };

    /// The state of a square of level 0.
    fn state<S: Squares>(&self, squares: &S, id: Id) -> Option<State>
        requires { S.knows squares.now id }
        ensures { MatchOption result (0 < depth (seen self.now (S.content squares.now id)))
            (λ s. seen self.now (S.content squares.now id) ≡ point s) };

    /// Whether every cell of a square of this level has state 0.
    fn is_blank_at<S: Squares>(&self, squares: &S, level: u8, id: Id) -> bool
        requires known { S.knows squares.now id }
        requires level { level ≡ depth (seen self.now (S.content squares.now id)) }
        ensures { result ≡ is_blank_tree (seen self.now (S.content squares.now id)) };

    /// The quarters of a square of level 1 or more, as they are seen.
    fn quarters<S: Squares>(&self, squares: &S, id: Id) -> Quarters
        requires known { S.knows squares.now id }
        requires deep { 1 ≤ depth (seen self.now (S.content squares.now id)) }
        ensures square { seen self.now (S.content squares.now id)
            ≡ quad (seen self.now (S.content squares.now result.nw))
            (seen self.now (S.content squares.now result.ne))
            (seen self.now (S.content squares.now result.sw))
            (seen self.now (S.content squares.now result.se)) }
        ensures quarters { AreQuarters (S.knows squares.now)
            (seen_in (seen self.now) (S.content squares.now))
            (seen self.now (S.content squares.now id)) result };

    /// The cells of a square of level 2 with the states 0 and 1, as they are seen, if the store gives them; `None` says nothing.
    fn small_cells<S: Squares>(&self, squares: &S, id: Id) -> Option<u16>
        requires { S.knows squares.now id }
        ensures { IfSome result
            (λ cells. seen self.now (S.content squares.now id) ≡ four cells) };

    /// How many cells of a square of this level have a state other than 0, without memory.
    fn leaf_population<S: Squares>(&self, squares: &S, level: u8, id: Id) -> u128
        requires known { S.knows squares.now id }
        requires level { level ≡ depth (seen self.now (S.content squares.now id)) }
        ensures { result ≡ population (seen self.now (S.content squares.now id)) };

    // A full square is seen as one.
    ghost full: { (orientation : Self) (t : Tree) → IsFull t → IsFull (seen orientation t) };

    // Squares that are seen as one are one.
    ghost apart: { (orientation : Self) (s t : Tree)
        → seen orientation s ≡ seen orientation t → s ≡ t };
}

/// Each square is seen as it is.
#[derive(Clone, Copy)]
pub(crate) struct Upright;

impl Orientation for Upright {
    ghost seen = { λ _ t. t };

    #[inline(always)]
    fn level<S: Squares>(&self, squares: &S, id: Id) -> u8 {
        squares.level(id)
    }

    #[inline(always)]
    fn state<S: Squares>(&self, squares: &S, id: Id) -> Option<State> {
        squares.state(id)
    }

    #[inline(always)]
    fn is_blank_at<S: Squares>(&self, squares: &S, level: u8, id: Id) -> bool {
        is_blank_at(squares, level, id)
    }

    #[inline(always)]
    fn quarters<S: Squares>(&self, squares: &S, id: Id) -> Quarters {
        divide(squares, id)
    }

    #[inline(always)]
    fn small_cells<S: Squares>(&self, squares: &S, id: Id) -> Option<u16> {
        squares.small_cells(id)
    }

    #[inline(always)]
    fn leaf_population<S: Squares>(&self, squares: &S, level: u8, id: Id) -> u128 {
        leaf_population(squares, level, id)
    }

    ghost full = { λ _ _ full. full };

    ghost apart = { λ _ _ _ same. same };
}

impl Orientation for Turn {
    ghost seen = { turned_tree };

    fn level<S: Squares>(&self, squares: &S, id: Id) -> u8 {
        squares.level(id)
    }

    fn state<S: Squares>(&self, squares: &S, id: Id) -> Option<State> {
        squares.state(id)
    }

    fn is_blank_at<S: Squares>(&self, squares: &S, level: u8, id: Id) -> bool {
        is_blank_at(squares, level, id)
    }

    fn quarters<S: Squares>(&self, squares: &S, id: Id) -> Quarters {
        divide_turned(squares, *self, id)
    }

    fn small_cells<S: Squares>(&self, squares: &S, id: Id) -> Option<u16> {
        match squares.small_cells(id) {
            Some(cells) => Some(turned_cells(*self, cells)),
            None => None,
        }
    }

    fn leaf_population<S: Squares>(&self, squares: &S, level: u8, id: Id) -> u128 {
        leaf_population(squares, level, id)
    }

    ghost full = { full-turned };

    ghost apart = { apart-turned };
}
