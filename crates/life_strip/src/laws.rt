//! Laws over the definitions alone.
ghost use Rattle.life_strip.specs.Words.{RunsAreApart, RunsGrow, EmptyFills, FillingStays};

use life_quad::Squares;

/// Runs in order are apart: at most one of them has a pair among its cells, and the state of the pair is that run's.
pub fn runs_are_apart()
    ensures { RunsAreApart }
{}

/// With one run more the next one is judged by it, and a pair has that run's state where it is one of its cells, else the state it had.
pub fn runs_grow()
    ensures { RunsGrow }
{}

/// A builder without runs fills any store.
pub fn empty_builder_fills<S: Squares>()
    ensures { EmptyFills S S.knows S.content }
{}

/// While calls keep every Id of the store, a builder fills it.
pub fn filling_stays<S: Squares>()
    ensures { FillingStays S S.knows S.content }
{}
