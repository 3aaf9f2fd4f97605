//! Which small squares were joined.
ghost use Rattle.std.specs.Prelude.{◌≡◌, ◌≢◌, ◌≤◌, ◌<◌, ℕ, true, false, OnOk, OnErr, IfErr};
ghost use Rattle.life_quad.specs.Words.{IdValue, value_of_id, id_of, HasQuarters, IsMemory};

use crate::Id;
use crate::id::{FIRST_SMALL, LEVEL_TWO};
use crate::id_map::IdMap;
use life_base::Kind;
use std::alloc::Global;
use std::marker::Model;

/// A mark for each small square that was joined, and the first one of level 1 without a mark: where all of them are marked a new square of level 2 needs no
/// look at its quarters.
#[derive(Drop)]
pub(crate) struct Marks {
    seen: IdMap<bool>,
    /// The number after those of level 1 if all are marked.
    unmarked: u64,
}

impl Model for Marks {
    ghost use Rattle.std.specs.Prelude.{◌≡◌, ◌≤◌, Bool, true};
    ghost use Rattle.life_quad.specs.IdMap.{value_of_id};
    ghost use Rattle.life_quad.specs.Pages.{Pages};
    ghost use Rattle.life_quad.specs.Store.{HasQuartersBelow};

    ghost Value = { Pages Bool };

    ghost view = { λ m. m.seen };

    ghost invariant = { λ m. (m.unmarked ≤ 528) × HasQuartersBelow m.unmarked (value_of_id m.seen) };
}

/// The first small square of level 1, from a number on, without a mark, or the number after them.
fn first_unmarked(seen: &IdMap<bool>, number: u64) -> u64
    requires { number ≤ 528 }
    ensures marked { (k : ℕ) → number ≤ k → k < result → value_of_id seen.now (id_of k) ≡ true }
    ensures last { result ≤ 528 }
{
    if number == LEVEL_TWO {
        return number;
    }
    if !seen.get(Id(number)) {
        return number;
    }
    first_unmarked(seen, number + 1)
}

impl Marks {
    /// No marks. It takes no memory.
    pub(crate) fn new(alloc: Global) -> Marks
        ensures { (q : IdValue) → value_of_id result q ≡ false }
    {
        Marks {
            seen: IdMap::new(alloc, false),
            unmarked: FIRST_SMALL + 1,
        }
    }

    /// Whether a small square is marked.
    pub(crate) fn get(&self, id: Id) -> bool
        ensures { result ≡ value_of_id self.now id }
    {
        self.seen.get(id)
    }

    /// Whether all small squares of level 1 are marked.
    pub(crate) fn has_quarters(&self) -> bool
        ensures { result ≡ true → HasQuarters (value_of_id self.now) }
    {
        self.unmarked == LEVEL_TWO
    }

    /// Marks a small square.
    #[inline(always)]
    pub(crate) fn set(&mut self, id: Id) -> Result<(), Kind>
        ensures marked { OnOk result (value_of_id self.new id ≡ true) }
        ensures others { (q : IdValue) → q ≢ id → value_of_id self.new q ≡ value_of_id self.old q }
        ensures same { OnErr result ((q : IdValue) → value_of_id self.new q
            ≡ value_of_id self.old q) }
        ensures kind { IfErr result IsMemory }
    {
        self.seen.set(id, true)?;
        if id.0 == self.unmarked {
            self.unmarked = first_unmarked(&self.seen, id.0);
        }
        Ok(())
    }
}
