//! A list of Ids' numbers that only contracts see. It takes no memory.

ghost use Rattle.std.specs.Prelude.{◌≡◌, ℕ, List, [], ◌++◌};
ghost use Rattle.life_quad.specs.Words.{ftrue, coded_list, coded_ℕ};

use std::marker::Model;

/// The numbers so far. Code can neither read nor compare them; they exist in contracts and proofs alone.
#[derive(Drop)]
pub(crate) struct JoinLog {
    pub(crate) ghost ids: { List ℕ } by { coded_list coded_ℕ },
}

impl Model for JoinLog {
    ghost also_owns = { λ _. ftrue };
}

impl JoinLog {
    /// None.
    pub(crate) fn new() -> JoinLog
        ensures { result.ids ≡ [] }
    {
        Self {}
    }

    /// The numbers so far, and these.
    pub(crate) fn then(&self, ids: &[u64]) -> JoinLog
        ensures { result.ids ≡ self.now.ids ++ ids.now }
    {
        JoinLog {}
    }
}
