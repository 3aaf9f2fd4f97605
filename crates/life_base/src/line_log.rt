//! A list of lines that only contracts see. It takes no memory.

ghost use Rattle.std.specs.Prelude.{◌≡◌, ℕ, List, [], ◌∷◌, ◌++◌};
ghost use Rattle.life_base.specs.Words.{ftrue, coded_list, coded_ℕ};

use std::marker::Model;

/// The lines so far. Code can neither read nor compare them; they exist in contracts and proofs alone.
#[derive(Drop)]
pub struct LineLog {
    pub ghost lines: { List (List ℕ) } by { coded_list (coded_list coded_ℕ) },
}

impl Model for LineLog {
    ghost also_owns = { λ _. ftrue };
}

impl LineLog {
    /// No line.
    pub fn new() -> LineLog
        ensures { result.lines ≡ [] }
    {
        Self {}
    }

    /// The lines so far, and one more.
    pub fn then(&self, line: &[u8]) -> LineLog
        ensures { result.lines ≡ self.now.lines ++ line.now ∷ [] }
    {
        LineLog {}
    }
}
