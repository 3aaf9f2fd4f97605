//! A list of runs that only contracts see. It takes no memory.

ghost use Rattle.std.specs.Prelude.{◌≡◌, List, [], ◌∷◌, ◌++◌};
ghost use Rattle.life_strip.specs.Words.{ftrue, RunValue};

use life_base::Run;
use std::marker::Model;

/// The runs so far. Code can neither read nor compare them; they exist in contracts and proofs alone.
#[derive(Drop)]
pub struct RunLog {
    pub ghost runs: { List RunValue },
}

impl Model for RunLog {
    ghost also_owns = { λ _. ftrue };
}

impl RunLog {
    /// No run.
    pub fn new() -> RunLog
        ensures { result.runs ≡ [] }
    {
        RunLog {}
    }

    /// The runs so far, and one more.
    pub fn then(&self, run: &Run) -> RunLog
        ensures { result.runs ≡ self.now.runs ++ run.now ∷ [] }
    {
        RunLog {}
    }
}
