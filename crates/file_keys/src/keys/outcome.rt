//! What a file of the command `keys` comes to.

ghost use Rattle.std.specs.Prelude.{◌≡◌};
ghost use Rattle.file_keys.specs.Words.{outcome_status};

use super::refusal::FileRefusal;
use pattern_sources::status;
use std::io::ErrorKind;

/// What a file comes to.
#[derive(Clone, Copy)]
pub enum Outcome {
    /// It has this key.
    Key([u8; 32]),
    /// It has none because of a fault; a full store and memory that ran out are faults too.
    Refused(FileRefusal),
    /// It can't be opened.
    Unopened(ErrorKind),
}

impl Outcome {
    /// The status of the file.
    pub(crate) fn status(&self) -> u8
        ensures { result ≡ outcome_status self.now }
    {
        match self {
            Outcome::Key(_) => 0,
            Outcome::Refused(refusal) => status(refusal.fault.kind),
            Outcome::Unopened(_) => 3,
        }
    }
}
