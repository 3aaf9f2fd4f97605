//! The session of a stream.

ghost use Rattle.std.specs.Prelude.{Some};
ghost use Rattle.library_calls.specs.Words.{Feeds, Finishes};

use crate::feeding::Feeding;
use file_hints::Warning;
use life_base::Fault;
use std::alloc::Global;

/// What the end of a file gives: its text, and its warning, if it has one.
#[derive(Drop)]
pub struct Finished {
    pub(crate) text: Vec<u8>,
    pub(crate) warning: Option<Warning>,
}

/// A file that is read, its text, or its fault.
#[derive(Drop)]
pub enum Session {
    /// Pieces came, and more may.
    Reading(Feeding),
    /// The file is whole, and this is what it gives.
    Written(Finished),
    /// A piece or the end was refused with this fault.
    Refused(Fault),
}

/// The session after the next piece. One that has a text or a fault stays as it is.
pub(crate) fn after_piece(session: Session, piece: &[u8]) -> Session
    ensures { Feeds piece.now (Some session) (Some result) }
{
    match session {
        Session::Reading(feeding) => match feeding.with_piece(piece) {
            Ok(feeding) => Session::Reading(feeding),
            Err(fault) => Session::Refused(fault),
        },
        other => other,
    }
}

/// The session after the end of the file. One that has a text or a fault stays as it is.
pub(crate) fn after_end(session: Session, alloc: Global) -> Session
    ensures { Finishes (Some session) (Some result) }
{
    match session {
        Session::Reading(feeding) => {
            let warning = feeding.warning();
            match feeding.text(alloc) {
                Ok(text) => Session::Written(Finished { text, warning }),
                Err(fault) => Session::Refused(fault),
            }
        }
        other => other,
    }
}
