//! A stream: the struct of the caller's with the pointer of a session.

ghost use Rattle.std.specs.Prelude.{◌≡◌, ◌==◌, Some, None, MatchOption, is_some};

use crate::held::Held;
use crate::session::Session;
use std::alloc::Global;
use std::mem;

/// What the caller holds. All bytes 0 make a closed one.
#[repr(C)]
pub struct Stream {
    is_open: u32,
    held: Held,
    ghost ok: { is_some held.session ≡ (is_open == 1) },
}

impl Stream {
    /// A closed stream.
    fn new_closed() -> Stream
        ensures { result.held.session ≡ None }
    {
        Stream {
            is_open: 0,
            held: Held::nothing(),
        }
    }

    /// An open one.
    fn of(session: Box<Session>) -> Stream
        ensures { result.held.session ≡ Some session.value }
    {
        Stream {
            is_open: 1,
            held: Held::of(session),
        }
    }
}

/// Takes the session out of a stream, if it is open, which leaves it closed.
pub(crate) fn take(alloc: Global, stream: &mut Stream) -> Option<Box<Session>>
    ensures consumed { MatchOption result (stream.old.held.session ≡ None)
        (λ session. stream.old.held.session ≡ Some session.value) }
    ensures closed { stream.new.held.session ≡ None }
{
    let Stream { is_open, held } = mem::replace(stream, Stream::new_closed());
    if is_open != 1 {
        held.end();
        return None;
    }
    Some(held.into_box(alloc))
}

/// Puts a session into a closed stream.
pub(crate) fn put(stream: &mut Stream, session: Box<Session>)
    requires { stream.old.held.session ≡ None }
    ensures { stream.new.held.session ≡ Some session.value }
{
    let Stream { is_open: _, held } = mem::replace(stream, Stream::of(session));
    held.end();
}
