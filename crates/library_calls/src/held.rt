//! The box of a session as a pointer, which C can hold.

ghost use Rattle.std.specs.Prelude.{◌≡◌, Option, Some, None, true, is_some};
ghost use Rattle.library_calls.specs.declared.session.Session.{Session as SessionValue};

use crate::session::Session;
use std::alloc::Global;
use std::marker::Model;

/// The pointer to the box of a session, and null where there is none. It can't be let go: who has it takes the box out, or shows that there
/// is none.
#[repr(C)]
pub struct Held {
    at: *mut u8,
    ghost session: { Option SessionValue },
}

impl Model for Held {
    ghost use Rattle.std.specs.Prelude.{Option};
    ghost use Rattle.library_calls.specs.Owning.{owned_session};

    ghost also_owns = { λ h. owned_session h.at h.session };
}

impl Held {
    /// No session.
    pub(crate) fn nothing() -> Held
        ensures { result.session ≡ None }
    {
        Held {
            at: std::ptr::null_mut(),
        }
    }

    /// The pointer of a box.
    pub(crate) fn of(session: Box<Session>) -> Held
        ensures { result.session ≡ Some session.value }
    {
        Held {
            at: Box::into_raw(session) as *mut u8,
        }
    }

    /// The box again.
    pub(crate) fn into_box(self, alloc: Global) -> Box<Session>
        requires { is_some self.session ≡ true }
        ensures { self.session ≡ Some result.value }
    {
        let Held { at } = self;
        unsafe { Box::from_raw(alloc, at as *mut Session) }
    }

    /// Lets go of no session.
    pub(crate) fn end(self)
        requires { self.session ≡ None }
    {
        let Held { at: _ } = self;
    }
}
