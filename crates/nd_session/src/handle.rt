//! A session's box as an untyped pointer.

ghost use Rattle.std.specs.Prelude.{◌≡◌, Option, None, Some, IsSome};
ghost use Rattle.nd_session.specs.declared.session.Session.{Session};

use crate::session::Session;
use std::alloc::Global;
use std::marker::Model;

/// A pointer to a session whose block the handle owns, or a null pointer. The pointer is untyped, since C takes no pointer to a type that
/// holds a `Vec`; the ghost `session` says what is at it.
#[repr(C)]
#[derive(Drop)]
pub struct Handle {
    at: *mut u8,
    pub ghost session: { Option Session },
}

impl Model for Handle {
    ghost use Rattle.nd_session.specs.Held.{held};

    ghost also_owns = { λ h. held h.at h.session };
}

impl Handle {
    /// Returns a handle without a session.
    pub(crate) fn closed() -> Handle
        ensures { result.session ≡ None }
    {
        Handle {
            at: std::ptr::null_mut(),
        }
    }

    /// Returns a handle of the box's session, which owns what the box owned.
    pub(crate) fn of(session: Box<Session, Global>) -> Handle
        ensures { result.session ≡ Some session.value }
    {
        let at = Box::into_raw(session);
        Handle { at: at as *mut u8 }
    }

    /// Returns the session in a box, which owns what the handle owned. `alloc` is the allocator of each such box.
    pub(crate) fn into_box(self, alloc: Global) -> Box<Session, Global>
        requires { IsSome self.session }
        ensures { Some result.value ≡ self.session }
    {
        let Handle { at } = self;
        unsafe { Box::from_raw(alloc, at as *mut Session) }
    }
}

/// A handle may go to another thread, since its session may.
unsafe impl Send for Handle {}
