//! The place in which a program in another language keeps a session.

ghost use Rattle.std.specs.Prelude.{◌≡◌, None, Some, IsNone, is_some};
ghost use Rattle.nd_session.specs.Boxed.{session_in};

use crate::handle::Handle;
use crate::session::Session;
use std::alloc::Global;

/// A slot for one session, which another language keeps in its own memory and passes by a pointer: all zeros are a closed slot. It must not be
/// copied. An open one must be closed by `take` before it ends, since dropping it would leak its session.
#[repr(C)]
#[derive(Drop)]
pub struct Slot {
    is_open: bool,
    pub(crate) handle: Handle,
    ghost agrees: { is_open ≡ is_some handle.session },
}

impl Slot {
    /// Returns a slot without a session.
    pub fn closed() -> Slot
        ensures { result.handle.session ≡ None }
    {
        Slot {
            is_open: false,
            handle: Handle::closed(),
        }
    }

    /// Returns true if there is a session in the slot.
    pub fn is_open(&self) -> bool
        ensures { result ≡ is_some self.now.handle.session }
    {
        self.is_open
    }

    /// Puts a session into the slot, which is closed.
    pub fn put(&mut self, session: Box<Session, Global>)
        requires closed { IsNone self.old.handle.session }
        ensures { self.new.handle.session ≡ Some session.value }
    {
        self.is_open = true;
        self.handle = Handle::of(session);
    }

    /// Takes the session out of the slot, which is closed then. Returns `None` if it was closed before.
    pub fn take(&mut self, alloc: Global) -> Option<Box<Session, Global>>
        ensures taken { session_in result ≡ self.old.handle.session }
        ensures closed { self.new.handle.session ≡ None }
    {
        if !self.is_open {
            return None;
        }
        let old = std::mem::replace(self, Slot::closed());
        Some(old.handle.into_box(alloc))
    }
}
