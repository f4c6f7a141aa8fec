ghost use Rattle.std.specs.Prelude.{◌↔◌, IsTrue};
ghost use Rattle.nd_message.specs.Owned.{whole};
ghost use Rattle.nd_message.specs.WellFormed.{IsWellFormed};

use crate::length::written_length;
use crate::opt::Opt;
use nd_decode::Body;
use std::alloc::Allocator;

/// A message that owns its options (RFC 4861, section 4).
#[derive(Debug, Drop)]
pub struct Message<A: Allocator> {
    /// Its type and its fields.
    pub body: Body,
    /// Its options in their order.
    pub options: Vec<Opt<A>, A>,
}

impl<A: Allocator> Message<A> {
    /// Returns true if some list of at most 65535 bytes spells the message and the message may be sent. No list spells it if the options are
    /// too long, if an `Other` reads as one of the known options, or if its piece is no multiple of 8 bytes. A Router Advertisement with
    /// router lifetime 0 may be sent only with preference Medium (RFC 4191, section 2.2).
    pub fn is_well_formed(&self) -> bool
        ensures { IsTrue result ↔ IsWellFormed (whole self.now) }
    {
        written_length(&self.body, &self.options).is_some()
    }
}
