//! The options of a message.

ghost use Rattle.std.specs.Prelude.{◌≡◌, []};
ghost use Rattle.nd_decode.specs.Whole.{rest_in};

use crate::reading::Reading;

/// The options of a message (RFC 4861, section 4.6).
#[derive(Clone, Copy, Debug)]
pub struct Options<'a> {
    pub(crate) rest: &'a [u8],
    pub(crate) reading: Reading,
    /// Each is whole.
    pub ghost whole: { rest_in rest.now ≡ [] },
}
