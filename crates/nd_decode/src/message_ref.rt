use crate::body::Body;
use crate::options::Options;

/// A message, with its options left in place (RFC 4861, section 4).
#[derive(Clone, Copy, Debug)]
pub struct MessageRef<'a> {
    /// Its type and its fields.
    pub body: Body,
    /// Its options in their order.
    pub options: Options<'a>,
}
