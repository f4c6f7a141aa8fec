ghost use Rattle.std.specs.Prelude.{◌≡◌};
ghost use Rattle.nd_addr.specs.Bytes.{IsBytes};

/// Returns the same bytes, with a clause that says what a slice's type says of each: it is below 256.
pub(crate) fn known(bytes: &[u8]) -> &[u8]
    ensures value { result.now ≡ bytes.now }
    ensures bytes { IsBytes bytes.now }
{
    bytes
}
