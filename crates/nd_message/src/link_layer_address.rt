ghost use Rattle.std.specs.Prelude.{◌∷◌, length};
ghost use Rattle.nd_addr.specs.Room.{HasRoom, Puts};

use nd_addr::{Mac, put_bytes};
use nd_decode::LINK_LAYER_ADDRESS_UNITS;
use std::alloc::Allocator;

/// Appends the piece of a Source or Target Link-Layer Address (RFC 4861, section 4.6.1).
pub(crate) fn put_link_layer_address<A: Allocator>(kind: u8, mac: &Mac, out: &mut Vec<u8, A>)
    requires { HasRoom out.old (length (kind ∷ 1 ∷ mac.now.0)) }
    ensures { Puts out.old out.new (kind ∷ 1 ∷ mac.now.0) }
{
    put_bytes(out, &[kind, LINK_LAYER_ADDRESS_UNITS]);
    put_bytes(out, &mac.0);
}
