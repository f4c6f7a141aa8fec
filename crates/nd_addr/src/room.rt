ghost use Rattle.std.specs.Prelude.{length};
ghost use Rattle.nd_addr.specs.Room.{HasRoom, Puts};

use std::alloc::Allocator;

/// Appends bytes. There is room for them. It takes no memory.
pub fn put_bytes<A: Allocator>(out: &mut Vec<u8, A>, bytes: &[u8])
    requires { HasRoom out.old (length bytes.now) }
    ensures { Puts out.old out.new bytes.now }
{
    match out.extend_from_slice(bytes) {
        Ok(()) => {}
        Err(_) => unreachable!(),
    }
}
