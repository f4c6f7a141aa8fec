ghost use Rattle.std.specs.Prelude.{◌≡◌, ◌↔◌, ◌%◌, ◌≤◌, IsTrue, length};
ghost use Rattle.std.specs.Option.{is_some};
ghost use Rattle.nd_addr.specs.Room.{HasRoom, Puts};
ghost use Rattle.nd_decode.specs.Option.{other, known_of};
ghost use Rattle.nd_message.specs.Spelling.{other_piece};
ghost use Rattle.nd_message.specs.Fitting.{FitsOption};

use nd_addr::put_bytes;
use nd_decode::{
    LEAST_NAMES_UNITS, LEAST_SERVERS_UNITS, LINK_LAYER_ADDRESS_UNITS, LONGEST_OPTION, MTU_UNITS,
    OPTION_DNS_SEARCH_LIST, OPTION_MTU, OPTION_PREFIX_INFORMATION, OPTION_RECURSIVE_DNS_SERVER,
    OPTION_REDIRECTED_HEADER, OPTION_SOURCE_LINK_LAYER_ADDRESS, OPTION_TARGET_LINK_LAYER_ADDRESS,
    PrefixInfo, Servers,
};
use nd_search_list::Names;
use std::alloc::Allocator;

/// Returns true if a piece of this type and with these bytes after its length is whole and reads as no known option.
pub(crate) fn is_other(kind: u8, rest: &[u8]) -> bool
    ensures { IsTrue result ↔ FitsOption (other kind rest.now) }
{
    // With its type and its length, a piece has 8 to 2040 bytes.
    if rest.len() < 6 || rest.len() > LONGEST_OPTION - 2 || rest.len() % 8 != 6 {
        return false;
    }
    !is_known(kind, rest)
}

/// Returns true if a piece of this type and with these bytes after its length reads as a known option.
#[tactic(auto, unfolding(nd_decode::specs::Option::known_of))]
fn is_known(kind: u8, rest: &[u8]) -> bool
    requires least { 6 ≤ length rest.now }
    requires eights { length rest.now % 8 ≡ 6 }
    ensures { result ≡ is_some (known_of (other_piece kind rest.now)) }
{
    let units = (rest.len() + 2) / 8;
    match kind {
        OPTION_SOURCE_LINK_LAYER_ADDRESS | OPTION_TARGET_LINK_LAYER_ADDRESS => {
            units == LINK_LAYER_ADDRESS_UNITS as usize
        }
        OPTION_PREFIX_INFORMATION => units == PrefixInfo::UNITS as usize && rest[0] <= 128,
        OPTION_REDIRECTED_HEADER => true,
        OPTION_MTU => units == MTU_UNITS as usize,
        OPTION_RECURSIVE_DNS_SERVER => {
            units % 2 == 1
                && units >= LEAST_SERVERS_UNITS as usize
                && Servers::read(&rest[6..]).is_some()
        }
        OPTION_DNS_SEARCH_LIST => units >= LEAST_NAMES_UNITS as usize
            && Names::read(&rest[6..]).is_some(),
        _ => false,
    }
}

/// Appends the piece of any other option (RFC 4861, section 4.6).
pub(crate) fn put_other<A: Allocator>(kind: u8, rest: &[u8], out: &mut Vec<u8, A>)
    requires fits { length rest.now ≤ 2038 }
    requires room { HasRoom out.old (length (other_piece kind rest.now)) }
    ensures { Puts out.old out.new (other_piece kind rest.now) }
{
    put_bytes(out, &[kind, ((rest.len() + 2) / 8) as u8]);
    put_bytes(out, rest);
}
