ghost use Rattle.std.specs.Prelude.{◌≡◌, ◌<◌, ◌≤◌, length, map, replicate};
ghost use Rattle.std.specs.Option.{SomeIff};
ghost use Rattle.nd_addr.specs.Room.{HasRoom, Puts};
ghost use Rattle.nd_message.specs.Owned.{labels_of};
ghost use Rattle.nd_message.specs.Dnssl.{ended, missing, names_data, dnssl_piece, FitNames, FitsDnssl};

use crate::name::Name;
use nd_addr::put_bytes;
use nd_decode::{LONGEST_OPTION, OPTION_DATA_AT, OPTION_DNS_SEARCH_LIST};
use nd_search_list::is_name;
use std::alloc::Allocator;

/// The most bytes of names in a DNS Search List (RFC 4861, section 4.6).
const LONGEST_NAMES: usize = LONGEST_OPTION - OPTION_DATA_AT;

/// Returns the number of bytes of a DNS Search List, if these can be its names.
pub(crate) fn dnssl_length<A: Allocator>(lifetime: u32, names: &[Name<A>]) -> Option<usize>
    ensures { SomeIff result (FitsDnssl lifetime (map labels_of names.now)) (length (dnssl_piece lifetime (map labels_of names.now))) }
{
    let _lifetime = lifetime;
    let length = names_length(names)?;
    Some(8 + length + missing(length))
}

/// Returns the number of bytes that `length` lacks to a multiple of 8.
fn missing(length: usize) -> usize
    ensures value { result ≡ missing length }
    ensures few { result < 8 }
{
    (8 - length % 8) % 8
}

/// Returns the number of bytes of names, one after the other, if they can be those of an option.
fn names_length<A: Allocator>(names: &[Name<A>]) -> Option<usize>
    ensures { SomeIff result (FitNames (map labels_of names.now)) (length (names_data (map labels_of names.now))) }
{
    let mut length = 0;
    for name in names {
        if !is_name(&name.0) {
            return None;
        }
        length += name.0.len() + 1;
        if length > LONGEST_NAMES {
            return None;
        }
    }
    if names.is_empty() { None } else { Some(length) }
}

/// Appends the piece of a DNS Search List (RFC 8106, section 5.2).
pub(crate) fn put_dnssl<A: Allocator, B: Allocator>(
    lifetime: u32,
    names: &[Name<A>],
    out: &mut Vec<u8, B>,
)
    requires fits { FitsDnssl lifetime (map labels_of names.now) }
    requires room { HasRoom out.old (length (dnssl_piece lifetime (map labels_of names.now))) }
    ensures { Puts out.old out.new (dnssl_piece lifetime (map labels_of names.now)) }
{
    let length = names_length(names).unwrap_or(0);
    let padding = missing(length);
    let units = ((8 + length + padding) / 8) as u8;
    let [a, b, c, d] = lifetime.to_be_bytes();
    put_bytes(out, &[OPTION_DNS_SEARCH_LIST, units, 0, 0, a, b, c, d]);
    put_names(names, out);
    put_zeros(padding, out);
}

/// Appends names, each with the zero byte that ends it.
fn put_names<A: Allocator, B: Allocator>(names: &[Name<A>], out: &mut Vec<u8, B>)
    requires { HasRoom out.old (length (names_data (map labels_of names.now))) }
    ensures { Puts out.old out.new (names_data (map labels_of names.now)) }
{
    for name in names {
        put_name(name, out);
    }
}

/// Appends a name, with the zero byte that ends it.
fn put_name<A: Allocator, B: Allocator>(name: &Name<A>, out: &mut Vec<u8, B>)
    requires { HasRoom out.old (length (ended (labels_of name.now))) }
    ensures { Puts out.old out.new (ended (labels_of name.now)) }
{
    put_bytes(out, &name.0);
    put_bytes(out, &[0]);
}

/// Appends at most 8 zeros.
fn put_zeros<A: Allocator>(count: usize, out: &mut Vec<u8, A>)
    requires fits { count ≤ 8 }
    requires room { HasRoom out.old count }
    ensures { Puts out.old out.new (replicate count 0) }
{
    let zeros = [0u8; 8];
    put_bytes(out, &zeros[..count]);
}
