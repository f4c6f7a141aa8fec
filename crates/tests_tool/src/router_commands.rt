//! A router's commands in scripts: which words are well-formed.

use nd_node::Request;
use ndpctl_run::read_line;
use std::alloc::{AllocError, Global};
use std::test::*;

/// The event of a line that isn't malformed.
fn said(alloc: Global, line: &str) -> Result<Option<Request<Global>>, AllocError> {
    match read_line(&alloc, line.as_bytes())? {
        Some(read) => Ok(Some(read.event)),
        None => Ok(None),
    }
}

/// No defaults elsewhere, no leading zeros, one space between two words, flags in their order, values that their types hold, and the rules
/// of what a router may advertise (RFC 4861, section 6.2.1; RFC 4191, section 2.2).
#[test]
fn other_words_are_malformed(rt: HostRuntime) -> Result<(), Fail> {
    for line in [
        "0 advertise - 600 1800 64 - 0 0 0",
        "0 advertise 0200 600 1800 64 - 0 0 0",
        "0 advertise 200 600 1800 64 om 0 0 0",
        "0 advertise 200 600 1800 64 hm 0 0 0",
        "0 advertise 200 600 1800 64 hl 0 0 0",
        "0 advertise 200 600 1800 64 molh 0 0 0",
        "0 advertise 200 600 0 64 h 0 0 0",
        "0 advertise 200 600 0 64 mol 0 0 0",
        "0 advertise 200 600 1800 64  0 0 0",
        "0 advertise 200  600 1800 64 - 0 0 0",
        "0 advertise 200 600 1800 64 - 0 0",
        "0 advertise 200 600 1800 64 - 0 0 0 0",
        "0 advertise 200 600 1800 256 - 0 0 0",
        "0 advertise 200 600 1800 64 - 0 4294967296 0",
        "0 advertise 200 600 599 64 - 0 0 0",
        "0 advertise 200 21846 - 64 - 0 0 0",
        "0 prefix fe80::/64 - - la",
        "0 prefix ff02::/16 - - la",
        "0 prefix 2001:db8::/129 - - la",
        "0 prefix 2001:db8::/064 - - la",
        "0 prefix 2001:db8:: - - la",
        "0 prefix 2001:db8::/64 - - al",
        "0 prefix 2001:db8::/64 - 2592001 la",
        "0 prefix 2001:db8::/64 4294967296 - la",
        "0 route 2001:db8::/64",
        "0 route 2001:db8::/64 -",
        "0 route 2001:db8::/64 direct ",
        "0 route 2001:db8::/64 fe80::2/64",
    ] {
        assert!(rt; said(rt.alloc(), line)?.is_none());
    }
    Ok(())
}

/// The letters of the flags, and after them that of the preference, spell a line; what they say of it is a clause of `read_line`.
#[test]
fn flags_and_preferences_are_read(rt: HostRuntime) -> Result<(), Fail> {
    for line in [
        "0 advertise 200 600 1800 64 - 0 0 0",
        "0 advertise 200 600 1800 64 m 0 0 0",
        "0 advertise 200 600 1800 64 o 0 0 0",
        "0 advertise 200 600 1800 64 mo 0 0 0",
        "0 advertise 200 600 1800 64 h 0 0 0",
        "0 advertise 200 600 1800 64 mh 0 0 0",
        "0 advertise 200 600 1800 64 oh 0 0 0",
        "0 advertise 200 600 1800 64 moh 0 0 0",
        "0 advertise 200 600 1800 64 l 0 0 0",
        "0 advertise 200 600 1800 64 ml 0 0 0",
        "0 advertise 200 600 1800 64 ol 0 0 0",
        "0 advertise 200 600 1800 64 mol 0 0 0",
        "0 advertise 200 600 0 64 mo 0 0 0",
    ] {
        assert!(rt; said(rt.alloc(), line)?.is_some());
    }
    Ok(())
}
