use std::alloc::Allocator;

/// A domain name that owns its labels: each after its length byte, in small letters, without the zero byte at the end (RFC 1035, section 3.1).
#[derive(Debug, Drop)]
pub struct Name<A: Allocator>(pub Vec<u8, A>);
