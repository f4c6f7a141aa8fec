//! DNS servers and search names, as C sees them. The definitions are in `specs/Dns.antt`.

ghost use Rattle.std.specs.Prelude.{◌≡◌};
ghost use Rattle.nd_search_list.specs.Text.{IsText, name_text};
ghost use Rattle.nd_c_types.specs.Dns.{name_row, server_row};

use crate::name_text::text_of;
use crate::numbers::left_number;
use nd_addr::Addr;
use nd_dns::SearchName;
use nd_table::WithLifetime;
use std::alloc::Allocator;

/// A DNS server: `nd_server_row` of the header.
#[repr(C)]
#[derive(Clone, Copy, Drop)]
pub struct ServerRow {
    /// What is left of its lifetime, in milliseconds, or ND_FOREVER.
    pub left: u64,
    pub address: [u8; 16],
}

impl ServerRow {
    /// Returns the row of a DNS server.
    pub fn of(server: &WithLifetime<'_, Addr>) -> ServerRow
        ensures { result ≡ server_row server.now }
    {
        let address = server.key.0;
        ServerRow {
            left: left_number(server.left),
            address,
        }
    }
}

/// A search name: `nd_name_row` of the header.
#[repr(C)]
#[derive(Clone, Copy, Drop)]
pub struct NameRow {
    /// What is left of its lifetime, in milliseconds, or ND_FOREVER.
    pub left: u64,
    /// The number of bytes of its text, 1 to 253.
    pub length: u32,
    pub reserved: u32,
    /// Its labels in small letters with dots between them, and then zeros.
    pub text: [u8; 256],
}

impl NameRow {
    /// Returns the row of a search name. It takes no memory.
    pub fn of<A: Allocator>(name: &WithLifetime<'_, SearchName<A>>) -> NameRow
        ensures value { result ≡ name_row name.now }
        ensures text { IsText name.now.key.now (name_text name.now.key.now) }
    {
        let bytes = name.key.as_name().as_bytes();
        let text = text_of(bytes);
        NameRow {
            left: left_number(name.left),
            // There is a dot for each length byte but the first.
            length: (bytes.len() - 1) as u32,
            reserved: 0,
            text,
        }
    }
}
