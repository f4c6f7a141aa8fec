ghost use Rattle.std.specs.Prelude.{◌≡◌};
ghost use Rattle.std.specs.Option.{option_map};
ghost use Rattle.nd_decode.specs.Option.{IsPiece, known_of, option_of};
ghost use Rattle.nd_decode.specs.OptionKept.{view};
ghost use Rattle.nd_decode.specs.Reading.{option_read};

use crate::prefix_info::PrefixInfo;
use crate::reading::Reading;
use crate::servers::Servers;
use byteorder::{BigEndian, ByteOrder};
use nd_addr::Mac;
use nd_search_list::Names;

/// The type of a Source Link-Layer Address (RFC 4861, section 4.6.1).
pub const OPTION_SOURCE_LINK_LAYER_ADDRESS: u8 = 1;

/// The type of a Target Link-Layer Address (RFC 4861, section 4.6.1).
pub const OPTION_TARGET_LINK_LAYER_ADDRESS: u8 = 2;

/// The type of a Prefix Information (RFC 4861, section 4.6.2).
pub const OPTION_PREFIX_INFORMATION: u8 = 3;

/// The type of a Redirected Header (RFC 4861, section 4.6.3).
pub const OPTION_REDIRECTED_HEADER: u8 = 4;

/// The type of an MTU (RFC 4861, section 4.6.4).
pub const OPTION_MTU: u8 = 5;

/// The type of a Recursive DNS Server (RFC 8106, section 5.1).
pub const OPTION_RECURSIVE_DNS_SERVER: u8 = 25;

/// The type of a DNS Search List (RFC 8106, section 5.2).
pub const OPTION_DNS_SEARCH_LIST: u8 = 31;

/// The length of a Source or Target Link-Layer Address of Ethernet, in units of 8 bytes (RFC 4861, section 4.6.1; RFC 2464, section 6).
pub const LINK_LAYER_ADDRESS_UNITS: u8 = 1;

/// The length of an MTU, in units of 8 bytes (RFC 4861, section 4.6.4).
pub const MTU_UNITS: u8 = 1;

/// The least length of a Recursive DNS Server, in units of 8 bytes: with one server. It is odd (RFC 8106, section 5.1).
pub const LEAST_SERVERS_UNITS: u8 = 3;

/// The least length of a DNS Search List, in units of 8 bytes (RFC 8106, section 5.2).
pub const LEAST_NAMES_UNITS: u8 = 2;

/// The length of the longest option, in bytes: 255 units of 8 bytes (RFC 4861, section 4.6).
pub const LONGEST_OPTION: usize = 2040;

/// The place of the link-layer address in its option (RFC 4861, section 4.6.1).
const LINK_LAYER_ADDRESS_AT: usize = 2;

/// The place of an option's number of 4 bytes: the MTU (RFC 4861, section 4.6.4), or a lifetime in seconds (RFC 8106, sections 5.1 and 5.2).
const NUMBER_AT: usize = 4;

/// The place of an option's data of any length, after its type, its length and 6 bytes: the packet (RFC 4861, section 4.6.3), the servers or the
/// names (RFC 8106, sections 5.1 and 5.2).
pub const OPTION_DATA_AT: usize = 8;

/// An option of a message, with its bytes left in place (RFC 4861, section 4.6; RFC 8106, section 5).
#[derive(Clone, Copy, Debug)]
pub enum OptionRef<'a> {
    /// Source Link-Layer Address: the sender's.
    Slla(Mac),
    /// Target Link-Layer Address: that of the message's target.
    Tlla(Mac),
    /// Prefix Information (RFC 4861, section 4.6.2).
    Prefix(PrefixInfo),
    /// Redirected Header: the beginning of the packet that was redirected, with the padding to a multiple of 8 bytes.
    Redirected(&'a [u8]),
    /// The MTU of the link, in bytes.
    Mtu(u32),
    /// DNS servers, and their lifetime in seconds, all ones for infinity.
    Rdnss(u32, Servers<'a>),
    /// Search names, and their lifetime in seconds, all ones for infinity.
    Dnssl(u32, Names<'a>),
    /// Any other option: its type, and its bytes after the length. It has a type that is not known, or one of the types above with a length or data
    /// that do not fit it (our choice). A receiver ignores it (RFC 4861, section 4.6).
    Other(u8, &'a [u8]),
}

impl<'a> OptionRef<'a> {
    /// Returns the option that a piece spells, as `reading` reads it.
    #[tactic(auto, unfolding(crate::specs::Option::option_of))]
    pub(crate) fn read(piece: &'a [u8], reading: Reading) -> OptionRef<'a>
        requires { IsPiece piece.now }
        ensures { view result ≡ option_read reading (option_of piece.entry.now) }
    {
        match OptionRef::known(piece, reading) {
            Some(option) => option,
            None => OptionRef::Other(piece[0], &piece[2..]),
        }
    }

    /// Returns the option of the type of a piece, as `reading` reads it, if the piece fits that type.
    #[tactic(auto, unfolding(crate::specs::Option::known_of))]
    fn known(piece: &'a [u8], reading: Reading) -> Option<OptionRef<'a>>
        requires { IsPiece piece.now }
        ensures { option_map view result ≡ option_map (option_read reading) (known_of piece.entry.now) }
    {
        let length = piece[1];
        match piece[0] {
            OPTION_SOURCE_LINK_LAYER_ADDRESS if length == LINK_LAYER_ADDRESS_UNITS => {
                Some(OptionRef::Slla(Mac::at(piece, LINK_LAYER_ADDRESS_AT)))
            }
            OPTION_TARGET_LINK_LAYER_ADDRESS if length == LINK_LAYER_ADDRESS_UNITS => {
                Some(OptionRef::Tlla(Mac::at(piece, LINK_LAYER_ADDRESS_AT)))
            }
            OPTION_PREFIX_INFORMATION if length == PrefixInfo::UNITS => {
                let info = PrefixInfo::read(piece)?;
                Some(OptionRef::Prefix(reading.info(info)))
            }
            OPTION_REDIRECTED_HEADER => Some(OptionRef::Redirected(&piece[OPTION_DATA_AT..])),
            OPTION_MTU if length == MTU_UNITS => Some(OptionRef::Mtu(BigEndian::read_u32(
                &piece[NUMBER_AT..],
            ))),
            OPTION_RECURSIVE_DNS_SERVER if length % 2 == 1 && length >= LEAST_SERVERS_UNITS => {
                let servers = Servers::read(&piece[OPTION_DATA_AT..])?;
                let lifetime = reading.lifetime(BigEndian::read_u32(&piece[NUMBER_AT..]));
                Some(OptionRef::Rdnss(lifetime, servers))
            }
            OPTION_DNS_SEARCH_LIST if length >= LEAST_NAMES_UNITS => {
                let names = Names::read(&piece[OPTION_DATA_AT..])?;
                let lifetime = reading.lifetime(BigEndian::read_u32(&piece[NUMBER_AT..]));
                Some(OptionRef::Dnssl(lifetime, names))
            }
            _ => None,
        }
    }
}
