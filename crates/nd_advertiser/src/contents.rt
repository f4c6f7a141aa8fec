ghost use Rattle.std.specs.Prelude.{◌≡◌, ◌+◌, ◌≤◌, List, [], IfSome, length, map, option_map};
ghost use Rattle.std.specs.List.{AllByRecursion, flat_map};
ghost use Rattle.nd_decode.specs.declared.body.Body.TheVariants.{Ra};
ghost use Rattle.nd_decode.specs.Option.{prefix};
ghost use Rattle.nd_message.specs.Fitting.{FitsOption};
ghost use Rattle.nd_message.specs.Owned.{said};
ghost use Rattle.nd_message.specs.Spelling.{piece_of, written_length};
ghost use Rattle.nd_message.specs.WellFormed.{IsMediumAtZero, IsWellFormed};
ghost use Rattle.nd_advertiser.specs.Calls.{settings_in};
ghost use Rattle.nd_advertiser.specs.Contents.{contents, contents_length, contents_of, last_contents, last_contents_of, options_length, options_of, without_lifetime};
ghost use Rattle.nd_advertiser.specs.Message.{message_in};

use crate::advertiser::Advertiser;
use crate::offer::Offer;
use arrayvec::ArrayVec;
use nd_addr::{Mac, Preference};
use nd_decode::{Body, RouterAdvertisement};
use nd_message::Opt;
use std::alloc::{Allocator, Global};

/// The length of an advertisement without offers at most, in bytes: 16 of fields, 8 of the link-layer address, and 8 of the MTU (RFC 4861, section
/// 4.2).
const FIRST_LENGTH: usize = 32;

/// The length of the option of an offer, in bytes (RFC 4861, section 4.6.2).
const PREFIX_LENGTH: usize = 32;

/// The most options of an advertisement: the link-layer address, the MTU, and 16 offers.
const MAX_OPTIONS: usize = 18;

/// What an advertisement says, in place: it takes no memory.
#[derive(Drop)]
pub struct Contents {
    /// Its type and its fields.
    pub body: Body,
    /// Its options in their order.
    pub options: ArrayVec<Opt<Global>, MAX_OPTIONS>,
}

impl<A: Allocator> Advertiser<A> {
    ghost use Rattle.nd_advertiser.specs.History.{Row};
    ghost use Rattle.nd_advertiser.specs.Table.{Stands};

    /// Returns what it advertises now, if it does, from an interface of this Ethernet address (RFC 4861, section 6.2.3), in `longest` bytes at most.
    pub fn contents(&self, mac: Mac) -> Option<Contents>
        ensures value { option_map message_in result ≡ option_map (contents mac self.now.offers) (settings_in self.now.advertising) }
        ensures by_history { (history : List Row) → Stands self.now history → option_map message_in result ≡ contents_of mac history }
        ensures formed { IfSome result (λ found. IsWellFormed (message_in found)) }
        ensures short { IfSome result (λ found. written_length (message_in found) ≤ contents_length self.now.limit) }
    {
        let config = self.config()?;
        let options = self.options(mac, config.mtu());
        Some(advertisement(config.fields(), options))
    }

    /// Returns the last advertisement, which is sent when it ceases to advertise: the same, with a router lifetime of 0 (RFC 4861, section 6.2.5)
    /// and the preference Medium (RFC 4191, section 2.2).
    pub fn last_contents(&self, mac: Mac) -> Option<Contents>
        ensures value { option_map message_in result ≡ option_map (last_contents mac self.now.offers) (settings_in self.now.advertising) }
        ensures by_history { (history : List Row) → Stands self.now history → option_map message_in result ≡ last_contents_of mac history }
        ensures formed { IfSome result (λ found. IsWellFormed (message_in found)) }
        ensures short { IfSome result (λ found. written_length (message_in found) ≤ contents_length self.now.limit) }
    {
        let config = self.config()?;
        let options = self.options(mac, config.mtu());
        let fields = without_lifetime(config.fields());
        Some(advertisement(fields, options))
    }

    /// Returns the length of the longest advertisement that it may have to send, in bytes: 16 of fields, 8 of the link-layer address, 8 of the MTU,
    /// and 32 of each offer that there is room for (RFC 4861, section 4.2).
    pub fn longest(&self) -> usize
        ensures value { result ≡ contents_length self.now.limit }
        ensures most { result ≤ 544 }
    {
        FIRST_LENGTH + PREFIX_LENGTH * self.limit()
    }

    /// Returns the options of an advertisement.
    fn options(&self, mac: Mac, mtu: u32) -> ArrayVec<Opt<Global>, MAX_OPTIONS>
        ensures value { map said result.items ≡ options_of mac mtu self.now.offers }
        ensures fits { AllByRecursion FitsOption (map said result.items) }
        ensures short { length (flat_map piece_of (map said result.items)) ≤ options_length self.now.limit }
        ensures most { length (flat_map piece_of (map said result.items)) ≤ 528 }
    {
        let _few = self.limit();
        let mut options = first_options(mac, mtu);
        for offer in self.rows() {
            options.push(prefix_option(offer));
        }
        options
    }
}

/// Returns the options before those of the offers.
fn first_options(mac: Mac, mtu: u32) -> ArrayVec<Opt<Global>, MAX_OPTIONS>
    ensures value { map said result.items ≡ options_of mac mtu [] }
    ensures fits { AllByRecursion FitsOption (map said result.items) }
    ensures short { length (flat_map piece_of (map said result.items)) ≤ 16 }
    ensures few { length result.items ≤ 2 }
{
    let mut options = ArrayVec::new();
    let _bytes = mac.as_bytes();
    options.push(Opt::Slla(mac));
    if mtu == 0 {
        return options;
    }
    options.push(Opt::Mtu(mtu));
    options
}

/// Returns the advertisement of these fields and options.
fn advertisement(
    fields: RouterAdvertisement,
    options: ArrayVec<Opt<Global>, MAX_OPTIONS>,
) -> Contents
    requires medium { IsMediumAtZero fields }
    requires fits { AllByRecursion FitsOption (map said options.items) }
    requires short { length (flat_map piece_of (map said options.items)) ≤ 528 }
    ensures value { message_in result ≡ record { body = Ra fields; options = map said options.items } }
    ensures formed { IsWellFormed (message_in result) }
    ensures short { written_length (message_in result) ≡ 16 + length (flat_map piece_of (map said options.items)) }
{
    Contents {
        body: Body::Ra(fields),
        options,
    }
}

/// Returns the option of an offer.
fn prefix_option<B: Allocator>(offer: Offer) -> Opt<B>
    ensures value { said result ≡ prefix offer }
    ensures fits { FitsOption (said result) }
{
    let info = offer.info();
    let _bits = info.prefix.length();
    Opt::Prefix(info)
}

/// Returns the fields of the last advertisement.
fn without_lifetime(fields: RouterAdvertisement) -> RouterAdvertisement
    ensures { result ≡ without_lifetime fields }
{
    RouterAdvertisement {
        router_lifetime: 0,
        preference: Preference::Medium,
        ..fields
    }
}
