//! The policies of a node, chosen when it is made, and how it reads a message by them. The definition is in `specs/Reading.antt` of nd_chronicle.

ghost use Rattle.std.specs.Prelude.{◌≡◌, true};
ghost use Rattle.nd_decode.specs.Pieces.{options_left};
ghost use Rattle.nd_decode.specs.Reading.{options_read};
ghost use Rattle.nd_chronicle.specs.Hearing.{is_allowed_packet};
ghost use Rattle.nd_chronicle.specs.Reading.{in_range, own_address, read_advertisement, read_body, read_timers, reading_of};
ghost use Rattle.nd_chronicle.specs.Start.{no_policies};

use nd_addr::{Addr, Mac};
use nd_advertiser::{GREATEST_LIFETIME, GREATEST_REACHABLE_TIME};
use nd_decode::{Body, MessageRef, Reading, RouterAdvertisement};
use std::marker::Model;

/// The least Cur Hop Limit that the policy `timers` takes (our choice).
const MIN_HOP_LIMIT: u8 = 32;

/// The least Reachable Time that the policy `timers` takes, in milliseconds (our choice).
const MIN_REACHABLE_TIME: u32 = 1_000;

/// The least Retrans Timer that the policy `timers` takes, in milliseconds (our choice).
const MIN_RETRANS_TIMER: u32 = 100;

/// The greatest Retrans Timer that the policy `timers` takes, in milliseconds (our choice).
const MAX_RETRANS_TIMER: u32 = 30_000;

/// What a node does on a link that isn't trusted, each where it is asked for.
#[derive(Clone, Copy, Debug, PartialEq, Eq)]
pub struct Policies {
    parts: bool,
    speakers: bool,
    timers: bool,
    own: bool,
    unicast: bool,
    unformed: bool,
    asked: bool,
    lifetimes: bool,
    unredirected: bool,
    strict: bool,
}

impl Model for Policies {
    ghost use Rattle.nd_chronicle.specs.Start.{Policies};

    ghost Value = { Policies };

    ghost view = { λ p. record { parts = p.parts; speakers = p.speakers; timers = p.timers; own = p.own; unicast = p.unicast; unformed = p.unformed; asked = p.asked; lifetimes = p.lifetimes; unredirected = p.unredirected; strict = p.strict } };

    ghost inverse = { λ v. record { parts = v.parts; speakers = v.speakers; timers = v.timers; own = v.own; unicast = v.unicast; unformed = v.unformed; asked = v.asked; lifetimes = v.lifetimes; unredirected = v.unredirected; strict = v.strict } };
}

impl Policies {
    /// Returns no policy: a node takes what the RFCs tell it to take. Each node on a link has none, and any other node by default.
    pub fn none() -> Policies
        ensures { result ≡ no_policies }
    {
        Policies {
            parts: false,
            speakers: false,
            timers: false,
            own: false,
            unicast: false,
            unformed: false,
            asked: false,
            lifetimes: false,
            unredirected: false,
            strict: false,
        }
    }

    /// Returns these policies with `parts`, that a message is taken in part where a table has no room for all of it (RFC 8106, section 5.3.1): none is refused
    /// for a limit. Of a Router Advertisement what has room is taken, in order, and what has none is passed over: the router, a prefix on the link, an address
    /// that would form, a server, a search name. A refresh or a removal never is. A link-layer address that would need a new neighbour where the cache is full
    /// makes no entry. A solicitation whose asker gets no entry is answered to the link-layer address that it gives, unless that is a group's, and isn't
    /// answered otherwise. `Out::Ignored` reports each limit of which a part was passed over.
    pub fn with_parts(self) -> Policies
        ensures { result ≡ record self { parts = true } }
    {
        Policies {
            parts: true,
            ..self
        }
    }

    /// Returns these policies with `speakers`, that what is known to live goes before what is only asked for (RFC 6583, section 7): where a message gives the
    /// link-layer address of a new neighbour, and the Neighbor Cache is full without a STALE entry, the INCOMPLETE one fails that was asked for longest, instead
    /// of a refusal; and the answer to a solicitation is no use of the asker's entry, so that solicitations alone fill a cache with entries that may go.
    pub fn with_speakers(self) -> Policies
        ensures { result ≡ record self { speakers = true } }
    {
        Policies {
            speakers: true,
            ..self
        }
    }

    /// Returns these policies with `timers`: a Cur Hop Limit below 32, a Reachable Time outside 1,000 to 3,600,000 ms and a Retrans Timer outside 100 to
    /// 30,000 ms are read as 0, unspecified (RFC 4861, section 4.2).
    pub fn with_timers(self) -> Policies
        ensures { result ≡ record self { timers = true } }
    {
        Policies {
            timers: true,
            ..self
        }
    }

    /// Returns these policies with `self`, that what claims to come from the node itself is of no other node: a message whose source is one of its assigned
    /// addresses is dropped, and so is a packet in transit whose source is an address of its own; a Source or Target Link-Layer Address that is a group
    /// address, zeros or the node's own is passed over, as if the option weren't there.
    pub fn with_own(self) -> Policies
        ensures { result ≡ record self { own = true } }
    {
        Policies { own: true, ..self }
    }

    /// Returns these policies with `unicast`: a router sends a packet on only if the Ethernet destination of its frame is the router's own address, and drops
    /// another frame that isn't for it. It has no effect at a host.
    pub fn with_unicast(self) -> Policies
        ensures { result ≡ record self { unicast = true } }
    {
        Policies {
            unicast: true,
            ..self
        }
    }

    /// Returns these policies with `unformed`: the flag A of each prefix option is read as clear, so the node forms no address by itself. The caller gives
    /// it addresses, by rules of its own (RFC 7217, RFC 8981).
    pub fn with_unformed(self) -> Policies
        ensures { result ≡ record self { unformed = true } }
    {
        Policies {
            unformed: true,
            ..self
        }
    }

    /// Returns these policies with `asked`: the flag S of a Neighbor Advertisement is read as clear unless the neighbour is INCOMPLETE or in PROBE, so that
    /// only then a solicitation of the node's is out (RFC 4861, section 7.2.5).
    pub fn with_asked(self) -> Policies
        ensures { result ≡ record self { asked = true } }
    {
        Policies {
            asked: true,
            ..self
        }
    }

    /// Returns these policies with `lifetimes`: a Router Lifetime above 9,000 seconds is read as 9,000 (RFC 4861, section 6.2.1), and a lifetime of a prefix,
    /// of servers or of search names above 604,800 seconds, a week, as that (our choice). So what is announced once ends.
    pub fn with_lifetimes(self) -> Policies
        ensures { result ≡ record self { lifetimes = true } }
    {
        Policies {
            lifetimes: true,
            ..self
        }
    }

    /// Returns these policies with `unredirected`: a Redirect is dropped.
    pub fn with_unredirected(self) -> Policies
        ensures { result ≡ record self { unredirected = true } }
    {
        Policies {
            unredirected: true,
            ..self
        }
    }

    /// Returns these policies with `strict`, that what the RFCs forbid to send is dropped: a solicitation from `::` that gives a link-layer address in an
    /// option of any length, a Neighbor Solicitation from another source to a multicast address that gives none (RFC 4861, sections 4.1 and 4.3), a
    /// message from `::1`, and a packet for this node from `::1` or a multicast address (RFC 4291, sections 2.5.3 and 2.7). A host also ends a router that
    /// says that it is none where that is in no list, so that redirects to it end (RFC 4861, section 7.3.3).
    pub fn with_strict(self) -> Policies
        ensures { result ≡ record self { strict = true } }
    {
        Policies {
            strict: true,
            ..self
        }
    }

    /// Returns true if a message is taken in part where a table has no room for all of it, by the policy `parts`.
    pub fn parts(self) -> bool
        ensures { result ≡ self.parts }
    {
        self.parts
    }

    /// Returns true if a neighbour that is only asked for gives way to one that speaks, by the policy `speakers`.
    pub fn speakers(self) -> bool
        ensures { result ≡ self.speakers }
    {
        self.speakers
    }

    /// Returns true if the numbers of an advertisement are read by the policy `timers`.
    pub fn timers(self) -> bool
        ensures { result ≡ self.timers }
    {
        self.timers
    }

    /// Returns true if what claims to come from the node itself is judged by the policy `self`.
    pub fn own(self) -> bool
        ensures { result ≡ self.own }
    {
        self.own
    }

    /// Returns true if packets are sent on by the policy `unicast`.
    pub fn unicast(self) -> bool
        ensures { result ≡ self.unicast }
    {
        self.unicast
    }

    /// Returns true if no address is formed, by the policy `unformed`.
    pub fn unformed(self) -> bool
        ensures { result ≡ self.unformed }
    {
        self.unformed
    }

    /// Returns true if the flag S counts only where a solicitation is out, by the policy `asked`.
    pub fn asked(self) -> bool
        ensures { result ≡ self.asked }
    {
        self.asked
    }

    /// Returns true if lifetimes are read by the policy `lifetimes`.
    pub fn lifetimes(self) -> bool
        ensures { result ≡ self.lifetimes }
    {
        self.lifetimes
    }

    /// Returns true if Redirects are dropped, by the policy `unredirected`.
    pub fn unredirected(self) -> bool
        ensures { result ≡ self.unredirected }
    {
        self.unredirected
    }

    /// Returns true if what is forbidden is dropped, by the policy `strict`.
    pub fn strict(self) -> bool
        ensures { result ≡ self.strict }
    {
        self.strict
    }

    /// Returns false if a packet for this node from `source` is dropped, by the policy `strict`.
    pub(crate) fn is_allowed_packet(self, source: Addr) -> bool
        ensures { result ≡ is_allowed_packet self source }
    {
        !(self.strict && (source.is_loopback() || source.is_multicast()))
    }

    /// Returns `mac`, the link-layer address of the node, if options that give it are passed over: with the policy `self`.
    pub(crate) fn own_address(self, mac: Mac) -> Option<Mac>
        ensures { result ≡ own_address self mac }
    {
        if self.own {
            return Some(mac);
        }
        None
    }

    /// Reads a message by these policies.
    pub(crate) fn read_message(self, message: &mut MessageRef<'_>)
        ensures body { message.new.body ≡ read_body self message.old.body }
        ensures options { options_left message.new.options ≡ options_read (reading_of self) (options_left message.old.options) }
    {
        self.read_body(&mut message.body);
        message.options = message.options.read_by(Reading {
            unformed: self.unformed,
            bounded: self.lifetimes,
        });
    }

    /// Reads the body of a message by these policies.
    fn read_body(self, body: &mut Body)
        ensures { body.new ≡ read_body self body.old }
    {
        match body {
            Body::Ra(ra) => self.read_advertisement(ra),
            Body::Rs | Body::Ns(_) | Body::Na(_) | Body::Redirect(_) => {}
        }
    }

    /// Reads an advertisement by these policies.
    fn read_advertisement(self, ra: &mut RouterAdvertisement)
        ensures { ra.new ≡ read_advertisement self ra.old }
    {
        self.read_timers(ra);
        if self.lifetimes && ra.router_lifetime > GREATEST_LIFETIME {
            ra.router_lifetime = GREATEST_LIFETIME;
        }
    }

    /// Reads the numbers of an advertisement by the policy `timers`.
    fn read_timers(self, ra: &mut RouterAdvertisement)
        ensures { ra.new ≡ read_timers self ra.old }
    {
        if !self.timers {
            return;
        }
        ra.hop_limit = if ra.hop_limit < MIN_HOP_LIMIT {
            0
        } else {
            ra.hop_limit
        };
        ra.reachable_time = in_range(
            MIN_REACHABLE_TIME,
            GREATEST_REACHABLE_TIME,
            ra.reachable_time,
        );
        ra.retrans_timer = in_range(MIN_RETRANS_TIMER, MAX_RETRANS_TIMER, ra.retrans_timer);
    }
}

/// Returns a number of an advertisement, or 0 outside its range (RFC 4861, section 4.2).
fn in_range(least: u32, most: u32, number: u32) -> u32
    ensures { result ≡ in_range least most number }
{
    if least <= number && number <= most {
        return number;
    }
    0
}
