//! Handles a Router Advertisement (RFC 4861, section 6.3.4; RFC 4862, section 5.5.3; RFC 8106, section 6.1).

ghost use Rattle.std.specs.Prelude.{◌≡◌, [], ◌∷◌, List, ◌≤◌, ◌<◌, ◌+◌, ◌-◌, if◌then◌else◌, false, true, Some, IsOk, OnErr, OnOk, IfOk};
ghost use Rattle.std.specs.Option.{option_map};
ghost use Rattle.nd_decode.specs.Pieces.{options_left};
ghost use Rattle.nd_decode.specs.declared.body.Body.TheVariants as bodies;
ghost use Rattle.nd_table.specs.Moment.{IsMoment};
ghost use Rattle.nd_dns.specs.AnnouncedNames.{names_told};
ghost use Rattle.nd_dns.specs.AnnouncedNamesKept.{names_to_come};
ghost use Rattle.nd_dns.specs.DnsKept.{new_names};
ghost use Rattle.nd_neighbour.specs.declared.news.Times.{Times};
ghost use Rattle.nd_chronicle.specs.Histories.{said_of_neighbour};
ghost use Rattle.nd_chronicle.specs.Full.{Fills, Placed, needs};
ghost use Rattle.nd_chronicle.specs.Message.{makes_way, said};
ghost use Rattle.nd_node.specs.Parts.{AddsInPart};
ghost use Rattle.nd_chronicle.specs.Happening.{Chronicle, Limit as Table, Passed, last_moment};
ghost use Rattle.nd_chronicle.specs.Start.{Start};
ghost use Rattle.nd_steps.specs.GivingWay.{HasPlaceOrWay};
ghost use Rattle.nd_steps.specs.NeighbourCache.{said_by, told_for};
ghost use Rattle.nd_packet.specs.Waiting.{max_waiting};
ghost use Rattle.nd_node.specs.RouterAdvertisement.{IsTaken, TakesAdvertisement, advertised};
ghost use Rattle.nd_node.specs.Hearing.{AddsMessage, options_read};
ghost use Rattle.nd_node.specs.Memory.{AddsNoName};
ghost use Rattle.nd_table.specs.Listing.{fits};
ghost use Rattle.nd_routers.specs.Routers.{same};
ghost use Rattle.nd_addr.specs.Number.{number_of};
ghost use Rattle.nd_decode.specs.Option.{Said};
ghost use Rattle.nd_node.specs.Answer.{answer_of};

use crate::answer::Answer;
use crate::message::push_heard;
use crate::node::Node;
use crate::parts::{MOST_IGNORED, tell_rooms};
use nd_decode::RouterAdvertisement;
use nd_dns::{AnnouncedNames, NewNames};
use nd_neighbour::{News, Times};
use nd_out::{Refusal, Reports};
use nd_steps::{
    has_place, hear_dns, hear_giver, hear_parameters, hear_prefix_options, hear_prefixes,
    hear_router, keep_until_a_prefix_ends, most_told_of_way, news_in_place, news_of, tell_left,
    told_for,
};
use nd_validity::Heard;
use rand_core::Rng;
use std::alloc::{AllocError, Allocator};

/// The most that a Router Advertisement reports besides the frames that are sent: itself, and a router that times out.
const BESIDE_FRAMES: usize = 2;

impl<R: Rng + Drop, A: Allocator + Clone> Node<R, A> {
    ghost use Rattle.nd_node.specs.NodeKept.{Stands, next_of};

    /// Applies what has room of a Router Advertisement in each table, and advances the clock; `listed` says whether its sender has room in the list of routers.
    /// The caller passes its news of the sender, for which there is room among the neighbours, the search names that it announces, and copies of those
    /// that it adds. It takes no memory.
    fn take_router_advertisement(
        &mut self,
        now: u64,
        heard: &Heard<'_>,
        ra: &RouterAdvertisement,
        news: Option<News>,
        announced: AnnouncedNames<'_>,
        names: NewNames<A>,
        listed: bool,
        outs: &mut Reports<A>,
    )
        requires moment { IsMoment now }
        requires settled { now < next_of self.old }
        requires listed { listed ≡ fits same self.old.routers.limit now ((number_of heard.now.source.0, ra.now.router_lifetime) ∷ []) self.old.routers.entries }
        requires place { HasPlaceOrWay self.old.policies.speakers self.old.neighbours.limit now news self.old.neighbours.entries }
        requires announced { names_to_come announced ≡ names_told (options_left heard.now.message.options) }
        requires names { names ≡ new_names now (options_left heard.now.message.options) self.old.dns }
        requires space { (if self.old.policies.speakers then max_waiting + 1 else 0) + told_for news self.old.neighbours.entries + 1 ≤ outs.old.free }
        ensures takes { (taken : List Said) → IsTaken self.old now (options_left heard.now.message.options) taken
            → ((times : Times) → option_map (said_by times) news ≡ said_of_neighbour heard.now.source (bodies.Ra ra.now) taken times.reachable)
            → TakesAdvertisement R.stream self.old self.new outs.old.items outs.new.items now heard.now.source heard.now.destination ra.now taken listed }

        // The room that was made for other rows is left.
        ensures len { outs.old.free ≤ outs.new.free + (if self.old.policies.speakers then max_waiting + 1 else 0) + told_for news self.old.neighbours.entries + 1 }
    {
        nd_neighbour::laws::one_is_pushed_out();
        nd_neighbour::laws::an_end_ends_once();
        nd_neighbour::laws::none_overdue();
        nd_slaac::laws::none_overdue();
        // RFC 4861, section 6.3.4: "If the received Cur Hop Limit value is non-zero, the host SHOULD set its CurHopLimit variable to the received
        // value", and so for Reachable Time, Retrans Timer and the MTU option.
        hear_parameters(
            &mut self.params,
            &mut self.generator,
            now,
            ra,
            heard.message.options,
        );
        // Section 6.3.7: a host that has heard a router solicits no more.
        self.solicitations.heard_router(ra.router_lifetime);
        let retrans = self.params.retrans_timer();
        let times = Times {
            retrans,
            reachable: self.params.reachable_time(),
        };
        // Section 6.3.4: "If the advertisement contains a Source Link-Layer Address option, the link-layer address SHOULD be recorded in the
        // Neighbor Cache entry for the router [..] and the IsRouter flag in the Neighbor Cache entry MUST be set to TRUE."
        let gone = hear_giver(
            &mut self.neighbours,
            &mut self.choice,
            now,
            news,
            times,
            self.policies.speakers(),
            outs,
        );
        // Section 6.3.4, Router Lifetime: a router enters the list or is refreshed, and "if [..] the Router Lifetime value is zero, immediately
        // time-out the entry". RFC 4191, section 2.2: its preference.
        let times_out = hear_router(
            &mut self.routers,
            &mut self.choice,
            now,
            heard.source,
            ra.router_lifetime,
            ra.preference,
            listed,
            gone,
        );
        tell_left(outs, now, heard.source, times_out);
        // Section 6.3.4, "each Prefix Information option with the on-link flag set".
        hear_prefixes(
            &mut self.prefixes,
            &mut self.choice,
            now,
            heard.message.options,
        );
        // RFC 4862, section 5.5.3: the options with the autonomous flag form addresses, or renew them.
        let none_formed = hear_prefix_options(
            &mut self.addresses,
            &mut self.generator,
            now,
            heard.message.options,
            heard.destination.is_multicast(),
            retrans,
        );
        // RFC 8106, sections 5 and 6: servers and search names.
        hear_dns(&mut self.dns, now, heard.message.options, announced, names);
        keep_until_a_prefix_ends(&mut self.choice, &self.prefixes, now, none_formed);
        self.advance_to(now);
    }

    /// Handles a Router Advertisement at `now`, in milliseconds, up to which nothing is due (RFC 4861, section 6.3.4; RFC 4862, section 5.5.3; RFC
    /// 8106, section 6.1). All tables take it; if one of them has no room it is refused, or taken in part with the policy `parts`. Returns an error if out of
    /// memory; nothing has changed then.
    pub(crate) fn hear_router_advertisement(
        &mut self,
        now: u64,
        heard: &Heard<'_>,
        ra: &RouterAdvertisement,
        outs: &mut Reports<A>,
    ) -> Result<Answer, AllocError>
        requires moment { IsMoment now }
        requires settled { now < next_of self.old }
        requires body { heard.now.message.body ≡ bodies.Ra ra.now }
        ensures adds { IfOk result (λ answer. AddsMessage R.stream self.old self.new outs.old.items outs.new.items now heard.now.source heard.now.destination (record { body = bodies.Ra ra.now; options = options_read self.old heard.now.message.options }) (answer_of answer)) }
        ensures keeps { OnErr result (self.new ≡ self.old) }
        ensures told { OnErr result (outs.new.items ≡ outs.old.items) }
        ensures full { (limit : Table) (start : Start) (c : Chronicle) → Stands R.stream start self.old c → last_moment start.at c ≤ now → Fills start ((now, Passed) ∷ c) now heard.now.source (record { body = bodies.Ra ra.now; options = options_read self.old heard.now.message.options }) (bodies.Ra ra.now) (Some limit) → self.old.policies.parts ≡ false → 0 < outs.old.free → IsOk result }

        // If it adds no search name it succeeds, even if no memory is left.
        ensures quiet { AddsNoName self.old now heard.now.source (options_left heard.now.message.options) outs.old.free → IsOk result }
    {
        let options = heard.message.options;
        let news = news_of(heard.source, &heard.message.body, options, self.own_mac());
        let speakers = self.policies.speakers();
        let place = has_place(&self.neighbours, now, news, speakers);
        let announced = AnnouncedNames::new(options);
        let known = self.dns.only_refreshes_names(now, announced);
        if let Some(limit) = self.first_full(now, heard.source, ra, options, place, known) {
            if self.policies.parts() {
                return self.hear_router_advertisement_in_part(now, heard, ra, news, place, outs);
            }
            return self.refuse(now, Refusal::Full(limit), outs);
        }
        let names = if known {
            NewNames::none()
        } else {
            self.dns.new_names(now, announced)?
        };
        let told = told_for(&self.neighbours, news);
        outs.reserve(told + BESIDE_FRAMES + most_told_of_way(speakers))?;
        push_heard(outs, now, heard);
        self.take_router_advertisement(now, heard, ra, news, announced, names, true, outs);
        Ok(Answer::Done)
    }
    /// Takes what has room of a Router Advertisement at `now`, in milliseconds, and reports the limits of which a part was passed over: with the policy `parts`.
    /// The caller passes its news of the sender, and whether there is a `place` for that. Returns an error if out of memory; nothing has changed then.
    fn hear_router_advertisement_in_part(
        &mut self,
        now: u64,
        heard: &Heard<'_>,
        ra: &RouterAdvertisement,
        news: Option<News>,
        place: bool,
        outs: &mut Reports<A>,
    ) -> Result<Answer, AllocError>
        requires moment { IsMoment now }
        requires settled { now < next_of self.old }
        requires body { heard.now.message.body ≡ bodies.Ra ra.now }
        requires news { (times : Times) → option_map (said_by times) news ≡ said_of_neighbour heard.now.source (bodies.Ra ra.now) (options_read self.old heard.now.message.options) times.reachable }
        requires place { place ≡ true → HasPlaceOrWay self.old.policies.speakers self.old.neighbours.limit now news self.old.neighbours.entries }
        requires placed { let message = advertised ra.now (options_read self.old heard.now.message.options) in (start : Start) (c : Chronicle) → Stands R.stream start self.old c
            → Placed start c now (makes_way start (said c heard.now.source message)) (needs c heard.now.source message message.body) place }
        ensures adds { OnOk result (AddsInPart R.stream self.old self.new outs.old.items outs.new.items now heard.now.source heard.now.destination (advertised ra.now (options_read self.old heard.now.message.options))) }
        ensures answer { IfOk result (λ answer. answer ≡ Answer.Done) }
        ensures keeps { OnErr result (self.new ≡ self.old) }
        ensures told { OnErr result (outs.new.items ≡ outs.old.items) }

        // If it adds no search name it succeeds, even if no memory is left.
        ensures quiet { self.old.policies.parts ≡ true → AddsNoName self.old now heard.now.source (options_left heard.now.message.options) outs.old.free → IsOk result }
    {
        let options = heard.message.options;
        let rooms = self.rooms(now, heard.source, ra, options, place);
        let announced = AnnouncedNames::new(options);
        let names = self.dns.new_names(now, announced)?;
        let taken = news_in_place(news, place);
        let listed = rooms.routers;
        let told = told_for(&self.neighbours, news);
        let speakers = self.policies.speakers();
        outs.reserve(told + BESIDE_FRAMES + MOST_IGNORED + most_told_of_way(speakers))?;
        push_heard(outs, now, heard);
        self.take_router_advertisement(now, heard, ra, taken, announced, names, listed, outs);
        tell_rooms(outs, now, rooms);
        Ok(Answer::Done)
    }
}
