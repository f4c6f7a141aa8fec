//! Handles a Neighbor Solicitation (RFC 4861, sections 7.2.3 and 7.2.4; RFC 4862, section 5.4.3).

ghost use Rattle.std.specs.Prelude.{◌≡◌, ◌∷◌, ◌++◌, ◌+◌, ◌<◌, ◌≤◌, List, map, None, Some, IfOk, IsOk, OnOk, OnErr, bytes_eq, false, if◌then◌else◌, true, is_some};
ghost use Rattle.nd_addr.specs.Frame.{addressed};
ghost use Rattle.nd_addr.specs.Kind.{unspecified_address};
ghost use Rattle.nd_addr.specs.Number.{number_of};
ghost use Rattle.nd_decode.specs.Option.{Said};
ghost use Rattle.nd_decode.specs.declared.body.Body.TheVariants as bodies;
ghost use Rattle.nd_compose.specs.Frames.{answer_frame};
ghost use Rattle.nd_steps.specs.Outputs.{at_moment, happenings};
ghost use Rattle.nd_table.specs.Moment.{IsMoment};
ghost use Rattle.nd_packet.specs.Waiting.{max_waiting};
ghost use Rattle.std.specs.Option.{option_map, option_to_list};
ghost use Rattle.nd_neighbour.specs.declared.news.Times.{Times};
ghost use Rattle.nd_neighbour.specs.RoomKept.{has_room};
ghost use Rattle.nd_neighbour.specs.TableKept.{Stands as stands_for, entry_in};
ghost use Rattle.nd_chronicle.specs.Full.{Placed};
ghost use Rattle.nd_chronicle.specs.Histories.{neighbour_history};
ghost use Rattle.nd_chronicle.specs.Message.{makes_way, said};
ghost use Rattle.nd_steps.specs.GivingWay.{HasPlaceOrWay};
ghost use Rattle.nd_steps.specs.NeighbourCache.{said_by};
ghost use Rattle.nd_node.specs.Asker.{IsOfAsker, solicitation};
ghost use Rattle.nd_chronicle.specs.NeighborSolicitation as solicited;
ghost use Rattle.nd_chronicle.specs.Full.{Fills};
ghost use Rattle.nd_chronicle.specs.Happening.{Chronicle, Limit as Table, Passed, Sent, last_moment};
ghost use Rattle.nd_chronicle.specs.Start.{Start};
ghost use Rattle.nd_node.specs.Hearing.{AddsMessage, Keeps, options_read};
ghost use Rattle.nd_node.specs.Answer.{answer_of};

use crate::answer::Answer;
use crate::message::MOST_ROWS;
use crate::node::Node;
use nd_addr::{Addr, Mac, Role};
use nd_compose::FrameRoom;
use nd_decode::NeighborSolicitation;
use nd_neighbour::{Cache, News};
use nd_out::{Limit, Out, Refusal, Reports};
use nd_packet::{MAX_WAITING, Packet};
use nd_steps::{
    answer_address, has_place, hear_conflict, hear_giver, most_told_of_way, news_of, note_way,
    ready_for, tell_ignored, times_in_force,
};
use nd_validity::Heard;
use rand_core::Rng;
use std::alloc::{AllocError, Allocator};

/// Room for the frames of an answer, taken before anything changes.
#[derive(Drop)]
struct AnswerRoom<A: Allocator> {
    /// For the advertisement.
    answer: FrameRoom<A>,
    /// For the solicitation of the asker's link-layer address, if that isn't known.
    solicitation: Option<FrameRoom<A>>,
}

impl<R: Rng + Drop, A: Allocator + Clone> Node<R, A> {
    ghost use Rattle.nd_node.specs.NodeKept.{Stands, next_of};

    /// Handles a Neighbor Solicitation for one of the node's own addresses at `now`, in milliseconds (RFC 4861, sections 7.2.3 and 7.2.4; RFC 4862,
    /// section 5.4.3). One from `::` says that another node tries the address; one from an address is answered. Returns an error if out of memory;
    /// nothing has changed then.
    pub(crate) fn hear_neighbor_solicitation(
        &mut self,
        now: u64,
        heard: &Heard<'_>,
        ns: &NeighborSolicitation,
        outs: &mut Reports<A>,
    ) -> Result<Answer, AllocError>
        requires moment { IsMoment now }
        requires settled { now < next_of self.old }
        requires body { heard.now.message.body ≡ bodies.Ns ns.now }
        ensures adds { IfOk result (λ answer. AddsMessage R.stream self.old self.new outs.old.items outs.new.items now heard.now.source heard.now.destination (record { body = bodies.Ns ns.now; options = options_read self.old heard.now.message.options }) (answer_of answer)) }
        ensures keeps { OnErr result (Keeps self.old self.new) }
        ensures told { OnErr result (outs.new.items ≡ outs.old.items) }
        ensures full { (limit : Table) (start : Start) (c : Chronicle) → Stands R.stream start self.old c → last_moment start.at c ≤ now → Fills start ((now, Passed) ∷ c) now heard.now.source (record { body = bodies.Ns ns.now; options = options_read self.old heard.now.message.options }) (bodies.Ns ns.now) (Some limit) → self.old.policies.parts ≡ false → 0 < outs.old.free → IsOk result }
    {
        if heard.source.is_unspecified() {
            return self.hear_detection(now, heard, ns, outs);
        }
        self.hear_asker(now, heard, ns, outs)
    }

    /// Handles a solicitation from `::` for one of the node's own addresses, which another node tries. If the address is assigned, an advertisement
    /// to all nodes says so; if it is tentative, it is a duplicate (RFC 4861, section 7.2.4; RFC 4862, section 5.4.3). Returns an error if out of
    /// memory; nothing has changed then.
    fn hear_detection(
        &mut self,
        now: u64,
        heard: &Heard<'_>,
        ns: &NeighborSolicitation,
        outs: &mut Reports<A>,
    ) -> Result<Answer, AllocError>
        requires moment { IsMoment now }
        requires settled { now < next_of self.old }
        requires body { heard.now.message.body ≡ bodies.Ns ns.now }
        requires unspecified { bytes_eq heard.now.source.0 unspecified_address ≡ true }
        ensures adds { IfOk result (λ answer. (options : List Said) → AddsMessage R.stream self.old self.new outs.old.items outs.new.items now heard.now.source heard.now.destination (record { body = bodies.Ns ns.now; options = options }) (answer_of answer)) }
        ensures keeps { OnErr result (Keeps self.old self.new) }
        ensures told { OnErr result (outs.new.items ≡ outs.old.items) }
        ensures full { (options : List Said) (limit : Table) (start : Start) (c : Chronicle) → Stands R.stream start self.old c → last_moment start.at c ≤ now → Fills start ((now, Passed) ∷ c) now heard.now.source (record { body = bodies.Ns ns.now; options = options }) (bodies.Ns ns.now) (Some limit) → self.old.policies.parts ≡ false → 0 < outs.old.free → IsOk result }
    {
        nd_slaac::laws::none_overdue();
        let room = FrameRoom::new(outs.allocator().clone()?)?;
        outs.reserve(MOST_ROWS)?;
        self.report_heard(now, heard, outs);
        // RFC 4862, section 5.4.3: the target is tentative, and another node tries it, too.
        if hear_conflict(&mut self.addresses, &mut self.choice, ns.target) {
            outs.push_reserved((now, Out::Duplicate(ns.target)));
            return Ok(Answer::Done);
        }
        // RFC 4861, section 7.2.4: an advertisement to all nodes says that this node has the address.
        let router = is_router(self.role);
        let defence = room.defence(router, self.mac, ns.target);
        outs.push_reserved((now, Out::Frame(defence)));
        Ok(Answer::Done)
    }

    /// Handles a solicitation from an address for one of the node's own: the asker's entry takes what the solicitation says, and the answer goes to
    /// the asker (RFC 4861, sections 7.2.3 and 7.2.4). If there is no room for the asker it is refused, or answered without an entry with the policy `parts`.
    /// Returns an error if out of memory; nothing has changed then.
    fn hear_asker(
        &mut self,
        now: u64,
        heard: &Heard<'_>,
        ns: &NeighborSolicitation,
        outs: &mut Reports<A>,
    ) -> Result<Answer, AllocError>
        requires moment { IsMoment now }
        requires settled { now < next_of self.old }
        requires body { heard.now.message.body ≡ bodies.Ns ns.now }
        requires specified { bytes_eq heard.now.source.0 unspecified_address ≡ false }
        ensures adds { IfOk result (λ answer. AddsMessage R.stream self.old self.new outs.old.items outs.new.items now heard.now.source heard.now.destination (record { body = bodies.Ns ns.now; options = options_read self.old heard.now.message.options }) (answer_of answer)) }
        ensures keeps { OnErr result (Keeps self.old self.new) }
        ensures told { OnErr result (outs.new.items ≡ outs.old.items) }
        ensures full { (limit : Table) (start : Start) (c : Chronicle) → Stands R.stream start self.old c → last_moment start.at c ≤ now → Fills start ((now, Passed) ∷ c) now heard.now.source (record { body = bodies.Ns ns.now; options = options_read self.old heard.now.message.options }) (bodies.Ns ns.now) (Some limit) → self.old.policies.parts ≡ false → 0 < outs.old.free → IsOk result }
    {
        nd_neighbour::laws::none_overdue();
        nd_neighbour::laws::one_is_pushed_out();
        nd_neighbour::laws::an_end_ends_once();
        let asker = heard.source;
        let speakers = self.policies.speakers();
        let news = news_of(
            asker,
            &heard.message.body,
            heard.message.options,
            self.own_mac(),
        );
        if !has_place_for(&self.neighbours, now, asker, news, speakers) {
            if self.policies.parts() {
                return self.answer_without_entry(now, heard, ns, outs);
            }
            return self.refuse(now, Refusal::Full(Limit::Neighbours), outs);
        }
        let room = make_room(&mut self.neighbours, asker, news, speakers, outs)?;
        self.report_heard(now, heard, outs);
        let times = times_in_force(&self.params);
        // RFC 4861, section 7.2.3: the asker's link-layer address.
        let gone = hear_giver(
            &mut self.neighbours,
            &mut self.choice,
            now,
            news,
            times,
            speakers,
            outs,
        );
        note_way(&mut self.routers, &mut self.choice, gone);
        // Section 7.2.4: a solicited advertisement, sent to the asker.
        let router = is_router(self.role);
        let answer = room.answer.answer(router, self.mac, ns.target, asker);
        self.reply(now, asker, answer, room.solicitation, outs);
        Ok(Answer::Done)
    }

    /// Answers a solicitation from an address for which there is no room, at the link-layer address that the solicitation gives, unless that is a group's, and
    /// else not at all: with the policy `parts`. No entry is made, and none is used. Returns an error if out of memory; nothing has changed then.
    fn answer_without_entry(
        &mut self,
        now: u64,
        heard: &Heard<'_>,
        ns: &NeighborSolicitation,
        outs: &mut Reports<A>,
    ) -> Result<Answer, AllocError>
        requires moment { IsMoment now }
        requires settled { now < next_of self.old }
        requires body { heard.now.message.body ≡ bodies.Ns ns.now }
        requires specified { bytes_eq heard.now.source.0 unspecified_address ≡ false }
        requires parts { self.old.policies.parts ≡ true }
        requires placed { let message = solicitation ns.now (options_read self.old heard.now.message.options) in (start : Start) (c : Chronicle) → Stands R.stream start self.old c
            → Placed start ((now, Passed) ∷ c) now (makes_way start (said ((now, Passed) ∷ c) heard.now.source message)) (Some (number_of heard.now.source.0, true)) false }
        ensures adds { IfOk result (λ answer. AddsMessage R.stream self.old self.new outs.old.items outs.new.items now heard.now.source heard.now.destination (solicitation ns.now (options_read self.old heard.now.message.options)) (answer_of answer)) }
        ensures keeps { OnErr result (Keeps self.old self.new) }
        ensures told { OnErr result (outs.new.items ≡ outs.old.items) }
    {
        let mac = answer_address(heard.message.options, self.own_mac());
        let router = is_router(self.role);
        let alloc = outs.allocator().clone()?;
        let answer = answer_to(router, self.mac, ns.target, heard.source, mac, alloc)?;
        outs.reserve(MOST_ROWS)?;
        self.report_heard(now, heard, outs);
        tell_answer(outs, now, answer);
        tell_ignored(outs, now, false, Limit::Neighbours);
        Ok(Answer::Done)
    }
}

/// Returns the answer to a solicitation of an asker that has this link-layer address, and none without one (RFC 4861, section 7.2.4). Returns an error if out of
/// memory.
fn answer_to<A: Allocator>(
    router: bool,
    own: Mac,
    target: Addr,
    asker: Addr,
    mac: Option<Mac>,
    alloc: A,
) -> Result<Option<Packet<A>>, AllocError>
    ensures { IfOk result (λ answer. answer ≡ option_map (λ to. addressed to (answer_frame router own target asker)) mac) }
{
    match mac {
        Some(mac) => {
            let answer = FrameRoom::new(alloc)?.answer(router, own, target, asker);
            Ok(Some(answer.addressed(mac)))
        }
        None => Ok(None),
    }
}

/// Reports at `now`, in milliseconds, the frame of an answer, if there is one. It takes no memory: the caller has made room.
fn tell_answer<A: Allocator>(outs: &mut Reports<A>, now: u64, answer: Option<Packet<A>>)
    requires { 0 < outs.old.free }
    ensures told { happenings outs.new.items ≡ happenings outs.old.items ++ at_moment now (map (λ frame. Sent frame) (option_to_list answer)) }
    ensures len { outs.old.free ≤ outs.new.free + 1 }
{
    if let Some(frame) = answer {
        outs.push_reserved((now, Out::Frame(frame)));
    }
}

/// Returns true if there is room at `now`, in milliseconds, for an asker of which a solicitation may give these news, or if `speakers` are let in and another
/// neighbour gives way to it.
fn has_place_for<A: Allocator>(
    neighbours: &Cache<A>,
    now: u64,
    asker: Addr,
    news: Option<News>,
    speakers: bool,
) -> bool
    requires { IsOfAsker (number_of asker.0) news }
    ensures way { result ≡ true → HasPlaceOrWay speakers neighbours.now.limit now news neighbours.now.entries }
    ensures room { result ≡ true → news ≡ None → has_room neighbours.now.limit now (number_of asker.0) None neighbours.now.entries ≡ true }
    ensures placed { (start : Start) (c : Chronicle) (times : Times) → neighbours.now.limit ≡ start.limits.neighbours → speakers ≡ start.policies.speakers → stands_for neighbours.now.entries (neighbour_history c) → Placed start c now (makes_way start (option_map (said_by times) news)) (Some (number_of asker.0, true)) result }
{
    nd_neighbour::laws::room_is_place();
    nd_neighbour::laws::full_by_history();
    match news {
        Some(_) => has_place(neighbours, now, news, speakers),
        None => neighbours.room(now, asker, None),
    }
}

/// Makes room for an answer and for the rows that come with it: the frame, the rows, and what an asker needs that isn't there and doesn't give its
/// link-layer address. Returns an error if out of memory; no more than room has been made then.
fn make_room<A: Allocator + Clone>(
    neighbours: &mut Cache<A>,
    asker: Addr,
    news: Option<News>,
    speakers: bool,
    outs: &mut Reports<A>,
) -> Result<AnswerRoom<A>, AllocError>
    ensures places { OnOk result (max_waiting + 3 + (if speakers then max_waiting + 1 else 0) ≤ outs.new.free) }
    ensures ring { OnOk result (news ≡ None → entry_in (number_of asker.0) neighbours.old.entries ≡ None → 0 < neighbours.new.rings) }
    ensures solicitation { IfOk result (λ room. news ≡ None → entry_in (number_of asker.0) neighbours.old.entries ≡ None → is_some room.solicitation ≡ true) }
    ensures entries { neighbours.new.entries ≡ neighbours.old.entries }
    ensures limit { neighbours.new.limit ≡ neighbours.old.limit }
    ensures waiting { neighbours.new.waiting ≡ neighbours.old.waiting }
    ensures same { outs.new.items ≡ outs.old.items }
{
    let solicitation = match news {
        Some(_) => None,
        None => ready_for(neighbours, asker, outs)?,
    };
    let answer = FrameRoom::new(outs.allocator().clone()?)?;
    outs.reserve(MAX_WAITING + MOST_ROWS + most_told_of_way(speakers))?;
    Ok(AnswerRoom {
        answer,
        solicitation,
    })
}

/// Returns the flag R of the advertisements that the node sends (RFC 4861, section 4.4).
fn is_router(role: Role) -> bool
    ensures { result ≡ solicited.is_router role }
{
    match role {
        Role::Router => true,
        Role::Host => false,
    }
}
