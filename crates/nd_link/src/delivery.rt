//! A link carries a frame to a node. The definitions are in `specs/Delivery.antt`.

ghost use Rattle.std.specs.Prelude.{◌≡◌, ◌≢◌, ◌∷◌, ◌<◌, ◌≤◌, Err, IfNone, IfOk, IfSome, IsErrOf, IsOk, OnErr, OnOk, vec_capacity, vec_len};
ghost use Rattle.nd_table.specs.Moment.{IsMoment};
ghost use Rattle.nd_node.specs.Event.{request_of};
ghost use Rattle.nd_lines.specs.Counts.{one_more};
ghost use Rattle.nd_wire.specs.Wire.{IsFaithfulTo};
ghost use Rattle.nd_link_log.specs.Log as links;
ghost use Rattle.nd_link_log.specs.Log.{Log, Refuses};
ghost use Rattle.nd_link_log.specs.Event.{Comes, Delivers};
ghost use Rattle.nd_link.specs.Arrival.{Happens, reached};
ghost use Rattle.nd_link.specs.Delivery.{IsWay};
ghost use Rattle.nd_link.specs.Due.{AreSettled};
ghost use Rattle.nd_link.specs.Frames.{Arrived};
ghost use Rattle.nd_link.specs.Link.{Stands};
ghost use Rattle.nd_link.specs.Time.{Leads};

use crate::fault::LinkFault;
use crate::link::Link;
use crate::refusal::Refusal;
use crate::sent_frame::SentFrame;
use crate::told::Told;
use nd_node::{Event, Request};
use nd_wire::Wire;
use rand_core::Rng;
use std::alloc::{AllocError, Allocator};

impl<W, R: Rng + Drop, A: Allocator + Copy> Link<W, R, A> {
    /// Passes an event to the node of this number, or refuses it if there is none. Returns an error if out of memory; nothing is reported then.
    pub(crate) fn come(
        &mut self,
        now: u64,
        node: u64,
        event: &Request<A>,
        told: &mut Vec<Told<A>, A>,
    ) -> Result<(), AllocError>
        requires moment { IsMoment now }
        requires settled { AreSettled now self.old.nodes.items }
        requires in_time { self.old.last ≤ now }
        ensures leads { OnOk result (Leads R.stream self.old self.new told.old.items told.new.items (Happens now (Comes node (request_of event.now)))) }
        ensures told { OnErr result (told.new.items ≡ told.old.items) }
        ensures refused { (why : links.Refusal) (log : Log) → Stands R.stream self.old log → Happens now (Comes node (request_of event.now)) log (Refuses now why ∷ reached now log) → vec_len told.old < vec_capacity told.old → IsOk result }
        ensures wire { self.new.wire ≡ self.old.wire }
        ensures spent { self.new.spent ≡ self.old.spent }
    {
        match place_of(node, self.nodes.len()) {
            Some(place) => self.arrive(now, place, event, told),
            None => self.refuse(now, Refusal::NoNode, told),
        }
    }
}

impl<W: Wire, R: Rng + Drop, A: Allocator + Copy> Link<W, R, A> {
    /// Carries a frame to a node. It is refused if there is no such node or frame, or if the node is the frame's sender. Returns an error if out of
    /// memory or if the wire fails; nothing is reported then, and if the wire fails, the receiver has heard nothing.
    pub(crate) fn deliver(
        &mut self,
        now: u64,
        node: u64,
        number: u64,
        told: &mut Vec<Told<A>, A>,
    ) -> Result<(), LinkFault>
        requires moment { IsMoment now }
        requires settled { AreSettled now self.old.nodes.items }
        requires in_time { self.old.last ≤ now }
        ensures leads { IsFaithfulTo node W.arrives → OnOk result (Leads R.stream self.old self.new told.old.items told.new.items (Happens now (Delivers node number))) }
        ensures told { OnErr result (told.new.items ≡ told.old.items) }
        ensures refused { (why : links.Refusal) (log : Log) → Stands R.stream self.old log → Happens now (Delivers node number) log (Refuses now why ∷ reached now log) → vec_len told.old < vec_capacity told.old → IsOk result }
        ensures stands { IsErrOf result LinkFault.Wire → (log : Log) → Stands R.stream self.old log → Stands R.stream self.new log }
        ensures fault { IsErrOf result LinkFault.Wire → W.failed self.new.wire ≡ one_more (W.failed self.old.wire) }
        ensures no_fault { result ≢ Err LinkFault.Wire → W.failed self.new.wire ≡ W.failed self.old.wire }
        ensures spent { self.new.spent ≡ self.old.spent }
    {
        match way(node, number, self.nodes.len(), &self.frames) {
            Ok((place, sent)) => {
                let frame = self.carried(place, sent)?;
                let heard = Request::Event(Event::Receives(frame));
                Ok(self.arrive(now, place, &heard, told)?)
            }
            Err(why) => Ok(self.refuse(now, why, told)?),
        }
    }

    /// Returns what arrives at the node at place `to` of the frame at place `sent`.
    fn carried(&mut self, to: usize, sent: usize) -> Result<Vec<u8, A>, LinkFault>
        requires there { sent < vec_len self.old.frames }
        ensures arrives { IfOk result (λ frame. Arrived W.arrives to self.old.frames.items sent frame.items) }
        ensures same { self.new.nodes ≡ self.old.nodes }
        ensures frames { self.new.frames ≡ self.old.frames }
        ensures last { self.new.last ≡ self.old.last }
        ensures spent { self.new.spent ≡ self.old.spent }
        ensures fault { IsErrOf result LinkFault.Wire → W.failed self.new.wire ≡ one_more (W.failed self.old.wire) }
        ensures no_fault { result ≢ Err LinkFault.Wire → W.failed self.new.wire ≡ W.failed self.old.wire }
    {
        let sent = &self.frames[sent].frame;
        let mut frame = Vec::with_capacity(self.alloc, sent.len())?;
        self.wire.carry(to, sent, &mut frame)?;
        Ok(frame)
    }
}

/// Returns the places of the node and of the frame that a delivery names, or the first reason to refuse it.
fn way<A: Allocator>(
    node: u64,
    number: u64,
    nodes: usize,
    frames: &[SentFrame<A>],
) -> Result<(usize, usize), Refusal>
    ensures { IsWay nodes frames.now node number result }
{
    let Some(place) = place_of(node, nodes) else {
        return Err(Refusal::NoNode);
    };
    let Some(sent) = place_of(number, frames.len()) else {
        return Err(Refusal::NoFrame);
    };
    if frames[sent].sender == place {
        return Err(Refusal::Own);
    }
    Ok((place, sent))
}

/// Returns the place of a number among `count` places, if there is one.
fn place_of(number: u64, count: usize) -> Option<usize>
    ensures some { IfSome result (λ place. (place ≡ number) × (place < count)) }
    ensures none { IfNone result (count ≤ number) }
{
    if number < count as u64 {
        Some(number as usize)
    } else {
        None
    }
}
