//! What an event does to the node in a slot, and the status that is returned. The definitions are in `specs/Event.antt` and `specs/Given.antt`.

ghost use Rattle.std.specs.Prelude.{◌≡◌};
ghost use Rattle.nd_table.specs.Moment.{IsMoment};
ghost use Rattle.nd_node.specs.Answer.{answer_of};
ghost use Rattle.nd_session.specs.Advancing.{AdvancesOnErr};
ghost use Rattle.nd_session.specs.Event.{Takes};
ghost use Rattle.nd_session.specs.Leases.{KeepsLeases};
ghost use Rattle.nd_session.specs.Ready.{KeepsReady};
ghost use Rattle.nd_c.specs.Event.{Answers, Comes, status_of};
ghost use Rattle.nd_c.specs.Given.{event_given};

use crate::call::with_session;
use crate::status::{DONE, NO_MEMORY, NOTHING, PAST};
use nd_addr::Addr;
use nd_c_types::refused;
use nd_node::{Answer, Event};
use nd_session::{Session, Slot};
use std::alloc::{AllocError, Global};

/// What is given to a session.
#[derive(Clone, Copy)]
pub(crate) enum Given<'a> {
    /// An event.
    Event(&'a Event<Global>),
    /// A frame, from its Ethernet destination on (RFC 2464, section 3).
    Frame(&'a [u8]),
    /// A packet of the upper layer, to be sent (RFC 4861, section 5.2).
    Packet {
        source: &'a [u8; 16],
        destination: &'a [u8; 16],
        next_header: u8,
        payload: &'a [u8],
    },
}

/// Gives an event to the session in a slot, at `now` in milliseconds, and returns the status.
#[inline(always)]
pub(crate) fn answer(alloc: Global, node: &mut Slot, now: u64, given: Given<'_>) -> i32
    ensures { Answers now (event_given given.entry) result node.old.handle.session node.new.handle.session }
{
    with_session!(alloc, node, now, session => comes(&mut session, now, given))
}

/// Gives an event to a session, at `now` in milliseconds, and returns the status.
#[inline(always)]
fn comes(session: &mut Session, now: u64, given: Given<'_>) -> i32
    requires { IsMoment now }
    ensures { Comes now (event_given given.entry) result session.old session.new }
{
    match give(session, now, given) {
        Ok(answer) => status_of(answer),
        Err(_) => NO_MEMORY,
    }
}

/// Gives an event to a session, at `now` in milliseconds. Returns an error if out of memory: a part of what is due may have been done and reported
/// then, and the event has added nothing.
#[inline(always)]
fn give(session: &mut Session, now: u64, given: Given<'_>) -> Result<Answer, AllocError>
    requires { IsMoment now }
    ensures takes { Takes now (event_given given.entry) result session.old session.new }
    ensures leases { KeepsLeases session.old session.new }
    ensures ready { KeepsReady session.old session.new }
    ensures advances { AdvancesOnErr now result session.old session.new }
{
    match given {
        Given::Event(event) => session.event(now, event),
        Given::Frame(frame) => session.receive(now, frame),
        Given::Packet {
            source,
            destination,
            next_header,
            payload,
        } => session.send(now, Addr(*source), Addr(*destination), next_header, payload),
    }
}

/// Returns the status that says how the node took an event.
pub(crate) fn status_of(answer: Answer) -> i32
    ensures { result ≡ status_of (answer_of answer) }
{
    match answer {
        Answer::Done => DONE,
        Answer::NoRoute => NOTHING,
        Answer::Refused(refusal) => refused(&refusal),
        Answer::Past(_) => PAST,
    }
}
