//! A message that a stack has taken out of its packet: it is received as the frame that has its fields. The definitions are in
//! `nd_c_types/specs/Message.antt`.

ghost use Rattle.std.specs.Prelude.{◌≡◌, ◌≤◌, MatchResult, true, false, length};
ghost use Rattle.nd_table.specs.Moment.{IsMoment};
ghost use Rattle.nd_chronicle.specs.Event as events;
ghost use Rattle.nd_node.specs.Answer.{answer_of};
ghost use Rattle.nd_node.specs.Event.{FollowsBy};
ghost use Rattle.nd_node.specs.Node.{last_of};
ghost use Rattle.nd_node.specs.Time.{Onward};
ghost use Rattle.nd_session.specs.Advancing.{AdvancesOnErr};
ghost use Rattle.nd_session.specs.Event.{LedBy};
ghost use Rattle.nd_session.specs.Leases.{KeepsLeases};
ghost use Rattle.nd_session.specs.Ready.{KeepsReady};
ghost use Rattle.nd_c.specs.Event.{Answers, Comes};
ghost use Rattle.nd_c.specs.Status.{invalid};
ghost use Rattle.nd_c_types.specs.Message.{frame_of, is_message};

use crate::answer::status_of;
use crate::call::with_session;
use crate::status::{INVALID, NO_MEMORY, PAST};
use nd_c_types::Message;
use nd_node::Answer;
use nd_session::{Session, Slot};
use std::alloc::{AllocError, Global};

/// Receives a message of ICMPv6, from its type on, with what its IPv6 header said. The caller keeps the bytes.
#[unsafe(no_mangle)]
pub extern "C" fn nd_receive_message(
    alloc: Global,
    node: &mut Slot,
    now: u64,
    message: &Message,
    bytes: &[u8],
) -> i32
    ensures bad { is_message message.now bytes.now ≡ false → (result ≡ invalid) × (node.new.handle.session ≡ node.old.handle.session) }
    ensures event { is_message message.now bytes.now ≡ true → Answers now (events.Receives (frame_of message.now bytes.now)) result node.old.handle.session node.new.handle.session }
{
    if !message.is_message(bytes) {
        return INVALID;
    }
    with_session!(alloc, node, now, session => receive(alloc, &mut session, now, message, bytes))
}

/// Receives a message at `now`, in milliseconds, as its frame.
fn receive(alloc: Global, session: &mut Session, now: u64, message: &Message, bytes: &[u8]) -> i32
    requires moment { IsMoment now }
    requires few { length bytes.now ≤ 65535 }
    ensures { Comes now (events.Receives (frame_of message.now bytes.now)) result session.old session.new }
{
    if session.is_past(now) {
        return PAST;
    }
    match take(alloc, session, now, message, bytes) {
        Ok(answer) => status_of(answer),
        Err(_) => NO_MEMORY,
    }
}

/// Does all that is due up to `now`, in milliseconds, and then takes a message as its frame. Returns an error if out of memory: a part of what is due may
/// have been done then, and the message has added nothing.
fn take(
    alloc: Global,
    session: &mut Session,
    now: u64,
    message: &Message,
    bytes: &[u8],
) -> Result<Answer, AllocError>
    requires moment { IsMoment now }
    requires in_time { last_of session.old.node ≤ now }
    requires few { length bytes.now ≤ 65535 }
    ensures taken { MatchResult result (λ answer. LedBy session.old session.new (FollowsBy now (events.Receives (frame_of message.now bytes.now)) (answer_of answer))) (λ error. LedBy session.old session.new (Onward now)) }
    ensures leases { KeepsLeases session.old session.new }
    ensures ready { KeepsReady session.old session.new }
    ensures advances { AdvancesOnErr now result session.old session.new }
{
    session.settle(now)?;
    let frame = message.frame(alloc, bytes)?;
    session.hear(now, &frame)
}
