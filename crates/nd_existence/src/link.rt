//! All events on a link have a log: laws of the definitions, each the contract of a function that does nothing.

ghost use Rattle.std.specs.Prelude.{ℕ, ◌<◌, List};
ghost use Rattle.rand_core.specs.Stream.{Stream};
ghost use Rattle.nd_addr.specs.Bytes.{AreBytes};
ghost use Rattle.nd_addr.specs.declared.mac.Mac.{Mac};
ghost use Rattle.nd_chronicle.specs.Start.{Limits};
ghost use Rattle.nd_link_log.specs.Event.{Event};
ghost use Rattle.nd_link_log.specs.History.{IsLog};
ghost use Rattle.nd_link_log.specs.Log.{Log};
ghost use Rattle.nd_existence.specs.LinkIntervals.{LeaveTime};
ghost use Rattle.nd_existence.specs.LinkPremises.{MeetsPremises};

/// All events on a link, with their moments, in order or not, have a log. By `nd_link_log::laws::one_log` there is no other.
///
/// The one premise is that no router of the link is given a MinRtrAdvInterval of 0 (RFC 4861, section 6.2.1); `nd_existence::node` has the reason.
pub fn each_link_has_a_log()
    ensures { (limits : Limits) (events : List (ℕ × Event)) → LeaveTime events → (log : Log) × IsLog limits events log }
{}

/// The premises of both laws of one holder (`nd_link_log::laws::one_holder` and `one_holder_where_frames_are_lost`) are met by a run: two routers of
/// any one link-layer address start, with any words of their generators, the second one once the first one holds its link-local address. The second
/// one tries that address, and its first solicitation is carried to the first one in the millisecond in which it is sent; the first one answers it.
/// The log of these events is timely for each time below 500 milliseconds, loses little, and one node holds an address in it.
///
/// It ends with that answer. So it shows that the premises can be met where an address is held and a rival's frame arrives in time. It shows nothing
/// of a longer run, nor of a timely link on which more frames are carried.
pub fn premises_are_met_by_a_run()
    ensures { (limits : Limits) (mac : Mac) (transmits : ℕ) (words others : Stream) → AreBytes 6 mac.0 → 0 < transmits
        → (events : List (ℕ × Event)) × (log : Log) × MeetsPremises limits events log }
{}
