//! Laws of the definitions, each the contract of a function that does nothing.

ghost use Rattle.std.specs.Prelude.{◌≡◌, ◌≤◌, ◌*◌, ◌++◌, ◌∷◌, ℕ, List, [], Some};
ghost use Rattle.std.specs.List.{flat_map};
ghost use Rattle.nd_addr.specs.Bytes.{AreBytes};
ghost use Rattle.nd_table.specs.History.{Past};
ghost use Rattle.nd_chronicle.specs.Start.{Limits, Start};
ghost use Rattle.nd_chronicle.specs.Happening.{Sent};
ghost use Rattle.nd_chronicle.specs.Event as chronicle;
ghost use Rattle.nd_chronicle.specs.Event.{ComeAsBytes};
ghost use Rattle.nd_chronicle.specs.History.{IsChronicle};
ghost use Rattle.nd_chronicle.specs.Told.{items};
ghost use Rattle.nd_link_log.specs.Log.{Adds, Carries, Entry, Log, chronicle_of, nodes, sent, start_of};
ghost use Rattle.nd_link_log.specs.Event.{Event, max_nodes};
ghost use Rattle.nd_link_log.specs.Bytes.{AreOfBytes, SendsBytes};
ghost use Rattle.nd_link_log.specs.History.{IsLog, Runs};
ghost use Rattle.nd_link_log.specs.NodeHistory.{IsHistoryOf};
ghost use Rattle.nd_link_log.specs.Holding.{AllArrive, AllWait, Arrives, HasOneHolder, Holds, IsTimely};
ghost use Rattle.nd_link_log.specs.Losing.{LosesLittle};
ghost use Rattle.nd_link_log.specs.Sound.{IsSound};
ghost use Rattle.nd_link_log.specs.Told.{items_among, report_line, reports, text};

/// A number names one frame: of two that were sent with the same number both are the same one, with its sender and its moment.
pub fn one_frame()
    ensures { (log a b : Log) (i j at when : ℕ) (frame other : List ℕ) → Past (Adds i at (Sent frame) ∷ a) log → Past (Adds j when (Sent other) ∷ b) log
        → sent a ≡ sent b → Adds i at (Sent frame) ∷ a ≡ Adds j when (Sent other) ∷ b }
{}

/// A list of events has one log.
pub fn one_log()
    ensures { (limits : Limits) (events : List (ℕ × Event)) (c d : Log) → IsLog limits events c → IsLog limits events d → c ≡ d }
{}

/// Nothing that happened on a link is lost: with each further event its log only grows.
pub fn log_only_grows()
    ensures { (limits : Limits) (events : List (ℕ × Event)) (log d : Log) → Runs limits log events d → (newer : List Entry) × (d ≡ newer ++ log) }
{}

/// A link has at most sixteen nodes: a further one is refused.
pub fn few_nodes()
    ensures { (limits : Limits) (events : List (ℕ × Event)) (log : Log) → IsLog limits events log → nodes log ≤ max_nodes }
{}

/// The text of what is added to a log is after the text of what was there before.
pub fn text_only_grows()
    ensures { (newer log : List Entry) → text (newer ++ log) ≡ text log ++ text newer }
{}

/// What is reported of a link determines its text: that is the lines of the reports.
pub fn text_is_of_reports()
    ensures { (log : Log) → text log ≡ flat_map report_line (reports log) }
{}

/// What is reported of a node on a link is what is reported of its own chronicle: the frames that it sent, the messages that it heard with their
/// addresses and fields, the packets that it lost, and the words of all else.
pub fn reports_are_the_nodes()
    ensures { (log : Log) (node : ℕ) → items_among node (reports log) ≡ items (chronicle_of node log) }
{}

/// Each node of a link has a history of its own: its chronicle in the log is the one of that history, which is of bytes if the link's is.
pub fn nodes_have_histories()
    ensures { (limits : Limits) (events : List (ℕ × Event)) (log : Log) (node : ℕ) (start : Start) → IsLog limits events log → start_of node log ≡ Some start
        → (history : List (ℕ × chronicle.Event)) × IsChronicle start history (chronicle_of node log) × (AreOfBytes events → SendsBytes log → ComeAsBytes history) }
{}

/// Which history that is: every event on the link since the node started that wasn't too late, as its own event if it is for the node, as a
/// received frame if the link carries another node's frame to it, and otherwise as time that passes.
pub fn nodes_live_the_links_events()
    ensures { (limits : Limits) (events : List (ℕ × Event)) (log : Log) (node : ℕ) (start : Start) → IsLog limits events log → start_of node log ≡ Some start
        → (history : List (ℕ × chronicle.Event)) × IsHistoryOf limits node [] events history log × IsChronicle start history (chronicle_of node log) }
{}

/// The log of each link is sound: for any events in any order, its nodes and the link itself do what they owe.
pub fn links_are_sound()
    ensures { (limits : Limits) (events : List (ℕ × Event)) (log : Log) → AreOfBytes events → SendsBytes log → IsLog limits events log → IsSound log }
{}

/// On a timely link, at each place of its log, no address is preferred or deprecated at two nodes (RFC 4862, section 5.4). This follows from what
/// the nodes and the link owe alone: how a node gets an address, and the effect of a carried frame. So it holds on each link. It is the same for each
/// address, whether an advertisement formed it or it was given by hand.
pub fn one_holder()
    ensures where_sound { (log : Log) (within : ℕ) → IsSound log → IsTimely within log → HasOneHolder log }
    ensures on_links { (limits : Limits) (events : List (ℕ × Event)) (log : Log) (within : ℕ) → AreOfBytes events → SendsBytes log → IsLog limits events log
        → IsTimely within log → HasOneHolder log }
{}

/// On a link that loses frames no address is preferred or deprecated at two nodes either (RFC 4862, section 5.4), if in each attempt for an address
/// at least one solicitation reaches each other node that was on the link when the address was formed, and each answer to that delivery reaches the
/// node that asks, both in time. Anything else may be lost. A timely link is a case of it.
pub fn one_holder_where_frames_are_lost()
    ensures where_sound { (log : Log) (within : ℕ) → IsSound log → LosesLittle within log → HasOneHolder log }
    ensures on_links { (limits : Limits) (events : List (ℕ × Event)) (log : Log) (within : ℕ) → AreOfBytes events → SendsBytes log → IsLog limits events log
        → LosesLittle within log → HasOneHolder log }
    ensures timely { (log : Log) (within : ℕ) → IsSound log → IsTimely within log → LosesLittle within log }
{}

/// The premises can be met: on a log of two nodes that is sound and timely a frame was carried, and one of them holds an address.
pub fn premises_are_met()
    ensures { (start : Start) → start.at ≡ 0 → AreBytes 6 start.mac.0
        → (log : Log) × (key : ℕ) × (nodes log ≡ 2) × IsSound log × IsTimely 1 log × Arrives log 1 0 0 1 × Holds 0 key log }
{}

/// The bound is sharp: on a sound log where each frame arrives in 2 milliseconds and a tentative address waits for 4, two nodes hold an address.
pub fn bound_is_sharp()
    ensures { (start : Start) → start.at ≡ 0 → AreBytes 6 start.mac.0
        → (log : Log) × (key : ℕ) × IsSound log × AllArrive 2 log × AllWait (2 * 2) log × Holds 0 key log × Holds 1 key log }
{}

/// The premises can be met if frames are lost: on a sound log of two nodes only the second of three solicitations is carried, and the address is
/// held.
pub fn losses_are_borne()
    ensures { (start : Start) → start.at ≡ 0 → AreBytes 6 start.mac.0
        → (log : Log) × (key : ℕ) × (nodes log ≡ 2) × (sent log ≡ 3) × IsSound log × LosesLittle 1 log
        × ((node at number : ℕ) (before : Log) → Past (Carries node at number ∷ before) log → number ≡ 1) × Arrives log 1 1 4 1 × Holds 0 key log }
{}

/// The premise is needed: on a sound log where RetransTimer is more than twice the time in which the first node's frame arrives, and all three
/// solicitations of the second node are lost, both hold an address.
pub fn some_solicitation_has_to_arrive()
    ensures { (start : Start) → start.at ≡ 0 → AreBytes 6 start.mac.0
        → (log : Log) × (key : ℕ) × (nodes log ≡ 2) × (sent log ≡ 4) × IsSound log × AllWait 3 log
        × ((node at number : ℕ) (before : Log) → Past (Carries node at number ∷ before) log → number ≡ 0) × Arrives log 1 0 0 1 × Holds 0 key log × Holds 1 key log }
{}
