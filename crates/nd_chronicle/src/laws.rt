//! Laws of the definitions, each the contract of a function that does nothing.

ghost use Rattle.std.specs.Prelude.{◌≡◌, ◌≢◌, ◌↔◌, ◌<◌, ◌≤◌, ◌+◌, ◌++◌, ◌∷◌, ◌==◌, ◌&&◌, ◌||◌, not, ℕ, Bool, IsSomeAnd, List, None, [], false, if◌then◌else◌, is_some, length, nat_lt, true};
ghost use Rattle.nd_addr.specs.Bytes.{AreBytes};
ghost use Rattle.nd_addr.specs.Number.{addr_at, number_of};
ghost use Rattle.nd_addr.specs.declared.addr.Addr.{Addr};
ghost use Rattle.nd_addr.specs.declared.mac.Mac.{Mac};
ghost use Rattle.nd_addr.specs.Same.{same_addr, same_prefix};
ghost use Rattle.nd_decode.specs.Message.{Parts};
ghost use Rattle.nd_decode.specs.Option.{Said};
ghost use Rattle.nd_dns.specs.AnnouncedNames.{names_told, same_name};
ghost use Rattle.nd_dns.specs.AnnouncedServers.{servers_told};
ghost use Rattle.nd_routers.specs.OnLinkPrefixes as on_link;
ghost use Rattle.nd_slaac.specs.PrefixOption.{prefixes_in};
ghost use Rattle.nd_slaac.specs.Room as own;
ghost use Rattle.nd_table.specs.Listing.{end_in, open_at, with_room};
ghost use Rattle.nd_routers.specs.Routers as routers;
ghost use Rattle.nd_neighbour.specs.Place.{WouldBeFull};
ghost use Rattle.nd_decode.specs.declared.prefix_info.PrefixInfo.{PrefixInfo};
ghost use Rattle.nd_decode.specs.declared.router_advertisement.RouterAdvertisement.{RouterAdvertisement};
ghost use Rattle.nd_chronicle.specs.Parts.{Filling, IsTakenInPart, Taken, TakenOfAdvertisement, TakesByRoom, options_taken, then_known};
ghost use Rattle.nd_chronicle.specs.Full.{needs};
ghost use Rattle.nd_chronicle.specs.RouterAdvertisement.{then_options};
ghost use Rattle.nd_decode.specs.declared.body.Body.TheVariants as bodies;
ghost use Rattle.nd_table.specs.History.{Past};
ghost use Rattle.nd_compose.specs.Frames.{unspecified, all_nodes, solicited_node};
ghost use Rattle.nd_compose.specs.Meaning.{IsUnicast, IsDetection, IsDefence};
ghost use Rattle.nd_slaac.specs.History.{Assigned, Row, RowKind, Solicited};
ghost use Rattle.nd_slaac.specs.MayCome.{Held};
ghost use Rattle.nd_slaac.specs.State.{is_assigned, is_known};
ghost use Rattle.nd_chronicle.specs.Start.{Limits, Start, link_local_key};
ghost use Rattle.nd_chronicle.specs.Happening.{Address, Chronicle, Happening, Heard, Passed, Refusal, Refused};
ghost use Rattle.nd_chronicle.specs.Histories.{address_history, neighbour_history};
ghost use Rattle.nd_chronicle.specs.OwnAddress.{is_own, is_up, story_of};
ghost use Rattle.nd_chronicle.specs.OwnAddress as own_addresses;
ghost use Rattle.nd_chronicle.specs.Event.{CarryAdds, ComeAsBytes, Event, EventAdds, FrameAdds, SendAdds, VerdictAdds, packet_sent, refusal_of_packet};
ghost use Rattle.nd_chronicle.specs.Hearing.{hears, is_allowed, is_awake, is_foreign};
ghost use Rattle.nd_chronicle.specs.Reading.{read_message};
ghost use Rattle.nd_chronicle.specs.NeighborAdvertisement.{then_neighbor_advertised};
ghost use Rattle.nd_chronicle.specs.NeighborSolicitation.{then_tried};
ghost use Rattle.nd_chronicle.specs.Due.{Due};
ghost use Rattle.nd_chronicle.specs.Growth.{Grows};
ghost use Rattle.nd_chronicle.specs.History.{IsChronicle, Runs, Walk};
ghost use Rattle.nd_chronicle.specs.Told.{text};
ghost use Rattle.nd_chronicle.specs.Refused.{GrowsUnrefused, RefusedOrNot};
ghost use Rattle.nd_chronicle.specs.Answer as answers;
ghost use Rattle.nd_chronicle.specs.Answer.{answer_after, is_packet};
ghost use Rattle.nd_chronicle.specs.Places.{AssignedInRows, HeldInRows, PlaceOf, solicited_with};
ghost use Rattle.nd_chronicle.specs.Unchanged.{IsTurnedAway, IsUnchanged, changes_nothing};

/// A history has one chronicle.
pub fn one_chronicle()
    ensures { (start : Start) (events : List (ℕ × Event)) (c d : Chronicle) → IsChronicle start events c → IsChronicle start events d → c ≡ d }
{}

/// Nothing that happened is lost: with each further event a chronicle only grows, and the text of what it adds is after the text of before.
pub fn only_grows()
    ensures rows { (start : Start) (events : List (ℕ × Event)) (c d : Chronicle) → Runs start c events d → Grows c d }
    ensures told { (newer c : Chronicle) → text (newer ++ c) ≡ text c ++ text newer }
{}

/// No address is assigned untried (RFC 4862, section 5.4): in all cases an assigned address was formed, was tentative at each place up to its
/// assignment, and was solicited for as often as the node is configured to. The solicitations are a RetransTimer apart, and the assignment is a
/// RetransTimer after the last one; RetransTimer is the one in force when the address was formed.
pub fn none_untried()
    ensures { (start : Start) (events : List (ℕ × Event)) (c : Chronicle) (key : ℕ) → IsChronicle start events c → is_assigned (story_of c key) ≡ true → Held start.transmits key (address_history c) }
{}

/// The same at each place of a chronicle, and in its rows.
pub fn tried_before_held()
    ensures history { (start : Start) (events : List (ℕ × Event)) (c d : Chronicle) (key : ℕ) → IsChronicle start events c → Past d c → is_assigned (story_of d key) ≡ true → Held start.transmits key (address_history d) }
    ensures rows { (start : Start) (events : List (ℕ × Event)) (c d : Chronicle) (key : ℕ) → IsChronicle start events c → Past d c → is_assigned (story_of d key) ≡ true → HeldInRows start key d }
{}

/// Each assignment of one of the node's own addresses ends a Duplicate Address Detection that found no rival (RFC 4862, sections 5.4.3 to 5.4.5):
/// `HeldInRows` holds of that assignment, and from the forming of the address up to it the node received neither a Neighbor Solicitation from `::`
/// for the address nor a Neighbor Advertisement for it.
pub fn each_assignment_was_tried()
    ensures { (start : Start) (events : List (ℕ × Event)) (c over : Chronicle) (at key : ℕ) → IsChronicle start events c → Past ((at, Address key Assigned) ∷ over) c → AssignedInRows start at key over }
{}

/// A dropped frame, a refused event and an event in the past change nothing: the history of each table, the packets that wait, the words of the
/// generator, what is due, each next hop and what each table shows stay as they were.
///
/// `turned_away` says so of events: behind what was due (RFC 4861 lets time pass first), an event whose frame is dropped, and one that is answered with a
/// refusal, leave a chronicle that is unchanged.
pub fn refusals_change_nothing()
    ensures turned_away { (start : Start) (c d : Chronicle) (now : ℕ) (event : Event) → EventAdds start now event ((now, Passed) ∷ c) d → IsTurnedAway start now event ((now, Passed) ∷ c) d → IsUnchanged start c d }
    ensures row { (start : Start) (c : Chronicle) (at : ℕ) (what : Happening) → changes_nothing what ≡ true → IsUnchanged start c ((at, what) ∷ c) }
    ensures event { (start : Start) (c : Chronicle) (now : ℕ) (what : Happening) → changes_nothing what ≡ true → IsUnchanged start c ((now, what) ∷ (now, Passed) ∷ c) }
{}

/// A refused event adds its refusal alone, and any other adds no refusal: so a refusal is the last row that its event adds.
pub fn refusals_come_alone()
    ensures { (start : Start) (now : ℕ) (event : Event) (c d : Chronicle) → EventAdds start now event c d → RefusedOrNot now c d }
{}

/// With the policy `parts` no message that is heard is refused (RFC 8106, section 5.3.1, lets a host ignore what is above its limit): what it adds is no refusal.
pub fn no_message_is_refused()
    ensures { (start : Start) (now : ℕ) (frame : List ℕ) (source destination : Addr) (message : Parts) (c d : Chronicle) → start.policies.parts ≡ true
        → VerdictAdds start now frame (hears source destination message) c d → GrowsUnrefused c d }
{}

/// With the policy `parts` a Router Advertisement that doesn't fit is taken but for what has no room, in its order (RFC 8106, section 5.3.1): of the announcements
/// of a table those that `with_room` leaves. A refresh or a removal always has room, and a new one while fewer are listed than the limit; so it is of own
/// addresses, of the router and of the neighbour too.
pub fn what_has_room_is_taken()
    ensures prefixes { (limits : Limits) (mac : Mac) (now : ℕ) (f : Filling) (options : List Said) → on_link.prefixes_in (options_taken limits mac now f options) ≡ with_room same_prefix limits.prefixes now (on_link.prefixes_in options) f.prefixes }
    ensures addresses { (limits : Limits) (mac : Mac) (now : ℕ) (f : Filling) (options : List Said) (start : Start) (to_all : Bool) (c : Chronicle)
        → then_options start now to_all (prefixes_in (options_taken limits mac now f options)) c ≡ then_options start now to_all (own.with_room limits.addresses mac f.addresses (prefixes_in options)) c }
    ensures servers { (limits : Limits) (mac : Mac) (now : ℕ) (f : Filling) (options : List Said) → servers_told (options_taken limits mac now f options) ≡ with_room same_addr limits.servers now (servers_told options) f.servers }
    ensures names { (limits : Limits) (mac : Mac) (now : ℕ) (f : Filling) (options : List Said) → names_told (options_taken limits mac now f options) ≡ with_room same_name limits.names now (names_told options) f.names }
    ensures prefix { TakesByRoom same_prefix }
    ensures server { TakesByRoom same_addr }
    ensures name { TakesByRoom same_name }

    // An option is passed over only if it would form an address too many; one that renews an address, or forms none, is taken.
    ensures address { (limit : ℕ) (mac : Mac) (keys : List ℕ) (info : PrefixInfo) (infos : List PrefixInfo) → own.with_room limit mac keys (info ∷ infos)
        ≡ (if own.would_form mac keys info && not (nat_lt (length keys) limit) then own.with_room limit mac keys infos
        else info ∷ own.with_room limit mac (then_known mac (info ∷ []) keys) infos) }

    // A router is listed unless it is new, its lifetime isn't 0, and as many are listed as the limit.
    ensures router { (start : Start) (c : Chronicle) (now : ℕ) (source : Addr) (ra : RouterAdvertisement) (message : Parts) (taken : Taken)
        → (t : TakenOfAdvertisement start c now source ra message taken) → length t.routers ≤ start.limits.routers
        → taken.listed ≡ ((ra.router_lifetime == 0) || (is_some (end_in routers.same (number_of source.0) (open_at now t.routers)) || nat_lt (length (open_at now t.routers)) start.limits.routers)) }

    // A neighbour gets its entry unless it is new, and all entries are taken and none of them is STALE.
    ensures neighbour { (start : Start) (c : Chronicle) (now : ℕ) (source : Addr) (message : Parts) (taken : Taken) → IsTakenInPart start c now source message message.body taken → taken.place ≡ false
        → IsSomeAnd (needs c source message message.body) (λ need. (need.1 ≡ true) × WouldBeFull start.limits.neighbours now need.0 (neighbour_history c)) }
{}

/// The answer to an event says what the event added: a refusal alone, or rows none of which is a refusal.
pub fn answers_say_what_was_added()
    ensures refused { (start : Start) (now : ℕ) (event : Event) (c d : Chronicle) (refusal : Refusal) → EventAdds start now event ((now, Passed) ∷ c) d
        → answer_after d (is_packet event) ≡ answers.Refused refusal → d ≡ (now, Refused refusal) ∷ (now, Passed) ∷ c }
    ensures taken { (start : Start) (now : ℕ) (event : Event) (c d : Chronicle) → EventAdds start now event ((now, Passed) ∷ c) d
        → answer_after d (is_packet event) ≡ answers.Done → GrowsUnrefused ((now, Passed) ∷ c) d }
{}

/// The number of one of the node's own addresses is that of an address, and of no multicast address, for any bytes received as frames (RFC 4862,
/// section 5.5.3).
pub fn own_addresses_are_unicast()
    ensures number { (start : Start) (events : List (ℕ × Event)) (c d : Chronicle) (key : ℕ) → AreBytes 6 start.mac.0
        → ComeAsBytes events → IsChronicle start events c → Past d c → is_known (story_of d key) ≡ true
        → number_of (addr_at key).0 ≡ key }
    ensures unicast { (start : Start) (events : List (ℕ × Event)) (c d : Chronicle) (key : ℕ) → AreBytes 6 start.mac.0
        → ComeAsBytes events → IsChronicle start events c → Past d c → is_known (story_of d key) ≡ true
        → IsUnicast (addr_at key) }
{}

/// At each place of a chronicle, one of the node's own addresses other than the link-local one is known only if the link-local one is assigned, and
/// that one stays so, for any bytes received as frames: if it is a duplicate, the node has no address of its own (RFC 4862, sections 5.3, 5.4.5 and
/// 5.5.3).
pub fn link_local_address_comes_first()
    ensures known { (start : Start) (events : List (ℕ × Event)) (c d : Chronicle) (key : ℕ) → ComeAsBytes events
        → IsChronicle start events c → Past d c → key ≢ link_local_key start → is_known (story_of d key) ≡ true → is_up start d ≡ true }
    ensures own { (start : Start) (events : List (ℕ × Event)) (c d : Chronicle) (address : List ℕ) → ComeAsBytes events
        → IsChronicle start events c → Past d c → number_of address ≢ link_local_key start → is_own d address ≡ true → is_up start d ≡ true }
    ensures stays { (start : Start) (events : List (ℕ × Event)) (c d e : Chronicle) → ComeAsBytes events
        → IsChronicle start events c → Past d c → Past e d → is_up start e ≡ true → is_up start d ≡ true }
    ensures later { (start : Start) (events later : List (ℕ × Event)) (c d : Chronicle)
        → ComeAsBytes events → ComeAsBytes later
        → IsChronicle start events c → Runs start c later d → is_up start c ≡ true → is_up start d ≡ true }
{}

/// A packet of the upper layer that isn't refused adds what the whole packet adds that the node builds of it (RFC 4861, section 5.2).
pub fn a_send_is_a_carry()
    ensures { (start : Start) (events : List (ℕ × Event)) (c d e : Chronicle) (now : ℕ) (source destination : Addr) (next_header : ℕ) (payload : List ℕ) → ComeAsBytes events
        → IsChronicle start events c → Past d c → refusal_of_packet start now source payload d ≡ None
        → SendAdds start now source destination next_header payload d e ↔ CarryAdds start now (packet_sent start now source destination next_header payload d) d e }
{}

/// What happened to the node's own addresses is in the chronicle, row by row, and each solicitation for one is sent in the moment of its row, with
/// nothing between (RFC 4862, section 5.4.2).
pub fn rows_have_places()
    ensures place { (c : Chronicle) (at key : ℕ) (kind : RowKind) (below : List Row) → Past ((at, key, kind) ∷ below) (address_history c) → PlaceOf at key kind below c }
    ensures past { (c d : Chronicle) → Past d c → Past (address_history d) (address_history c) }
    ensures sent { (start : Start) (events : List (ℕ × Event)) (c below : Chronicle) (at key : ℕ) → IsChronicle start events c → Past ((at, Address key Solicited) ∷ below) c → Past (solicited_with start at key below) c }
{}

/// If another node tries one of the node's own addresses, the node reports a duplicate or says to all nodes that it has the address. If another
/// node says to all nodes that it has an address, this is a duplicate if it is tentative here (RFC 4861, section 7.2.4; RFC 4862, sections 5.4.3
/// and 5.4.4). Neither is refused, and nothing else happens before it. With the policy `self` this needs that the source is no address that is assigned here,
/// and with `strict` that a solicitation has no option of type 1.
pub fn rivals_are_heard()
    ensures tried { (start : Start) (c d : Chronicle) (now : ℕ) (frame : List ℕ) (address : Addr) → AreBytes 16 address.0 → IsUnicast address → (t : IsDetection frame address)
        → is_own c address.0 ≡ true → is_awake start c unspecified (bodies.Ns (record { target = address })) ≡ true
        → is_foreign start (own_addresses.is_assigned c) unspecified ≡ true
        → is_allowed start.policies unspecified (solicited_node address) (read_message start.policies start.mac t.message) ≡ true
        → FrameAdds start now frame c d → d ≡ then_tried start now address ((now, Heard unspecified (solicited_node address) (read_message start.policies start.mac t.message)) ∷ c) }
    ensures held { (start : Start) (c d : Chronicle) (now : ℕ) (frame : List ℕ) (address : Addr) → AreBytes 16 address.0 → IsUnicast address → (t : IsDefence frame address)
        → is_awake start c address (bodies.Na (record { router = t.router; solicited = false; override_flag = t.overrides; target = address })) ≡ true
        → is_foreign start (own_addresses.is_assigned c) address ≡ true
        → is_allowed start.policies address all_nodes (read_message start.policies start.mac t.message) ≡ true
        → FrameAdds start now frame c d → d ≡ then_neighbor_advertised start now address all_nodes address (read_message start.policies start.mac t.message) c }
{}

/// Milliseconds in which nothing is due add nothing: a caller that knows the moment before which nothing is due may go there at once.
pub fn idle_time_passes()
    ensures { (start : Start) (c d : Chronicle) (next end : ℕ) → ((moment : ℕ) → moment < next → Due start c moment None) → (moment : ℕ) → moment ≤ next → next ≤ end + 1
        → Walk start c next end d → Walk start c moment end d }
{}
