//! Laws of the definitions, each the contract of a function that does nothing.

ghost use Rattle.std.specs.Prelude.{◌⊎◌, ◌≡◌, ◌≢◌, ◌≤◌, ◌↔◌, ◌++◌, ◌∷◌, [], ℕ, Bool, false, true, List, Option, None, Some, length};
ghost use Rattle.std.specs.Option.{option_map, option_to_list};
ghost use Rattle.nd_addr.specs.Number.{number_of};
ghost use Rattle.nd_packet.specs.Waiting.{replaced, then_waits};
ghost use Rattle.nd_neighbour.specs.declared.news.News.{News};
ghost use Rattle.nd_neighbour.specs.declared.news.Times.{Times};
ghost use Rattle.nd_neighbour.specs.News.{mac_given, news_row, released_by};
ghost use Rattle.nd_neighbour.specs.Story.{is_awaited, is_present, mac_of};
ghost use Rattle.nd_neighbour.specs.History.{Cause, Forgot, Row, RowKind, Story, Used, Waits, story};
ghost use Rattle.nd_neighbour.specs.GivingWay.{GivesWay};
ghost use Rattle.nd_neighbour.specs.declared.shown.Reachability.TheVariants.{Stale};
ghost use Rattle.nd_neighbour.specs.Shown.{is_leased, state_of};
ghost use Rattle.nd_neighbour.specs.RoomKept.{has_room};
ghost use Rattle.nd_neighbour.specs.EntryKept.{NeighbourEntry};
ghost use Rattle.nd_neighbour.specs.AddressResolution.{resolution_of, room_in, waiting_of};
ghost use Rattle.nd_neighbour.specs.TableKept.{Stands};
ghost use Rattle.nd_neighbour.specs.Due.{Falls, FirstDue, NoneOverdue};
ghost use Rattle.nd_neighbour.specs.DueKept.{NoneBefore};
ghost use Rattle.nd_neighbour.specs.Place.{IsLongestStale, Prepares, WouldBeFull, pushing};
ghost use Rattle.nd_neighbour.specs.PlaceKept.{NoPlace};

/// The definitions give one table, one thing that is due first, and one neighbour that is evicted.
pub fn one_answer()
    ensures table { (history : List Row) (a b : List NeighbourEntry) → Stands a history → Stands b history → a ≡ b }
    ensures due { (history : List Row) (moment : ℕ) (a b : Option Falls) → FirstDue history moment a → FirstDue history moment b → a ≡ b }
    ensures longest { (history : List Row) (now a b : ℕ) → IsLongestStale history now a → IsLongestStale history now b → a ≡ b }
{}

/// Nothing that happens makes something due in the past. If nothing in a history is overdue at a moment, nothing is after one more row of that
/// moment, for any row. A table that stands for a history has no date before a moment exactly if nothing in the history is overdue then.
pub fn none_overdue()
    ensures still { (history : List Row) (now key : ℕ) (kind : RowKind) → NoneOverdue history now → NoneOverdue ((now, key, kind) ∷ history) now }
    ensures table { (entries : List NeighbourEntry) (history : List Row) (now : ℕ) → Stands entries history → NoneBefore entries now ↔ NoneOverdue history now }
{}

/// Room is made by the end of one neighbour, or of none.
pub fn one_is_pushed_out()
    ensures { (limit now key : ℕ) (enters : Bool) (history made : List Row) → Prepares limit now enters key history made → (pushed : Option ℕ) × (made ≡ pushing now pushed history) }
{}

/// A neighbour that has a link-layer address and isn't STALE is never evicted, nor does it fail for one that speaks: what makes room for another one leaves its
/// story, and the one that gives way has no link-layer address.
pub fn neighbours_in_use_stay()
    ensures evicted { (limit now key : ℕ) (enters : Bool) (history made : List Row) (k mac : ℕ) → Prepares limit now enters key history made → mac_of (story k history) ≡ Some mac
        → state_of (story k history) now ≢ Stale → story k made ≡ story k history }
    ensures gave_way { (limit now key gone : ℕ) (history : List Row) → GivesWay limit now key history (Some gone) → mac_of (story gone history) ≡ None }
    ensures one { (limit now key : ℕ) (history : List Row) (a b : Option ℕ) → GivesWay limit now key history a → GivesWay limit now key history b → a ≡ b }
{}

/// The end of a neighbour that isn't present changes nothing.
pub fn an_end_ends_once()
    ensures { (entries : List NeighbourEntry) (history : List Row) (at key : ℕ) (cause : Cause) → Stands entries history → is_present (story key history) ≡ false
        → Stands entries ((at, key, Forgot cause) ∷ history) }
{}

/// If there is room for a neighbour, and after it for a second one, there is room for the first one.
pub fn room_is_place()
    ensures { (limit now key : ℕ) (second : Option ℕ) (entries : List NeighbourEntry) → has_room limit now key second entries ≡ true → NoPlace limit now key entries → ⊥ }
{}

/// A cache has no room for a new neighbour exactly if its history leaves none.
pub fn full_by_history()
    ensures { (limit now key : ℕ) (entries : List NeighbourEntry) (history : List Row) → Stands entries history → NoPlace limit now key entries ↔ WouldBeFull limit now key history }
{}

/// No more packets wait than there is room for, and no packet is lost, doubled or moved if one more arrives: those that waited and the new one are the one that is
/// dropped for it, if one is, and those that wait then.
pub fn no_packet_is_lost()
    ensures few { (s : Story) → length (waiting_of s) ≤ room_in (resolution_of s) }
    ensures history { (s : Story) (at : ℕ) (packet : List ℕ) → waiting_of s ++ packet ∷ [] ≡ option_to_list (replaced (room_in (resolution_of s)) (waiting_of s) packet) ++ waiting_of ((at, Waits packet) ∷ s) }
    ensures kept { (room : ℕ) (waiting : List (List ℕ)) (packet : List ℕ) → length waiting ≤ room → waiting ++ packet ∷ [] ≡ option_to_list (replaced room waiting packet) ++ then_waits room waiting packet }
{}

/// A use of a neighbour whose link-layer address is known and that isn't STALE changes nothing: what stands for a history stands for it with the use as well, so
/// that no later question is answered otherwise (RFC 4861, section 7.3.3).
pub fn leased_use_changes_nothing()
    ensures { (entries : List NeighbourEntry) (history : List Row) (now key retrans : ℕ) → Stands entries history → is_leased (state_of (story key history) now) ≡ true
        → Stands entries ((now, key, Used retrans) ∷ history) }
{}

/// A message releases no more packets than there was room for, and they go to the address that it gives: if any are released, or if a caller waits,
/// that is the address known afterwards.
pub fn released_to_the_given_address()
    ensures few { (now : ℕ) (news : News) (times : Times) (s : Story) → length (released_by now (news_row news times) s) ≤ room_in (resolution_of s) }
    ensures awaited { (now : ℕ) (news : News) (times : Times) (s : Story) → is_awaited s ≡ true → mac_of ((now, news_row news times) ∷ s) ≡ option_map (λ mac. number_of mac.0) (mac_given news) }
    ensures given { (now : ℕ) (news : News) (times : Times) (s : Story) → (released_by now (news_row news times) s ≡ []) ⊎ (mac_of ((now, news_row news times) ∷ s) ≡ option_map (λ mac. number_of mac.0) (mac_given news)) }
{}
