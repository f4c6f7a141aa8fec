//! Laws of the definitions, each the contract of a function that does nothing.

ghost use Rattle.std.specs.Prelude.{◌≡◌, ◌<◌, ◌↔◌, ◌∷◌, ℕ, Bool, List, Option, true};
ghost use Rattle.nd_slaac.specs.History.{Row, RowKind, story};
ghost use Rattle.nd_table.specs.Ends.{is_before};
ghost use Rattle.nd_slaac.specs.Ends.{valid_end};
ghost use Rattle.nd_slaac.specs.State.{is_known, is_assigned};
ghost use Rattle.nd_slaac.specs.AddressKept.{Address};
ghost use Rattle.nd_slaac.specs.TableKept.{Stands};
ghost use Rattle.nd_slaac.specs.Due.{Falls, IsDue, FirstDue, NoneOverdue};
ghost use Rattle.nd_slaac.specs.Dates.{NoneBefore};
ghost use Rattle.nd_slaac.specs.Room.{FitsBy, HasRoomBy};
ghost use Rattle.nd_addr.specs.declared.mac.Mac.{Mac};
ghost use Rattle.nd_decode.specs.declared.prefix_info.PrefixInfo.{PrefixInfo};
ghost use Rattle.nd_slaac.specs.MayCome.{IsHistory, Held};

/// The definitions give one table, one answer whether options fit, one whether there is room for an address, and one thing that is due first.
pub fn one_answer()
    ensures table { (history : List Row) (a b : List Address) → Stands a history → Stands b history → a ≡ b }
    ensures fits { (limit : ℕ) (mac : Mac) (history : List Row) (infos : List PrefixInfo) (a b : Bool) → FitsBy limit mac history infos a → FitsBy limit mac history infos b → a ≡ b }
    ensures room { (limit : ℕ) (history : List Row) (a b : Bool) → HasRoomBy limit history a → HasRoomBy limit history b → a ≡ b }
    ensures due { (transmits : ℕ) (history : List Row) (moment : ℕ) (a b : Option Falls) → FirstDue transmits history moment a → FirstDue transmits history moment b → a ≡ b }
{}

/// Nothing that happens makes something due in the past. If nothing in a history is overdue at a moment, nothing is after one more row of that
/// moment, for any row. A table that stands for a history has no date before a moment exactly if nothing in the history is overdue then.
pub fn none_overdue()
    ensures still { (transmits : ℕ) (history : List Row) (now key : ℕ) (kind : RowKind) → NoneOverdue transmits history now → NoneOverdue transmits ((now, key, kind) ∷ history) now }
    ensures table { (transmits : ℕ) (addresses : List Address) (history : List Row) (now : ℕ) → Stands addresses history → NoneBefore addresses now ↔ NoneOverdue transmits history now }
{}

/// No address is assigned untried (RFC 4862, section 5.4). In every history, an assigned address was formed with a RetransTimer above 0 and was
/// tentative up to its assignment. All its solicitations are before that: the last one a RetransTimer before the assignment, each other one a
/// RetransTimer before the next. Its valid lifetime had not ended then, and it has been assigned ever since. In addition, if nothing is due up to a
/// moment, the valid lifetime of no known address has ended by then.
pub fn none_untried()
    ensures held { (transmits : ℕ) (history : List Row) (key : ℕ) → IsHistory transmits history → is_assigned (story key history) ≡ true → Held transmits key history }
    ensures valid { (transmits : ℕ) (history : List Row) (now : ℕ) → ((moment : ℕ) (falls : Falls) → IsDue transmits history moment falls → now < moment) → (key : ℕ) → is_known (story key history) ≡ true → is_before now (valid_end (story key history)) ≡ true }
{}
