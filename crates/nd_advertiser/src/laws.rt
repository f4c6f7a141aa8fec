//! Laws of the definitions, each the contract of a function that does nothing.

ghost use Rattle.std.specs.Prelude.{◌≡◌, ◌∷◌, ℕ, List};
ghost use Rattle.nd_table.specs.DueKept.{NotBefore};
ghost use Rattle.nd_advertiser.specs.Advertising.{next_of};
ghost use Rattle.nd_advertiser.specs.Calls.{next};
ghost use Rattle.nd_advertiser.specs.History.{Row};
ghost use Rattle.nd_advertiser.specs.Overdue.{IsOf, IsSpaced};
ghost use Rattle.nd_advertiser.specs.Table.{Stands, Table};

/// Two tables that stand for one history are equal, whatever their limits.
pub fn one_answer()
    ensures { (history : List Row) (a b : Table) → Stands a history → Stands b history → (a.assigned ≡ b.assigned) × (a.last ≡ b.last) × (a.advertising ≡ b.advertising) × (a.offers ≡ b.offers) }
{}

/// The date of the next advertisement in the table is the one that the history gives. Nothing that happens makes something due in the past: if no
/// advertisement is due before a moment, none is after one more row of that moment. The next advertisement is after the last one, since two have a
/// least distance (RFC 4861, section 6.2.4).
pub fn none_overdue()
    ensures table { (table : Table) (history : List Row) → Stands table history → next table.assigned table.last table.advertising ≡ next_of history }
    ensures still { (history : List Row) (now : ℕ) (row : Row) → IsOf now row → NotBefore now (next_of history) → NotBefore now (next_of (row ∷ history)) }
    ensures spaced { (history : List Row) (now : ℕ) (row : Row) → IsOf now row → IsSpaced history → IsSpaced (row ∷ history) }
{}
