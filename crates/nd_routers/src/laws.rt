//! Laws of the definitions, each the contract of a function that does nothing.

ghost use Rattle.std.specs.Prelude.{◌≡◌, ℕ, List, Option};
ghost use Rattle.nd_table.specs.declared.lasting.Lasting.{Lasting};
ghost use Rattle.nd_table.specs.Announcements.{Row};
ghost use Rattle.nd_table.specs.Listing.{Lists};
ghost use Rattle.nd_addr.specs.Prefix.{PrefixValue};
ghost use Rattle.nd_addr.specs.Same.{same_prefix};
ghost use Rattle.nd_routers.specs.History.{RouterRow};
ghost use Rattle.nd_routers.specs.Routers.{same};
ghost use Rattle.nd_routers.specs.RoutersKept.{Table, Stands};
ghost use Rattle.nd_routers.specs.RouterFailures.{Failures};
ghost use Rattle.nd_routers.specs.Due.{FirstDue};

/// At each moment a history has exactly one list of routers, one of prefixes and one router that leaves first. It has one table of routers,
/// for any limit, and one order of failures.
pub fn one_answer()
    ensures list { (history : List (Row ℕ)) (moment : ℕ) (a b : List (Lasting ℕ)) → Lists same history moment a → Lists same history moment b → a ≡ b }
    ensures prefixes { (history : List (Row PrefixValue)) (moment : ℕ) (a b : List (Lasting PrefixValue)) → Lists same_prefix history moment a → Lists same_prefix history moment b → a ≡ b }
    ensures table { (history : List RouterRow) (a b : Table) → Stands a history → Stands b history → (a.entries ≡ b.entries) × (a.preferences ≡ b.preferences) × (a.failed ≡ b.failed) }
    ensures failures { (history : List RouterRow) (a b : List ℕ) → Failures history a → Failures history b → a ≡ b }
    ensures due { (history : List RouterRow) (moment : ℕ) (a b : Option ℕ) → FirstDue history moment a → FirstDue history moment b → a ≡ b }
{}
