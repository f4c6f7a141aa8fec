//! Laws of the definitions, each the contract of a function that does nothing.

ghost use Rattle.std.specs.Prelude.{◌≡◌, ◌≤◌, ◌∷◌, ◌++◌, ℕ, true, false, Some, nat_eq, List, length};
ghost use Rattle.std.specs.Map.{lookup};
ghost use Rattle.nd_nexthop.specs.History.{RedirectRow, kept, redirects};
ghost use Rattle.nd_nexthop.specs.Choice.{Stands, Table, target_in};
ghost use Rattle.nd_nexthop.specs.DefaultRouter.{DefaultRouter, chosen_router, AllLater, AllLessPreferred, NoneBefore, NonePreferred, NoneUsable};

/// Two tables of one limit that stand for one history have the same redirects, and a look-up finds the redirect of a destination that is kept. The list of a
/// history has it too, and at most as many redirects as the limit.
pub fn one_answer()
    ensures table { (history : List RedirectRow) (a b : Table) → a.redirects.limit ≡ b.redirects.limit → Stands a history → Stands b history → a.redirects.entries ≡ b.redirects.entries }
    ensures found { (history : List RedirectRow) (choice : Table) (key : ℕ) → Stands choice history → target_in key choice.redirects.entries ≡ kept choice.redirects.limit key history }
    ensures list { (limit : ℕ) (history : List RedirectRow) (key : ℕ) → lookup (nat_eq key) (redirects limit history) ≡ kept limit key history }
    ensures few { (limit : ℕ) (history : List RedirectRow) → length (redirects limit history) ≤ limit }
{}

/// The chosen default router is, of the usable ones, the one with the highest preference; if none is usable, the one that failed least recently,
/// and of those that never failed the one with the highest preference (RFC 4861, section 6.3.6; RFC 4191, section 3.2). The first of the list wins
/// a tie.
pub fn one_router()
    ensures usable { (before behind : List DefaultRouter) (r : DefaultRouter) → r.usable ≡ true → AllLessPreferred r before → NonePreferred r behind → chosen_router (before ++ r ∷ behind) ≡ Some r.key }
    ensures least_recent { (before behind : List DefaultRouter) (r : DefaultRouter) → r.usable ≡ false → NoneUsable before → NoneUsable behind → AllLater r before → NoneBefore r behind → chosen_router (before ++ r ∷ behind) ≡ Some r.key }
{}
