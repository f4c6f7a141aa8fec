//! Laws of the definitions, each the contract of a function that does nothing.

ghost use Rattle.std.specs.Prelude.{◌≡◌, ◌++◌, ◌∷◌, ℕ, List, None, Some, true};
ghost use Rattle.std.specs.Map.{lookup};
ghost use Rattle.nd_addr.specs.Bytes.{AreBytes};
ghost use Rattle.nd_addr.specs.Number.{Holds, holds};
ghost use Rattle.nd_addr.specs.Prefix.{IsPrefix, PrefixValue};
ghost use Rattle.nd_addr.specs.Same.{same_prefix};
ghost use Rattle.nd_forwarding.specs.History.{Row};
ghost use Rattle.nd_forwarding.specs.Routes.{AllShorter, NoneHolds, NoneLonger, longest, route_of, routes};
ghost use Rattle.nd_forwarding.specs.Table.{Stands, Table};
ghost use Rattle.nd_forwarding.specs.declared.route.Route.{Route};

/// Two tables that stand for one history are equal, whatever their limits, and each prefix has the route that was put last for it.
pub fn one_answer()
    ensures table { (history : List Row) (a b : Table) → Stands a history → Stands b history → (a.entries ≡ b.entries) × (a.redirected ≡ b.redirected) }
    ensures found { (history : List Row) (prefix : PrefixValue) → lookup (same_prefix prefix) (routes history) ≡ route_of prefix history }
{}

/// The longest route to an address is one whose prefix holds the address, and no longer prefix does. There is none if no prefix holds it.
pub fn longest_route()
    ensures longest { (address : List ℕ) (before behind : List (PrefixValue × Route)) (e : PrefixValue × Route) → holds e.0 address ≡ true → AllShorter address e.0.length before → NoneLonger address e.0.length behind → longest address (before ++ e ∷ behind) ≡ Some e }
    ensures none { (address : List ℕ) (es : List (PrefixValue × Route)) → NoneHolds address es → longest address es ≡ None }
{}

/// Two prefixes of one length that hold an address are the same (RFC 4291, section 2.3), so there is one longest route.
pub fn one_prefix()
    ensures { (a b : PrefixValue) (address : List ℕ) → IsPrefix a.address.0 a.length → IsPrefix b.address.0 b.length → AreBytes 16 address → a.length ≡ b.length → Holds a address → Holds b address → a ≡ b }
{}
