//! Laws of the definitions, each the contract of a function that does nothing.

ghost use Rattle.std.specs.Prelude.{◌≡◌, ◌∷◌, ℕ, false};
ghost use Rattle.nd_chronicle.specs.Happening.{Chronicle, Happening};
ghost use Rattle.nd_chronicle.specs.Histories.{address_history, name_history, parameter_history, prefix_history, redirect_history, router_history, server_history};
ghost use Rattle.nd_c_types.specs.Changes.{changes_addresses, changes_dns, changes_parameters, changes_prefixes, changes_redirects, changes_routers};

/// What happens leaves the history of each table that it is not said to change, and so all that a node knows by that table.
pub fn other_tables_are_left()
    ensures routers { (c : Chronicle) (at : ℕ) (what : Happening) → changes_routers what ≡ false → router_history ((at, what) ∷ c) ≡ router_history c }
    ensures prefixes { (c : Chronicle) (at : ℕ) (what : Happening) → changes_prefixes what ≡ false → prefix_history ((at, what) ∷ c) ≡ prefix_history c }
    ensures addresses { (c : Chronicle) (at : ℕ) (what : Happening) → changes_addresses what ≡ false → address_history ((at, what) ∷ c) ≡ address_history c }
    ensures servers { (c : Chronicle) (at : ℕ) (what : Happening) → changes_dns what ≡ false → server_history ((at, what) ∷ c) ≡ server_history c }
    ensures names { (c : Chronicle) (at : ℕ) (what : Happening) → changes_dns what ≡ false → name_history ((at, what) ∷ c) ≡ name_history c }
    ensures redirects { (c : Chronicle) (at : ℕ) (what : Happening) → changes_redirects what ≡ false → redirect_history ((at, what) ∷ c) ≡ redirect_history c }
    ensures parameters { (c : Chronicle) (at : ℕ) (what : Happening) → changes_parameters what ≡ false → parameter_history ((at, what) ∷ c) ≡ parameter_history c }
{}
