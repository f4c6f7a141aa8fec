//! Laws of the definitions, each the contract of a function that does nothing.

ghost use Rattle.std.specs.Prelude.{◌≡◌, ℕ, List};
ghost use Rattle.nd_addr.specs.declared.addr.Addr.{Addr};
ghost use Rattle.nd_addr.specs.Same.{same_addr};
ghost use Rattle.nd_table.specs.declared.lasting.Lasting.{Lasting};
ghost use Rattle.nd_table.specs.Announcements.{Row};
ghost use Rattle.nd_table.specs.Listing.{Lists};
ghost use Rattle.nd_dns.specs.AnnouncedNames.{same_name};

/// At each moment a history has exactly one list of servers and one of search names.
pub fn one_answer()
    ensures servers { (history : List (Row Addr)) (moment : ℕ) (a b : List (Lasting Addr)) → Lists same_addr history moment a → Lists same_addr history moment b → a ≡ b }
    ensures names { (history : List (Row (List ℕ))) (moment : ℕ) (a b : List (Lasting (List ℕ))) → Lists same_name history moment a → Lists same_name history moment b → a ≡ b }
{}
