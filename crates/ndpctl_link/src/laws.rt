//! Laws of all lines of a link, each the contract of a function that does nothing.

ghost use Rattle.std.specs.Prelude.{◌≡◌, ℕ, List, Option};
ghost use Rattle.nd_link_log.specs.Event.{Event};
ghost use Rattle.nd_link_log.specs.Log.{Log};
ghost use Rattle.ndpctl_link.specs.Line.{IsLinkLine};
ghost use Rattle.ndpctl_link.specs.Script.{RunsOn};

/// A line spells at most one moment and one event.
pub fn one_reading()
    ensures { (line : List ℕ) (at other_at : ℕ) (event other_event : Event) → IsLinkLine line at event → IsLinkLine line other_at other_event
        → (at ≡ other_at) × (event ≡ other_event) }
{}

/// Lines have one text: for one log, and one number of the first line, they have no two texts and no two malformed lines. For the empty log it is
/// the text of the link.
pub fn one_text()
    ensures { (log : Log) (n : ℕ) (lines : List (List ℕ)) (told other_told : List ℕ) (found other_found : Option ℕ) → RunsOn log n lines told found
        → RunsOn log n lines other_told other_found → (told ≡ other_told) × (found ≡ other_found) }
{}
