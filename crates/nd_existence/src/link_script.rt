//! All lines of a link have a text: a law of the definitions, the contract of a function that does nothing.

ghost use Rattle.std.specs.Prelude.{ℕ, List, Option};
ghost use Rattle.nd_link_log.specs.Event.{Event};
ghost use Rattle.ndpctl_link.specs.Line.{IsLinkLine};
ghost use Rattle.ndpctl_link.specs.Script.{IsLinkText};
ghost use Rattle.ndpctl_run.specs.Said.{Say};

/// All lines have a text, for any bytes in them: there is a log of what they say up to the first malformed one, and this is its text.
pub fn each_link_script_has_a_text()
    ensures read { (n : ℕ) (lines : List (List ℕ)) → (said : List (ℕ × Event)) × (found : Option ℕ) × Say IsLinkLine n lines said found }
    ensures text { (n : ℕ) (lines : List (List ℕ)) → (told : List ℕ) × (found : Option ℕ) × IsLinkText n lines told found }
{}
