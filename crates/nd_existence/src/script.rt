//! All lines of a script have a text: a law of the definitions, the contract of a function that does nothing.

ghost use Rattle.std.specs.Prelude.{ℕ, List, Option};
ghost use Rattle.nd_chronicle.specs.Start.{Start};
ghost use Rattle.nd_chronicle.specs.Event.{Event};
ghost use Rattle.ndpctl_run.specs.Line.{IsLine};
ghost use Rattle.ndpctl_run.specs.Said.{Say};
ghost use Rattle.ndpctl_run.specs.Script.{IsText};

/// All lines have a text, for any bytes in them: from each start there is a chronicle of what they say up to the first malformed one, and this is its
/// text. By `ndpctl_run::laws::one_text` there is no other.
pub fn each_script_has_a_text()
    ensures read { (n : ℕ) (lines : List (List ℕ)) → (said : List (ℕ × Event)) × (found : Option ℕ) × Say IsLine n lines said found }
    ensures text { (start : Start) (n : ℕ) (lines : List (List ℕ)) → (told : List ℕ) × (found : Option ℕ) × IsText start n lines told found }
{}
