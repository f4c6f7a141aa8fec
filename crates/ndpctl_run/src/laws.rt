//! Laws of all lines of a script, each the contract of a function that does nothing.

ghost use Rattle.std.specs.Prelude.{◌≡◌, ℕ, List, Option};
ghost use Rattle.nd_chronicle.specs.Event.{Event};
ghost use Rattle.nd_chronicle.specs.Start.{Start};
ghost use Rattle.ndpctl_run.specs.Line.{IsLine};
ghost use Rattle.ndpctl_run.specs.Script.{IsText};

/// A line spells at most one moment and one event.
pub fn one_reading()
    ensures { (line : List ℕ) (at other_at : ℕ) (event other_event : Event) → IsLine line at event → IsLine line other_at other_event
        → (at ≡ other_at) × (event ≡ other_event) }
{}

/// Lines have one text: for one start, and one number of the first line, they have no two texts and no two malformed lines.
pub fn one_text()
    ensures { (start : Start) (n : ℕ) (lines : List (List ℕ)) (told other_told : List ℕ) (found other_found : Option ℕ) → IsText start n lines told found
        → IsText start n lines other_told other_found → (told ≡ other_told) × (found ≡ other_found) }
{
    one_reading();
    nd_chronicle::laws::one_chronicle();
}
