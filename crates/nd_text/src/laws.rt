//! Laws of all texts.

ghost use Rattle.std.specs.Prelude.{◌≡◌, ℕ, List};
ghost use Rattle.nd_text.specs.Text.{IsText};

/// Eight groups have one text that the rules of RFC 5952 allow.
pub fn one_text()
    ensures { (groups text other : List ℕ) → IsText groups text → IsText groups other → text ≡ other }
{}
