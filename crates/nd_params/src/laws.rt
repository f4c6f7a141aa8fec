//! Laws of the definitions, each the contract of a function that does nothing.

ghost use Rattle.std.specs.Prelude.{◌≡◌, List};
ghost use Rattle.nd_params.specs.History.{Row};
ghost use Rattle.nd_params.specs.ParamsKept.{Values, Stands};

/// Each parameter has exactly one value after a history.
pub fn one_answer()
    ensures { (history : List Row) (a b : Values) → Stands a history → Stands b history → a ≡ b }
{}
