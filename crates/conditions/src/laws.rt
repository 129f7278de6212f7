//! Laws of conditions; no function here does anything.

ghost use Rattle.std.specs.Prelude.{◌≡◌, Bool};
ghost use Rattle.conditions.specs.Formulas.{holds};
ghost use Rattle.conditions.specs.Grammar.{Condition, condition_formula};
ghost use Rattle.conditions.specs.Meaning.{condition_holds};

/// The formula of a condition is true exactly where the condition is, read off the grammar: no chain
/// loses a term, and a balanced tree means what the chain means.
pub fn formulas_mean_conditions<A: Drop>()
    ensures { (p : A → Bool) (c : Condition A) → holds p (condition_formula c) ≡ condition_holds p c }
{}
