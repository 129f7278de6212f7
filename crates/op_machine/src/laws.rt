//! Laws of what comes next; no function here does anything.

ghost use Rattle.std.specs.Prelude.{◌≡◌, ◌<◌, ◌≤◌, ℕ, Bool, true, false, List, None, Some, is_some, not};
ghost use Rattle.op_machine.specs.Nodes.{first_node, count_nodes};
ghost use Rattle.op_machine.specs.Lists.{Told, answers_in, IsTally};
ghost use Rattle.op_machine.specs.declared.tally.Tally.{Tally};
ghost use Rattle.op_machine.specs.Outcomes.{Next, answers_of, message_in, outcome_in};

/// An operation either asks a node or is over.
pub fn a_message_or_the_outcome()
    ensures { (next : Next) → is_some (message_in next) ≡ not (is_some (outcome_in next)) }
{}

/// The first node is the least that passes the test, and there is none exactly where no node passes; as
/// many pass as are counted, at most 32.
pub fn nodes_by_tests()
    ensures first { (p : ℕ → Bool) (n : ℕ) → first_node p ≡ Some n → p n ≡ true }
    ensures least { (p : ℕ → Bool) (n j : ℕ) → first_node p ≡ Some n → j < n → p j ≡ false }
    ensures none { (p : ℕ → Bool) (j : ℕ) → first_node p ≡ None → j < 32 → p j ≡ false }
    ensures most { (p : ℕ → Bool) → count_nodes p ≤ 32 }
{}

/// A tally says just what the list of answers says that were told, so what comes next is a function of
/// the plan and of the answers so far.
pub fn tallies_are_lists()
    ensures { (id : List ℕ) (xs : List Told) (t : Tally)
        → IsTally id xs t → answers_of t ≡ answers_in id xs }
{}
