//! Laws of sets of nodes; no function here does anything.

ghost use Rattle.std.specs.Prelude.{◌≡◌, ℕ, ◌+◌, ◌^◌, ◌<◌, ◌≤◌, if◌then◌else◌};
ghost use Rattle.node_sets.specs.Members.{has_node, size_of, size_below};

/// Two sets of the same members are the same set; the size grows by one at each member and stays
/// elsewhere; no set has more members than there are numbers.
pub fn sets_are_their_members()
    ensures same { (a b : ℕ) → a < 2 ^ 32 → b < 2 ^ 32
        → ((node : ℕ) → node < 32 → has_node a node ≡ has_node b node) → a ≡ b }
    ensures grows { (a k : ℕ) → size_below a (k + 1) ≡ size_below a k + (if has_node a k then 1 else 0) }
    ensures most { (a : ℕ) → size_of a ≤ 32 }
    ensures below { (a k : ℕ) → size_below a k ≤ k }
{}
