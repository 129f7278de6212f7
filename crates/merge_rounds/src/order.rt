ghost use Rattle.std.specs.Prelude.{◌<◌, ◌≤◌, IfSome, IfNone};
ghost use Rattle.node_sets.specs.Members.{size_of};
ghost use Rattle.merge_rounds.specs.Rounds.{IsNth};

use node_sets::NodeSet;

/// The member of a set that comes after so many, in rising order.
#[tactic(auto, using(crate::proofs::Members::is_nth))]
pub fn next_of(set: NodeSet, before: u8) -> Option<u8>
    ensures some { IfSome result (λ node. IsNth set before node) }
    ensures turn { IfSome result (λ node. before < size_of set) }
    ensures few { IfSome result (λ node. before < 32) }
    ensures none { IfNone result (size_of set ≤ before) }
{
    if before < set.len() {
        Some(set.at(before))
    } else {
        None
    }
}
