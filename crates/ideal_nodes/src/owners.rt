ghost use Rattle.std.specs.Prelude.{◌≡◌, ℕ, codes, IfSome, IfNone, false};
ghost use Rattle.node_sets.specs.Members.{has_node};
ghost use Rattle.ideal_nodes.specs.Scores.{score_of, IsFirst};

use crate::ranks::{first_of, scores_of};
use bucket_ids::Bucket;
use node_sets::NodeSet;

/// The owner of a lane among these distributors: the one of the greatest score, ties by the lower
/// number; none exactly where there is no distributor.
pub fn owner_among(lane: Bucket, distributors: NodeSet) -> Option<u8>
    ensures owner { IfSome result (IsFirst (score_of (codes "owner") lane) distributors) }
    ensures none { IfNone result ((node : ℕ) → has_node distributors node ≡ false) }
{
    let scores = scores_of(b"owner", lane, distributors);
    first_of(&[0; 32], &scores, distributors)
}
