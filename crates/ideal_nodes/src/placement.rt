ghost use Rattle.std.specs.Prelude.{◌≡◌, ℕ, false, slice_index_or, IfSome, IfNone};
ghost use Rattle.cluster_states.specs.MarkTests.{is_up};
ghost use Rattle.cluster_states.specs.declared.marks.Mark.TheVariants.{Down};
ghost use Rattle.ideal_nodes.specs.Placement.{IsIdeal, LieApart, IsOwner};

use crate::lists::{NodeList, in_order};
use crate::owners::owner_among;
use crate::ranks::{ranks_of, scores_of};
use bucket_ids::Bucket;
use cluster_states::ClusterState;

/// The storage nodes that are up and not retired, in ideal order for a bucket: the best of each group
/// before the second of any, each of these by falling score, ties by the lower number.
pub fn ideal(bucket: Bucket, state: &ClusterState) -> NodeList
    ensures order { IsIdeal bucket state.now result }
    ensures apart { LieApart state.now result }
{
    let _version = state.version();
    let nodes = state.nodes_up();
    let scores = scores_of(b"ideal", bucket, nodes);
    let ranks = ranks_of(&scores, nodes, state);
    in_order(&ranks, &scores, nodes)
}

/// The owner of a lane: the distributor that is up and has the greatest score, ties by the lower
/// number; none exactly where no distributor is up.
#[tactic(auto, using(crate::proofs::StateMarks::owner_of_set, crate::proofs::StateMarks::no_owner_of_set))]
pub fn owner(lane: Bucket, state: &ClusterState) -> Option<u8>
    ensures owner { IfSome result (IsOwner lane state.now) }
    ensures none { IfNone result ((n : ℕ) → is_up (slice_index_or state.now.distributors n Down) ≡ false) }
{
    owner_among(lane, state.distributors_up())
}
