ghost use Rattle.std.specs.Prelude.{◌≡◌, length, IfSome};
ghost use Rattle.bucket_db.specs.Rows.{AreRows, buckets_of};
ghost use Rattle.lane_states.specs.LaneStates.{part_of};
ghost use Rattle.lane_upkeep.specs.Passing.{rows_in, Passes};

use crate::owner::Owner;
use lane_states::LaneState;

/// How many rows the owner has.
pub fn row_count(lane: &LaneState, owner: &Owner) -> usize
    ensures { result ≡ length (rows_in lane.now owner.now) }
{
    lane.rows_at(owner.distributor).len()
}

/// That the owner's rows divide the lane and stand in rising number; does nothing.
pub fn rows_are_whole(lane: &LaneState, owner: &Owner)
    requires passing { Passes lane.now owner.now }
    ensures whole { AreRows lane.now.lane (buckets_of (rows_in lane.now owner.now)) }
    ensures of_lane { IfSome (part_of lane.now owner.now.distributor).rows (λ d. d.lane ≡ lane.now.lane) }
{
    let _rows = lane.parts[usize::from(owner.distributor)].rows();
}
