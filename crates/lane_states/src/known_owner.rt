ghost use Rattle.std.specs.Prelude.{◌≡◌, Some, IfSome};
ghost use Rattle.ideal_nodes.specs.Placement.{IsOwner};
ghost use Rattle.lane_journals.specs.Places.{state_in};
ghost use Rattle.lane_states.specs.LaneStates.{journal_of, IsKept};

use crate::lane_state::LaneState;
use bucket_ids::Bucket;
use cluster_states::ClusterState;
use ideal_nodes::{owner, owner_among};
use node_sets::NodeSet;
use std::marker::Model;

/// The owner of a lane among distributors, which is reckoned once.
#[derive(Drop)]
pub struct KnownOwner {
    lane: Bucket,
    distributors: NodeSet,
    owner: u8,
}

impl Model for KnownOwner {
    ghost use Rattle.std.specs.Prelude.{codes};
    ghost use Rattle.ideal_nodes.specs.Scores.{score_of, IsFirst};
    ghost use Rattle.lane_states.specs.KnownOwners.{Known};

    ghost Value = { Known };

    ghost view = { λ k. record { lane = k.lane; distributors = k.distributors; owner = k.owner } };

    ghost invariant = { λ k. IsFirst (score_of (codes "owner") k.lane) k.distributors k.owner };
}

impl KnownOwner {
    /// The owner of a lane among the distributors that are up in a state, if there is one.
    pub fn new(lane: Bucket, state: &ClusterState) -> Option<KnownOwner>
        ensures { IfSome result (λ known. known.lane ≡ lane) }
    {
        let distributors = state.distributors_up();
        match owner_among(lane, distributors) {
            Some(owner) => Some(KnownOwner {
                lane,
                distributors,
                owner,
            }),
            None => None,
        }
    }

    /// The owner of a lane under a state, where its distributors are those among which it is known.
    pub fn owner_of(&self, lane: Bucket, state: &ClusterState) -> Option<u8>
        ensures { IfSome result (IsOwner lane state.now) }
    {
        if self.lane == lane && self.distributors == state.distributors_up() {
            Some(self.owner)
        } else {
            None
        }
    }
}

impl LaneState {
    /// The owner of the lane under a state that was published; it is reckoned where it isn't the one that may be
    /// known.
    pub fn owner_by(&self, known: Option<&KnownOwner>, state: &ClusterState) -> u8
        requires keeps { IsKept self.now }
        requires published { state_in state.now.version (journal_of self.now) ≡ Some state.now }
        ensures { IsOwner self.now.lane state.now result }
    {
        let Some(known) = known else {
            return self.owner_under(state);
        };
        match known.owner_of(self.lane, state) {
            Some(owner) => owner,
            None => self.owner_under(state),
        }
    }

    /// The owner of the lane under a state that was published.
    pub fn owner_under(&self, state: &ClusterState) -> u8
        requires keeps { IsKept self.now }
        requires published { state_in state.now.version (journal_of self.now) ≡ Some state.now }
        ensures { IsOwner self.now.lane state.now result }
    {
        match owner(self.lane, state) {
            Some(owner) => owner,
            None => unreachable!(),
        }
    }
}
