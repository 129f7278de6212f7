ghost use Rattle.std.specs.Prelude.{◌≡◌, IfSome};
ghost use Rattle.std.specs.Option.{option_copied};
ghost use Rattle.std.specs.FinMap as fin;
ghost use Rattle.bucket_db.specs.Rows.{AreRows, buckets_of};
ghost use Rattle.distributor_part.specs.Parts.{rows_of};
ghost use Rattle.lane_keeping.specs.LaneKeeping.{node_in};
ghost use Rattle.lane_states.specs.LaneStates.{part_of};
ghost use Rattle.lane_keeping.specs.Shown.{node_or_new};

use crate::lane_state::LaneState;
use bucket_db::Row;
use cluster_states::ClusterState;
use service_layer::NodePart;

impl LaneState {
    /// A node's part; none where it took no message.
    pub fn node_at(&self, number: u8) -> Option<&NodePart>
        ensures { node_or_new (option_copied result) ≡ node_in self.now.nodes.items number }
    {
        self.nodes.get(usize::from(number))
    }

    /// How many entries a node holds.
    pub fn entries_at(&self, number: u8) -> u64
        ensures { result ≡ fin.len (node_in self.now.nodes.items number).entries }
    {
        match self.node_at(number) {
            Some(node) => node.entries(),
            None => 0,
        }
    }

    /// The rows of a distributor; none before it opened its state.
    pub fn rows_at(&self, distributor: u8) -> &[Row]
        ensures list { result.now ≡ rows_of (part_of self.now distributor).rows }
        ensures whole { IfSome (part_of self.now distributor).rows
            (λ d. AreRows (part_of self.now distributor).lane (buckets_of d.rows)) }
    {
        match self.parts.get(usize::from(distributor)) {
            Some(part) => part.rows(),
            None => &[],
        }
    }

    /// The state that a distributor holds, if it holds one.
    pub fn state_at(&self, distributor: u8) -> Option<ClusterState>
        ensures { result ≡ (part_of self.now distributor).state }
    {
        match self.parts.get(usize::from(distributor)) {
            Some(part) => part.state(),
            None => None,
        }
    }
}
