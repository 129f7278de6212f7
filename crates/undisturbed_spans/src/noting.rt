//! Laws of rounds that are over; no function here does anything.

ghost use Rattle.std.specs.Prelude.{◌≡◌, ℕ, List};
ghost use Rattle.cluster_states.specs.declared.cluster_state.ClusterState.{ClusterState};
ghost use Rattle.entry_maps.specs.Entries.{documents_of};
ghost use Rattle.node_model.specs.Nodes.{Node};
ghost use Rattle.merge_rounds.specs.Rounds.{RoundState};
ghost use Rattle.bucket_ids.specs.Buckets.{Low};
ghost use Rattle.lane_journals.specs.Places.{Setting};
ghost use Rattle.lane_journals.specs.KeptJournals.{IsLegal};
ghost use Rattle.lane_journals.specs.declared.event.LaneEvent.{LaneEvent};
ghost use Rattle.lane_rest.specs.Rest.{documents};
ghost use Rattle.pass_model.specs.Scripts.{Script};
ghost use Rattle.undisturbed_spans.specs.Noting.{newest_in, IsRounded, IsRoundNoted};

/// A round that is over in a quiet span was answered by each node that serves, its receivers took the union, and what
/// a node showed is how its pieces stood.
pub fn undisturbed_rounds_are_noted()
    ensures { (d : Script) (s : ClusterState) (lane : Low) (distributor : ℕ) (J K : List LaneEvent) (old now : ℕ → Node)
        (number : ℕ) (r : RoundState) → IsRounded d s lane distributor J K old now number r
        → IsRoundNoted s K old number r }
{}

/// And its union has as many documents as are held by those nodes, of all that were written.
pub fn undisturbed_unions_are_counted()
    ensures { (d : Script) (s : ClusterState) (lane : Low) (distributor : ℕ) (J K : List LaneEvent) (old now : ℕ → Node)
        (number : ℕ) (r : RoundState) (S : Setting) → IsRounded d s lane distributor J K old now number r → IsLegal S K
        → documents r.row (newest_in s old) K ≡ documents_of r.union }
{}
