//! The law of settings; no function here does anything.

ghost use Rattle.std.specs.Prelude.{◌≡◌, ◌≤◌, ℕ, List, Some};
ghost use Rattle.bucket_ids.specs.Buckets.{Low};
ghost use Rattle.cluster_states.specs.declared.cluster_state.ClusterState.{ClusterState};
ghost use Rattle.ideal_nodes.specs.Placement.{IsIdeal};
ghost use Rattle.lane_journals.specs.Places.{Setting, state_in};
ghost use Rattle.lane_journals.specs.KeptJournals.{IsLegal};
ghost use Rattle.lane_journals.specs.declared.event.LaneEvent.{LaneEvent};
ghost use Rattle.pass_model.specs.Resting.{AreSettings};
ghost use Rattle.pass_model.specs.Worlds.{AreSettingsOf};
ghost use Rattle.pass_model.specs.Found.{settings_of};

/// Each bucket has its ideal order under a state; and under one that was published, with these, a lane has settings
/// that can be kept.
pub fn settings_are_found()
    ensures ordered { (s : ClusterState) (b : Low) → (nodes : List ℕ) × IsIdeal b s nodes }
    ensures sound { (S : Setting) (first most v : ℕ) (s : ClusterState) (J : List LaneEvent) (ideal : Low → List ℕ)
        → IsLegal S J → state_in v J ≡ Some s → 1 ≤ S.acks → S.acks ≤ S.redundancy → 1 ≤ S.lane.bits
        → ((b : Low) → IsIdeal b s (ideal b)) → AreSettings (settings_of S first most s J ideal) }
    ensures lane { (S : Setting) (first most : ℕ) (s : ClusterState) (J : List LaneEvent) (ideal : Low → List ℕ)
        → ((b : Low) → IsIdeal b s (ideal b)) → AreSettingsOf S first most s J (settings_of S first most s J ideal) }
{}
