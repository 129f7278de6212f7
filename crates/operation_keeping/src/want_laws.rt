//! What holds of all that a line wants; no function here does anything.

ghost use Rattle.std.specs.Prelude.{◌≡◌, ◌≤◌, ℕ, List, Some};
ghost use Rattle.bucket_ids.specs.Buckets.{Low};
ghost use Rattle.cluster_states.specs.declared.cluster_state.ClusterState.{ClusterState};
ghost use Rattle.messages.specs.declared.outcome.Outcome.{Outcome};
ghost use Rattle.distributor_part.specs.declared.rules.Rules.{Rules};
ghost use Rattle.node_sets.specs.Members.{size_of, Within};
ghost use Rattle.lane_journals.specs.Readers.{before_line};
ghost use Rattle.lane_journals.specs.Meanings.{history};
ghost use Rattle.lane_journals.specs.Places.{receivers_of};
ghost use Rattle.lane_journals.specs.KeptJournals.{IsLegal};
ghost use Rattle.lane_journals.specs.declared.event.LaneEvent.{LaneEvent};
ghost use Rattle.operation_keeping.specs.Shortages.{FallsShort};
ghost use Rattle.lane_keeping.specs.LaneKeeping.{setting_of};
ghost use Rattle.operation_keeping.specs.RuleBounds.{AreRules};
ghost use Rattle.operation_keeping.specs.Wants.{UnpreparedWants, Ends};

/// A line that isn't prepared ends since too few answered or took the union, or with NoMemory, and then some node to
/// which it sent a message of its version wanted memory.
pub fn unprepared_lines_fall_short()
    ensures { (lane : Low) (rules : Rules) (J : List LaneEvent) (line key d : ℕ) (s : ClusterState) (x : Outcome)
        → UnpreparedWants lane rules J line (before_line line (history J)) key d s (Ends x) → FallsShort J line s x }
{}

/// A round goes to as many nodes as a write needs copies, since a state has enough nodes up. So a row of which all
/// receivers are complete members has enough of them.
pub fn rounds_reach_enough()
    ensures { (lane : Low) (rules : Rules) → AreRules rules → (J : List LaneEvent) → IsLegal (setting_of lane rules) J
        → (v : ℕ) (b : Low) (receivers complete : ℕ) → receivers_of v b J ≡ Some receivers
        → Within receivers complete → rules.acks ≤ size_of complete }
{}
