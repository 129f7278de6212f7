//! Laws on rest; no function here does anything.

ghost use Rattle.std.specs.Prelude.{◌≡◌, ℕ, true, List, take, Option, Some};
ghost use Rattle.cluster_states.specs.declared.cluster_state.ClusterState.{ClusterState};
ghost use Rattle.lane_journals.specs.RowLists.{Row};
ghost use Rattle.lane_journals.specs.Meanings.{history};
ghost use Rattle.lane_journals.specs.Places.{Setting};
ghost use Rattle.lane_journals.specs.declared.event.LaneEvent.{LaneEvent};
ghost use Rattle.lane_rest.specs.Targets.{is_member, is_target_in};
ghost use Rattle.lane_rest.specs.Rest.{IsRowAtRest, documents, union_under};

/// The targets of a row are the first nodes of the ideal order, and the active node wherever it stands there.
pub fn targets_are_first_or_active()
    ensures first { (redundancy n : ℕ) → (ideal : List ℕ) → (active : Option ℕ) → is_member (take redundancy ideal) n ≡ true
        → is_target_in redundancy ideal active n ≡ true }
    ensures active { (redundancy n : ℕ) → (ideal : List ℕ) → is_target_in redundancy ideal (Some n) n ≡ true }
{}

/// A row may have as many documents as it has, and no more: one at rest stays so where just these are allowed.
pub fn rows_rest_with_what_they_have()
    ensures { (S : Setting) (searchable split_at : ℕ) (s : ClusterState) (J : List LaneEvent) (row : Row)
        → IsRowAtRest S searchable split_at s J row
        → IsRowAtRest S searchable (documents row.bucket (union_under s (history J)) J) s J row }
{}
