//! Laws of ideal lists; no function here does anything.

ghost use Rattle.std.specs.Prelude.{◌≡◌, ◌==◌, ℕ, List, not, slice_set};
ghost use Rattle.bucket_ids.specs.Buckets.{Low};
ghost use Rattle.cluster_states.specs.declared.cluster_state.ClusterState.{ClusterState};
ghost use Rattle.cluster_states.specs.declared.marks.Mark.TheVariants.{Down};
ghost use Rattle.ideal_nodes.specs.Placement.{IsIdeal};
ghost use Rattle.std.specs.List.{filter};

/// A bucket has one ideal list under a state.
pub fn state_has_one_list()
    ensures { (bucket : Low) (s : ClusterState) (ns ms : List ℕ) → IsIdeal bucket s ns
        → IsIdeal bucket s ms → ns ≡ ms }
{}

/// Where two states without groups differ only in a node that is down in the second, its list is the
/// first's without that node.
pub fn states_differ_by_a_node()
    ensures { (bucket : Low) (s t : ClusterState) (ns ms : List ℕ) (gone : ℕ) → s.groups ≡ 1
        → t.groups ≡ 1
        → IsIdeal bucket s ns → IsIdeal bucket t ms
        → t.nodes ≡ slice_set s.nodes gone Down → ms ≡ filter (λ n. not (n == gone)) ns }
{}
