//! Laws of what answers show; no function here does anything.

ghost use Rattle.std.specs.Prelude.{◌≡◌, ℕ, List, Option, filter};
ghost use Rattle.std.specs.List.{list_any};
ghost use Rattle.bucket_ids.specs.Buckets.{Low, IsBucket};
ghost use Rattle.node_sets.specs.Members.{has_node};
ghost use Rattle.cluster_states.specs.declared.cluster_state.ClusterState.{ClusterState};
ghost use Rattle.ideal_nodes.specs.Placement.{IsIdeal};
ghost use Rattle.distributor_part.specs.Targets.{AreTargets};
ghost use Rattle.lane_rest.specs.Targets.{is_target_in};
ghost use Rattle.pieces.specs.declared.piece.Piece.{Piece};
ghost use Rattle.pieces.specs.Pieces.{does_meet, is_piece};
ghost use Rattle.entry_maps.specs.EntryCodes.{Entries};
ghost use Rattle.entry_maps.specs.Entries.{documents_of};
ghost use Rattle.lane_journals.specs.Events.{Content};
ghost use Rattle.lane_journals.specs.Places.{Setting};
ghost use Rattle.lane_journals.specs.KeptJournals.{IsLegal};
ghost use Rattle.lane_journals.specs.Meanings.{names};
ghost use Rattle.lane_journals.specs.declared.event.LaneEvent.{LaneEvent};
ghost use Rattle.lane_rest.specs.Rest.{documents};
ghost use Rattle.pass_model.specs.Counted.{AreOnce, AreHeld};
ghost use Rattle.pass_model.specs.Shapes.{IsApart, shape_of};
ghost use Rattle.pass_model.specs.Shown.{shape_shown};

/// Pieces that name just those of a node which meet a bucket show how the node's pieces stand to it.
pub fn shapes_are_shown()
    ensures { (b : Low) (ps qs : List Piece) → IsBucket b → IsApart ps
        → ((c : Low) (s : ℕ) → names qs c s ≡ list_any (is_piece c s) (filter (does_meet b) ps))
        → shape_shown b qs ≡ shape_of b ps }
{}

/// A union of the entries that are held of a bucket has as many documents as are held there, of all that were written.
pub fn documents_are_counted()
    ensures { (b : Low) (U : Content) (J : List LaneEvent) (u : Entries) → AreOnce J → AreHeld b U J u
        → documents b U J ≡ documents_of u }
{}

/// The set of a row's targets, as the owner's part has it, has just those that a pass calls targets.
pub fn targets_are_of_the_list()
    ensures { (redundancy : ℕ) (s : ClusterState) (b : Low) (active : Option ℕ) (set : ℕ) (ideal : List ℕ)
        → AreTargets redundancy s b active set → IsIdeal b s ideal
        → (n : ℕ) → has_node set n ≡ is_target_in redundancy ideal active n }
{}

/// No two entries of a legal journal were written with one stamp.
pub fn writes_are_once()
    ensures { (S : Setting) (J : List LaneEvent) → IsLegal S J → AreOnce J }
{}
