//! The laws of journals; no function here does anything.

ghost use Rattle.std.specs.Prelude.{◌≡◌, ◌≤◌, ◌<◌, ◌^◌, ℕ, length, Bool, List, None, Some, true};
ghost use Rattle.lane_journals.specs.Buckets.{Bucket, contains};
ghost use Rattle.lane_journals.specs.Facts.{IsRow};
ghost use Rattle.cluster_states.specs.declared.cluster_state.ClusterState.{ClusterState};
ghost use Rattle.cluster_states.specs.Publishing.{serves, publish_fault, room_fault};
ghost use Rattle.lane_journals.specs.States.{state_of, LegalByStates};
ghost use Rattle.lane_journals.specs.Meanings.{history};
ghost use Rattle.lane_journals.specs.Places.{Setting, state_in, published_states, told};
ghost use Rattle.lane_journals.specs.KeptJournals.{IsLegalStep, IsLegal};
ghost use Rattle.lane_journals.specs.declared.event.LaneEvent.TheVariants.{Published};
ghost use Rattle.lane_journals.specs.declared.event.LaneEvent.{LaneEvent};
ghost use Rattle.lane_journals.specs.Readers.{Journal, published, opened, row_at, complete, active, deleting, holds};
ghost use Rattle.lane_journals.specs.Pieces.{any_contains, pieces};
ghost use Rattle.lane_journals.specs.RowLists.{Row, rows, row_with, bucket_of, member_of, active_of, delete_of, IsIn};
ghost use Rattle.lane_journals.specs.Legal.{Legal, OfLegal};

/// The list of a version's rows says of each key what is read for it by key: a row of the list is the row
/// of its keys, with their marks, and a row by key is in the list. So does the list of a node's pieces.
pub fn rows_say_what_is_read()
    ensures row { OfLegal (λ acks P J. (v key : ℕ) → row_at v key J ≡ bucket_of (row_with key (rows v J))) }
    ensures members { OfLegal (λ acks P J. (v n key : ℕ)
        → complete v n key J ≡ member_of n (row_with key (rows v J))) }
    ensures actives { OfLegal (λ acks P J. (v key : ℕ) → active v key J ≡ active_of (row_with key (rows v J))) }
    ensures deletes { OfLegal (λ acks P J. (v key : ℕ)
        → deleting v key J ≡ delete_of (row_with key (rows v J))) }
    ensures is_row { OfLegal (λ acks P J. (v : ℕ) (r : Row) → IsIn r (rows v J)
        → (key : ℕ) → contains r.bucket key ≡ true → row_with key (rows v J) ≡ Some r) }
    ensures listed { OfLegal (λ acks P J. (v : ℕ) (r : Row) → opened v J ≡ true
        → (r.bucket).low < 2 ^ (r.bucket).bits
        → IsIn r (rows v J) → IsRow v r.bucket J) }
    ensures marks { OfLegal (λ acks P J. (v n : ℕ) (r : Row) → IsIn r (rows v J)
        → (key : ℕ) → contains r.bucket key ≡ true → complete v n key J ≡ r.members n) }
    ensures found { OfLegal (λ acks P J. (v : ℕ) (b : Bucket) (key : ℕ) → IsRow v b J → contains b key ≡ true
        → (r : Row) × (row_with key (rows v J) ≡ Some r) × (r.bucket ≡ b)) }
    ensures over { OfLegal (λ acks P J. (n key : ℕ) → holds n key J ≡ any_contains key (pieces n J)) }
{}

/// Whether the nodes of each version are given or read off the journal, the same journals are legal; and
/// in a legal one the nodes that serve under a version are those of the state that was published with it.
/// A state may be published exactly where nothing refuses it, want of room aside.
pub fn states_are_published()
    ensures states { (acks : ℕ) (J : Journal) → LegalByStates acks J → Legal acks (state_of J) J }
    ensures given { OfLegal (λ acks P J. (v n : ℕ) → published v J ≡ true → state_of J v n ≡ P v n) }
    ensures accepted { (S : Setting) (J : List LaneEvent) → IsLegal S J → 1 ≤ S.acks
        → (s : ClusterState) → length s.nodes ≤ 32 → publish_fault (told S J) s ≡ None
        → IsLegalStep S J (Published s) }
    ensures refused { (S : Setting) (J : List LaneEvent) → IsLegal S J → (s : ClusterState)
        → IsLegalStep S J (Published s)
        → publish_fault (told S J) s ≡ room_fault (published_states J) }
    ensures serve { (S : Setting) (J : List LaneEvent) → IsLegal S J → (v n : ℕ) (s : ClusterState)
        → state_in v J ≡ Some s
        → state_of (history J) v n ≡ serves s n }
{}

/// A legal journal as it is kept, with entries named by their stamps, means a legal journal: so all laws of
/// legal journals hold of what it means.
pub fn kept_journals_mean_legal_ones()
    ensures { (S : Setting) (J : List LaneEvent) → IsLegal S J
        → Legal S.acks (state_of (history J)) (history J) }
{}
