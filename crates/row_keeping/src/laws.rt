//! Laws of a lane and its rows; no function here does anything.

ghost use Rattle.std.specs.Prelude.{◌≡◌, ◌+◌, ℕ, true, List, Some, slice_get};
ghost use Rattle.cluster_states.specs.declared.cluster_state.ClusterState.{ClusterState};
ghost use Rattle.cluster_states.specs.Publishing.{serves};
ghost use Rattle.bucket_db.specs.Rows.{Rows};
ghost use Rattle.bucket_db.specs.declared.row.Row.{Row};
ghost use Rattle.bucket_db.specs.declared.row.Deleting.{Deleting};
ghost use Rattle.messages.specs.declared.message.Message.{Message};
ghost use Rattle.messages.specs.declared.decision.Decision.TheVariants.{RowSplit, RowsJoined, ActiveOn, DeleteFrom, DeleteOver};
ghost use Rattle.distributor_part.specs.Parts.{Part};
ghost use Rattle.distributor_part.specs.Upkeep.{SplitsRow, JoinsRows, ActivatesAt, AcceptsAt, BeginsDelete, EndsDelete};
ghost use Rattle.lane_journals.specs.Meanings.{history, entry_at};
ghost use Rattle.lane_journals.specs.KeptJournals.{IsLegalStep};
ghost use Rattle.lane_keeping.specs.Flights.{Brings, IsWhole};
ghost use Rattle.lane_keeping.specs.Replaying.{sending};
ghost use Rattle.lane_keeping.specs.LaneKeeping.{setting_of, part_in, Keeps};
ghost use Rattle.lane_keeping.specs.Acting.{IsActing};
ghost use Rattle.lane_keeping.specs.Asking.{OthersStay};
ghost use Rattle.lane_keeping.specs.Laws.{OfKept, IsSentNext};
ghost use Rattle.row_keeping.specs.Deciding.{MayActivate, MayDelete, HasDelete, IsDeleteOver};
ghost use Rattle.row_keeping.specs.Telling.{IsTelling};
ghost use Rattle.row_keeping.specs.Laws.{OfDeciding};

use lane_keeping::laws::events_are_kept;

/// A row of fewer than 58 bits may be split where nothing is under way.
pub fn rows_are_split()
    ensures { OfDeciding (λ rules J s p q Next. (at : ℕ) (x : SplitsRow p q at)
        → Next (RowSplit (x.row).bucket)) }
{}

/// A row and its sibling may be joined where they have one active node or none, and one unanswered Delete or none.
pub fn rows_are_joined()
    ensures { OfDeciding (λ rules J s p q Next. (at : ℕ) (x : JoinsRows p q at)
        → Next (RowsJoined (x.joined).bucket)) }
{}

/// A row becomes active on its first complete member in ideal order, once, after that answered a Ready.
pub fn rows_are_activated()
    ensures { OfDeciding (λ rules J s p q Next. (at node : ℕ) (x : ActivatesAt p q at node)
        → MayActivate (history J) s x.row node → Next (ActiveOn (x.row).bucket node)) }
{}

/// A node that is no target loses its copy of a row, where enough others keep it.
pub fn deletes_begin()
    ensures { OfDeciding (λ rules J s p q Next. (at node serial : ℕ) (x : BeginsDelete p q at node serial)
        → MayDelete rules (history J) s x.row node serial → Next (DeleteFrom (x.row).bucket node serial)) }
{}

/// A Delete of a row is over after a reply that ends it, in all rows that have it.
pub fn deletes_end()
    ensures { OfDeciding (λ rules J s p q Next. (delete : Deleting)
        (x : EndsDelete p q delete.bucket delete.node) → HasDelete x.rows delete
        → IsDeleteOver (history J) s delete → Next (DeleteOver delete.bucket delete.node)) }
{}

/// That the active node accepted a row changes nothing that the journal says of it.
pub fn acceptances_are_kept()
    ensures { OfKept (λ lane rules J newest last nodes parts. (now : List Part) (d : ℕ) (at : ℕ)
        → AcceptsAt (part_in lane rules parts d) (part_in lane rules now d) at
        → OthersStay lane rules parts now d → Keeps lane rules J newest last nodes now) }
{}

/// What an owner says of its rows may be sent with the next number.
pub fn rows_are_told()
    ensures legal { OfKept (λ lane rules J newest last nodes parts. (d : ℕ) (s : ClusterState) (m : Message)
        → IsTelling lane J d s (part_in lane rules parts d) m
        → IsLegalStep (setting_of lane rules) J (sending (last + 1) m)) }
    ensures brings { OfKept (λ lane rules J newest last nodes parts. (d : ℕ) (s : ClusterState) (m : Message)
        → IsTelling lane J d s (part_in lane rules parts d) m → Brings (λ t. entry_at t J) m.body) }
    ensures whole { OfKept (λ lane rules J newest last nodes parts. (d : ℕ) (s : ClusterState) (m : Message)
        → IsTelling lane J d s (part_in lane rules parts d) m → IsWhole m.body) }
    ensures sent { OfKept (λ lane rules J newest last nodes parts. (d : ℕ) (s : ClusterState) (m : Message)
        → IsTelling lane J d s (part_in lane rules parts d) m
        → IsSentNext lane rules J newest last nodes parts m) }
{
    events_are_kept();
}

/// The active node of a row serves, and so does the node of its unanswered Delete.
pub fn nodes_of_rows_serve()
    ensures active { OfKept (λ lane rules J newest last nodes parts. (d : ℕ) (s : ClusterState) (rows : Rows)
        (at : ℕ) (row : Row) (node : ℕ) → IsActing lane J d s → (part_in lane rules parts d).rows ≡ Some rows
        → slice_get rows.rows at ≡ Some row → row.active ≡ Some node → serves s node ≡ true) }
    ensures deleting { OfKept (λ lane rules J newest last nodes parts. (d : ℕ) (s : ClusterState) (rows : Rows)
        (delete : Deleting) → IsActing lane J d s → (part_in lane rules parts d).rows ≡ Some rows
        → HasDelete rows delete → serves s delete.node ≡ true) }
{}
