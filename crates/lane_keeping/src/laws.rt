//! Laws of a lane and its journal; no function here does anything.

ghost use Rattle.std.specs.Prelude.{◌≡◌, ◌<◌, ◌+◌, ◌↔◌, ℕ, true, false, List, [], ◌∷◌, Option, Some, None, is_some, IsSome};
ghost use Rattle.bucket_ids.specs.Buckets.{Low};
ghost use Rattle.node_sets.specs.Members.{has_node};
ghost use Rattle.bucket_db.specs.Rows.{Rows};
ghost use Rattle.bucket_db.specs.declared.row.Row.{Row};
ghost use Rattle.cluster_states.specs.declared.cluster_state.ClusterState.{ClusterState};
ghost use Rattle.cluster_states.specs.Publishing.{serves};
ghost use Rattle.ideal_nodes.specs.Placement.{IsOwner};
ghost use Rattle.messages.specs.declared.message.Message.{Message};
ghost use Rattle.messages.specs.declared.reply.Reply.{Reply};
ghost use Rattle.messages.specs.declared.body.Body.TheVariants as body;
ghost use Rattle.messages.specs.declared.decision.Decision.TheVariants.{RoundEnded};
ghost use Rattle.messages.specs.declared.outcome.Outcome.TheVariants.{Acked};
ghost use Rattle.node_model.specs.Nodes.{Node};
ghost use Rattle.distributor_part.specs.declared.rules.Rules.{Rules};
ghost use Rattle.distributor_part.specs.declared.stage.Stage.{Stage};
ghost use Rattle.distributor_part.specs.Parts.{Part, new_part};
ghost use Rattle.distributor_part.specs.Steps.{IsAfterAnswer, Opens, IsRowOf, EndsRound, IsClosed};
ghost use Rattle.lane_journals.specs.Stamps.{Stamp};
ghost use Rattle.lane_journals.specs.Buckets.{Id, key_of, contains};
ghost use Rattle.lane_journals.specs.Readers.{held, stopped, began, closed, asked, opened, first_reply, returned, complete, answered_store};
ghost use Rattle.lane_journals.specs.RowLists.{row_with, rows};
ghost use Rattle.lane_journals.specs.Facts.{AnsweredAsk};
ghost use Rattle.lane_journals.specs.States.{state_of};
ghost use Rattle.lane_journals.specs.Meanings.{history, entry_at};
ghost use Rattle.lane_journals.specs.KeptJournals.{IsLegalStep};
ghost use Rattle.lane_journals.specs.declared.event.LaneEvent.{LaneEvent};
ghost use Rattle.lane_journals.specs.declared.event.LaneEvent.TheVariants.{Published, Heard, Opened, Returned, Closed, Decided};
ghost use Rattle.lane_keeping.specs.Flights.{IsInFlight, Brings, IsWhole};
ghost use Rattle.lane_keeping.specs.Replaying.{sending, delivered};
ghost use Rattle.lane_keeping.specs.LaneKeeping.{setting_of, IsIdle, KnowsOpening, part_in, Keeps};
ghost use Rattle.lane_keeping.specs.Acting.{IsActing, IsKnownRow, IsNoHearing};
ghost use Rattle.lane_keeping.specs.Asking.{IsAsking, IsJustSent, KnowsTheSame, IsPartTold, IsTakenBy, OthersStay, IsToldTo};
ghost use Rattle.lane_keeping.specs.Laws.{OfKept, IsQuietEvent, IsNoAsk, IsKeptNext, IsSentNext};

use crate::node_laws::{messages_fly, nodes_replay, nodes_wait};

/// A lane in which nothing happened keeps the empty journal.
pub fn lanes_begin()
    ensures { (lane : Low) (rules : Rules) → Keeps lane rules [] None 0 [] [] }
{
    nodes_wait();
}

/// A lane keeps its journal when a state is published that may come next, and when a distributor hears the
/// newest state, if it holds none or an older one and its operations are closed: then its part has that state and nothing else.
pub fn states_are_kept()
    ensures published { OfKept (λ lane rules J newest last nodes parts. (s : ClusterState)
        → IsLegalStep (setting_of lane rules) J (Published s)
        → Keeps lane rules (Published s ∷ J) (Some s) last nodes parts) }
    ensures heard { OfKept (λ lane rules J newest last nodes parts. (now : List Part) (s : ClusterState) (d : ℕ)
        → newest ≡ Some s → IsIdle d (λ line. began line (history J)) (λ line. closed line (history J))
        → ((w : ℕ) → held d (history J) ≡ Some w → w < s.version)
        → part_in lane rules now d ≡ new_part d lane rules (Some s) → OthersStay lane rules parts now d
        → Keeps lane rules (Heard d s.version ∷ J) newest last nodes now) }
{}

/// What a part says of a lane's owner is so: it acts under the state that it heard, until it hears another; it
/// knows the opening of that state, who answered an Ask and which nodes serve; and each of its rows is the
/// journal's row.
pub fn owners_act()
    ensures acts { OfKept (λ lane rules J newest last nodes parts. (d : ℕ) (s : ClusterState)
        → (part_in lane rules parts d).state ≡ Some s → IsOwner lane s d → IsActing lane J d s) }
    ensures heard { OfKept (λ lane rules J newest last nodes parts. (d : ℕ) (s : ClusterState)
        → IsActing lane J d s → (part_in lane rules parts d).state ≡ Some s) }
    ensures knows { OfKept (λ lane rules J newest last nodes parts. (d : ℕ) (s : ClusterState)
        → IsActing lane J d s
        → KnowsOpening (λ n. asked s.version n (history J)) (opened s.version (history J))
        (λ key. row_with key (rows s.version (history J))) s (part_in lane rules parts d)) }
    ensures opened { OfKept (λ lane rules J newest last nodes parts. (d : ℕ) (s : ClusterState)
        → IsActing lane J d s
        → opened s.version (history J) ≡ is_some (part_in lane rules parts d).rows) }
    ensures answered { OfKept (λ lane rules J newest last nodes parts. (d : ℕ) (s : ClusterState)
        → IsActing lane J d s
        → (n : ℕ) → has_node (part_in lane rules parts d).answered n ≡ is_some (asked s.version n (history J))) }
    ensures told { OfKept (λ lane rules J newest last nodes parts. (d : ℕ) (s : ClusterState)
        → IsActing lane J d s
        → (n : ℕ) → (has_node (part_in lane rules parts d).answered n ≡ true) ↔ AnsweredAsk s.version n (history J)) }
    ensures serving { OfKept (λ lane rules J newest last nodes parts. (d : ℕ) (s : ClusterState)
        → IsActing lane J d s → (n : ℕ) → state_of (history J) s.version n ≡ serves s n) }
    ensures rows { OfKept (λ lane rules J newest last nodes parts. (d : ℕ) (s : ClusterState)
        → IsActing lane J d s
        → (rows : Rows) (key at : ℕ) (row : Row) → (part_in lane rules parts d).rows ≡ Some rows
        → IsRowOf rows key at row → IsKnownRow s.version (history J) row) }
    ensures stays { (lane : Low) (J : List LaneEvent) (d : ℕ) (s : ClusterState) (e : LaneEvent) → IsNoHearing e
        → IsActing lane J d s → IsActing lane (e ∷ J) d s }
    ensures inside { (rows : Rows) (key at : ℕ) (row : Row) → IsRowOf rows key at row
        → contains row.bucket key ≡ true }
{}

/// A lane keeps its journal, with the same parts, over each event that leaves nodes and parts as they are, as
/// when a node is stopped or started; when any message is sent with the next number; when one that is on its
/// way is taken by its node, which isn't stopped, with whatever reply; and when the first reply to one that is
/// no Ask is returned.
pub fn events_are_kept()
    ensures quiet { OfKept (λ lane rules J newest last nodes parts. (e : LaneEvent)
        → IsQuietEvent e → IsLegalStep (setting_of lane rules) J e
        → Keeps lane rules (e ∷ J) newest last nodes parts) }
    ensures sent { OfKept (λ lane rules J newest last nodes parts. (m : Message)
        → IsLegalStep (setting_of lane rules) J (sending (last + 1) m)
        → Brings (λ s. entry_at s J) m.body → IsWhole m.body
        → IsSentNext lane rules J newest last nodes parts m) }
    ensures taken { OfKept (λ lane rules J newest last nodes parts. (number : ℕ) (m : Message) (r : Reply)
        (now : List Node) → IsInFlight J number m → stopped m.receiver (history J) ≡ false
        → IsTakenBy nodes now m r
        → Keeps lane rules (delivered number r ∷ J) newest last now parts) }
    ensures returned { OfKept (λ lane rules J newest last nodes parts. (number : ℕ) (m : Message)
        → IsInFlight J number m → IsNoAsk m.body
        → IsSome (first_reply number (history J)) → returned number (history J) ≡ false
        → IsKeptNext lane rules J newest last nodes parts (Returned number)) }
    ensures answered { OfKept (λ lane rules J newest last nodes parts. (number : ℕ) (m : Message) (r : Reply)
        (now : List Node) → IsJustSent J number m → stopped m.receiver (history J) ≡ false
        → IsNoAsk m.body → IsTakenBy nodes now m r
        → Keeps lane rules (Returned number ∷ delivered number r ∷ J) newest last now parts) }
{
    messages_fly();
    nodes_replay();
    nodes_wait();
}

/// A lane keeps its journal when the Ask of an owner is sent with the next number, and when its first reply is
/// returned and told, where the node that it asks isn't stopped.
pub fn asks_are_kept()
    ensures sent { OfKept (λ lane rules J newest last nodes parts. (d : ℕ) (m : Message)
        → IsAsking lane d (part_in lane rules parts d) m
        → IsSentNext lane rules J newest last nodes parts m) }
    ensures returned { OfKept (λ lane rules J newest last nodes parts. (number : ℕ) (m : Message) (r : Reply)
        (now : List Node) (d : ℕ) (after : List Part) → IsJustSent J number m → stopped m.receiver (history J) ≡ false
        → IsTakenBy nodes now m r
        → IsAsking lane d (part_in lane rules parts d) m → IsToldTo lane rules parts after d m.receiver r
        → Keeps lane rules (Returned number ∷ delivered number r ∷ J) newest last now after) }
{
    events_are_kept();
}

/// What a part is told by `take_reply` is the reply, and nothing where none came; and a part that knows the same as
/// before leaves the lane as it is, whom it asked and how far its round is set aside.
pub fn parts_are_told()
    ensures told { (p q : Part) (n : ℕ) (r : Reply) → IsAfterAnswer p q n (Some r) → IsPartTold p q n r }
    ensures silent { (p q : Part) (n : ℕ) → IsAfterAnswer p q n None → KnowsTheSame p q }
    ensures known { OfKept (λ lane rules J newest last nodes parts. (d : ℕ) (after : List Part)
        → KnowsTheSame (part_in lane rules parts d) (part_in lane rules after d)
        → OthersStay lane rules parts after d → Keeps lane rules J newest last nodes after) }
    ensures alike { OfKept (λ lane rules J newest last nodes parts. (d : ℕ) (after : List Part)
        (asked : ℕ) (awaited : Option ℕ) (stage : Stage) → part_in lane rules after d
        ≡ record (part_in lane rules parts d) { asked = asked; awaited = awaited; stage = stage }
        → OthersStay lane rules parts after d → Keeps lane rules J newest last nodes after) }
{}

/// A lane keeps its journal when the owner's part opens its state: the rows are the coarsest partition of
/// the lane that no bucket in an answer divides, and all serving nodes have answered.
pub fn openings_are_kept()
    ensures { OfKept (λ lane rules J newest last nodes parts. (now : List Part) (d : ℕ) (buckets : List Low)
        (o : Opens (part_in lane rules parts d) (part_in lane rules now d) buckets) → IsOwner lane o.state d
        → OthersStay lane rules parts now d
        → Keeps lane rules (Opened d (o.state).version buckets ∷ J) newest last nodes now) }
{}

/// A lane keeps its journal when the owner's round ends and its row has the marks that it gave, and when an
/// operation on a key is acknowledged and its row keeps the complete members that answered.
pub fn marks_are_kept()
    ensures ended { OfKept (λ lane rules J newest last nodes parts. (now : List Part) (d : ℕ) (s : ClusterState)
        (bucket : Low) (complete : ℕ) → IsActing lane J d s
        → EndsRound (part_in lane rules parts d) (part_in lane rules now d) bucket complete
        → OthersStay lane rules parts now d
        → IsLegalStep (setting_of lane rules) J (Decided d s.version (RoundEnded bucket complete))
        → Keeps lane rules (Decided d s.version (RoundEnded bucket complete) ∷ J) newest last nodes now) }
    ensures acked { OfKept (λ lane rules J newest last nodes parts. (now : List Part) (d : ℕ) (s : ClusterState)
        (line key answered : ℕ) (id : Id) (t : Stamp) → IsActing lane J d s
        → IsClosed (part_in lane rules parts d) (part_in lane rules now d) key answered
        → OthersStay lane rules parts now d
        → began line (history J)
        ≡ Some (record { distributor = d; version = s.version; id = id; stamp = Some t })
        → key ≡ key_of id
        → ((n : ℕ) → complete s.version n key (history J) ≡ true
        → has_node answered n ≡ answered_store s.version id t n (history J))
        → IsLegalStep (setting_of lane rules) J (Closed line (Acked t))
        → Keeps lane rules (Closed line (Acked t) ∷ J) newest last nodes now) }
{}
