//! Laws of an operation that is under way in a lane; no function here does anything.

ghost use Rattle.std.specs.Prelude.{◌≡◌, ◌≢◌, ◌⊎◌, ◌≤◌, ◌+◌, ℕ, true, false, List, ◌∷◌, Option, None, Some};
ghost use Rattle.bucket_ids.specs.Buckets.{Low};
ghost use Rattle.node_sets.specs.Members.{has_node, size_of};
ghost use Rattle.stamps.specs.declared.stamp.Stamp.{Stamp};
ghost use Rattle.cluster_states.specs.declared.cluster_state.ClusterState.{ClusterState};
ghost use Rattle.cluster_states.specs.Publishing.{serves};
ghost use Rattle.ideal_nodes.specs.Placement.{IsOwner};
ghost use Rattle.bucket_db.specs.declared.row.Row.{Row};
ghost use Rattle.documents.specs.declared.entry.Entry.{Entry};
ghost use Rattle.messages.specs.declared.body.Body.TheVariants as body;
ghost use Rattle.messages.specs.declared.message.Message.{Message};
ghost use Rattle.messages.specs.declared.noted.NotedReply.{NotedReply};
ghost use Rattle.messages.specs.declared.operation.Operation.{Operation};
ghost use Rattle.messages.specs.declared.outcome.Outcome.{Outcome};
ghost use Rattle.messages.specs.declared.outcome.Outcome.TheVariants.{Acked, TooFew, OwnedElsewhere, NoMemory};
ghost use Rattle.messages.specs.declared.reply.Reply.{Reply};
ghost use Rattle.node_model.specs.Nodes.{Node};
ghost use Rattle.distributor_part.specs.Steps.{LacksAnswers};
ghost use Rattle.op_machine.specs.declared.machine.Standing.{Standing};
ghost use Rattle.op_machine.specs.Outcomes.{answers_of, Asks, Finishes};
ghost use Rattle.op_machine.specs.Plans.{IsPlan, plan_of};
ghost use Rattle.op_machine.specs.Standings.{due_entry, next_at, IsAnswered, IsBegun};
ghost use Rattle.lane_journals.specs.Buckets.{Id, contains, key_of};
ghost use Rattle.lane_journals.specs.Readers.{stopped, stamps_of, row_at, running, answered_store};
ghost use Rattle.lane_journals.specs.Legal.{IsNextStamp};
ghost use Rattle.lane_journals.specs.Endings.{RoundFellShort, UnionFellShort};
ghost use Rattle.lane_journals.specs.Meanings.{history};
ghost use Rattle.lane_journals.specs.KeptJournals.{IsLegalStep};
ghost use Rattle.lane_journals.specs.declared.event.LaneEvent.{LaneEvent};
ghost use Rattle.lane_journals.specs.declared.event.LaneEvent.TheVariants.{Begun, Refused, Prepared, Delivered, Returned, Closed};
ghost use Rattle.lane_keeping.specs.Replaying.{delivered};
ghost use Rattle.lane_keeping.specs.LaneKeeping.{setting_of, part_in};
ghost use Rattle.lane_keeping.specs.Acting.{IsActing, IsKnownRow};
ghost use Rattle.lane_keeping.specs.Asking.{IsJustSent, IsTakenBy};
ghost use Rattle.lane_keeping.specs.Laws.{OfKept};
ghost use Rattle.operation_keeping.specs.OperationKeeping.{IsUnderWay, KnowsPreparing, KnowsOperation, HasWritten, KnowsAsked};
ghost use Rattle.lane_keeping.specs.Lines.{IsOfNoLine, IsNotOf, IsFresh};
ghost use Rattle.op_machine.specs.Plans.{IsPlainGet};
ghost use Rattle.lane_journals.specs.Facts.{AllClosed};
ghost use Rattle.operation_keeping.specs.Left.{messages_left};
ghost use Rattle.operation_keeping.specs.Laws.{drawn, IsFree, OfPreparing, OfUnderWay, OfOperation, OfAsked, MayBeginNext, MayWriteNext, MayAskNext, IsAckedAs, MayLackAnswers};

use lane_keeping::laws::owners_act;
use lane_keeping::node_laws::{entries_are_written, messages_fly, nodes_replay};

/// A fresh line may be begun by the owner for a document of the lane, of which no operation is under way; its stamp
/// is the next of the version, or none. A stamp counts for one that was drawn.
pub fn operations_begin()
    ensures begins { OfKept (λ lane rules J newest last nodes parts. (d : ℕ) (s : ClusterState) (line : ℕ) (o : Operation)
        (stamp : Option Stamp) → IsActing lane J d s → IsFree (history J) o.id → IsFresh (history J) line
        → contains lane (key_of o.id) ≡ true → IsNextStamp (history J) s.version stamp
        → MayBeginNext lane rules J d s line o stamp) }
    ensures counted { (J : List LaneEvent) (line d v : ℕ) (id : Id) (stamp : Option Stamp)
        → stamps_of v (history (Begun line d v id stamp ∷ J)) ≡ drawn stamp (stamps_of v (history J)) }
{}

/// A fresh line is refused by a distributor that holds a state under which another one owns the lane.
pub fn lines_are_refused()
    ensures { OfKept (λ lane rules J newest last nodes parts. (d owner line : ℕ) (s : ClusterState)
        → (part_in lane rules parts d).state ≡ Some s → IsOwner lane s owner → owner ≢ d → IsFresh (history J) line
        → IsLegalStep (setting_of lane rules) J (Refused line d (OwnedElsewhere owner s.version))) }
{}

/// Events of no line leave what is known of an operation that isn't prepared, and that all lines are closed;
/// a line is fresh until it has an event.
pub fn preparing_waits()
    ensures preparing { (lane : Low) (J : List LaneEvent) (e : LaneEvent) (d : ℕ) (s : ClusterState) (line : ℕ) (o : Operation)
        (stamp : Option Stamp) → IsOfNoLine e → KnowsPreparing lane (history J) d s line o stamp
        → KnowsPreparing lane (history (e ∷ J)) d s line o stamp }
    ensures under_way { (lane : Low) (J : List LaneEvent) (e : LaneEvent) (d : ℕ) (s : ClusterState) (line : ℕ) (o : Operation)
        (stamp : Option Stamp) → IsOfNoLine e → IsUnderWay lane (history J) d s line o stamp
        → IsUnderWay lane (history (e ∷ J)) d s line o stamp }
    ensures closed { (J : List LaneEvent) (e : LaneEvent) → IsOfNoLine e → AllClosed (history J) → AllClosed (history (e ∷ J)) }
    ensures fresh { (J : List LaneEvent) (e : LaneEvent) (line : ℕ) → IsNotOf line e → IsFresh (history J) line
        → IsFresh (history (e ∷ J)) line }
    ensures counted { (J : List LaneEvent) (e : LaneEvent) (v : ℕ) → IsOfNoLine e
        → stamps_of v (history (e ∷ J)) ≡ stamps_of v (history J) }
{}

/// An operation may be prepared in the row of its key, if that has enough complete members and no round is
/// under way in it. Of each machine that begins with its plan the journal shows what it was told: nothing.
pub fn operations_prepare()
    ensures legal { OfPreparing (λ lane rules J d s line o stamp. (row : Row) → IsKnownRow s.version (history J) row
        → contains row.bucket (key_of o.id) ≡ true → rules.acks ≤ size_of row.complete
        → running s.version row.bucket (history J) ≡ false
        → IsLegalStep (setting_of lane rules) J (Prepared line row.bucket row.complete)) }
    ensures known { OfPreparing (λ lane rules J d s line o stamp. (row : Row) (t : Standing) → IsActing lane J d s
        → IsKnownRow s.version (history J) row → contains row.bucket (key_of o.id) ≡ true → IsPlainGet o
        → IsPlan (plan_of (record { version = s.version; lane = lane.low; sender = d }) o stamp row.complete row.active rules.acks)
        → IsBegun (plan_of (record { version = s.version; lane = lane.low; sender = d }) o stamp row.complete row.active rules.acks) t
        → KnowsOperation lane rules (Prepared line row.bucket row.complete ∷ J) d s line row.bucket None t) }
{}

/// The entry that is due may be written, if none is; a Store comes next only with the entry that is due.
pub fn operations_write()
    ensures writes { OfOperation (λ lane rules J last d s line row written t. (e : Entry) → written ≡ None
        → due_entry t.plan (answers_of t.reads) ≡ Some e
        → MayWriteNext lane rules J d s line row t e) }
    ensures due { (t : Standing) (m : Message) (e : Entry) → next_at t ≡ Asks m → m.body ≡ body.Store e
        → due_entry t.plan (answers_of t.reads) ≡ Some e }
{
    entries_are_written();
}

/// The message that comes next may be sent with the next number, a Store once its entry is written.
pub fn operations_send()
    ensures { OfOperation (λ lane rules J last d s line row written t. (m : Message) → IsActing lane J d s
        → next_at t ≡ Asks m → HasWritten written m.body
        → MayAskNext lane rules J last d s line row written t m) }
{
    messages_fly();
}

/// Once the answer of a node that isn't stopped came back and is told, the journal shows what the machine was told;
/// and so it does once the machine was told that none came.
pub fn operations_hear()
    ensures told { OfAsked (λ lane rules J nodes d s line row written t number m. (now : List Node) (y : Reply) (after : Standing)
        → IsJustSent J number m → stopped m.receiver (history J) ≡ false → IsTakenBy nodes now m y
        → IsAnswered m.receiver (Some y) t after
        → KnowsOperation lane rules (Returned number ∷ delivered number y ∷ J) d s line row written after) }
    ensures silent { OfAsked (λ lane rules J nodes d s line row written t number m. (after : Standing)
        → IsAnswered m.receiver None t after → KnowsOperation lane rules J d s line row written after) }
{
    entries_are_written();
    nodes_replay();
}

/// What is known of an operation stays over deliveries, second and late ones too; and so does that nothing
/// happened to a message, over those of others.
pub fn operations_wait()
    ensures known { OfOperation (λ lane rules J last d s line row written t. (number : ℕ) (r : NotedReply)
        → KnowsOperation lane rules (Delivered number r ∷ J) d s line row written t) }
    ensures asked { OfAsked (λ lane rules J nodes d s line row written t number m. (other : ℕ) (r : NotedReply)
        → KnowsAsked lane rules (Delivered other r ∷ J) d s line row written t number m) }
    ensures just { (J : List LaneEvent) (number other : ℕ) (m : Message) (r : NotedReply) → other ≢ number
        → IsJustSent J number m → IsJustSent (Delivered other r ∷ J) number m }
{
    messages_fly();
}

/// What comes next depends on nothing but the plan and the journal.
pub fn operations_agree()
    ensures { OfOperation (λ lane rules J last d s line row written t. (other : Low) (entry : Option Entry) (u : Standing)
        → KnowsOperation lane rules J d s line other entry u → u.plan ≡ t.plan → next_at u ≡ next_at t) }
{}

/// An operation sends at most 64 messages: with each answer, or none, that is told one less is left.
pub fn operations_shorten()
    ensures few { (t : Standing) → messages_left t ≤ 64 }
    ensures asks { (t : Standing) (m : Message) → next_at t ≡ Asks m → 1 ≤ messages_left t }
    ensures falls { (t after : Standing) (m : Message) (y : Option Reply) → next_at t ≡ Asks m
        → IsAnswered m.receiver y t after → messages_left after + 1 ≡ messages_left t }
{}

/// The outcome that the machine gives may close the line; want of memory may close it at any time. The machine's answers to the Stores are those that the journal shows.
pub fn operations_end()
    ensures ends { OfOperation (λ lane rules J last d s line row written t. (outcome : Outcome) → next_at t ≡ Finishes outcome
        → IsLegalStep (setting_of lane rules) J (Closed line outcome)) }
    ensures gives_up { OfUnderWay (λ lane rules J d s line o stamp.
        IsLegalStep (setting_of lane rules) J (Closed line NoMemory)) }
    ensures answered { OfOperation (λ lane rules J last d s line row written t. (n : ℕ) (stamp : Stamp) → t.plan.stamp ≡ Some stamp
        → has_node t.stores.answered n ≡ answered_store s.version t.plan.operation.id stamp n (history J)) }
    ensures acked { OfOperation (λ lane rules J last d s line row written t. (stamp : Stamp) → next_at t ≡ Finishes (Acked stamp)
        → IsAckedAs (history J) d s line t stamp) }
{}

/// An operation that couldn't be prepared is closed with how many answered, for each of the causes.
pub fn preparing_ends()
    ensures opening { OfPreparing (λ lane rules J d s line o stamp. (answered needed absent : ℕ)
        → MayLackAnswers J s.version answered needed absent
        → IsLegalStep (setting_of lane rules) J (Closed line (TooFew answered needed absent))) }
    ensures round { OfPreparing (λ lane rules J d s line o stamp. (row : Low) (answered needed absent : ℕ)
        → row_at s.version (key_of o.id) (history J) ≡ Some row
        → RoundFellShort (history J) s.version row answered needed absent
        ⊎ UnionFellShort (setting_of lane rules) J s.version (key_of o.id) row answered needed absent
        → IsLegalStep (setting_of lane rules) J (Closed line (TooFew answered needed absent))) }
{}

/// Where the owner's part lacks answers to its Asks, the opening fell short: so many answered, all that serve
/// are needed, and any of those that didn't is absent.
pub fn openings_fall_short()
    ensures { OfKept (λ lane rules J newest last nodes parts. (d missing all absent : ℕ)
        (l : LacksAnswers (part_in lane rules parts d) missing) → IsOwner lane l.state d
        → ((n : ℕ) → has_node all n ≡ serves l.state n) → has_node missing absent ≡ true
        → MayLackAnswers J (l.state).version (size_of (part_in lane rules parts d).answered) (size_of all) absent) }
{
    owners_act();
}
