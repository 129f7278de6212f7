//! Laws of nodes and journals; no function here does anything.

ghost use Rattle.std.specs.Prelude.{◌≡◌, ◌≢◌, ◌↔◌, ◌==◌, ◌||◌, ◌≤◌, ℕ, length, Bool, true, false, List, [], ◌∷◌, Option, Some};
ghost use Rattle.std.specs.FinMap as fin;
ghost use Rattle.std.specs.List.{list_any};
ghost use Rattle.bucket_ids.specs.Buckets.{has_key};
ghost use Rattle.pieces.specs.Pieces as laid;
ghost use Rattle.replica_store.specs.Replicas.{LieIn};
ghost use Rattle.node_model.specs.Nodes.{Node, new_node};
ghost use Rattle.node_model.specs.Takes.{Takes};
ghost use Rattle.documents.specs.declared.entry.Entry.{Entry};
ghost use Rattle.entry_maps.specs.EntryCodes.{Entries};
ghost use Rattle.entry_maps.specs.Stamps.{stamps_of};
ghost use Rattle.entry_maps.specs.Joins.{joined};
ghost use Rattle.messages.specs.declared.message.Message.{Message};
ghost use Rattle.messages.specs.declared.reply.Reply.{Reply};
ghost use Rattle.messages.specs.Noting.{noted_body};
ghost use Rattle.messages.specs.declared.noted.NotedReply.{NotedReply};
ghost use Rattle.lane_journals.specs.Stamps.{Stamp, newer};
ghost use Rattle.lane_journals.specs.Buckets.{Bucket, Id};
ghost use Rattle.lane_journals.specs.Events.{Event};
ghost use Rattle.lane_journals.specs.Readers.{Journal, Given, answer, running, round_of, holds, stopped};
ghost use Rattle.lane_journals.specs.Legal.{MaySend, MayUnite};
ghost use Rattle.lane_journals.specs.States.{state_of};
ghost use Rattle.lane_journals.specs.Facts.{InRegion};
ghost use Rattle.lane_journals.specs.Meanings.{entry_at, content, history};
ghost use Rattle.lane_journals.specs.Places.{Setting, Owns, PlacedBody};
ghost use Rattle.lane_journals.specs.KeptJournals.{IsLegal, IsLegalStep};
ghost use Rattle.lane_journals.specs.declared.event.LaneEvent.{LaneEvent};
ghost use Rattle.lane_journals.specs.declared.event.LaneEvent.TheVariants.{Wrote, Delivered};
ghost use Rattle.lane_keeping.specs.NodeKeeping.{stamp_of, AreWritten, NodeKeeps};
ghost use Rattle.lane_keeping.specs.Flights.{meant, Brings, BringsBack, IsExact, IsWhole, IsInFlight};
ghost use Rattle.lane_keeping.specs.Replaying.{IsNoDelivery, sending, delivered, OfTaken, Replays, with_node};
ghost use Rattle.lane_keeping.specs.Unions.{Gave, IsUnion};

use global_ids::laws::keys_locate;
use pieces::laws::runs_are_known;

/// A node that took no message is what the empty journal says; what is no delivery leaves each node, and a
/// delivery each but its receiver.
pub fn nodes_wait()
    ensures begins { (n : ℕ) → NodeKeeps [] n new_node }
    ensures waits { (J : List LaneEvent) (e : LaneEvent) (n : ℕ) (x : Node) → IsNoDelivery e
        → NodeKeeps J n x → NodeKeeps (e ∷ J) n x }
    ensures apart { (J : List LaneEvent) (number : ℕ) (r : NotedReply) (m : Message) (n : ℕ) (x : Node)
        → IsInFlight J number m → m.receiver ≢ n
        → NodeKeeps J n x → NodeKeeps (Delivered number r ∷ J) n x }
{}

/// A message may be sent where the legal relation lets what it means be sent, from where its entries were
/// written; it is on its way then, and stays so whatever else happens.
pub fn messages_fly()
    ensures may_go { (S : Setting) (J : List LaneEvent) (number : ℕ) (m : Message)
        → Brings (λ s. entry_at s J) m.body → IsExact m.body
        → MaySend (state_of (history J)) (history J) number m.version m.sender m.receiver (meant m.body)
        → Owns S J m.sender m.version → PlacedBody S J m.version m.receiver (noted_body m.body)
        → IsLegalStep S J (sending number m) }
    ensures sent { (S : Setting) (J : List LaneEvent) (number : ℕ) (m : Message)
        → IsLegalStep S J (sending number m) → Brings (λ s. entry_at s J) m.body → IsWhole m.body
        → IsInFlight (sending number m ∷ J) number m }
    ensures stays { (J : List LaneEvent) (e : LaneEvent) (number : ℕ) (m : Message)
        → IsInFlight J number m → IsInFlight (e ∷ J) number m }
{}

/// A running node takes a message that is on its way: then the delivery with just this reply may come next
/// in a legal journal, and the node is what the longer journal says.
pub fn nodes_replay()
    ensures permitted { OfTaken (λ S J number m y r. IsLegalStep S J (delivered number r)) }
    ensures keeps { OfTaken (λ S J number m y r. NodeKeeps (delivered number r ∷ J) m.receiver y) }
{
    runs_are_known();
    keys_locate();
}

/// In the words of the journal: a node has a piece over just the keys that it holds, and its regions are over
/// just the keys of the Activates that it accepted at its version. It drew no more serials than there are
/// events, so a lane knows that the next one finds room.
pub fn nodes_hold()
    ensures keys { (S : Setting) (J : List LaneEvent) (n : ℕ) (x : Node) → IsLegal S J → NodeKeeps J n x
        → (key : ℕ) → holds n key (history J) ≡ laid.holds key x.pieces }
    ensures regions { (S : Setting) (J : List LaneEvent) (n : ℕ) (x : Node) → IsLegal S J → NodeKeeps J n x
        → (key : ℕ) → (list_any (λ b. has_key b key) x.regions ≡ true) ↔ InRegion x.version n key (history J) }
    ensures serials { (J : List LaneEvent) (n : ℕ) (x : Node) → NodeKeeps J n x → x.serial ≤ length J }
{
    runs_are_known();
}

/// A lane whose journal is legal and replays to its nodes goes on so: it begins with none, any legal step
/// but a delivery leaves it so, and a running node that takes a message that is on its way too.
pub fn lanes_replay()
    ensures begins { (S : Setting) → Replays S [] (λ n. new_node) }
    ensures waits { (S : Setting) (J : List LaneEvent) (nodes : ℕ → Node) (e : LaneEvent) → Replays S J nodes
        → IsNoDelivery e → IsLegalStep S J e → Replays S (e ∷ J) nodes }
    ensures takes { (S : Setting) (J : List LaneEvent) (nodes : ℕ → Node) (number : ℕ) (m : Message) (y : Node) (r : Reply)
        → Replays S J nodes → IsInFlight J number m → stopped m.receiver (history J) ≡ false
        → Takes (nodes m.receiver) m y r
        → Replays S (delivered number r ∷ J) (with_node m.receiver y nodes) }
{
    runs_are_known();
    keys_locate();
}

/// An entry that a line writes is that of its stamp, whatever was written before. The entries of an answer are
/// those that were written with their stamps, and stay so; so are those of two maps that are joined, where
/// of each document the newer stamp is held. What the stamps of such a map name is what it has.
pub fn entries_are_written()
    ensures wrote { (S : Setting) (J : List LaneEvent) → IsLegal S J → (line : ℕ) (e : Entry)
        → IsLegalStep S J (Wrote line e) → entry_at e.stamp (Wrote line e ∷ J) ≡ Some e }
    ensures stamped { (S : Setting) (J : List LaneEvent) → IsLegal S J → (s : Stamp) (e : Entry)
        → entry_at s J ≡ Some e → e.stamp ≡ s }
    ensures shown { OfTaken (λ S J number m y r. BringsBack (λ s. entry_at s J) m.body r) }
    ensures stay { (J : List LaneEvent) (e : LaneEvent) (m : Entries) → AreWritten (λ s. entry_at s J) m
        → AreWritten (λ s. entry_at s (e ∷ J)) m }
    ensures joined { (wrote : Stamp → Option Entry) (m other : Entries) → AreWritten wrote m → AreWritten wrote other
        → AreWritten wrote (joined m other) }
    ensures newer { (m other : Entries) (id : Id)
        → stamp_of (fin.get (joined m other) id) ≡ newer (stamp_of (fin.get other id)) (stamp_of (fin.get m id)) }
    ensures named { (J : List LaneEvent) (m : Entries) (id : Id) → AreWritten (λ s. entry_at s J) m
        → content J (stamps_of m) id ≡ stamp_of (fin.get m id) }
{}

/// The union of a round, answer by answer: it begins with nothing, whatever happens leaves it, and an answer
/// of one node more is joined to it. Once it has those of all nodes of the version it may be sent.
pub fn answers_unite()
    ensures begins { (v r : ℕ) (H : Journal) → IsUnion v r H (λ n. false) fin.empty }
    ensures stays { (v r : ℕ) (H : Journal) (e : Event) (did : ℕ → Bool) (u : Entries) → IsUnion v r H did u
        → IsUnion v r (e ∷ H) did u }
    ensures joins { (v r : ℕ) (H : Journal) (did : ℕ → Bool) (u : Entries) (n : ℕ) (g : Given) (es : Entries)
        → IsUnion v r H did u → answer v r n H ≡ Some g → Gave g es
        → IsUnion v r H (λ m. m == n || did m) (joined u es) }
    ensures lies { (b : Bucket) (u es : Entries) → LieIn b u → LieIn b es → LieIn b (joined u es) }
    ensures unites { (P : ℕ → ℕ → Bool) (H : Journal) (v : ℕ) (b : Bucket) (did : ℕ → Bool) (u : Entries)
        → running v b H ≡ true → IsUnion v (round_of v b H) H did u → ((n : ℕ) → P v n ≡ true → did n ≡ true)
        → MayUnite P H v b (λ id. stamp_of (fin.get u id)) }
{}
