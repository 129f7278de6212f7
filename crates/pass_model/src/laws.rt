//! Laws of an undisturbed pass; no function here does anything.

ghost use Rattle.std.specs.Prelude.{◌≡◌, ◌==◌, ◌+◌, ◌≤◌, ℕ, Bool, true, false, List, Some, if◌then◌else◌};
ghost use Rattle.cluster_states.specs.declared.cluster_state.ClusterState.{ClusterState};
ghost use Rattle.cluster_states.specs.Publishing.{newest_of as newest_state};
ghost use Rattle.lane_journals.specs.Events.{Content};
ghost use Rattle.lane_journals.specs.Readers.{opened};
ghost use Rattle.lane_journals.specs.Meanings.{history};
ghost use Rattle.lane_journals.specs.Places.{Setting, published_states};
ghost use Rattle.lane_journals.specs.KeptJournals.{IsLegal};
ghost use Rattle.lane_journals.specs.declared.event.LaneEvent.{LaneEvent};
ghost use Rattle.messages.specs.declared.body.Body.{Body};
ghost use Rattle.messages.specs.declared.reply.Reply.{Reply};
ghost use Rattle.replica_store.specs.Replicas.{IsReplica};
ghost use Rattle.node_model.specs.Nodes.{Node, stored};
ghost use Rattle.node_model.specs.Takes.{IsInside, Treats};
ghost use Rattle.lane_keeping.specs.NodeKeeping.{NodeKeeps};
ghost use Rattle.pass_model.specs.Nodes.{Node as Seen};
ghost use Rattle.pass_model.specs.Shapes.{IsSound};
ghost use Rattle.pass_model.specs.Rows.{Settings, united};
ghost use Rattle.pass_model.specs.Passes.{Passes, Resends, World};
ghost use Rattle.pass_model.specs.Resting.{AreSettings, HasBegun, IsResting, IsSane};
ghost use Rattle.lane_rest.specs.Rest.{IsAtRest};
ghost use Rattle.pass_model.specs.Worlds.{AreSettingsOf, IsSaid, IsWorldOf};
ghost use Rattle.pass_model.specs.Lanes.{seen_node, IsPassBody, after_once, is_taken, IsNoWant, is_answer};
ghost use Rattle.pass_model.specs.Scripts.{told_body};
ghost use Rattle.pass_model.specs.Loops.{UpTo};

use pieces::laws::runs_are_known;

/// A pass that nothing disturbs leaves rest, whatever marks, pieces and shapes it finds, and even where
/// messages are taken twice.
pub fn a_pass_brings_rest()
    ensures { (s : Settings) (before resent after : World) → AreSettings s → HasBegun s before
        → Resends s before resent → Passes s resent after → IsResting s (united s resent.nodes) after }
{}

/// There is such a pass from wherever one may begin: joins and splits end. And there are such settings.
pub fn passes_end()
    ensures pass { (s : Settings) (U : Content) (before : World) → AreSettings s → IsSane s U before
        → (after : World) × Passes s before after }
    ensures settings { (s : Settings) × AreSettings s }
{}

/// Where the nodes and rows of a pass are those of a journal, rest of the one is rest of the other.
pub fn rest_is_read_off_the_journal()
    ensures { (S : Setting) (first most : ℕ) (s : ClusterState) (J : List LaneEvent) (t : Settings) (U : Content) (w : World)
        → IsLegal S J → newest_state (published_states J) ≡ Some s → opened s.version (history J) ≡ true
        → AreSettingsOf S first most s J t → IsWorldOf s J w → IsResting t U w → IsAtRest S first most J }
{}

/// A lane's node is what the journal says of it, and a pass may begin with it.
pub fn nodes_are_seen()
    ensures said { (J : List LaneEvent) (n came : ℕ) (doubled : ℕ → Bool) (y : Node) → NodeKeeps J n y
        → IsSaid n (history J) (seen_node doubled came y) }
    ensures sound { (came : ℕ) (doubled : ℕ → Bool) (y : Node) → IsReplica (stored y)
        → IsSound (seen_node doubled came y) }
{
    runs_are_known();
}

/// A lane's node that takes a message of its own version answers and does what a node of a pass does when it
/// takes it once, unless it wants memory.
pub fn bodies_do_the_same()
    ensures answers { (came : ℕ) (doubled : ℕ → Bool) (y z : Node) (x : Body) (r : Reply) → IsPassBody x
        → IsReplica (stored y) → IsNoWant r → Treats y x z r → is_answer r ≡ is_taken x (seen_node doubled came y) }
    ensures does { (came : ℕ) (doubled : ℕ → Bool) (y z : Node) (x : Body) (r : Reply) → IsPassBody x
        → IsReplica (stored y) → IsInside x → IsNoWant r → Treats y x z r
        → seen_node doubled came z ≡ after_once x (seen_node doubled came y) }
{
    runs_are_known();
}

/// So it does what a node of a pass does with a message that comes once, or twice.
pub fn messages_do_the_same()
    ensures once { (came : ℕ) (doubled : ℕ → Bool) (y z : Node) (x : Body) (r : Reply) → IsPassBody x
        → IsReplica (stored y) → IsInside x → IsNoWant r → Treats y x z r → doubled came ≡ false
        → seen_node doubled (came + 1) z ≡ told_body x (seen_node doubled came y) }
    ensures twice { (came : ℕ) (doubled : ℕ → Bool) (y z v : Node) (x : Body) (r q : Reply) → IsPassBody x
        → IsReplica (stored y) → IsReplica (stored z) → IsInside x → IsNoWant r → IsNoWant q
        → Treats y x z r → Treats z x v q → doubled came ≡ true
        → seen_node doubled (came + 1) v ≡ told_body x (seen_node doubled came y) }
{
    runs_are_known();
}

/// A loop over the nodes in rising number does all of them, if nothing is to be done behind its end.
pub fn loops_reach_all()
    ensures begins { (before after : ℕ → Seen) → UpTo 0 before after before }
    ensures goes { (before after now next : ℕ → Seen) (i : ℕ) → UpTo i before after now
        → ((n : ℕ) → next n ≡ (if n == i then after n else now n)) → UpTo (i + 1) before after next }
    ensures ends { (before after now : ℕ → Seen) (many : ℕ) → UpTo many before after now
        → ((n : ℕ) → many ≤ n → after n ≡ before n) → (n : ℕ) → now n ≡ after n }
{}
