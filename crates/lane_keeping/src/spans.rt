//! The laws of what nodes go through; no function here does anything.

ghost use Rattle.std.specs.Prelude.{◌≡◌, ℕ, List, ◌∷◌};
ghost use Rattle.messages.specs.declared.noted.NotedReply.{NotedReply};
ghost use Rattle.node_model.specs.Nodes.{Node};
ghost use Rattle.lane_journals.specs.declared.event.LaneEvent.{LaneEvent};
ghost use Rattle.lane_journals.specs.declared.event.LaneEvent.TheVariants.{Delivered};
ghost use Rattle.lane_keeping.specs.Replaying.{IsNoDelivery};
ghost use Rattle.lane_keeping.specs.Spans.{IsTakenIn, NodesGo};

/// Nodes that stay go through nothing; what is no delivery leaves them, a delivery is taken, and a span behind
/// another is one span.
pub fn nodes_go_on()
    ensures none { (J : List LaneEvent) (old now : ℕ → Node) → ((n : ℕ) → now n ≡ old n) → NodesGo J old J now }
    ensures waits { (J K : List LaneEvent) (old now : ℕ → Node) (e : LaneEvent) → IsNoDelivery e
        → NodesGo J old K now → NodesGo J old (e ∷ K) now }
    ensures taken { (J K : List LaneEvent) (old now after : ℕ → Node) (number : ℕ) (noted : NotedReply)
        → NodesGo J old K now → IsTakenIn K now after number noted
        → NodesGo J old (Delivered number noted ∷ K) after }
    ensures further { (J K L : List LaneEvent) (old now after : ℕ → Node) → NodesGo J old K now
        → NodesGo K now L after → NodesGo J old L after }
{}
