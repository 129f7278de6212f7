//! Laws of quiet spans; no function here does anything.

ghost use Rattle.std.specs.Prelude.{◌≡◌, ◌++◌, ◌+◌, ◌⊎◌, ℕ, List, [], ◌∷◌, length};
ghost use Rattle.carriers.specs.declared.fate.Fate.{Fate};
ghost use Rattle.lane_journals.specs.declared.event.LaneEvent.{LaneEvent};
ghost use Rattle.lane_journals.specs.declared.event.LaneEvent.TheVariants.{Sent, Returned};
ghost use Rattle.lane_carriage.specs.Carriage.{IsCarried, IsMessage};
ghost use Rattle.upkeep_spans.specs.Spans.{AreUpkeep};
ghost use Rattle.messages.specs.declared.reply.Reply.{Reply};
ghost use Rattle.messages.specs.declared.reply.Reply.TheVariants.{NoMemory};
ghost use Rattle.replica_store.specs.Replicas.{IsReplica};
ghost use Rattle.node_model.specs.Nodes.{Node, stored};
ghost use Rattle.node_model.specs.Takes.{IsInside, Treats};
ghost use Rattle.lane_journals.specs.Meanings.{history};
ghost use Rattle.lane_keeping.specs.Replaying.{sending, delivered};
ghost use Rattle.pass_model.specs.Lanes.{IsNoWant, seen_node};
ghost use Rattle.pass_model.specs.Scripts.{Script, came, Agrees, told_body};
ghost use Rattle.upkeep_spans.specs.Causes.{IsUndisturbed};
ghost use Rattle.undisturbed_spans.specs.Undisturbed.{GoesUndisturbed, IsTakenOnce, IsTakenTwice, OfTold};

use lane_carriage::laws::{late_messages_fall_due, messages_are_carried};
use pass_model::laws::messages_do_the_same;
use upkeep_spans::laws::upkeep_goes_on;

/// Where an upkeep goes on from one journal to the next and then to a third, and that is quiet as a whole, both
/// parts are quiet, with the same script.
pub fn undisturbed_spans_part()
    ensures first { (e v : ℕ) (d : Script) (given more : List Fate) (J K L : List LaneEvent) → AreUpkeep e v J K
        → AreUpkeep e v K L → IsCarried given K → IsCarried (given ++ more) L
        → GoesUndisturbed d (given ++ more) J L → GoesUndisturbed d given J K }
    ensures second { (e v : ℕ) (d : Script) (given more : List Fate) (J K L : List LaneEvent) → AreUpkeep e v J K
        → AreUpkeep e v K L → IsCarried given K → IsCarried (given ++ more) L
        → GoesUndisturbed d (given ++ more) J L → GoesUndisturbed d (given ++ more) K L }
{
    messages_are_carried();
    upkeep_goes_on();
}

/// A message that is sent in a quiet span is taken once or twice, its reply comes back, and nothing else happens.
pub fn undisturbed_messages_are_taken()
    ensures { (given : List Fate) (f : Fate) (J K : List LaneEvent) (x : IsMessage given f J K) → IsCarried given J
        → IsUndisturbed (given ++ f ∷ []) J K
        → IsTakenOnce (length given + 1) (Sent (length given + 1) x.version x.sender x.receiver x.body ∷ J) K
        ⊎ IsTakenTwice (length given + 1) (Sent (length given + 1) x.version x.sender x.receiver x.body ∷ J) K }
{
    messages_are_carried();
    late_messages_fall_due();
    upkeep_goes_on();
}

/// What such a message makes of its receiver is what a pass says; and it comes there as one more, and nowhere else.
pub fn undisturbed_messages_change_one_node()
    ensures once { OfTold (λ d J k m. (y z : Node) (r : Reply) → IsReplica (stored y) → IsInside m.body → IsNoWant r
        → Treats y m.body z r
        → Agrees d (history J) (history (Returned k ∷ delivered k r ∷ sending k m ∷ J))
        → seen_node (d m.receiver) (came m.receiver (history (Returned k ∷ delivered k r ∷ sending k m ∷ J))) z
        ≡ told_body m.body (seen_node (d m.receiver) (came m.receiver (history J)) y)) }
    ensures twice { OfTold (λ d J k m. (y z v : Node) (r q : Reply) → IsReplica (stored y) → IsReplica (stored z)
        → IsInside m.body → IsNoWant r → IsNoWant q → Treats y m.body z r → Treats z m.body v q
        → Agrees d (history J) (history (delivered k q ∷ Returned k ∷ delivered k r ∷ sending k m ∷ J))
        → seen_node (d m.receiver)
        (came m.receiver (history (delivered k q ∷ Returned k ∷ delivered k r ∷ sending k m ∷ J))) v
        ≡ told_body m.body (seen_node (d m.receiver) (came m.receiver (history J)) y)) }
    ensures short { OfTold (λ d J k m. (y z : Node) (r : Reply) → IsReplica (stored y) → IsInside m.body → IsNoWant r
        → Treats y m.body z r
        → Agrees d (history J) (history (delivered k NoMemory ∷ Returned k ∷ delivered k r ∷ sending k m ∷ J))
        → seen_node (d m.receiver)
        (came m.receiver (history (delivered k NoMemory ∷ Returned k ∷ delivered k r ∷ sending k m ∷ J))) z
        ≡ told_body m.body (seen_node (d m.receiver) (came m.receiver (history J)) y)) }
    ensures others { OfTold (λ d J k m. (n : ℕ) (r q : Reply) → (n ≡ m.receiver → ⊥)
        → (came n (history (Returned k ∷ delivered k r ∷ sending k m ∷ J)) ≡ came n (history J))
        × (came n (history (delivered k q ∷ Returned k ∷ delivered k r ∷ sending k m ∷ J)) ≡ came n (history J))) }
{
    messages_do_the_same();
}
