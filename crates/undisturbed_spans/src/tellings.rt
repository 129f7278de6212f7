//! Laws of the steps of a pass in quiet spans; no function here does anything.

ghost use Rattle.std.specs.Prelude.{◌≡◌, ◌++◌, ◌+◌, ℕ, true, List, Some, length};
ghost use Rattle.bucket_ids.specs.Buckets.{Low};
ghost use Rattle.carriers.specs.declared.fate.Fate.{Fate};
ghost use Rattle.lane_journals.specs.Events.{NoMemory};
ghost use Rattle.lane_journals.specs.Readers.{first_reply, returned};
ghost use Rattle.lane_journals.specs.Meanings.{history};
ghost use Rattle.lane_journals.specs.declared.event.LaneEvent.{LaneEvent};
ghost use Rattle.messages.specs.declared.message.Message.{Message};
ghost use Rattle.node_model.specs.Nodes.{Node};
ghost use Rattle.pass_model.specs.Scripts.{Script, Agrees};
ghost use Rattle.lane_keeping.specs.Spans.{NodesGo};
ghost use Rattle.undisturbed_spans.specs.Telling.{IsTaken, IsSaid, IsToldIn, IsFresh, IsAskedOf, IsShownIn};

use lane_carriage::laws::{late_messages_fall_due, messages_are_carried};
use pieces::laws::runs_are_known;
use upkeep_spans::laws::upkeep_goes_on;

/// A message that is taken once or twice makes of the nodes what a pass says, and its reply is an answer just where
/// its receiver takes it.
pub fn undisturbed_messages_are_told()
    ensures { (d : Script) (J K : List LaneEvent) (old now : ℕ → Node) (k : ℕ) (m : Message)
        → IsTaken J K old now k m → Agrees d (history J) (history K) → IsToldIn d J K old now k m }
{
    runs_are_known();
    upkeep_goes_on();
}

/// And a message that a lane sends with the next number is taken once or twice, where the span is quiet, and its
/// reply comes back.
pub fn undisturbed_tellings_are_told()
    ensures fresh { (d : Script) (given : List Fate) (f : Fate) (J K : List LaneEvent) (old now : ℕ → Node) (m : Message)
        → IsSaid d given f J K old now m → IsFresh J K (length given + 1) m }
    ensures back { (d : Script) (given : List Fate) (f : Fate) (J K : List LaneEvent) (old now : ℕ → Node) (m : Message)
        → IsSaid d given f J K old now m → returned (length given + 1) (history K) ≡ true }
    ensures told { (d : Script) (given : List Fate) (f : Fate) (J K : List LaneEvent) (old now : ℕ → Node) (m : Message)
        → IsSaid d given f J K old now m → (first_reply (length given + 1) (history K) ≡ Some NoMemory → ⊥)
        → IsToldIn d J K old now (length given + 1) m }
{
    messages_are_carried();
    late_messages_fall_due();
    runs_are_known();
    upkeep_goes_on();
}

/// A Read of a bucket that a lane sends with the next number changes no node, where the span is quiet, and its reply
/// comes back: it shows what its receiver has in the bucket, and the pieces that meet it.
pub fn undisturbed_reads_are_shown()
    ensures fresh { (given : List Fate) (f : Fate) (J K : List LaneEvent) (old now : ℕ → Node) (m : Message) (b : Low)
        → IsAskedOf given f J K old now m b → IsFresh J K (length given + 1) m }
    ensures back { (given : List Fate) (f : Fate) (J K : List LaneEvent) (old now : ℕ → Node) (m : Message) (b : Low)
        → IsAskedOf given f J K old now m b → returned (length given + 1) (history K) ≡ true }
    ensures shown { (given : List Fate) (f : Fate) (J K : List LaneEvent) (old now : ℕ → Node) (m : Message) (b : Low)
        → IsAskedOf given f J K old now m b → (first_reply (length given + 1) (history K) ≡ Some NoMemory → ⊥)
        → IsShownIn J K old now (length given + 1) m b }
{
    messages_are_carried();
    late_messages_fall_due();
    runs_are_known();
    upkeep_goes_on();
}

/// Where nodes go through the span from one journal to a third, they go through that to the second, and on from there.
pub fn spans_of_nodes_part()
    ensures { (J K L : List LaneEvent) (old now : ℕ → Node) (X Y : List LaneEvent) → K ≡ X ++ J → L ≡ Y ++ K
        → NodesGo J old L now → (mid : ℕ → Node) × NodesGo J old K mid × NodesGo K mid L now }
{
    upkeep_goes_on();
}
