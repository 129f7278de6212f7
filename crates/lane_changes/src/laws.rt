//! Laws of journals and changes; no function here does anything.

ghost use Rattle.std.specs.Prelude.{◌≡◌, ◌++◌, ℕ, List, [], ◌∷◌};
ghost use Rattle.view_changes.specs.declared.change.LaneChange.TheVariants as change;
ghost use Rattle.messages.specs.declared.message.Message.{Message};
ghost use Rattle.messages.specs.declared.reply.Reply.{Reply};
ghost use Rattle.node_model.specs.Nodes.{Node};
ghost use Rattle.node_model.specs.Telling.{kept_of, changes_taken};
ghost use Rattle.lane_journals.specs.Places.{Setting};
ghost use Rattle.lane_journals.specs.KeptJournals.{IsLegal};
ghost use Rattle.lane_journals.specs.declared.event.LaneEvent.{LaneEvent};
ghost use Rattle.lane_journals.specs.declared.event.LaneEvent.TheVariants as event;
ghost use Rattle.lane_keeping.specs.NodeKeeping.{NodeKeeps};
ghost use Rattle.lane_keeping.specs.Flights.{IsInFlight};
ghost use Rattle.lane_keeping.specs.Replaying.{delivered};
ghost use Rattle.lane_changes.specs.Deliveries.{keeping};
ghost use Rattle.lane_changes.specs.Changes.{changes_of, TellsNothing};

use lane_keeping::node_laws::entries_are_written;

/// In a lane that keeps its journal a node keeps, as far as a view shows it, what its deliveries have it keep; and as
/// it takes a message that is on its way, with whatever reply, the changes that it tells are the next ones.
pub fn nodes_tell_changes()
    ensures kept { (S : Setting) (J : List LaneEvent) (n : ℕ) (x : Node) → IsLegal S J → NodeKeeps J n x
        → keeping n J ≡ kept_of x }
    ensures told { (S : Setting) (J : List LaneEvent) (number : ℕ) (m : Message) (x : Node) (r : Reply) → IsLegal S J
        → IsInFlight J number m → NodeKeeps J m.receiver x
        → changes_of (delivered number r ∷ J) ≡ changes_of J ++ changes_taken x m r }
{
    entries_are_written();
}

/// A node that stops or starts is one change more, and an event that is no delivery, no stop and no start gives none.
pub fn other_events()
    ensures stopped { (J : List LaneEvent) (n : ℕ) → changes_of (event.Stopped n ∷ J) ≡ changes_of J ++ change.Stop n ∷ [] }
    ensures started { (J : List LaneEvent) (n : ℕ) → changes_of (event.Started n ∷ J) ≡ changes_of J ++ change.Start n ∷ [] }
    ensures quiet { (J : List LaneEvent) (e : LaneEvent) → TellsNothing e → changes_of (e ∷ J) ≡ changes_of J }
{}
