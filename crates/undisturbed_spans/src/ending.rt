//! The law of whole rounds in quiet spans; no function here does anything.

ghost use Rattle.std.specs.Prelude.{ℕ, List};
ghost use Rattle.bucket_ids.specs.Buckets.{Low};
ghost use Rattle.carriers.specs.declared.fate.Fate.{Fate};
ghost use Rattle.messages.specs.declared.late.Late.{Late};
ghost use Rattle.node_model.specs.Nodes.{Node};
ghost use Rattle.lane_journals.specs.declared.event.LaneEvent.{LaneEvent};
ghost use Rattle.round_keeping.specs.declared.round_run.RoundRun.{RoundRun};
ghost use Rattle.round_keeping.specs.declared.round_run.RoundEnd.{RoundEnd};
ghost use Rattle.pass_model.specs.Scripts.{Script};
ghost use Rattle.undisturbed_spans.specs.Ending.{IsWholeRound, HasEnded};

use crate::noting::{undisturbed_rounds_are_noted, undisturbed_unions_are_counted};
use crate::spans::undisturbed_spans_part;
use crate::whole_runs::undisturbed_runs_round;
use lane_carriage::laws::late_messages_wait;
use pieces::laws::runs_are_known;
use upkeep_spans::laws::upkeep_goes_on;

/// A round that was run to its end in a quiet span had all its answers, each of its receivers took the union, no other
/// node changed, and what a node showed is how its pieces stood.
pub fn undisturbed_rounds_end()
    ensures { (d : Script) (lane : Low) (key : ℕ) (J M K : List LaneEvent) (x y : RoundRun) (e : RoundEnd)
        (given after : List Fate) (last until : ℕ) (late rest : List Late) (old now : ℕ → Node)
        → IsWholeRound d lane key J M K x y e given after last until late rest old now
        → HasEnded d x.state J K old now y.round }
{
    runs_are_known();
    late_messages_wait();
    undisturbed_rounds_are_noted();
    undisturbed_unions_are_counted();
    undisturbed_runs_round();
    undisturbed_spans_part();
    upkeep_goes_on();
}
