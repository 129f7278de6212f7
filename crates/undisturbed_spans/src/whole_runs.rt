//! The law of a round that is run in a quiet span; no function here does anything.

ghost use Rattle.std.specs.Prelude.{ℕ, List};
ghost use Rattle.bucket_ids.specs.Buckets.{Low};
ghost use Rattle.cluster_states.specs.declared.cluster_state.ClusterState.{ClusterState};
ghost use Rattle.carriers.specs.declared.fate.Fate.{Fate};
ghost use Rattle.messages.specs.declared.late.Late.{Late};
ghost use Rattle.lane_journals.specs.declared.event.LaneEvent.{LaneEvent};
ghost use Rattle.node_model.specs.Nodes.{Node};
ghost use Rattle.pass_model.specs.Scripts.{Script};
ghost use Rattle.undisturbed_spans.specs.Running.{RunsQuietly, IsRunTo};

use crate::spans::undisturbed_spans_part;
use crate::tellings::{
    spans_of_nodes_part, undisturbed_reads_are_shown, undisturbed_tellings_are_told,
};
use lane_carriage::laws::late_messages_wait;
use upkeep_spans::laws::upkeep_goes_on;

/// The messages of a round that are sent one after the other in a quiet span make of the nodes what they say.
pub fn undisturbed_runs_round()
    ensures { (d : Script) (lane : Low) (distributor : ℕ) (s : ClusterState) (given fates : List Fate) (last : ℕ)
        (late rest : List Late) (J K : List LaneEvent) (old now : ℕ → Node) (number : ℕ) (b : Low)
        → RunsQuietly d lane distributor s given fates last late rest J K old now number b
        → IsRunTo d s J K old now number b }
{
    late_messages_wait();
    undisturbed_reads_are_shown();
    undisturbed_tellings_are_told();
    spans_of_nodes_part();
    undisturbed_spans_part();
    upkeep_goes_on();
}
