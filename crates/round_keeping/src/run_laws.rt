//! The law of rounds that run; the function here does nothing.

ghost use Rattle.std.specs.Prelude.{ℕ, List};
ghost use Rattle.bucket_ids.specs.Buckets.{Low};
ghost use Rattle.cluster_states.specs.declared.cluster_state.ClusterState.{ClusterState};
ghost use Rattle.carriers.specs.declared.fate.Fate.{Fate};
ghost use Rattle.messages.specs.declared.late.Late.{Late};
ghost use Rattle.lane_journals.specs.declared.event.LaneEvent.{LaneEvent};
ghost use Rattle.lane_carriage.specs.Carrying.{AreCarried};
ghost use Rattle.round_keeping.specs.RoundRuns.{RunsOn};

use lane_carriage::laws::late_messages_wait;

/// Where the messages of a lane have their fates, and a round sends some more, these have just the fates that the
/// carrier gave meanwhile, and just those late ones wait that are still to come.
pub fn runs_are_carried()
    ensures { (lane : Low) (d : ℕ) (s : ClusterState) (given after : List Fate) (last now : ℕ) (late rest : List Late)
        (J K : List LaneEvent) → RunsOn lane d s given after last now late rest J K
        → AreCarried given J last late → AreCarried after K now rest }
{
    late_messages_wait();
}
