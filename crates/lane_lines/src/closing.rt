ghost use Rattle.std.specs.Prelude.{◌≡◌, ◌≤◌, ◌+◌, ◌∷◌, vec_len, vec_capacity};
ghost use Rattle.messages.specs.declared.outcome.Outcome.TheVariants as outcome;
ghost use Rattle.lane_journals.specs.declared.event.LaneEvent.TheVariants as event;
ghost use Rattle.lane_states.specs.LaneStates.{journal_of, IsKept, AreResting};
ghost use Rattle.lane_lines.specs.Closing.{MayAcknowledge, MayEndWith};

use lane_journals::LaneEvent;
use lane_keeping::laws::{marks_are_kept, owners_act};
use lane_states::event_log::push_within;
use lane_states::lane_state::LaneState;
use messages::Outcome;
use node_sets::NodeSet;
use stamps::Stamp;

/// Notes that an operation is acknowledged: its row keeps the marks of the complete members that answered.
pub fn acknowledge(
    lane: &mut LaneState,
    line: u32,
    distributor: u8,
    key: u64,
    stamp: Stamp,
    answered: NodeSet,
)
    requires keeps { IsKept lane.old }
    requires may { MayAcknowledge lane.old line distributor key stamp answered }
    requires room { vec_len lane.old.journal.events + 1 ≤ vec_capacity lane.old.journal.events }
    ensures keeps { IsKept lane.new }
    ensures grows { journal_of lane.new ≡ event.Closed line (outcome.Acked stamp) ∷ journal_of lane.old }
    ensures after { lane.new ≡ record lane.old { journal = lane.new.journal; parts = lane.new.parts } }
    ensures parts { vec_len lane.new.parts ≡ vec_len lane.old.parts }
    ensures resting { AreResting lane.old → AreResting lane.new }
    ensures len { vec_len lane.new.journal.events ≡ vec_len lane.old.journal.events + 1 }
    ensures capacity { vec_capacity lane.old.journal.events ≤ vec_capacity lane.new.journal.events }
{
    owners_act();
    marks_are_kept();
    lane.parts[usize::from(distributor)].closed(key, answered);
    push_within(
        &mut lane.journal.events,
        LaneEvent::Closed {
            line,
            outcome: Outcome::Acked { stamp },
        },
    );
}

/// Notes that an operation ends with an outcome; these answered its Store.
pub fn note_end(
    lane: &mut LaneState,
    line: u32,
    distributor: u8,
    key: u64,
    outcome: Outcome,
    answered: NodeSet,
)
    requires keeps { IsKept lane.old }
    requires may { MayEndWith lane.old line distributor key outcome answered }
    requires room { vec_len lane.old.journal.events + 1 ≤ vec_capacity lane.old.journal.events }
    ensures keeps { IsKept lane.new }
    ensures grows { journal_of lane.new ≡ event.Closed line outcome ∷ journal_of lane.old }
    ensures after { lane.new ≡ record lane.old { journal = lane.new.journal; parts = lane.new.parts } }
    ensures parts { vec_len lane.new.parts ≡ vec_len lane.old.parts }
    ensures resting { AreResting lane.old → AreResting lane.new }
    ensures len { vec_len lane.new.journal.events ≡ vec_len lane.old.journal.events + 1 }
    ensures capacity { vec_capacity lane.old.journal.events ≤ vec_capacity lane.new.journal.events }
{
    match outcome {
        Outcome::Acked { stamp } => acknowledge(lane, line, distributor, key, stamp, answered),
        outcome => lane.note(LaneEvent::Closed { line, outcome }),
    }
}
