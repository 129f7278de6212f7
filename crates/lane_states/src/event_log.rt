ghost use Rattle.std.specs.Prelude.{◌≡◌, ◌≤◌, ◌+◌, ◌∷◌, ◌++◌, min, length, vec_len, vec_capacity};
ghost use Rattle.std.specs.VecDeque.{deque_len, deque_capacity};
ghost use Rattle.lane_journals.specs.KeptJournals.{past};
ghost use Rattle.lane_states.specs.Told.{all_kept};

use lane_journals::LaneEvent;
use service_layer::ChangeList;
use std::collections::VecDeque;

/// The events of a lane, and which changes of its view they give.
#[derive(Drop)]
pub struct EventLog {
    /// The oldest first.
    pub events: Vec<LaneEvent>,
    /// How many changes; at 2^64 - 1 so many or more.
    pub told: u64,
    /// Those that no shelf took yet, the oldest first; of each event one list, which isn't empty.
    pub kept: VecDeque<ChangeList>,
}

/// Appends an event for which there is room.
pub fn push_within(events: &mut Vec<LaneEvent>, event: LaneEvent)
    requires { vec_len events.old + 1 ≤ vec_capacity events.old }
    ensures past { past events.new.items ≡ event ∷ past events.old.items }
    ensures len { vec_len events.new ≡ vec_len events.old + 1 }
    ensures capacity { vec_capacity events.old ≤ vec_capacity events.new }
{
    match events.push(event) {
        Ok(()) => {}
        Err(_) => unreachable!(),
    }
}

impl EventLog {
    /// Appends an event that gives these changes, and for both of which there is room.
    pub(crate) fn push_telling(&mut self, event: LaneEvent, changes: ChangeList)
        requires room { vec_len self.old.events + 1 ≤ vec_capacity self.old.events }
        requires place { deque_len self.old.kept + 1 ≤ deque_capacity self.old.kept }
        ensures past { past self.new.events.items ≡ event ∷ past self.old.events.items }
        ensures told { self.new.told ≡ min (self.old.told + length changes) 18446744073709551615 }
        ensures kept { all_kept self.new.kept.items ≡ all_kept self.old.kept.items ++ changes }
        ensures len { vec_len self.new.events ≡ vec_len self.old.events + 1 }
        ensures capacity { vec_capacity self.old.events ≤ vec_capacity self.new.events }
        ensures lists { deque_len self.new.kept ≤ deque_len self.old.kept + 1 }
        ensures places { deque_capacity self.old.kept ≤ deque_capacity self.new.kept }
    {
        push_within(&mut self.events, event);
        self.told = self.told.saturating_add(changes.len() as u64);
        self.keep(changes);
    }

    /// Keeps changes behind the others, for which there is a place.
    #[tactic(auto, using(crate::proofs::Shelving::kept_push))]
    fn keep(&mut self, changes: ChangeList)
        requires { deque_len self.old.kept + 1 ≤ deque_capacity self.old.kept }
        ensures kept { all_kept self.new.kept.items ≡ all_kept self.old.kept.items ++ changes }
        ensures lists { deque_len self.new.kept ≤ deque_len self.old.kept + 1 }
        ensures places { deque_capacity self.old.kept ≤ deque_capacity self.new.kept }
        ensures after { self.new ≡ record self.old { kept = self.new.kept } }
    {
        if changes.len() != 0 {
            self.kept.push_back_reserved(changes);
        }
    }
}
