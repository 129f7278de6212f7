ghost use Rattle.std.specs.Prelude.{◌≡◌, ◌≤◌, ◌<◌, ◌+◌, ◌∷◌, true, false, vec_len, vec_capacity};
ghost use Rattle.lane_journals.specs.Readers.{stopped};
ghost use Rattle.lane_journals.specs.Meanings.{history};
ghost use Rattle.lane_journals.specs.declared.event.LaneEvent.TheVariants as event;
ghost use Rattle.lane_carriage.specs.Carriage.{met};
ghost use Rattle.lane_carriage.specs.Readers.{IsPrompt};
ghost use Rattle.lane_keeping.specs.Tidings.{stopped_next, started_next};
ghost use Rattle.lane_states.specs.LaneStates.{journal_of, IsKept, AreStopped, AreResting, Receives};

use crate::lane_state::LaneState;
use carriers::Fate;
use lane_journals::LaneEvent;
use lane_keeping::laws::events_are_kept;
use service_layer::LaterChanges;
use view_changes::LaneChange;

/// What becomes of a message by its fate, where its receiver is stopped or isn't.
fn met(stopped: bool, fate: Fate) -> Fate
    ensures fate { result ≡ met stopped fate }
    ensures runs { IsPrompt result → stopped ≡ false }
{
    if stopped {
        match fate {
            Fate::Late(later) => Fate::Late(later),
            Fate::Deliver | Fate::LoseRequest | Fate::LoseReply | Fate::Twice => Fate::LoseRequest,
        }
    } else {
        fate
    }
}

impl LaneState {
    /// Whether a node is stopped.
    pub fn is_stopped(&self, node: u8) -> bool
        requires stops { AreStopped (λ n. stopped n (history (journal_of self.now))) self.now.stopped }
        ensures stopped { result ≡ stopped node (history (journal_of self.now)) }
        ensures receives { result ≡ false → Receives self.now node }
    {
        self.stopped.has(node)
    }

    /// What becomes of a message to a node by its fate: nothing is delivered to one that is stopped.
    pub(crate) fn met(&self, receiver: u8, fate: Fate) -> Fate
        requires keeps { IsKept self.now }
        ensures fate { result ≡ met (stopped receiver (history (journal_of self.now))) fate }
        ensures receives { IsPrompt result → Receives self.now receiver }
    {
        met(self.is_stopped(receiver), fate)
    }

    /// Notes that a node stops, where it runs.
    pub fn stop(&mut self, node: u8)
        requires keeps { IsKept self.old }
        requires small { node < 32 }
        requires room { vec_len self.old.journal.events + 1 ≤ vec_capacity self.old.journal.events }
        requires place { self.old.turn_room ≡ true }
        ensures keeps { IsKept self.new }
        ensures grows { journal_of self.new ≡ stopped_next node (journal_of self.old) }
        ensures after { self.new ≡ record self.old {
          journal = self.new.journal;
          stopped = self.new.stopped;
          turn_room = self.new.turn_room;
        } }
        ensures resting { AreResting self.old → AreResting self.new }
        ensures len { vec_len self.new.journal.events ≤ vec_len self.old.journal.events + 1 }
        ensures capacity { vec_capacity self.old.journal.events ≤ vec_capacity self.new.journal.events }
    {
        if !self.is_stopped(node) {
            self.note_stop(node);
        }
    }

    /// Notes that a node that runs stops.
    fn note_stop(&mut self, node: u8)
        requires keeps { IsKept self.old }
        requires small { node < 32 }
        requires runs { stopped node (history (journal_of self.old)) ≡ false }
        requires room { vec_len self.old.journal.events + 1 ≤ vec_capacity self.old.journal.events }
        requires place { self.old.turn_room ≡ true }
        ensures keeps { IsKept self.new }
        ensures grows { journal_of self.new ≡ event.Stopped node ∷ journal_of self.old }
        ensures after { self.new ≡ record self.old {
          journal = self.new.journal;
          stopped = self.new.stopped;
          turn_room = self.new.turn_room;
        } }
        ensures len { vec_len self.new.journal.events ≡ vec_len self.old.journal.events + 1 }
        ensures capacity { vec_capacity self.old.journal.events ≤ vec_capacity self.new.journal.events }
    {
        events_are_kept();
        self.stopped = self.stopped.with(node);
        self.turn_room = false;
        let change = LaterChanges::none(self.alloc).behind(LaneChange::Stop { node });
        self.journal
            .push_telling(LaneEvent::Stopped { node }, change);
    }

    /// Notes that a node starts, where it is stopped.
    pub fn start(&mut self, node: u8)
        requires keeps { IsKept self.old }
        requires small { node < 32 }
        requires room { vec_len self.old.journal.events + 1 ≤ vec_capacity self.old.journal.events }
        requires place { self.old.turn_room ≡ true }
        ensures keeps { IsKept self.new }
        ensures grows { journal_of self.new ≡ started_next node (journal_of self.old) }
        ensures after { self.new ≡ record self.old {
          journal = self.new.journal;
          stopped = self.new.stopped;
          turn_room = self.new.turn_room;
        } }
        ensures resting { AreResting self.old → AreResting self.new }
        ensures len { vec_len self.new.journal.events ≤ vec_len self.old.journal.events + 1 }
        ensures capacity { vec_capacity self.old.journal.events ≤ vec_capacity self.new.journal.events }
    {
        if self.is_stopped(node) {
            self.note_start(node);
        }
    }

    /// Notes that a node that is stopped starts.
    fn note_start(&mut self, node: u8)
        requires keeps { IsKept self.old }
        requires small { node < 32 }
        requires stopped { stopped node (history (journal_of self.old)) ≡ true }
        requires room { vec_len self.old.journal.events + 1 ≤ vec_capacity self.old.journal.events }
        requires place { self.old.turn_room ≡ true }
        ensures keeps { IsKept self.new }
        ensures grows { journal_of self.new ≡ event.Started node ∷ journal_of self.old }
        ensures after { self.new ≡ record self.old {
          journal = self.new.journal;
          stopped = self.new.stopped;
          turn_room = self.new.turn_room;
        } }
        ensures len { vec_len self.new.journal.events ≡ vec_len self.old.journal.events + 1 }
        ensures capacity { vec_capacity self.old.journal.events ≤ vec_capacity self.new.journal.events }
    {
        events_are_kept();
        self.stopped = self.stopped.without(node);
        self.turn_room = false;
        let change = LaterChanges::none(self.alloc).behind(LaneChange::Start { node });
        self.journal
            .push_telling(LaneEvent::Started { node }, change);
    }
}
