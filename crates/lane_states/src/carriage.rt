ghost use Rattle.std.specs.Prelude.{◌≡◌, ◌≤◌, ◌<◌, ◌+◌, ◌∷◌, ℕ, true, false, OnOk, IfSome, length, vec_len, vec_capacity};
ghost use Rattle.messages.specs.Noting.{noted_body};
ghost use Rattle.node_model.specs.Takes.{IsKeyOf};
ghost use Rattle.messages.specs.Waiting.{NoneIsDue, AreSentBefore};
ghost use Rattle.lane_journals.specs.Meanings.{entry_at};
ghost use Rattle.lane_journals.specs.KeptJournals.{IsLegalStep};
ghost use Rattle.lane_carriage.specs.Carriage.{IsGivenOut, is_cut_off};
ghost use Rattle.lane_carriage.specs.Waits.{kept_by};
ghost use Rattle.carriers.specs.declared.fate.Fate.TheVariants as fate;
ghost use Rattle.lane_keeping.specs.Flights.{Brings, IsWhole, IsInFlight};
ghost use Rattle.lane_keeping.specs.Replaying.{sending, delivered};
ghost use Rattle.lane_keeping.specs.LaneKeeping.{setting_of, node_in};
ghost use Rattle.lane_keeping.specs.Asking.{IsJustSent, IsTakenBy};
ghost use Rattle.lane_states.specs.LaneStates.{journal_of, IsKept, IsKeptWithSome, StaysKept, IsComing, HasRoom, HasPlaces, Receives, NodesOn};
ghost use Rattle.lane_states.specs.Growing.{DeliversOne};
ghost use Rattle.lane_carriage.specs.Carrying.{DeliversSome};

use crate::event_log::push_within;
use crate::lane_state::LaneState;
use crate::parts::make_nodes;
use lane_changes::laws::nodes_tell_changes;
use lane_journals::LaneEvent;
use lane_keeping::laws::events_are_kept;
use lane_keeping::node_laws::nodes_hold;
use messages::{Late, Message, NotedBody, Reply};
use service_layer::Taken;
use value_lists::NoMemory;

impl LaneState {
    /// Notes that a message is sent with the next number.
    pub(crate) fn send_message(&mut self, message: &Message, body: NotedBody)
        requires keeps { IsKept self.old }
        requires legal { IsLegalStep (setting_of self.old.lane self.old.rules) (journal_of self.old)
            (sending (self.old.last + 1) message.now) }
        requires brings { Brings (λ t. entry_at t (journal_of self.old)) message.now.body }
        requires whole { IsWhole message.now.body }
        requires noted { body ≡ noted_body message.now.body }
        requires room { vec_len self.old.journal.events + 1 ≤ vec_capacity self.old.journal.events }
        ensures keeps { IsKept self.new }
        ensures grows { journal_of self.new ≡ sending (self.old.last + 1) message.now ∷ journal_of self.old }
        ensures sent { IsJustSent (journal_of self.new) (self.old.last + 1) message.now }
        ensures before { AreSentBefore (self.old.last + 1) self.old.late.late }
        ensures after { self.new ≡ record self.old { journal = self.new.journal; last = self.old.last + 1 } }
        ensures len { vec_len self.new.journal.events ≡ vec_len self.old.journal.events + 1 }
        ensures capacity { vec_capacity self.old.journal.events ≤ vec_capacity self.new.journal.events }
        ensures places { (many : ℕ) → HasPlaces many self.old → HasPlaces many self.new }
    {
        events_are_kept();
        self.last += 1;
        push_within(
            &mut self.journal.events,
            LaneEvent::Sent {
                number: self.last,
                version: message.version,
                sender: message.sender,
                receiver: message.receiver,
                body,
            },
        );
    }

    /// Delivers a message that is on its way to a node that runs, and notes the reply. The key of the
    /// document that the message names may be known, so that nothing is digested.
    pub(crate) fn deliver(&mut self, number: u64, key: Option<u64>, message: &Message) -> Reply
        requires keeps { IsKeptWithSome self.old }
        requires flight { IsInFlight (journal_of self.old) number message.now }
        requires receives { Receives self.old message.now.receiver }
        requires key { IfSome key (IsKeyOf message.now.body) }
        requires there { message.now.receiver < vec_len self.old.nodes }
        requires room { vec_len self.old.journal.events + 1 ≤ vec_capacity self.old.journal.events }
        requires places { HasPlaces 1 self.old }
        ensures keeps { StaysKept self.old self.new }
        ensures took { NodesOn self.old self.new }
        ensures taken { IsTakenBy self.old.nodes.items self.new.nodes.items message.now result }
        ensures grows { journal_of self.new ≡ delivered number result ∷ journal_of self.old }
        ensures after { self.new ≡ record self.old { journal = self.new.journal; nodes = self.new.nodes } }
        ensures nodes { vec_len self.new.nodes ≡ vec_len self.old.nodes }
        ensures len { vec_len self.new.journal.events ≡ vec_len self.old.journal.events + 1 }
        ensures capacity { vec_capacity self.old.journal.events ≤ vec_capacity self.new.journal.events }
        ensures places { (many : ℕ) → HasPlaces (many + 1) self.old → HasPlaces many self.new }
    {
        events_are_kept();
        nodes_hold();
        nodes_tell_changes();
        let Taken {
            reply,
            noted,
            changes,
        } = self.nodes[usize::from(message.receiver)].take_at(key, message);
        self.journal.push_telling(
            LaneEvent::Delivered {
                number,
                reply: noted,
            },
            changes,
        );
        reply
    }

    /// Makes room for a message to a node: for its own events and those of the late messages that may fall due
    /// with it, for what these change of the view, for its node, and for one more late message.
    pub(crate) fn room_for_message(&mut self, node: u8) -> Result<(), NoMemory>
        requires keeps { IsKept self.old }
        requires spare { HasRoom 0 self.old }
        ensures keeps { IsKept self.new }
        ensures spare { HasRoom 0 self.new }
        ensures same { self.new.journal.events.items ≡ self.old.journal.events.items }
        ensures late { self.new.late.late ≡ self.old.late.late }
        ensures nodes { (n : ℕ) → node_in self.new.nodes.items n ≡ node_in self.old.nodes.items n }
        ensures after { self.new
            ≡ record self.old { journal = self.new.journal; nodes = self.new.nodes; late = self.new.late } }
        ensures room { OnOk result (HasRoom (length self.new.late.late + 4) self.new) }
        ensures places { OnOk result (HasPlaces (length self.new.late.late + 2) self.new) }
        ensures there { OnOk result (node < vec_len self.new.nodes) }
        ensures place { OnOk result (self.new.late.room ≡ true) }
    {
        let events = self.late.len().saturating_add(4).saturating_add(self.spare);
        self.journal.events.reserve(events)?;
        self.journal
            .kept
            .reserve(self.late.len().saturating_add(3))?;
        self.late.room()?;
        make_nodes(self.alloc, &self.schema, &mut self.nodes, node)
    }

    /// Keeps the message that was sent last, to be delivered after so many further ones.
    pub(crate) fn keep_late(&mut self, later: u32, message: Message)
        requires keeps { IsKept self.old }
        requires flight { IsInFlight (journal_of self.old) self.old.last message }
        requires there { message.receiver < vec_len self.old.nodes }
        requires before { AreSentBefore self.old.last self.old.late.late }
        requires place { self.old.late.room ≡ true }
        ensures keeps { IsKept self.new }
        ensures late { self.new.late.late
            ≡ kept_by (fate.Late later) self.old.last message self.old.late.late }
        ensures more { length self.new.late.late ≡ length self.old.late.late + 1 }
        ensures after { self.new ≡ record self.old { late = self.new.late } }
    {
        let number = self.last;
        self.late.keep(number + u64::from(later), number, message);
    }

    /// Takes the first late message out, if it is due, and gives it out: it is delivered, or lost where its receiver is
    /// stopped.
    fn deliver_first(&mut self) -> bool
        requires keeps { IsKeptWithSome self.old }
        requires room { vec_len self.old.journal.events + length self.old.late.late ≤ vec_capacity self.old.journal.events }
        requires places { HasPlaces (length self.old.late.late) self.old }
        ensures keeps { StaysKept self.old self.new }
        ensures took { NodesOn self.old self.new }
        ensures some { result ≡ true → DeliversOne self.old.last self.old.late.late self.new.late.late
            (journal_of self.old) (journal_of self.new) }
        ensures none { result ≡ false → NoneIsDue self.old.last self.new.late.late }
        ensures same { result ≡ false → (self.new.late.late ≡ self.old.late.late)
            × (journal_of self.new ≡ journal_of self.old) }
        ensures after { self.new
            ≡ record self.old { journal = self.new.journal; nodes = self.new.nodes; late = self.new.late } }
        ensures nodes { vec_len self.new.nodes ≡ vec_len self.old.nodes }
        ensures len { vec_len self.new.journal.events + length self.new.late.late
            ≤ vec_len self.old.journal.events + length self.old.late.late }
        ensures capacity { vec_capacity self.old.journal.events ≤ vec_capacity self.new.journal.events }
        ensures places { HasPlaces (length self.new.late.late) self.new }
    {
        let Some(late) = self.late.take_due(self.last) else {
            return false;
        };
        self.give_out(&late);
        true
    }

    /// Delivers a late message that is due, or loses it where its receiver is stopped.
    fn give_out(&mut self, late: &Late)
        requires keeps { IsKeptWithSome self.old }
        requires coming { IsComing (journal_of self.old) self.old.nodes.items late.now }
        requires room { vec_len self.old.journal.events + 1 ≤ vec_capacity self.old.journal.events }
        requires places { HasPlaces 1 self.old }
        ensures keeps { StaysKept self.old self.new }
        ensures took { NodesOn self.old self.new }
        ensures given_out { IsGivenOut (is_cut_off late.now.number (journal_of self.old)) late.now.number
            (journal_of self.old) (journal_of self.new) }
        ensures after { self.new ≡ record self.old { journal = self.new.journal; nodes = self.new.nodes } }
        ensures nodes { vec_len self.new.nodes ≡ vec_len self.old.nodes }
        ensures len { vec_len self.new.journal.events ≤ vec_len self.old.journal.events + 1 }
        ensures capacity { vec_capacity self.old.journal.events ≤ vec_capacity self.new.journal.events }
        ensures places { (many : ℕ) → HasPlaces (many + 1) self.old → HasPlaces many self.new }
    {
        if !self.is_stopped(late.message.receiver) {
            self.deliver(late.number, None, &late.message);
        }
    }

    /// Gives out the late messages that are due, in their order.
    pub(crate) fn deliver_due(&mut self)
        requires keeps { IsKeptWithSome self.old }
        requires room { vec_len self.old.journal.events + length self.old.late.late ≤ vec_capacity self.old.journal.events }
        requires places { HasPlaces (length self.old.late.late) self.old }
        ensures keeps { StaysKept self.old self.new }
        ensures took { NodesOn self.old self.new }
        ensures due { DeliversSome self.old.last self.old.late.late self.new.late.late
            (journal_of self.old) (journal_of self.new) }
        ensures none_left { NoneIsDue self.old.last self.new.late.late }
        ensures after { self.new
            ≡ record self.old { journal = self.new.journal; nodes = self.new.nodes; late = self.new.late } }
        ensures nodes { vec_len self.new.nodes ≡ vec_len self.old.nodes }
        ensures len { vec_len self.new.journal.events + length self.new.late.late
            ≤ vec_len self.old.journal.events + length self.old.late.late }
        ensures capacity { vec_capacity self.old.journal.events ≤ vec_capacity self.new.journal.events }
    {
        while self.deliver_first() {}
    }
}
