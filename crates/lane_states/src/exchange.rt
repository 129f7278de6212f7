ghost use Rattle.std.specs.Prelude.{◌≡◌, ◌≤◌, ◌<◌, ◌+◌, ◌⊎◌, ◌∷◌, ℕ, true, Some, OnErr, IfOk, IfSome, length, vec_len, vec_capacity};
ghost use Rattle.carriers.specs.declared.fate.Fate.TheVariants as fate;
ghost use Rattle.messages.specs.Noting.{noted_body};
ghost use Rattle.messages.specs.Waiting.{AreSentBefore};
ghost use Rattle.node_model.specs.Takes.{IsKeyOf};
ghost use Rattle.lane_carriage.specs.Carriage.{IsDealt};
ghost use Rattle.lane_carriage.specs.Readers.{IsPrompt};
ghost use Rattle.lane_carriage.specs.Waits.{kept_by};
ghost use Rattle.lane_keeping.specs.Flights.{IsInFlight};
ghost use Rattle.lane_keeping.specs.Replaying.{sending};
ghost use Rattle.lane_keeping.specs.Asking.{IsJustSent};
ghost use Rattle.lane_keeping.specs.Laws.{IsNoAsk};
ghost use Rattle.lane_states.specs.LaneStates.{journal_of, IsKept, HasRoom, HasPlaces, Receives, IsCarriedBy, Stays, Went, NodesOn};
ghost use Rattle.lane_states.specs.Exchanging.{IsAskOf, MayBeSent, IsBroughtBack, Brought, Exchanged, IsKeptBack};

use crate::event_log::push_within;
use crate::lane_state::LaneState;
use carriers::{Carrier, Fate};
use lane_carriage::laws::late_messages_wait;
use lane_journals::LaneEvent;
use lane_keeping::laws::{asks_are_kept, events_are_kept};
use lane_keeping::node_laws::messages_fly;
use messages::{Message, NotedBody, Reply};
use value_lists::NoMemory;

impl LaneState {
    /// Delivers a message that was just sent, and notes that its reply is returned. The key of the document that the
    /// message names may be known.
    fn bring_back(&mut self, number: u64, key: Option<u64>, message: &Message) -> Reply
        requires keeps { IsKept self.old }
        requires just { IsJustSent (journal_of self.old) number message.now }
        requires receives { Receives self.old message.now.receiver }
        requires key { IfSome key (IsKeyOf message.now.body) }
        requires node { message.now.receiver < vec_len self.old.nodes }
        requires room { vec_len self.old.journal.events + 2 ≤ vec_capacity self.old.journal.events }
        requires places { HasPlaces 1 self.old }
        ensures keeps { IsKeptBack self.old message.now (Some result) self.new }
        ensures took { NodesOn self.old self.new }
        ensures dealt { IsDealt fate.Deliver number (journal_of self.old) (journal_of self.new) }
        ensures flight { IsInFlight (journal_of self.new) number message.now }
        ensures brought { IsBroughtBack (journal_of self.old) self.old.nodes.items number message.now result
            (journal_of self.new) }
        ensures after { self.new ≡ record self.old { journal = self.new.journal; nodes = self.new.nodes } }
        ensures nodes { vec_len self.new.nodes ≡ vec_len self.old.nodes }
        ensures len { vec_len self.new.journal.events ≡ vec_len self.old.journal.events + 2 }
        ensures capacity { vec_capacity self.old.journal.events ≤ vec_capacity self.new.journal.events }
        ensures places { (many : ℕ) → HasPlaces (many + 1) self.old → HasPlaces many self.new }
    {
        asks_are_kept();
        events_are_kept();
        messages_fly();
        let reply = self.deliver(number, key, message);
        push_within(&mut self.journal.events, LaneEvent::Returned { number });
        reply
    }

    /// Deals with a message that was just sent, by its fate; answers the reply that came back. There is room for its
    /// events, and a place for a late message.
    fn deal(&mut self, fate: Fate, key: Option<u64>, message: Message) -> Option<Reply>
        requires keeps { IsKept self.old }
        requires just { IsJustSent (journal_of self.old) self.old.last message }
        requires receives { IsPrompt fate → Receives self.old message.receiver }
        requires before { AreSentBefore self.old.last self.old.late.late }
        requires asker { IsNoAsk message.body ⊎ IsAskOf self.old message }
        requires key { IfSome key (IsKeyOf message.body) }
        requires node { message.receiver < vec_len self.old.nodes }
        requires room { vec_len self.old.journal.events + 3 ≤ vec_capacity self.old.journal.events }
        requires places { HasPlaces (length self.old.late.late + 2) self.old }
        requires place { self.old.late.room ≡ true }
        ensures keeps { IsKeptBack self.old message result self.new }
        ensures took { NodesOn self.old self.new }
        ensures dealt { IsDealt fate self.old.last (journal_of self.old) (journal_of self.new) }
        ensures late { self.new.late.late ≡ kept_by fate self.old.last message self.old.late.late }
        ensures brought { Brought (journal_of self.old) self.old.nodes.items self.old.last message result
            (journal_of self.new) }
        ensures after { self.new ≡ record self.old {
          journal = self.new.journal;
          nodes = self.new.nodes;
          late = self.new.late;
        } }
        ensures nodes { vec_len self.new.nodes ≡ vec_len self.old.nodes }
        ensures len { vec_len self.new.journal.events + length self.new.late.late
            ≤ vec_len self.old.journal.events + length self.old.late.late + 3 }
        ensures capacity { vec_capacity self.old.journal.events ≤ vec_capacity self.new.journal.events }
        ensures places { HasPlaces (length self.new.late.late) self.new }
    {
        messages_fly();
        let number = self.last;
        match fate {
            Fate::Deliver => Some(self.bring_back(number, key, &message)),
            Fate::LoseRequest => None,
            Fate::LoseReply => {
                self.deliver(number, key, &message);
                None
            }
            Fate::Twice => {
                let reply = self.bring_back(number, key, &message);
                self.deliver(number, key, &message);
                Some(reply)
            }
            Fate::Late(later) => {
                self.keep_late(later, message);
                None
            }
        }
    }

    /// Sends a message, for which there is room, and deals with it by its fate; the late messages that are due then
    /// are given out. Answers the reply that came back.
    fn send_within<C: Carrier>(
        &mut self,
        message: Message,
        key: Option<u64>,
        carrier: &mut C,
        body: NotedBody,
    ) -> Option<Reply>
        requires keeps { IsKept self.old }
        requires carried { IsCarriedBy self.old (C.given carrier.old) }
        requires may { MayBeSent self.old message }
        requires key { IfSome key (IsKeyOf message.body) }
        requires noted { body ≡ noted_body message.body }
        requires room { HasRoom (length self.old.late.late + 4) self.old }
        requires places { HasPlaces (length self.old.late.late + 2) self.old }
        requires node { message.receiver < vec_len self.old.nodes }
        requires place { self.old.late.room ≡ true }
        ensures keeps { IsKeptBack self.old message result self.new }
        ensures took { NodesOn self.old self.new }
        ensures spare { HasRoom 0 self.new }
        ensures carried { IsCarriedBy self.new (C.given carrier.new) }
        ensures planned { C.planned carrier.new ≡ C.planned carrier.old }
        ensures kind { C.takes_plans carrier.new ≡ C.takes_plans carrier.old }
        ensures went { Went self.old self.new message (C.given carrier.old) (C.given carrier.new) }
        ensures brought { Brought (sending (self.old.last + 1) message ∷ journal_of self.old) self.old.nodes.items
            (self.old.last + 1) message result (journal_of self.new) }
        ensures after { self.new ≡ record self.old {
          journal = self.new.journal;
          last = self.new.last;
          nodes = self.new.nodes;
          late = self.new.late;
        } }
    {
        late_messages_wait();
        self.send_message(&message, body);
        let fate = carrier.fate(self.last);
        let met = self.met(message.receiver, fate);
        let reply = self.deal(met, key, message);
        self.deliver_due();
        reply
    }

    /// Exchanges a message: it is sent with the next number and dealt with by the fate that the carrier gives, and the
    /// late messages that are due then are given out. The key of the document that it names may be known, so that
    /// nothing is digested. Answers the reply that came back; who sent an Ask is to be told it.
    pub fn exchange<C: Carrier>(
        &mut self,
        message: Message,
        key: Option<u64>,
        carrier: &mut C,
    ) -> Result<Option<Reply>, NoMemory>
        requires keeps { IsKept self.old }
        requires spare { HasRoom 0 self.old }
        requires carried { IsCarriedBy self.old (C.given carrier.old) }
        requires may { MayBeSent self.old message }
        requires key { IfSome key (IsKeyOf message.body) }
        ensures keeps { IfOk result (λ reply. IsKeptBack self.old message reply self.new) }
        ensures kept { OnErr result (IsKept self.new) }
        ensures took { NodesOn self.old self.new }
        ensures spare { HasRoom 0 self.new }
        ensures carried { IsCarriedBy self.new (C.given carrier.new) }
        ensures planned { C.planned carrier.new ≡ C.planned carrier.old }
        ensures kind { C.takes_plans carrier.new ≡ C.takes_plans carrier.old }
        ensures exchanged { IfOk result
            (Exchanged self.old self.new message (C.given carrier.old) (C.given carrier.new)) }
        ensures stays { OnErr result (Stays self.old self.new) }
        ensures given { OnErr result (C.given carrier.new ≡ C.given carrier.old) }
        ensures after { self.new ≡ record self.old {
          journal = self.new.journal;
          last = self.new.last;
          nodes = self.new.nodes;
          late = self.new.late;
        } }
    {
        events_are_kept();
        let body = message.body.noted(self.alloc)?;
        self.room_for_message(message.receiver)?;
        Ok(self.send_within(message, key, carrier, body))
    }
}
