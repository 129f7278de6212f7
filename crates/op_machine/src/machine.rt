ghost use Rattle.std.specs.Prelude.{◌≡◌, ◌<◌, None, IfOk, OnOk, OnErr};
ghost use Rattle.std.specs.Option.{option_copied};
ghost use Rattle.global_ids.specs.Keys.{key_of};
ghost use Rattle.op_machine.specs.Outcomes.{answers_of, reader, message_in, outcome_in};
ghost use Rattle.op_machine.specs.Plans.{IsPlan, plan_of};
ghost use Rattle.op_machine.specs.Standings.{next_at, IsBegun, IsAsked, MayAnswer, IsAnswered};
ghost use Rattle.op_machine.specs.Telling.{IsCounted, IsTold};

use crate::plan::Plan;
use crate::tally::{Heard, Tally, see};
use crate::verdict::Verdict;
use entry_maps::EntryMap;
use global_ids::key_of;
use messages::{Message, Origin, Outcome, Reply, SharedOperation};
use node_sets::NodeSet;
use stamps::Stamp;
use std::alloc::Global;
use std::marker::Model;
use value_lists::{NoMemory, TryCopy};

/// An operation, and what was told so far, as contracts see it.
#[derive(Drop)]
pub struct Standing {
    pub plan: Plan,
    /// Of its Reads.
    pub reads: Tally,
    /// Of its Stores.
    pub stores: Tally,
}

/// The machine of one operation. Each message that `send` gave is followed by one `take_reply` of its
/// receiver before the next `send`.
#[derive(Drop)]
pub struct OpMachine {
    /// The key of the operation's document, so that it is digested once.
    key: u64,
    plan: Plan,
    reads: Heard,
    /// What the answer to a Read showed that has the newest entry of the document.
    shown: Option<EntryMap>,
    stores: Heard,
    /// What the operation comes to by its Reads, once that is judged.
    verdict: Option<Verdict>,
}

impl Model for OpMachine {
    ghost use Rattle.op_machine.specs.contracts.machine.Standing as declared_standing;
    ghost use Rattle.op_machine.specs.declared.machine.Standing.{Standing};
    ghost use Rattle.op_machine.specs.Standings.{standing_of, IsMachine};

    ghost Value = { Standing };

    ghost coded = { declared_standing.the_row.coded };

    ghost view = { λ m. standing_of m.plan m.reads m.shown m.stores };

    ghost invariant = { λ m. IsMachine m.key (standing_of m.plan m.reads m.shown m.stores) m.verdict };
}

impl OpMachine {
    /// The machine of an operation of which nothing was sent. The stamp is none exactly
    /// for a get.
    pub fn new(
        origin: Origin,
        operation: SharedOperation,
        stamp: Option<Stamp>,
        recipients: NodeSet,
        active: Option<u8>,
        acks: u8,
    ) -> OpMachine
        requires { IsPlan (plan_of origin operation stamp recipients active acks) }
        ensures { IsBegun (plan_of origin operation stamp recipients active acks) result }
    {
        let key = key_of(&operation.operation().id);
        OpMachine::with_key(key, origin, operation, stamp, recipients, active, acks)
    }

    /// The same, with the key of the operation's document beside it, so that nothing is digested.
    pub fn with_key(
        key: u64,
        origin: Origin,
        operation: SharedOperation,
        stamp: Option<Stamp>,
        recipients: NodeSet,
        active: Option<u8>,
        acks: u8,
    ) -> OpMachine
        requires key { key ≡ key_of operation.id }
        requires plan { IsPlan (plan_of origin operation stamp recipients active acks) }
        ensures { IsBegun (plan_of origin operation stamp recipients active acks) result }
    {
        OpMachine {
            key,
            plan: Plan {
                origin,
                operation,
                stamp,
                recipients,
                active,
                acks,
            },
            reads: Heard::none(),
            shown: None,
            stores: Heard::none(),
            verdict: None,
        }
    }

    /// The outcome, once there is no message to be sent or answered.
    pub fn outcome(&mut self, alloc: Global) -> Result<Option<Outcome>, NoMemory>
        ensures outcome { IfOk result (λ outcome. outcome ≡ outcome_in (next_at self.old)) }
        ensures kept { self.new ≡ self.old }
    {
        match self.plan.reader(&self.reads) {
            Some(_) => Ok(None),
            None => self.outcome_over(alloc),
        }
    }

    /// The outcome, where all was told of the Reads.
    fn outcome_over(&mut self, alloc: Global) -> Result<Option<Outcome>, NoMemory>
        requires { reader self.old.plan (answers_of self.old.reads) ≡ None }
        ensures outcome { IfOk result (λ outcome. outcome ≡ outcome_in (next_at self.old)) }
        ensures kept { self.new ≡ self.old }
    {
        self.plan.judge(
            alloc,
            self.key,
            &self.reads,
            self.shown.as_ref(),
            &mut self.verdict,
        )?;
        let Some(verdict) = &self.verdict else {
            unreachable!();
        };
        self.plan.outcome(alloc, &self.stores, verdict)
    }

    /// Who took the Store.
    pub fn stored(&self) -> NodeSet
        ensures { result ≡ self.now.stores.answered }
    {
        self.stores.answered
    }

    /// The next message, or none where none is left. The reply takes none.
    pub fn send(&mut self, alloc: Global) -> Result<Option<Message>, NoMemory>
        ensures message { IfOk result (λ m. m ≡ message_in (next_at self.old)) }
        ensures asked { IfOk result (MayAnswer self.new) }
        ensures kept { self.new ≡ self.old }
    {
        let message = self.next_message(alloc)?;
        Ok(message)
    }

    /// The message of `send`.
    fn next_message(&mut self, alloc: Global) -> Result<Option<Message>, NoMemory>
        ensures message { IfOk result (λ m. m ≡ message_in (next_at self.old)) }
        ensures kept { self.new ≡ self.old }
    {
        match self.plan.reader(&self.reads) {
            Some(node) => Ok(Some(self.plan.read_message(alloc, self.key, node)?)),
            None => self.send_store(alloc),
        }
    }

    /// The next Store, once all was told of the Reads.
    fn send_store(&mut self, alloc: Global) -> Result<Option<Message>, NoMemory>
        requires { reader self.old.plan (answers_of self.old.reads) ≡ None }
        ensures message { IfOk result (λ m. m ≡ message_in (next_at self.old)) }
        ensures kept { self.new ≡ self.old }
    {
        self.plan.judge(
            alloc,
            self.key,
            &self.reads,
            self.shown.as_ref(),
            &mut self.verdict,
        )?;
        let Some(verdict) = &self.verdict else {
            unreachable!();
        };
        self.plan.store_message(alloc, &self.stores, verdict)
    }

    /// Takes a node's reply to the message that it was sent, or that none came.
    pub fn take_reply(&mut self, node: u8, reply: Option<Reply>)
        requires { IsAsked self.old node }
        ensures { IsAnswered node reply self.old self.new }
    {
        match self.plan.reader(&self.reads) {
            Some(_) => self.take_read(node, reply),
            None => self.take_store(node, reply.as_ref()),
        }
    }

    /// The same, of a reply that the caller keeps.
    pub fn answer(&mut self, alloc: Global, node: u8, reply: Option<&Reply>) -> Result<(), NoMemory>
        requires { IsAsked self.old node }
        ensures ok { OnOk result (IsAnswered node (option_copied reply.entry) self.old self.new) }
        ensures err { OnErr result (self.new ≡ self.old) }
    {
        let told = match reply {
            Some(reply) => Some(reply.copy(alloc)?),
            None => None,
        };
        self.take_reply(node, told);
        Ok(())
    }

    /// Takes a node's reply to its Read.
    fn take_read(&mut self, node: u8, reply: Option<Reply>)
        requires { node < 32 }
        ensures plan { self.new.plan ≡ self.old.plan }
        ensures told { IsTold self.old.plan.operation.id node reply self.old.reads self.new.reads }
        ensures stores { self.new.stores ≡ self.old.stores }
    {
        self.verdict = None;
        self.reads = self.reads.with(node, reply.as_ref());
        see(
            self.key,
            &self.plan.operation.operation().id,
            &mut self.shown,
            reply,
        );
    }

    /// Takes a node's reply to its Store.
    fn take_store(&mut self, node: u8, reply: Option<&Reply>)
        requires { node < 32 }
        ensures plan { self.new.plan ≡ self.old.plan }
        ensures reads { self.new.reads ≡ self.old.reads }
        ensures counted { IsCounted node (option_copied reply.entry) self.old.stores self.new.stores }
    {
        self.stores = self.stores.with(node, reply);
    }
}
