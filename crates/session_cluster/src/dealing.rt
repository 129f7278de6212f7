//! What the lines of a session do, and what they are answered.

ghost use Rattle.std.specs.Prelude.{◌≡◌, ◌<◌, ◌≤◌, ◌^◌, ◌⊎◌, None, Some, length, map, IfOk, IfSome, OnOk, OnErr, slice_get};
ghost use Rattle.std.specs.Option.{option_copied};
ghost use Rattle.cluster_states.specs.Publishing.{publish_fault};
ghost use Rattle.global_ids.specs.Keys.{key_of, lane_of};
ghost use Rattle.lane_calls.specs.LaneValues.{LaneValue};
ghost use Rattle.op_machine.specs.Plans.{IsPlainGet};
ghost use Rattle.messages.specs.declared.outcome.Outcome.{Outcome};
ghost use Rattle.op_machine.specs.Plans.{IsOwn};
ghost use Rattle.reports.specs.declared.answer.Answer.TheVariants as answered;
ghost use Rattle.session_cluster.specs.Steps.{IsAllOrNothing, IsDealt, AreSettled};
ghost use Rattle.session_cluster.specs.Steps.{IsRoomier};
ghost use Rattle.session_cluster.specs.Asking.{IsOwnAsked};
ghost use Rattle.session_cluster.specs.Cells.{journals_of};
ghost use Rattle.session_cluster.specs.Keeping.{IsReady};
ghost use Rattle.session_cluster.specs.Lanes.{lane_of_id, journal_in};
ghost use Rattle.session_cluster.specs.Output.{body_answer, found_answer, outcome_answer, entry_of, operation_answer, fault_answer, state_answer, plan_answer, answer_in};
ghost use Rattle.session_cluster.specs.Steps.{with_room, after_stop, after_start, EachLane, IsTelling, IsRoomy, MayAnnounce, MayRun, IsOperatedIn, IsDoneInEach, IsStateTold, IsToldRoomy, IsPlannedIn, IsSpanNoted, IsAfter};

use crate::asked::Asked;
use crate::every_lane::{announce_all, make_room, start_all, stop_all};
use crate::session::Session;
use carriers::{Carrier, FateList};
use cluster_states::{ClusterState, PublishFault};
use documents::Entry;
use global_ids::{key_of, lane_of};
use lane_core::run_line;
use lane_lives::Setting;
use messages::{Operation, Outcome};
use node_sets::NodeSet;
use reports::Answer;
use stamps::Stamp;
use std::alloc::Global;
use value_lists::{NoMemory, TryCopy};

/// The lane of a key.
fn lane_at(key: u64, bits: u8) -> u8
    requires some { 1 ≤ bits }
    requires most { bits ≤ 6 }
    ensures value { result ≡ lane_of key bits }
    ensures within { result < 2 ^ bits }
{
    lane_of(key, bits)
}

impl<C: Carrier + Drop> Session<C> {
    /// Deals with a line's command, and gives the line's answer, which a blank line has not; the lanes that it changed
    /// show what changed in them. At want of memory the line may be dealt with.
    pub fn deal(
        &mut self,
        alloc: Global,
        setting: &Setting,
        line: u32,
        command: Asked,
    ) -> Result<Option<Answer>, NoMemory>
        requires ready { IsReady setting.now line self.old.cell }
        requires own { IsOwnAsked setting.now.bits command }
        requires settled { AreSettled self.old }
        ensures ok { IfOk result (λ answer. IsDealt setting.now line command self.old.cell self.new.cell
            × (answer ≡ answer_in setting.now self.old.cell.told line command self.new.cell)) }
        ensures settled { OnOk result (AreSettled self.new) }
        ensures err { OnErr result (IsAllOrNothing setting.now line command self.old.cell self.new.cell) }
    {
        match command {
            Asked::Blank => {
                self.dealt = line;
                Ok(None)
            }
            Asked::TooLong => {
                self.dealt = line;
                Ok(Some(Answer::TooLong))
            }
            Asked::Barrier => {
                self.dealt = line;
                Ok(Some(Answer::Barrier))
            }
            Asked::Bad { cause } => {
                self.dealt = line;
                Ok(Some(Answer::BadLine { cause }))
            }
            Asked::BadState { offset } => {
                self.dealt = line;
                Ok(Some(Answer::BadState { offset }))
            }
            Asked::Feed { operation, via } => {
                self.answer_operation(alloc, setting, line, &operation, via)
            }
            Asked::State { state, deaf } => self.tell(line, &state, deaf),
            Asked::Stop { node } => self.stop(line, node),
            Asked::Start { node } => self.start(line, node),
            Asked::Net { lane, fates } => self.plan(line, lane, &fates),
            Asked::Maintain => self.maintain(alloc, line),
            Asked::Search { query } => self.search(alloc, line, query),
            Asked::BadQuery { offset } => {
                self.dealt = line;
                Ok(Some(Answer::BadQuery { offset }))
            }
        }
    }

    // ---- operations

    /// Does what an operation asks for in the lane of its document, which then shows it, and gives the answer.
    fn answer_operation(
        &mut self,
        alloc: Global,
        setting: &Setting,
        line: u32,
        operation: &Operation,
        via: Option<u8>,
    ) -> Result<Option<Answer>, NoMemory>
        requires ready { IsReady setting.now line self.old.cell }
        requires own { IsOwn operation.now.id operation.now.kind }
        requires plain { IsPlainGet operation.now }
        requires number { IfSome via (λ d. d < 32) }
        requires settled { AreSettled self.old }
        ensures ok { IfOk result (λ answer.
            ((ending : Outcome) × IsOperatedIn (lane_of_id setting.now.bits operation.now.id) line operation.now via
            self.old.cell self.new.cell ending)
            × (answer ≡ operation_answer setting.now line operation.now.id (journals_of self.new.cell))) }
        ensures settled { OnOk result (AreSettled self.new) }
        ensures err { OnErr result ((self.new.cell ≡ self.old.cell)
            ⊎ ((ending : Outcome) × IsOperatedIn (lane_of_id setting.now.bits operation.now.id) line operation.now via
            self.old.cell self.new.cell ending)) }
    {
        let key = key_of(&operation.id);
        let at = lane_at(key, setting.bits);
        let outcome = self.operate(at, line, key, operation, via)?;
        self.answer(alloc, at, outcome)
    }

    /// Does what an operation asks for in a lane, which is that of its document, and shows what changed there.
    fn operate(
        &mut self,
        at: u8,
        line: u32,
        key: u64,
        operation: &Operation,
        via: Option<u8>,
    ) -> Result<Outcome, NoMemory>
        requires there { at < length self.old.cell.lanes }
        requires line { 1 ≤ line }
        requires key { key ≡ key_of operation.now.id }
        requires may { (v : LaneValue) → slice_get self.old.cell.lanes at ≡ Some v → MayRun line operation.now via v }
        requires own { IsOwn operation.now.id operation.now.kind }
        requires plain { IsPlainGet operation.now }
        requires number { IfSome via (λ d. d < 32) }
        requires settled { AreSettled self.old }
        ensures ok { IfOk result (λ ending. IsOperatedIn at line operation.now via self.old.cell self.new.cell ending) }
        ensures settled { OnOk result (AreSettled self.new) }
        ensures err { OnErr result ((self.new.cell ≡ self.old.cell)
            ⊎ ((ending : Outcome) × IsOperatedIn at line operation.now via self.old.cell self.new.cell ending)) }
    {
        let lane = &mut self.lanes[usize::from(at)];
        let outcome = run_line(lane, line, key, operation, via)?;
        self.dealt = line;
        lane.settle()?;
        Ok(outcome)
    }

    /// The answer that an outcome in a lane is.
    pub fn answer(
        &self,
        alloc: Global,
        at: u8,
        outcome: Outcome,
    ) -> Result<Option<Answer>, NoMemory>
        ensures { IfOk result (λ answer. answer
            ≡ outcome_answer outcome (entry_of outcome (journal_in at (journals_of self.now.cell)))) }
    {
        match outcome {
            Outcome::Acked { stamp } => Ok(Some(Answer::Acked { stamp })),
            Outcome::Missing { seen } => Ok(Some(Answer::Missing { seen })),
            Outcome::Nothing { .. } => Ok(Some(Answer::Nothing)),
            Outcome::ConditionFailed { seen } => Ok(Some(Answer::ConditionFailed { seen })),
            Outcome::BadUpdate { fault } => Ok(Some(Answer::BadUpdate { fault })),
            Outcome::Found { stamp } => found_answer(alloc, self.entry_at(at, stamp), stamp),
            Outcome::TooFew {
                answered,
                needed,
                absent,
            } => Ok(Some(Answer::TooFew {
                answered,
                needed,
                absent,
            })),
            Outcome::OwnedElsewhere { owner, version } => {
                Ok(Some(Answer::OwnedElsewhere { owner, version }))
            }
            Outcome::NoMemory => Ok(Some(Answer::NoMemory)),
        }
    }

    // ---- states and nodes

    /// Makes room in every lane. After want of memory nothing has changed but for rooms.
    fn make_room(&mut self) -> Result<(), NoMemory>
        ensures ok { OnOk result (self.new ≡ record self.old {
          cell = record self.old.cell { lanes = map with_room self.old.cell.lanes };
        }) }
        ensures err { OnErr result (IsRoomier self.old.cell self.new.cell) }
    {
        make_room(&mut self.lanes)
    }

    /// Publishes a state in every lane, unless something stands against it, and gives the answer; then the lanes show what
    /// changed in them.
    fn tell(
        &mut self,
        line: u32,
        state: &ClusterState,
        deaf: NodeSet,
    ) -> Result<Option<Answer>, NoMemory>
        requires telling { EachLane (IsTelling self.old.cell.told) self.old.cell.lanes }
        requires settled { AreSettled self.old }
        ensures ok { IfOk result (λ answer.
            IsStateTold line (publish_fault self.old.cell.told state.now) state.now deaf self.old.cell self.new.cell
            × (answer ≡ state_answer (publish_fault self.old.cell.told state.now) state.now)) }
        ensures settled { OnOk result (AreSettled self.new) }
        ensures err { OnErr result (IsRoomier self.old.cell self.new.cell
            ⊎ IsStateTold line (publish_fault self.old.cell.told state.now) state.now deaf self.old.cell self.new.cell) }
    {
        self.make_room()?;
        let answer = self.tell_roomy(line, state, deaf);
        self.settle()?;
        Ok(answer)
    }

    /// Publishes a state in every lane, unless something stands against it, and gives the answer.
    fn tell_roomy(&mut self, line: u32, state: &ClusterState, deaf: NodeSet) -> Option<Answer>
        requires { publish_fault self.old.cell.told state.now ≡ None
            → EachLane (MayAnnounce state.now) self.old.cell.lanes }
        ensures told { IsToldRoomy line (publish_fault self.old.cell.told state.now) state.now deaf
            self.old.cell self.new.cell }
        ensures shelves { self.new.shelves ≡ self.old.shelves }
        ensures value { result ≡ state_answer (publish_fault self.old.cell.told state.now) state.now }
    {
        match self.states.publish(state) {
            Ok(()) => {
                announce_all(&mut self.lanes, state, deaf);
                self.dealt = line;
                let version = state.version();
                Some(Answer::Published { version })
            }
            Err(fault) => {
                self.dealt = line;
                fault_answer(fault)
            }
        }
    }

    /// Stops a node in every lane; then the lanes show what changed in them.
    fn stop(&mut self, line: u32, node: u8) -> Result<Option<Answer>, NoMemory>
        requires telling { EachLane (IsTelling self.old.cell.told) self.old.cell.lanes }
        requires number { node < 32 }
        requires settled { AreSettled self.old }
        ensures ok { IfOk result (λ answer. IsDoneInEach line (after_stop node) self.old.cell self.new.cell
            × (answer ≡ Some (answered.Stopped node))) }
        ensures settled { OnOk result (AreSettled self.new) }
        ensures err { OnErr result (IsRoomier self.old.cell self.new.cell
            ⊎ IsDoneInEach line (after_stop node) self.old.cell self.new.cell) }
    {
        self.make_room()?;
        self.stop_roomy(line, node);
        self.settle()?;
        Ok(Some(Answer::Stopped { node }))
    }

    /// Stops a node in every lane.
    fn stop_roomy(&mut self, line: u32, node: u8)
        requires roomy { EachLane IsRoomy self.old.cell.lanes }
        requires number { node < 32 }
        ensures done { IsDoneInEach line (after_stop node) self.old.cell self.new.cell }
        ensures shelves { self.new.shelves ≡ self.old.shelves }
    {
        stop_all(&mut self.lanes, node);
        self.dealt = line;
    }

    /// Starts a node in every lane; then the lanes show what changed in them.
    fn start(&mut self, line: u32, node: u8) -> Result<Option<Answer>, NoMemory>
        requires telling { EachLane (IsTelling self.old.cell.told) self.old.cell.lanes }
        requires number { node < 32 }
        requires settled { AreSettled self.old }
        ensures ok { IfOk result (λ answer. IsDoneInEach line (after_start node) self.old.cell self.new.cell
            × (answer ≡ Some (answered.Started node))) }
        ensures settled { OnOk result (AreSettled self.new) }
        ensures err { OnErr result (IsRoomier self.old.cell self.new.cell
            ⊎ IsDoneInEach line (after_start node) self.old.cell self.new.cell) }
    {
        self.make_room()?;
        self.start_roomy(line, node);
        self.settle()?;
        Ok(Some(Answer::Started { node }))
    }

    /// Starts a node in every lane.
    fn start_roomy(&mut self, line: u32, node: u8)
        requires roomy { EachLane IsRoomy self.old.cell.lanes }
        requires number { node < 32 }
        ensures done { IsDoneInEach line (after_start node) self.old.cell self.new.cell }
        ensures shelves { self.new.shelves ≡ self.old.shelves }
    {
        start_all(&mut self.lanes, node);
        self.dealt = line;
    }

    // ---- messages

    /// Plans what becomes of the coming messages of a lane, if its carrier takes plans.
    fn plan(&mut self, line: u32, lane: u8, fates: &FateList) -> Result<Option<Answer>, NoMemory>
        requires there { lane < length self.old.cell.lanes }
        requires settled { AreSettled self.old }
        ensures ok { IfOk result (λ answer. IsPlannedIn line lane fates.now self.old.cell self.new.cell
            × (answer ≡ plan_answer (slice_get self.new.cell.lanes lane))) }
        ensures settled { OnOk result (AreSettled self.new) }
        ensures err { OnErr result (self.new ≡ self.old) }
    {
        let there = &mut self.lanes[usize::from(lane)];
        let taken = there.plan(fates.items())?;
        self.dealt = line;
        Ok(Some(Answer::Planned { taken }))
    }
}

/// What a state is answered that isn't published.
fn fault_answer(fault: PublishFault) -> Option<Answer>
    ensures { result ≡ fault_answer fault }
{
    match fault {
        PublishFault::NotNewer { have } => Some(Answer::NotNewer { have }),
        PublishFault::NoDistributor => Some(Answer::NoDistributor),
        PublishFault::TooFewUp { up, acks } => Some(Answer::TooFewUp { up, acks }),
        PublishFault::TooManyOut { out, acks } => Some(Answer::TooManyOut { out, acks }),
        PublishFault::TooManyStates => None,
    }
}

/// What is found in an entry, if it has a document.
fn found_answer(
    alloc: Global,
    entry: Option<&Entry>,
    stamp: Stamp,
) -> Result<Option<Answer>, NoMemory>
    ensures { IfOk result (λ answer. answer ≡ found_answer (option_copied entry.entry) stamp) }
{
    match entry {
        Some(entry) => body_answer(alloc, entry, stamp),
        None => Ok(None),
    }
}

/// The document of an entry, if it has one.
fn body_answer(alloc: Global, entry: &Entry, stamp: Stamp) -> Result<Option<Answer>, NoMemory>
    ensures { IfOk result (λ answer. answer ≡ body_answer entry.now.id entry.now.body stamp) }
{
    match &entry.body {
        Some(document) => Ok(Some(Answer::Found {
            id: entry.id.copy(alloc)?,
            document: document.copy(alloc)?,
            stamp,
        })),
        None => Ok(None),
    }
}
