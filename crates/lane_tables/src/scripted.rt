//! A lane of which calls are made as a script says, in any order; a call that may not be made is left out.

ghost use Rattle.std.specs.Prelude.{◌≡◌, ◌<◌, ◌≤◌, true, None, IsSome, IfSome, IfNone, OnOk};
ghost use Rattle.bucket_ids.specs.Buckets.{IsIn};
ghost use Rattle.global_ids.specs.Keys as keys;
ghost use Rattle.op_machine.specs.Plans.{IsOwn, IsPlainGet};
ghost use Rattle.lane_journals.specs.Buckets.{key_of};
ghost use Rattle.lane_journals.specs.Meanings.{history};
ghost use Rattle.lane_keeping.specs.Lines.{IsFresh};
ghost use Rattle.lane_keeping.specs.LaneKeeping.{setting_of};
ghost use Rattle.lane_keeping.specs.Tidings.{last_state};
ghost use Rattle.lane_journals.specs.Places.{told};
ghost use Rattle.cluster_states.specs.Publishing.{publish_fault};
ghost use Rattle.lane_calls.specs.LaneValues.{MayAdvance, MayClose, Closes};
ghost use Rattle.lane_calls.specs.Segments.{BeginsAs};
ghost use Rattle.lane_core.specs.Advancing.{IsAdvance};
ghost use Rattle.lane_lives.specs.Settings.{IsSetting};
ghost use Rattle.lane_lives.specs.Serving.{bucket_in};
ghost use Rattle.lane_tables.specs.Scripted.{IsStill};

use crate::journals::{has_no_event, is_published, states_in};
use crate::stages::{
    LineStage, fresh_lines, is_ending, is_fresh_line, is_going, note_advance, note_begin,
    note_close,
};
use bucket_db::Row;
use carriers::{Fate, PlanCarrier, PlanCarriers};
use cluster_states::{ClusterState, PublishFault};
use global_ids::{key_of, lane_of};
use lane_calls::answers::{Advance, Begin, Hear};
use lane_core::{Lane, open_lane};
use lane_lives::Setting;
use messages::{Operation, Outcome};
use node_rows::SharedSchema;
use service_layer::NodePart;
use session_settings::read_choice;
use shelves::NoShelf;
use std::alloc::Global;
use std::marker::Model;
use upkeep_spans::Upkeep;
use value_lists::TryCopy;

type Called = Lane<PlanCarrier, NoShelf>;

/// Lane 0 of a setting, and how far the lines are.
#[derive(Drop)]
pub struct ScriptedLane {
    setting: Setting,
    lane: Called,
    stages: Vec<LineStage>,
}

impl Model for ScriptedLane {
    ghost use Rattle.lane_calls.specs.LaneValues.{LaneValue, lane_code};
    ghost use Rattle.lane_tables.specs.Scripted.{IsScripted};

    ghost Value = { LaneValue };

    ghost coded = { lane_code };

    ghost view = { λ s. s.lane.lane };

    ghost invariant = { λ s. IsScripted s.setting s.lane.lane s.stages.items };
}

/// The setting of words that are parted by bars.
fn setting_in(alloc: Global, text: &str) -> Option<Setting>
    ensures { IfSome result IsSetting }
{
    let mut words = Vec::new(alloc);
    words
        .push(String::from_str(alloc, "lane_tables").ok()?)
        .ok()?;
    for word in text.split('|') {
        words.push(String::from_str(alloc, word).ok()?).ok()?;
    }
    let choice = read_choice(alloc, &words).ok()?;
    Some(choice.setting)
}

// ---- what the lane is asked, where it may be

/// Lane 0 of a setting, as the first state was heard.
fn lane_of_setting(alloc: Global, setting: &Setting) -> Option<Called>
    requires { IsSetting setting.now }
    ensures lane { IfSome result (λ made. made.lane.lane ≡ bucket_in setting.now 0) }
    ensures rules { IfSome result (λ made. made.lane.rules ≡ setting.now.rules) }
{
    let schema = SharedSchema::new(alloc, setting.schema.copy(alloc).ok()?).ok()?;
    let mut carriers = PlanCarriers;
    open_lane(alloc, 0, setting, schema, NoShelf, &mut carriers).ok()
}

/// Whether the line has no event there.
fn is_unused(lane: &Called, line: u32) -> bool
    ensures { result ≡ true → IsFresh (history lane.now.lane.journal) line }
{
    has_no_event(lane.journal(), line)
}

/// Whether a state was published there.
fn has_state(lane: &Called) -> bool
    ensures { result ≡ true → IsSome (last_state lane.now.lane.journal) }
{
    is_published(lane.journal())
}

/// Whether a state can be published there.
fn accepts(lane: &Called, acks: u8, state: &ClusterState) -> Option<Result<(), PublishFault>>
    requires { acks ≡ lane.now.lane.rules.acks }
    ensures { IfSome result (λ answer. OnOk answer
        (publish_fault (told (setting_of lane.now.lane.lane lane.now.lane.rules) lane.now.lane.journal) state.now ≡ None)) }
{
    let mut states = states_in(acks, lane.journal())?;
    Some(states.publish(state))
}

/// Publishes a state, of which nobody hears yet.
fn publish_in(lane: &mut Called, acks: u8, state: &ClusterState) -> Option<Result<(), PublishFault>>
    requires { acks ≡ lane.old.lane.rules.acks }
    ensures { IsStill lane.old.lane lane.new.lane }
{
    if lane.room().is_err() {
        return None;
    }
    let answer = accepts(lane, acks, state)?;
    if answer.is_ok() {
        lane.publish(state);
    }
    Some(answer)
}

/// A distributor hears the newest state.
#[tactic(auto, using(crate::proofs::Staged::still_heard))]
fn hear_in(lane: &mut Called, distributor: u8) -> Option<Hear>
    ensures { IsStill lane.old.lane lane.new.lane }
{
    if distributor >= 32 || !has_state(lane) {
        return None;
    }
    Some(lane.hear(distributor))
}

/// A node stops, or starts.
fn turn_in(lane: &mut Called, node: u8, on: bool) -> bool
    ensures { IsStill lane.old.lane lane.new.lane }
{
    if node >= 32 || lane.room().is_err() {
        return false;
    }
    if on {
        lane.start(node);
    } else {
        lane.stop(node);
    }
    true
}

/// The fates of the coming messages are planned.
fn plan_in(lane: &mut Called, fates: &[Fate]) -> bool
    ensures { IsStill lane.old.lane lane.new.lane }
{
    matches!(lane.plan(fates), Ok(true))
}

/// Upkeep makes a pass.
#[tactic(auto, using(crate::proofs::Staged::still_upkept))]
fn upkeep_in(lane: &mut Called) -> Option<Upkeep>
    ensures { IsStill lane.old.lane lane.new.lane }
{
    if !has_state(lane) {
        return None;
    }
    Some(lane.upkeep())
}

/// Lets a line begin where it says, or else at the owner.
fn start(
    lane: &mut Called,
    line: u8,
    key: u64,
    operation: &Operation,
    via: Option<u8>,
) -> Option<Begin>
    requires key { key ≡ keys.key_of operation.now.id }
    requires line { 1 ≤ line }
    requires in_lane { IsIn lane.old.lane.lane (key_of operation.now.id) }
    requires own { IsOwn operation.now.id operation.now.kind }
    requires plain { IsPlainGet operation.now }
    requires via { IfSome via (λ d. d < 32) }
    ensures begins { IfSome result
        (BeginsAs (record { number = line; operation = operation.now; via = via }) via lane.old.lane lane.new.lane) }
    ensures none { IfNone result (lane.new ≡ lane.old) }
{
    let number = u32::from(line);
    if !is_unused(lane, number) {
        return None;
    }
    match via {
        None => {
            if !has_state(lane) {
                return None;
            }
            Some(lane.begin_at_owner(number, key, operation))
        }
        Some(via) => {
            if lane.held(via).is_none() {
                return None;
            }
            Some(lane.begin(number, key, operation, via))
        }
    }
}

/// Lets the operation of a line go on.
fn go_on(lane: &mut Called, line: u8) -> Advance
    requires { MayAdvance line lane.old.lane.under_way }
    ensures { IsAdvance line lane.old.lane lane.new.lane result }
{
    lane.advance(u32::from(line))
}

/// Closes the operation of a line.
fn end(lane: &mut Called, line: u8) -> Outcome
    requires { MayClose line lane.old.lane.under_way }
    ensures { Closes line result lane.old.lane lane.new.lane }
{
    lane.close(u32::from(line))
}

impl ScriptedLane {
    /// Lane 0 of the setting of some words.
    pub fn new(alloc: Global, words: &str) -> Option<ScriptedLane> {
        let setting = setting_in(alloc, words)?;
        let lane = lane_of_setting(alloc, &setting)?;
        let stages = fresh_lines(alloc)?;
        Some(ScriptedLane {
            setting,
            lane,
            stages,
        })
    }

    /// The setting.
    pub fn setting(&self) -> &Setting
        ensures { IsSetting result.now }
    {
        &self.setting
    }

    // ---- states, nodes and upkeep

    /// Publishes a state, of which nobody hears yet.
    pub fn publish(&mut self, state: &ClusterState) -> Option<Result<(), PublishFault>> {
        publish_in(&mut self.lane, self.setting.rules.acks, state)
    }

    /// A distributor hears the newest state.
    pub fn hear(&mut self, distributor: u8) -> Option<Hear> {
        hear_in(&mut self.lane, distributor)
    }

    /// A node stops, or starts.
    pub fn turn(&mut self, node: u8, on: bool) -> bool {
        turn_in(&mut self.lane, node, on)
    }

    /// The fates of the coming messages are planned.
    pub fn plan(&mut self, fates: &[Fate]) -> bool {
        plan_in(&mut self.lane, fates)
    }

    /// Upkeep makes a pass.
    pub fn upkeep(&mut self) -> Option<Upkeep> {
        upkeep_in(&mut self.lane)
    }

    // ---- lines

    /// Begins the operation of a line that has none, where its document is of the lane.
    pub fn begin(&mut self, line: u8, operation: &Operation, via: Option<u8>) -> Option<Begin>
        requires own { IsOwn operation.now.id operation.now.kind }
        requires plain { IsPlainGet operation.now }
        requires via { IfSome via (λ d. d < 32) }
    {
        let key = key_of(&operation.id);
        if line == 0 || !is_fresh_line(&self.stages, line) {
            return None;
        }
        if lane_of(key, self.setting.bits) != 0 {
            return None;
        }
        let answer = start(&mut self.lane, line, key, operation, via)?;
        note_begin(&mut self.stages, line, &answer);
        Some(answer)
    }

    /// Lets the operation of a line go on, where it wants to.
    pub fn advance(&mut self, line: u8) -> Option<Advance> {
        if !is_going(&self.stages, line) {
            return None;
        }
        let answer = go_on(&mut self.lane, line);
        note_advance(&mut self.stages, line, answer);
        Some(answer)
    }

    /// Closes the line, where it is to be closed.
    pub fn close(&mut self, line: u8) -> Option<Outcome> {
        if !is_ending(&self.stages, line) {
            return None;
        }
        let outcome = end(&mut self.lane, line);
        note_close(&mut self.stages, line);
        Some(outcome)
    }

    // ---- what there is

    /// The part of a node that took a message.
    pub fn node(&self, number: u8) -> Option<&NodePart> {
        self.lane.node(number)
    }

    /// The rows of a distributor.
    pub fn rows(&self, distributor: u8) -> &[Row] {
        self.lane.rows(distributor)
    }
}
