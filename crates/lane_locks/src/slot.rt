//! What lies behind a lane's lock.

ghost use Rattle.std.specs.Prelude.{◌≡◌, ◌≢◌, ◌<◌, ◌^◌, List, [], OnOk, IsSome, MatchBool, slice_get, slice_set, length};
ghost use Rattle.std.specs.List.{list_any};
ghost use Rattle.lane_journals.specs.Meanings.{history};
ghost use Rattle.lane_keeping.specs.Lines.{IsFresh};
ghost use Rattle.lane_keeping.specs.Tidings.{last_state};
ghost use Rattle.view_changes.specs.declared.change.LaneChange.{LaneChange};
ghost use Rattle.shelves.specs.Shelves.{ShowsSame};
ghost use Rattle.lane_states.specs.Told.{ShowsOn};
ghost use Rattle.lane_core.specs.Showing.{IsSettled};
ghost use Rattle.lane_calls.specs.LaneValues.{IsLaneValue, MayAdvance, MayClose, Closes};
ghost use Rattle.lane_core.specs.Advancing.{IsAdvance};
ghost use Rattle.lane_calls.specs.Segments.{BeginsAs};
ghost use Rattle.lane_locks.specs.declared.lines.Stage.TheVariants as stage;
ghost use Rattle.lane_locks.specs.Lines.{line_of, IsWhole, IsOfLane, AreOfLane, AreFresh};
ghost use Rattle.lane_locks.specs.Served.{is_waiting, is_going, is_ending, is_answered, is_under_way, came, may_begin};
ghost use Rattle.lane_locks.specs.Slots.{IsKept};
ghost use Rattle.lane_locks.specs.Turns.{turn_of_begin, stages_begun, BeginsAt, turn_of_advance, stages_gone, AdvancesAt, ClosesAt};

use crate::lines::{Line, LineList, Stage};
use crate::names::Segment;
use carriers::Carrier;
use lane_calls::answers::{Advance, Begin};
use lane_core::Lane;
use messages::Outcome;
use shelves::Shelf;
use std::marker::Model;
use std::sync::ledger::Share;
use value_lists::NoMemory;

/// What became of a line at a call.
#[derive(Clone, Copy, PartialEq, Eq)]
pub enum Turn {
    /// It goes on with the next call.
    On,
    /// The operation of this line stands against it; nothing has changed.
    Waits { by: u32 },
    /// It is to be closed.
    Ends,
    /// It has its outcome.
    Over,
    /// The call isn't for it; nothing has changed.
    Left,
    /// It would begin, and memory is wanted; nothing has changed.
    NoMemory,
}

/// What lies behind a lane's lock: its number, the lane, its lines of the segment, how far each is, and its part of the
/// ledger.
#[derive(Drop)]
pub struct Slot<S: Segment<H::Name>, C: Carrier + Drop, H: Shelf + Drop> {
    number: u8,
    lane: Lane<C, H>,
    lines: Vec<Line>,
    stages: Vec<Stage>,
    mark: Share<S>,
}

impl<S: Segment<H::Name>, C: Carrier + Drop, H: Shelf + Drop> Model for Slot<S, C, H> {
    ghost use Rattle.std.specs.Prelude.{◌≡◌, ◌<◌, ◌^◌};
    ghost use Rattle.lane_locks.specs.Slots.{Behind, behind_code, IsKept};

    ghost Value = { Behind H };

    ghost coded = { behind_code H.code };

    ghost view = { λ s. record { number = s.number; lane = s.lane } };

    ghost invariant = { λ s. (s.number < 64) × (s.mark.parts ≡ 1) × (s.mark.amount ≡ 2 ^ s.number)
        × (H.name s.lane.shelf ≡ S.shelf s.number)
        × IsKept S.feeders (S.lines s.number) (S.began s.number) s.lane.lane s.lines.items s.stages.items };
}

// ---- what is tested

/// Whether the line at a place has its outcome.
fn is_answered(stages: &[Stage], place: usize) -> bool
    ensures { result ≡ is_answered (slice_get stages.now place) }
{
    match stages.get(place) {
        Some(Stage::Answered { .. }) => true,
        Some(Stage::Waiting | Stage::Going | Stage::Ending) | None => false,
    }
}

/// Whether it has no event yet.
fn is_waiting(stages: &[Stage], place: usize) -> bool
    ensures { result ≡ is_waiting (slice_get stages.now place) }
{
    match stages.get(place) {
        Some(Stage::Waiting) => true,
        Some(Stage::Answered { .. } | Stage::Going | Stage::Ending) | None => false,
    }
}

/// Whether it wants to go on.
fn is_going(stages: &[Stage], place: usize) -> bool
    ensures { result ≡ is_going (slice_get stages.now place) }
{
    match stages.get(place) {
        Some(Stage::Going) => true,
        Some(Stage::Answered { .. } | Stage::Waiting | Stage::Ending) | None => false,
    }
}

/// Whether it is to be closed.
fn is_ending(stages: &[Stage], place: usize) -> bool
    ensures { result ≡ is_ending (slice_get stages.now place) }
{
    match stages.get(place) {
        Some(Stage::Ending) => true,
        Some(Stage::Answered { .. } | Stage::Waiting | Stage::Going) | None => false,
    }
}

/// Whether its operation is under way.
fn is_under_way(stage: &Stage) -> bool
    ensures { result ≡ is_under_way stage.now }
{
    match stage {
        Stage::Going | Stage::Ending => true,
        Stage::Waiting | Stage::Answered { .. } => false,
    }
}

/// Whether that of any line is.
fn any_under_way(stages: &[Stage]) -> bool
    ensures { result ≡ list_any is_under_way stages.now }
{
    stages.iter().any(|stage| is_under_way(stage))
}

/// Whether the line before, if there is one, has its outcome.
fn has_come(stages: &[Stage], before: Option<usize>) -> bool
    ensures { result ≡ came stages.now before }
{
    match before {
        Some(before) => is_answered(stages, before),
        None => true,
    }
}

/// Whether the line at a place waits, and it is its turn.
fn may_begin(lines: &[Line], stages: &[Stage], place: usize) -> bool
    ensures { result ≡ may_begin (slice_get lines.now place) (slice_get stages.now place) stages.now }
{
    match lines.get(place) {
        Some(line) => is_waiting(stages, place) && has_come(stages, line.before),
        None => false,
    }
}

// ---- what a lane is asked

/// Lets a line begin where it says, or else at the owner.
fn start<C: Carrier + Drop, H: Shelf + Drop>(lane: &mut Lane<C, H>, line: &Line) -> Begin
    requires whole { IsWhole line.now }
    requires of_lane { IsOfLane lane.old.lane (line_of line.now) }
    requires fresh { IsFresh (history lane.old.lane.journal) line.now.number }
    requires published { IsSome (last_state lane.old.lane.journal) }
    ensures begins { BeginsAs (line_of line.now) line.now.via lane.old.lane lane.new.lane result }
    ensures holds { IsLaneValue lane.new.lane }
    ensures shelf { lane.new.shelf ≡ lane.old.shelf }
{
    let answer = match line.via {
        Some(via) => lane.begin(line.number, line.key, line.operation.operation(), via),
        None => lane.begin_at_owner(line.number, line.key, line.operation.operation()),
    };
    // that its journal is legal is known once it is read
    let _journal = lane.journal();
    answer
}

/// Lets the operation of a line go on.
fn go_on<C: Carrier + Drop, H: Shelf + Drop>(lane: &mut Lane<C, H>, line: u32) -> Advance
    requires { MayAdvance line lane.old.lane.under_way }
    ensures advances { IsAdvance line lane.old.lane lane.new.lane result }
    ensures holds { IsLaneValue lane.new.lane }
    ensures shelf { lane.new.shelf ≡ lane.old.shelf }
{
    let answer = lane.advance(line);
    let _journal = lane.journal();
    answer
}

/// Closes the operation of a line.
fn end<C: Carrier + Drop, H: Shelf + Drop>(lane: &mut Lane<C, H>, line: u32) -> Outcome
    requires { MayClose line lane.old.lane.under_way }
    ensures closes { Closes line result lane.old.lane lane.new.lane }
    ensures holds { IsLaneValue lane.new.lane }
    ensures shelf { lane.new.shelf ≡ lane.old.shelf }
{
    let outcome = lane.close(line);
    let _journal = lane.journal();
    outcome
}

// ---- what is noted

/// How far the line at a place is by the answer to its beginning.
fn note_begin(stages: &mut Vec<Stage>, place: usize, answer: Begin) -> Turn
    requires { place < length stages.old.items }
    ensures stages { stages.new.items ≡ stages_begun place answer stages.old.items }
    ensures turn { result ≡ turn_of_begin answer }
{
    match answer {
        Begin::Begun => {
            stages[place] = Stage::Going;
            Turn::On
        }
        Begin::Refused { outcome } => {
            stages[place] = Stage::Answered { outcome };
            Turn::Over
        }
        Begin::Held { by } => Turn::Waits { by },
        Begin::NoMemory => Turn::NoMemory,
    }
}

/// How far it is by the answer to a call that let it go on.
fn note_advance(stages: &mut Vec<Stage>, place: usize, answer: Advance) -> Turn
    requires { place < length stages.old.items }
    ensures stages { stages.new.items ≡ stages_gone place answer stages.old.items }
    ensures turn { result ≡ turn_of_advance answer }
{
    match answer {
        Advance::More => Turn::On,
        Advance::Waits { by } => Turn::Waits { by },
        Advance::Done | Advance::NoMemory => {
            stages[place] = Stage::Ending;
            Turn::Ends
        }
    }
}

/// It has this outcome.
fn note_end(stages: &mut Vec<Stage>, place: usize, outcome: Outcome)
    requires { place < length stages.old.items }
    ensures { stages.new.items ≡ slice_set stages.old.items place (stage.Answered outcome) }
{
    stages[place] = Stage::Answered { outcome };
}

impl<S: Segment<H::Name>, C: Carrier + Drop, H: Shelf + Drop> Slot<S, C, H> {
    /// The lane before any line of the segment began.
    pub fn new(number: u8, lane: Lane<C, H>, list: LineList, mark: Share<S>) -> Slot<S, C, H>
        requires number { number < 64 }
        requires mark { (mark.parts ≡ 1) × (mark.amount ≡ 2 ^ number) }
        requires began { lane.lane ≡ S.began number }
        requires idle { lane.lane.under_way ≡ [] }
        requires shelf { H.name lane.shelf ≡ S.shelf number }
        requires lines { (list.feeders ≡ S.feeders) × (list.lines ≡ S.lines number) }
        requires of_lane { AreOfLane lane.lane list.lines }
        requires fresh { AreFresh lane.lane list.lines }
        ensures { (result.number ≡ number) × (result.lane ≡ lane) }
    {
        // that its journal is legal is known once it is read
        let _journal = lane.journal();
        let (lines, stages) = list.into_parts();
        Slot {
            number,
            lane,
            lines,
            stages,
            mark,
        }
    }

    /// The lane's number.
    pub fn number(&self) -> u8
        ensures value { result ≡ self.now.number }
        ensures shelf { H.name self.now.lane.shelf ≡ S.shelf result }
    {
        self.number
    }

    /// Begins the line at a place, once each earlier line of its feeder has its outcome; exactly where it isn't its turn,
    /// or it began already, it is left.
    pub fn begin(&mut self, place: usize) -> Turn
        ensures begins { BeginsAt S.feeders (S.lines self.old.number) place self.old.lane.lane self.new.lane.lane result }
        ensures number { self.new.number ≡ self.old.number }
        ensures shelf { self.new.lane.shelf ≡ self.old.lane.shelf }
    {
        if !may_begin(&self.lines, &self.stages, place) {
            return Turn::Left;
        }
        let answer = start(&mut self.lane, &self.lines[place]);
        note_begin(&mut self.stages, place, answer)
    }

    /// Lets the operation of the line at a place go on by one call; exactly where it doesn't want to, it is left.
    pub fn advance(&mut self, place: usize) -> Turn
        ensures advances { AdvancesAt (S.lines self.old.number) place self.old.lane.lane self.new.lane.lane result }
        ensures number { self.new.number ≡ self.old.number }
        ensures shelf { self.new.lane.shelf ≡ self.old.lane.shelf }
    {
        if !is_going(&self.stages, place) {
            return Turn::Left;
        }
        let answer = go_on(&mut self.lane, self.lines[place].number);
        note_advance(&mut self.stages, place, answer)
    }

    /// Closes the line at a place; exactly where its operation isn't to be closed, it is left.
    pub fn close(&mut self, place: usize) -> Turn
        ensures closes { ClosesAt (S.lines self.old.number) place self.old.lane.lane self.new.lane.lane result }
        ensures number { self.new.number ≡ self.old.number }
        ensures shelf { self.new.lane.shelf ≡ self.old.lane.shelf }
    {
        if !is_ending(&self.stages, place) {
            return Turn::Left;
        }
        let outcome = end(&mut self.lane, self.lines[place].number);
        note_end(&mut self.stages, place, outcome);
        Turn::Over
    }

    /// Appends to the shelf all changes that the lane's events gave so far, and publishes them, as the lane does.
    pub fn settle(&mut self) -> Result<(), NoMemory>
        ensures settled { OnOk result (IsSettled H.shows H.pending self.new.lane) }
        ensures more { ShowsOn (H.shows self.old.lane.shelf) (H.shows self.new.lane.shelf) }
        ensures number { self.new.number ≡ self.old.number }
        ensures lane { self.new.lane.lane ≡ self.old.lane.lane }
    {
        self.lane.settle()
    }

    /// A note of the lane's shelf, which tells of the changes that are shown. It takes no memory.
    pub fn tell(&mut self) -> H::Note
        ensures note { H.notes (S.shelf self.old.number) result }
        ensures told { (cs : List LaneChange) → H.shows self.old.lane.shelf cs → H.tells (S.shelf self.old.number) result cs }
        ensures shown { ShowsSame (H.shows self.old.lane.shelf) (H.shows self.new.lane.shelf) }
        ensures number { self.new.number ≡ self.old.number }
        ensures lane { self.new.lane.lane ≡ self.old.lane.lane }
    {
        self.lane.tell()
    }

    /// How many lines of the segment are its.
    pub fn count(&self) -> usize
        ensures { result ≡ length (S.lines self.now.number) }
    {
        self.lines.len()
    }

    /// Whether no operation is under way there.
    pub fn is_idle(&self) -> bool
        ensures { MatchBool result (self.now.lane.lane.under_way ≡ []) (self.now.lane.lane.under_way ≢ []) }
    {
        !any_under_way(&self.stages)
    }

    /// What the lock kept: the lane's number, the lane, its lines, how far each is, and the part of the ledger.
    pub(crate) fn into_parts(self) -> (u8, Lane<C, H>, Vec<Line>, Vec<Stage>, Share<S>)
        ensures own { (result.0 ≡ self.number) × (result.1 ≡ self.lane) }
        ensures mark { (result.0 < 64) × (result.4.parts ≡ 1) × (result.4.amount ≡ 2 ^ result.0) }
        ensures shelf { H.name result.1.shelf ≡ S.shelf result.0 }
        ensures kept { IsKept S.feeders (S.lines result.0) (S.began result.0) result.1.lane result.2.items result.3.items }
    {
        let Slot {
            number,
            lane,
            lines,
            stages,
            mark,
        } = self;
        (number, lane, lines, stages, mark)
    }
}
