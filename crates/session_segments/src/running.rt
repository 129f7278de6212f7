//! A segment in the lanes of a session.

ghost use Rattle.std.specs.Prelude.{◌≡◌, ◌<◌, ◌≤◌, ◌^◌, ℕ, false, [], map, length, vec_capacity, IfOk, OnOk, OnErr};
ghost use Rattle.lane_calls.specs.LaneValues.{IsLaneValue};
ghost use Rattle.lane_locks.specs.Lanes.{EachAt};
ghost use Rattle.lane_locks.specs.Runs.{MayRun};
ghost use Rattle.session_cluster.specs.Steps.{EachLane, AreOpened};
ghost use Rattle.session_segments.specs.Lanes.{MayAllRun, HaveAllRun};
ghost use Rattle.session_segments.specs.Sorted.{any_feeds, lines_at, HaveRun};

use carriers::Carrier;
use lane_core::Lane;
use lane_locks::{FedLane, LineList, ReadyLane, Stage, run_segment};
use line_feeders::{Feeder, Gate};
use session_cluster::{Asked, Session};
use shelves::PlainShelf;
use std::alloc::Global;
use std::sync::Wait;
use std::thread::Threads;
use value_lists::{Listed, NoMemory};

/// How far the lines of a lane are.
pub type StageList = Listed<Stage>;

/// Whether any of the lines asks for an operation.
pub(crate) fn any_feeds(commands: &[Asked]) -> bool
    ensures { result ≡ any_feeds commands.now }
{
    commands
        .iter()
        .any(|command| matches!(command, Asked::Feed { .. }))
}

/// Each lane with its lines; there is room for all.
fn ready_lanes<C: Carrier + Drop>(
    lanes: Vec<Lane<C, PlainShelf>>,
    lists: Vec<LineList>,
    ready: &mut Vec<ReadyLane<C, PlainShelf>>,
)
    requires many { length lists.items ≡ length lanes.items }
    requires none { ready.old.items ≡ [] }
    requires room { length lanes.items ≤ vec_capacity ready.old }
    ensures lanes { map (λ r. r.lane) ready.new.items ≡ lanes.items }
    ensures lists { map (λ r. r.list) ready.new.items ≡ lists.items }
{
    let mut lists = lists;
    lists.reverse();
    for lane in lanes {
        let Some(list) = lists.pop() else {
            unreachable!();
        };
        ready.push_reserved(ReadyLane { lane, list });
    }
}

/// Takes the lanes that were fed apart, and how far their lines are; there is room for all.
fn take_apart<C: Carrier + Drop>(
    fed: Vec<FedLane<C, PlainShelf>>,
    lanes: &mut Vec<Lane<C, PlainShelf>>,
    stages: &mut Vec<StageList>,
)
    requires none { (lanes.old.items ≡ []) × (stages.old.items ≡ []) }
    requires room { (length fed.items ≤ vec_capacity lanes.old) × (length fed.items ≤ vec_capacity stages.old) }
    ensures lanes { lanes.new.items ≡ map (λ f. f.lane) fed.items }
    ensures stages { stages.new.items ≡ map (λ f. f.stages.items) fed.items }
{
    for one in fed {
        lanes.push_reserved(one.lane);
        stages.push_reserved(StageList::of(one.stages));
    }
}

/// Takes the lanes that weren't fed from their lines; there is room for all.
fn take_back<C: Carrier + Drop>(
    ready: Vec<ReadyLane<C, PlainShelf>>,
    lanes: &mut Vec<Lane<C, PlainShelf>>,
)
    requires none { lanes.old.items ≡ [] }
    requires room { length ready.items ≤ vec_capacity lanes.old }
    ensures { lanes.new.items ≡ map (λ r. r.lane) ready.items }
{
    for one in ready {
        lanes.push_reserved(one.lane);
    }
}

/// Runs a segment in lanes that are ready, and takes them apart then; at want of memory they are as they were.
fn run_ready<C: Carrier + Drop + Send, G: Gate + Sync, R: Threads + Wait + Sync>(
    rt: &R,
    alloc: Global,
    gate: &G,
    ready: Vec<ReadyLane<C, PlainShelf>>,
    feeders: &mut [Feeder],
    lanes: &mut Vec<Lane<C, PlainShelf>>,
    stages: &mut Vec<StageList>,
) -> Result<(), NoMemory>
    requires few { length ready.items ≤ 64 }
    requires feeders { 0 < length feeders.old }
    requires may { EachAt (λ _ r. MayRun (length feeders.old) r.lane.lane r.list) ready.items }
    requires none { (lanes.old.items ≡ []) × (stages.old.items ≡ []) }
    requires room { (length ready.items ≤ vec_capacity lanes.old) × (length ready.items ≤ vec_capacity stages.old) }
    ensures ran { OnOk result (HaveAllRun (length feeders.old) (map (λ r. r.lane) ready.items)
        (map (λ r. r.list) ready.items) lanes.new.items stages.new.items) }
    ensures same { OnErr result (lanes.new.items ≡ map (λ r. r.lane) ready.items) }
{
    match run_segment(rt, alloc, gate, ready, feeders) {
        Ok(fed) => {
            take_apart(fed, lanes, stages);
            Ok(())
        }
        Err(ready) => {
            take_back(ready, lanes);
            Err(NoMemory)
        }
    }
}

/// Runs a segment in the lanes of a session, and gives how far the lines of each lane are.
fn feed<C: Carrier + Drop + Send, G: Gate + Sync, R: Threads + Wait + Sync>(
    rt: &R,
    alloc: Global,
    gate: &G,
    lists: Vec<LineList>,
    feeders: &mut [Feeder],
    session: &mut Session<C>,
) -> Result<Vec<StageList>, NoMemory>
    requires few { length session.old.cell.lanes ≤ 64 }
    requires all { length session.old.cell.lanes ≡ 2 ^ session.old.cell.bits }
    requires many { length lists.items ≡ length session.old.cell.lanes }
    requires feeders { 0 < length feeders.old }
    requires may { MayAllRun (length feeders.old) session.old.cell.lanes lists.items }
    requires opened { AreOpened session.old.cell.lanes session.old.shelves }
    ensures ran { IfOk result (λ stages. HaveRun (length feeders.old) lists.items session.old.cell session.new.cell
        stages.items) }
    ensures opened { OnOk result (AreOpened session.new.cell.lanes session.new.shelves) }
    ensures same { OnErr result (session.new.cell ≡ session.old.cell) }
{
    let mut ready = Vec::with_capacity(alloc, lists.len())?;
    let mut lanes = Vec::with_capacity(alloc, lists.len())?;
    let mut stages = Vec::with_capacity(alloc, lists.len())?;
    ready_lanes(session.take_lanes(alloc), lists, &mut ready);
    let ran = run_ready(rt, alloc, gate, ready, feeders, &mut lanes, &mut stages);
    session.put_lanes(lanes);
    ran?;
    Ok(stages)
}

/// The same, if any line asks for an operation; else nothing is run.
pub(crate) fn feed_any<C: Carrier + Drop + Send, G: Gate + Sync, R: Threads + Wait + Sync>(
    rt: &R,
    alloc: Global,
    gate: &G,
    any: bool,
    lists: Vec<LineList>,
    feeders: &mut [Feeder],
    session: &mut Session<C>,
) -> Result<Vec<StageList>, NoMemory>
    requires few { length session.old.cell.lanes ≤ 64 }
    requires all { length session.old.cell.lanes ≡ 2 ^ session.old.cell.bits }
    requires many { length lists.items ≡ length session.old.cell.lanes }
    requires feeders { 0 < length feeders.old }
    requires may { MayAllRun (length feeders.old) session.old.cell.lanes lists.items }
    requires holds { EachLane IsLaneValue session.old.cell.lanes }
    requires none { any ≡ false → (lane : ℕ) → lines_at lists.items lane ≡ [] }
    requires opened { AreOpened session.old.cell.lanes session.old.shelves }
    ensures ran { IfOk result (λ stages. HaveRun (length feeders.old) lists.items session.old.cell session.new.cell
        stages.items) }
    ensures opened { OnOk result (AreOpened session.new.cell.lanes session.new.shelves) }
    ensures same { OnErr result (session.new.cell ≡ session.old.cell) }
{
    if !any {
        return Ok(Vec::new(alloc));
    }
    feed(rt, alloc, gate, lists, feeders, session)
}
