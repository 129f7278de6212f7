//! A segment in new lanes.

ghost use Rattle.std.specs.Prelude.{◌≡◌, ◌^◌, ◌<◌, length, IfOk};
ghost use Rattle.lane_lives.specs.Settings.{IsSetting};
ghost use Rattle.lane_locks.specs.Lanes.{EachAt};
ghost use Rattle.lane_locks.specs.Runs.{MayRun};

use crate::hold::Hold;
use crate::lines::{feeders_of, list_of};
use carriers::{PerfectCarrier, PerfectCarriers};
use lane_core::open_lane;
use lane_lives::Setting;
use lane_locks::{FedLane, ReadyLane, run_segment};
use lane_views::LaneView;
use node_rows::SharedSchema;
use shelves::PlainShelf;
use std::alloc::Global;
use std::sync::Wait;
use std::thread::Threads;
use value_lists::{NoMemory, TryCopy};

/// A new lane, with those of the lines that are its.
fn ready_lane(
    alloc: Global,
    setting: &Setting,
    shared: &SharedSchema,
    lane: u8,
    feeders: u8,
    lines: &str,
) -> Result<ReadyLane<PerfectCarrier, PlainShelf>, NoMemory>
    requires setting { IsSetting setting.now }
    requires types { shared.now ≡ setting.now.schema }
    requires lane { lane < 2 ^ setting.now.bits }
    requires some { 0 < feeders }
    ensures { IfOk result (λ made. MayRun feeders made.lane.lane made.list) }
{
    let list = list_of(alloc, setting, lane, feeders, lines)?;
    let shelf = PlainShelf::new(alloc, LaneView::new(alloc, shared)?);
    let schema = shared.copy(alloc)?;
    let mut carriers = PerfectCarriers;
    let lane = open_lane(alloc, lane, setting, schema, shelf, &mut carriers)?;
    Ok(ReadyLane { lane, list })
}

/// Both lanes, with the lines.
fn ready_lanes(
    alloc: Global,
    setting: &Setting,
    feeders: u8,
    lines: &str,
) -> Result<Vec<ReadyLane<PerfectCarrier, PlainShelf>>, NoMemory>
    requires setting { IsSetting setting.now }
    requires two { setting.now.bits ≡ 1 }
    requires some { 0 < feeders }
    ensures count { IfOk result (λ made. length made.items ≡ 2) }
    ensures may { IfOk result (λ made. EachAt (λ _ r. MayRun feeders r.lane.lane r.list) made.items) }
{
    let shared = SharedSchema::new(alloc, setting.schema.copy(alloc)?)?;
    let mut made = Vec::new(alloc);
    for lane in 0..2u8 {
        made.push(ready_lane(alloc, setting, &shared, lane, feeders, lines)?)?;
    }
    Ok(made)
}

/// Runs the lines in two new lanes, so many feeders at once; lines behind one of four dashes are no feeder's.
pub fn run_lines<R: Threads + Wait + Sync>(
    rt: &R,
    alloc: Global,
    hold: &Hold,
    setting: &Setting,
    feeders: u8,
    lines: &str,
) -> Result<Vec<FedLane<PerfectCarrier, PlainShelf>>, NoMemory>
    requires setting { IsSetting setting.now }
    requires two { setting.now.bits ≡ 1 }
    requires some { 0 < feeders }
{
    let lanes = ready_lanes(alloc, setting, feeders, lines)?;
    let (fed, _) = lines.split_once("----\n").unwrap_or((lines, ""));
    let mut made = feeders_of(alloc, setting, feeders, fed)?;
    match run_segment(rt, alloc, hold, lanes, &mut made) {
        Ok(lanes) => Ok(lanes),
        Err(_) => Err(NoMemory),
    }
}
