//! A segment of the lanes: feeders run its lines there.

ghost use Rattle.std.specs.Prelude.{◌≡◌, ◌<◌, ◌≤◌, length, IfOk, IfErr, OnOk, OnErr};
ghost use Rattle.lane_locks.specs.Lanes.{EachAt, IsReady, IsFed};
ghost use Rattle.lane_locks.specs.Runs.{MayRun, RunsOn, WereFed, lines_at};

use crate::lanes::{FedLane, ReadyLane};
use crate::locks::SegmentLocks;
use crate::names::Segment;
use carriers::Carrier;
use lane_views::LaneView;
use line_feeders::{Feeder, Gate, run_feeders};
use shelves::PlainShelf;
use std::alloc::Global;
use std::marker::Brand;
use std::sync::Wait;
use std::sync::ledger::Blank;
use std::thread::Threads;

/// Runs the lines of a segment under its name.
fn run_named<
    S: Segment<LaneView> + Send + Sync,
    C: Carrier + Drop + Send,
    G: Gate + Sync,
    R: Threads + Wait + Sync,
>(
    rt: &R,
    alloc: Global,
    blank: Blank,
    gate: &G,
    lanes: Vec<ReadyLane<C, PlainShelf>>,
    feeders: &mut [Feeder],
) -> Result<Vec<FedLane<C, PlainShelf>>, Vec<ReadyLane<C, PlainShelf>>>
    requires name { blank.name ≡ S.name }
    requires parts { (blank.parts ≡ S.parts) × (blank.parts ≡ length lanes.items) }
    requires few { length lanes.items ≤ 64 }
    requires ready { EachAt (λ k r. IsReady (λ s. s.opening) S.feeders S.began S.lines S.shelf k r.lane r.list) lanes.items }
    requires feeders { 0 < length feeders.old }
    ensures count { IfOk result (λ fed. length fed.items ≡ length lanes.items) }
    ensures order { IfOk result (λ fed. EachAt (λ k f. f.number ≡ k) fed.items) }
    ensures fed { IfOk result (λ fed. EachAt (λ _ f. IsFed (λ s. s.opening) S.feeders S.began S.lines S.shelf f.number f.lane
        f.lines.items f.stages.items) fed.items) }
    ensures feeders { OnOk result (WereFed S.feeders S.lines (length lanes.items) feeders.old feeders.new) }
    ensures back { IfErr result (λ back. back ≡ lanes) }
    ensures same { OnErr result (feeders.new ≡ feeders.old) }
{
    let locks = SegmentLocks::<S, C, PlainShelf>::open(alloc, blank, lanes)?;
    run_feeders(rt, locks.locks(), gate, feeders);
    Ok(locks.close(rt))
}

/// Runs the lines of a segment, each feeder in a thread of its own, and then what is left of them. Each lane comes by calls
/// of the segment from what it was; no operation is under way there, and how far each line is stands beside it. Where
/// memory is wanted for the locks, all lanes come back as they were.
pub fn run_segment<C: Carrier + Drop + Send, G: Gate + Sync, R: Threads + Wait + Sync>(
    rt: &R,
    alloc: Global,
    gate: &G,
    lanes: Vec<ReadyLane<C, PlainShelf>>,
    feeders: &mut [Feeder],
) -> Result<Vec<FedLane<C, PlainShelf>>, Vec<ReadyLane<C, PlainShelf>>>
    requires few { length lanes.items ≤ 64 }
    requires feeders { 0 < length feeders.old }
    requires ready { EachAt (λ _ r. MayRun (length feeders.old) r.lane.lane r.list) lanes.items }
    ensures count { IfOk result (λ fed. length fed.items ≡ length lanes.items) }
    ensures ran { IfOk result (λ fed. RunsOn (length feeders.old) lanes.items fed.items) }
    ensures feeders { OnOk result (WereFed (length feeders.old) (λ k. lines_at lanes.items k) (length lanes.items)
        feeders.old feeders.new) }
    ensures back { IfErr result (λ back. back ≡ lanes) }
    ensures same { OnErr result (feeders.new ≡ feeders.old) }
{
    let blank = Blank::new(lanes.len() as u64);
    run_named::<Brand, C, G, R>(rt, alloc, blank, gate, lanes, feeders)
}
