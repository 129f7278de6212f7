//! What every lane of a session does, one after the other.

ghost use Rattle.std.specs.Prelude.{◌≡◌, ◌<◌, [], map, OnOk, OnErr};
ghost use Rattle.lane_core.specs.Shelved.{with_lane, OfLane};
ghost use Rattle.lane_calls.specs.LaneValues.{IsLaneValue};
ghost use Rattle.session_cluster.specs.Cells.{lanes_in, shelves_in};
ghost use Rattle.session_cluster.specs.Steps.{with_room, without_room, after_state, after_stop, after_start, EachLane, IsRoomy, MayAnnounce, MayMaintain, MayHaveAllPassed, AreSpans};

use carriers::Carrier;
use cluster_states::ClusterState;
use lane_core::{Lane, announce, maintain, start, stop};
use lane_lives::UpkeepSpan;
use node_sets::NodeSet;
use shelves::PlainShelf;
use value_lists::NoMemory;

/// Makes room in each lane for a state, a stop or a start. At want of memory there is room in some of them.
pub fn make_room<C: Carrier + Drop>(lanes: &mut [Lane<C, PlainShelf>]) -> Result<(), NoMemory>
    ensures ok { OnOk result (lanes.new ≡ map (with_lane with_room) lanes.old) }
    ensures err { OnErr result (map (with_lane without_room) lanes.new ≡ map (with_lane without_room) lanes.old) }
{
    for lane in lanes.iter_mut() {
        lane.room()?;
    }
    Ok(())
}

/// Publishes a state in each lane, which all distributors hear but the deaf ones.
pub fn announce_all<C: Carrier + Drop>(
    lanes: &mut [Lane<C, PlainShelf>],
    state: &ClusterState,
    deaf: NodeSet,
)
    requires { EachLane (OfLane (MayAnnounce state.now)) lanes.old }
    ensures after { lanes.new ≡ map (with_lane (after_state state.now deaf)) lanes.old }
    ensures holds { EachLane (OfLane IsLaneValue) lanes.new }
{
    for lane in lanes.iter_mut() {
        announce(lane, state, deaf);
    }
}

/// A node stops in each lane.
pub fn stop_all<C: Carrier + Drop>(lanes: &mut [Lane<C, PlainShelf>], node: u8)
    requires roomy { EachLane (OfLane IsRoomy) lanes.old }
    requires number { node < 32 }
    ensures after { lanes.new ≡ map (with_lane (after_stop node)) lanes.old }
    ensures holds { EachLane (OfLane IsLaneValue) lanes.new }
{
    for lane in lanes.iter_mut() {
        stop(lane, node);
    }
}

/// A node starts in each lane.
pub fn start_all<C: Carrier + Drop>(lanes: &mut [Lane<C, PlainShelf>], node: u8)
    requires roomy { EachLane (OfLane IsRoomy) lanes.old }
    requires number { node < 32 }
    ensures after { lanes.new ≡ map (with_lane (after_start node)) lanes.old }
    ensures holds { EachLane (OfLane IsLaneValue) lanes.new }
{
    for lane in lanes.iter_mut() {
        start(lane, node);
    }
}

/// Upkeep is made in each lane, in their order, and how it went is noted. At want of memory the first lanes made
/// theirs, and the next one perhaps a part of it.
pub fn maintain_all<C: Carrier + Drop>(
    lanes: &mut [Lane<C, PlainShelf>],
    spans: &mut Vec<UpkeepSpan>,
) -> Result<(), NoMemory>
    requires may { EachLane MayMaintain (lanes_in lanes.old) }
    requires none { spans.old.items ≡ [] }
    ensures passed { MayHaveAllPassed (lanes_in lanes.old) (lanes_in lanes.new) }
    ensures spans { OnOk result (AreSpans (lanes_in lanes.old) (lanes_in lanes.new) spans.new.items) }
    ensures shelves { shelves_in lanes.new ≡ shelves_in lanes.old }
{
    for lane in lanes.iter_mut() {
        let span = maintain(lane)?;
        spans.push(span)?;
    }
    Ok(())
}
