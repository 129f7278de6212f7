use crate::ids::nodes_of;
use crate::tables::Table;
use crate::texts::{byte, halves, shown, word};
use bucket_ids::Bucket;
use cluster_states::{ClusterState, Mark, States};
use ideal_nodes::{ideal, owner};
use std::alloc::Global;

/// Up to where a text is one of a state, if it is none; how its state is printed, the first state where it says none; or
/// that state's version, its nodes that serve, those that are up, and how many groups there are.
pub fn state_told(alloc: Global, table: Table, text: &str) -> Option<String> {
    let state = state_of(text);
    match table {
        Table::States => shown(alloc, &ClusterState::parse(text).err()),
        Table::StatesPrinted => state.print(alloc).ok(),
        _ => shown(
            alloc,
            &(
                state.version(),
                state.serving().bits(),
                state.nodes_up().bits(),
                state.groups(),
            ),
        ),
    }
}

/// The state that a text says; the first state where it says none.
fn state_of(text: &str) -> ClusterState {
    match ClusterState::parse(text) {
        Ok(state) => state,
        Err(_) => ClusterState::default(),
    }
}

/// Whether the distributor of a number is up under a state, how the storage node of that number is marked, and in
/// which group it lies.
pub fn marks(alloc: Global, asked: &str) -> Option<String> {
    let (number, text) = halves(asked);
    let state = state_of(text);
    let number = byte(number, 0);
    shown(
        alloc,
        &(
            state.distributor_up(number),
            state.storage(number),
            state.group_of(number),
        ),
    )
}

/// What comes where a state is published; `acks N` begins anew with so many acknowledgements, and `at V N` asks for the
/// known nodes, the newest version, and the mark of node N in version V.
pub fn published(alloc: Global, states: &mut States, asked: &str) -> Option<String> {
    match asked.split_once(' ') {
        Some(("acks", acks)) => {
            *states = States::new(byte(acks, 0));
            shown(alloc, &states.newest())
        }
        Some(("at", place)) => state_at(alloc, states, place),
        _ => shown(alloc, &states.publish(&state_of(asked))),
    }
}

/// The known nodes, the newest version, and the mark of a node in a version.
fn state_at(alloc: Global, states: &States, place: &str) -> Option<String> {
    let at = mark_at(states, word(place, 0), byte(place, 1));
    shown(alloc, &(states.known().bits(), newest_of(states), at))
}

fn newest_of(states: &States) -> Option<u32> {
    match states.newest() {
        Some(state) => Some(state.version()),
        None => None,
    }
}

fn mark_at(states: &States, version: u32, node: u8) -> Option<Mark> {
    match states.at(version) {
        Some(state) => Some(state.storage(node)),
        None => None,
    }
}

/// The ideal order of a bucket under a state, and its owner as a lane.
pub fn places(alloc: Global, asked: &str) -> Option<String> {
    let (bucket, text) = halves(asked);
    let bucket = Bucket::parse(bucket).unwrap_or(Bucket::new(1, 0));
    let state = state_of(text);
    let order = nodes_of(alloc, &ideal(bucket, &state))?;
    shown(alloc, &(order, owner(bucket, &state)))
}
