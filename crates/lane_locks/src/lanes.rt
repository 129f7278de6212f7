//! The lanes of a segment, without their locks.

use crate::lines::{Line, LineList, Stage};
use carriers::Carrier;
use lane_core::Lane;
use shelves::Shelf;

/// A lane with the lines that are to be run there.
#[derive(Drop)]
pub struct ReadyLane<C: Carrier + Drop, H: Shelf + Drop> {
    pub lane: Lane<C, H>,
    pub list: LineList,
}

/// A lane that came back from its lock, with its number, its lines, and how far each is.
#[derive(Drop)]
pub struct FedLane<C: Carrier + Drop, H: Shelf + Drop> {
    pub number: u8,
    pub lane: Lane<C, H>,
    pub lines: Vec<Line>,
    pub stages: Vec<Stage>,
}
