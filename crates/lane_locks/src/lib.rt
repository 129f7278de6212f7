//! The lanes of a segment behind locks, while feeders run its lines there.
//!
//! A `Slot` lies behind the lock of a lane: the lane, its lines of the segment, and how far each is. A feeder passes only a
//! place among the lines: whether it is the line's turn, and what its operation wants, is found without a walk over the
//! others, and a call that isn't for the line leaves all as it is. Whatever is called, in whatever order, the lane came by
//! calls of a segment (`IsSegment` of `lane_calls`) from the value with which the segment began; that and how far each line
//! is stands in the invariant (`IsKept` in `specs/Slots.antt`), and comes out with `finish`, which first runs alone what is
//! left. Contracts see a slot as the lane's number and the lane; `specs/Turns.antt` says what each call does there.
//!
//! `SegmentLocks::open` puts each lane behind a lock of its own; `locks` lends them to the threads of a segment, and `close`
//! takes the lanes out again, in the order of their numbers. All memory is taken in `open`: where there is none, the lanes
//! come back as they were. `run_segment` does all of it, with feeders in threads between.
//!
//! A lock doesn't show which lane is behind it. So each lane has a mark, a power of two that is its part of a ledger,
//! and the sum of all marks says that each lane came back once (`powers_stand_once`).
//!
//! ```text
//! slot.begin(3)      // On: the line at place 3 began
//! slot.advance(3)    // On, until Ends: it is to be closed
//! slot.close(3)      // Over: it has its outcome
//! slot.finish(&rt)   // the lane, its lines, how far each is
//! let locks = SegmentLocks::open(alloc, blank, lanes)?;   // or the lanes as they were
//! locks.locks()                                          // lent to threads: the lock at a place is that lane's
//! locks.close(&rt)                                       // the lanes, in order
//! ```
#![tactic(auto)]

pub mod finishing;
pub mod lanes;
pub mod laws;
pub mod line_turns;
pub mod lines;
pub mod locks;
pub mod names;
pub mod segment;
pub mod slot;

pub use lanes::{FedLane, ReadyLane};
pub use lines::{Line, LineList, Stage, feeder_of_key};
pub use locks::SegmentLocks;
pub use names::Segment;
pub use segment::run_segment;
pub use slot::{Slot, Turn};
