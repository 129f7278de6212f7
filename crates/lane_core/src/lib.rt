//! One lane: what it keeps (`lane_states`), the operations under way, the carrier of its messages, and what a session does there.
//!
//! A `Work` is a `LaneState` with the operations under way: it begins one at the owner of the lane, or refuses it, and closes it.
//! `operation_keeping` says what the operation of a line wants next. A `Lane` is a `Work` with the carrier of its messages and
//! a shelf, to which the changes of its view go; a contract sees it as its value (`LaneValues` of `lane_calls`) beside what its
//! shelf is (`specs/Shelved.antt`). A call that leaves the shelf alone says so; `settle` shows all changes. `open_lane` publishes the first state there, `run_line` runs a
//! line from its beginning to its end, and `maintain` makes a pass of upkeep: they are the deeds of `lane_lives`.
//!
//! ```text
//! let mut lane = open_lane(alloc, lane, &setting, schema, shelf, carriers)?;    // Published { .. }, Heard { .. } ..
//! run_line(&mut lane, line, key, operation, None)?;               // Begun { .. }, .. Closed { .. }
//! lane.settle()?;                                                 // the shelf shows what changed
//! announce(&mut lane, &state, deaf);                              // Published { .. }, Heard { .. } ..
//! ```
#![tactic(auto)]

pub mod jobs;
pub mod lane;
pub mod operations;
pub mod work;

pub use lane::{Lane, announce, maintain, open_lane, run_line, start, stop};
pub use work::Work;
