//! A pass of upkeep as a machine: what the owner of a lane does next, as far as that depends on its rows alone.
//!
//! A pass goes through many small steps, but only four kinds of them meet the lane: a message to one node, a decision
//! on one row, that an active node accepted, and a round of one row. `UpkeepPass` says which of these comes next
//! (`next_step`), and is told what came of it (`answer`, `decided`, `accepted`, `round_over`). Between them it goes over
//! all places where nothing is to be said. So one loop of a lane drives it (`lane_upkeep`), and all that depends on what
//! the machine is doing is proved here, without any lane.
//!
//! `turn_at` in `specs/Turns.antt` says what comes where the machine stands. Where each row had a whole round, each of
//! its turns is one or more of those that `pass_model` makes of nodes and rows in the abstract (`laws`). `pass_runs`
//! puts them one after the other.
#![tactic(auto)]

mod asked;
pub mod doing;
mod joins;
pub mod laws;
pub mod notes;
pub mod pass;
mod places;
mod resends;
pub mod settling;
mod skips;

pub use doing::{Doing, Settle, Time, Turn, UpkeepStep};
pub use notes::{Exact, Notes, RowNote};
pub use pass::UpkeepPass;
