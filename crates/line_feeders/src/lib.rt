//! Feeders run lines behind locks, each feeder in a thread of its own.
//!
//! Lines stand in groups, each group behind a lock of its own (`LineLock`), and a call is for the line at a place of a
//! group (`LineTurns`). A feeder is a list of errands: which line it is to run, behind which lock, at which place. It runs
//! them in order, one lock at a time, and stops at the first that has no outcome then: that one and all behind it are left.
//! It waits at a lock alone, while another line stands against its own, until one was closed there.
//!
//! What lines do is no matter of this crate. Of what lies behind a lock only that is known which its type keeps, so whoever
//! has lines run says it there.
//!
//! ```text
//! let lock = LineLock::new(lines);                      // lines.number() is its number
//! run_feeders(&rt, &locks, &gate, &mut feeders);        // feeders[0].done: so many of its lines have their outcomes
//! let lines = lock.into_lines();
//! ```
#![tactic(auto)]

pub mod feeder;
pub mod gate;
pub mod line_lock;
pub mod turns;

pub use feeder::{Errand, Feeder, run_feeders, run_line};
pub use gate::{FreeGate, Gate};
pub use line_lock::LineLock;
pub use turns::{LineTurns, Went};
