//! The machine of one operation: which messages it sends, and how it ends by their answers.
//!
//! A contract sees an `OpMachine` as a `Standing`: the plan of the operation, and what was answered so far
//! to its Reads and to its Stores. `specs/Outcomes.antt` says what comes next (`next_of`): a message to
//! one more recipient, or the outcome. The machine neither waits nor prints; whoever drives it hands each
//! message over and tells what was answered, or that nothing was.
//!
//! ```text
//! let mut machine = OpMachine::new(origin, operation, stamp, recipients, active, acks);
//! while let Some(message) = machine.send(alloc)? {
//!     machine.take_reply(message.receiver, reply);
//! }
//! machine.outcome(alloc)?             // Some(Outcome::Acked { stamp })
//! ```
#![tactic(auto)]

pub mod counting;
pub mod judging;
pub mod laws;
pub mod machine;
pub mod plan;
pub mod settling;
pub mod tally;
pub mod verdict;

pub use machine::{OpMachine, Standing};
pub use plan::Plan;
pub use tally::Tally;
pub use verdict::Verdict;
