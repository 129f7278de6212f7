//! One distributor's part in one lane: it opens the state that it heard, knows the lane's rows, and makes
//! the row of a key fit for an operation.
//!
//! A `DistributorPart` sends nothing itself: it says which step comes next, and is told what came of it. A
//! contract sees it as the record `Part` (`specs/Parts.antt`): the state heard last, which nodes answered
//! an Ask and which buckets they showed, the rows with their marks, and what is under way. `IsStep`
//! (`specs/Steps.antt`) says which step comes next and what it leaves; the other words there say what an
//! answer, a round that is over and an acknowledged close make of the part.
//!
//! For upkeep a lane asks no steps, and so a step has the condition that the job is `Prepare`: it says itself
//! what it does to the rows, by calls that begin a round, split, join, activate and delete (`specs/Upkeep.antt`),
//! and asks where the replicas of a row are to be and which nodes are to be ready.
//!
//! ```text
//! let mut part = DistributorPart::new(alloc, 0, lane, rules);
//! part.hear(&state);
//! loop {
//!     match part.next_step(alloc, Job::Prepare { key })? {
//!         Step::Send(message) => part.take_reply(message.receiver, deliver(&message)),
//!         Step::Open { rows } => ..                              // told to the journal
//!         Step::Decide(Decision::RoundBegun { bucket, receivers }) => {
//!             // a `Round` is run, and what came of it is told
//!             part.round_over(round.holders(), union, round.shown())?;
//!         }
//!         Step::Decide(decision) => ..                           // told to the journal
//!         Step::Finished { missing } => break,
//!     }
//! }
//! let receivers = part.begin_round(at);       // upkeep: a round of the row of a place
//! part.split_row(at)?;                        // and what is decided of it
//! ```
#![tactic(auto)]

mod heard;
mod opening;
pub mod part;
pub mod rules;
pub mod stage;
mod targets;
pub mod upkeep;

pub use part::DistributorPart;
pub use rules::Rules;
pub use stage::Stage;
