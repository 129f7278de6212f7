//! What becomes of messages on their way: the fates, and the carriers that give each message its own.
//!
//! A `Carrier` is seen by four meanings: whether it takes plans, the list of the fates that it gave, the
//! list of those that were planned, and the count of faults, which rises exactly where a fate isn't
//! `Deliver`. `Carriers` make a carrier for each lane, and say which fates are planned for it.
//! A `PlanCarrier` is seen as a `Plan`: those lists, and the planned fates that still wait.
//!
//! ```text
//! let mut carrier = PlanCarrier::new(alloc);
//! carrier.plan(&[Fate::Deliver, Fate::LoseReply])?;    // true: it takes plans
//! carrier.fate(1)                                      // Deliver
//! carrier.fate(2)                                      // LoseReply
//! carrier.fate(3)                                      // Deliver: none is planned
//! ```
#![tactic(auto)]

pub mod carrier;
pub mod fate;
pub mod perfect;
pub mod planned;

pub use carrier::{Carrier, Carriers};
pub use fate::{Fate, FateList};
pub use perfect::{PerfectCarrier, PerfectCarriers};
pub use planned::{PlanCarrier, PlanCarriers};
