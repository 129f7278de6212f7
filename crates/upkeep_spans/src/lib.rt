//! What an upkeep comes to, and what it leaves as it was.
//!
//! An upkeep is one pass by the lane's owner, and its span is the events that it adds. `AreUpkeep` in
//! `specs/Spans.antt` says which events these may be, and the laws which readers of the journal stay over
//! them. `IsCause` in `specs/Causes.antt` says which answer the span gives: the first late message that it
//! delivered, or else the receiver of its first message that wasn't returned, or else rest. One thing the
//! events don't show: whether a message that comes right behind its own sending was late. `Watching`, the
//! carrier of a lane, remembers it.
//!
//! ```text
//! let watching = Watching::new(alloc, carrier);        // a carrier that gives the same fates
//! // a pass is made, which sends its messages by it
//! watching.tell(journal, from, sent)                   // Rested: all came back, and nothing late came
//! ```
#![tactic(auto)]

pub mod answers;
pub mod laws;
pub mod scan;
pub mod watching;

pub use answers::Upkeep;
pub use watching::Watching;
