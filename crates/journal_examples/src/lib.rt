//! Journals that are written out: one of a lane that lives, and wrong ones, which the definitions refuse.
//!
//! `life` in `specs/Lives.antt` is a legal journal of 84 events. `specs/WrongSteps.antt` has legal journals, each
//! with an event that may not come next, and `specs/WrongCarriage.antt` eight journals in which a message
//! has another fate than it was given, each beside the right one. Where a step goes by which of two nodes comes
//! first, their scores are worked out in its proof. A crate of laws; nothing stands on it.
//!
//! ```text
//! a_lane_may_live();                // a document is written under two states, and a node is emptied
//! wrong_steps_are_refused();        // events that may not come next
//! wrong_carriage_is_refused();      // journals that aren't carried so
//! ```
#![tactic(auto)]

pub mod laws;
