//! What is promised of each life of a lane; a crate of laws.
//!
//! `specs/Promises.antt` has what holds of each: that writes are kept, that lines come to what nodes answer, and why one is
//! refused or falls short; `specs/Hearings.antt` who hears which state.
//!
//! ```text
//! lanes_are_durable();                 // what was acknowledged, or something newer, is in enough node stores
//! lanes_are_complete();                // an undisturbed line comes to what nodes answer
//! hearings_follow_deeds();             // who isn't deaf holds the newest state
//! deeds_come_in_order();               // a line begins once those of earlier deeds have their outcomes
//! lines_are_refused_with_cause();      // the distributor that a line names held a state of another owner
//! lines_fall_short_with_cause();       // nothing came back of a message to the absent node
//! ```
#![tactic(auto)]

pub mod laws;
