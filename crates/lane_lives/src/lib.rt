//! The life of a lane: what a session did there, told as deeds; definitions and laws.
//!
//! `IsLife` in `specs/Lives.antt` says that a journal is what deeds made of a lane, one after the other: states that were announced,
//! nodes that stopped and started, lines, segments of many lines, and upkeep. `specs/Upkeep.antt` says how upkeep went, and
//! `specs/Serving.antt` how a lane's bucket and rules come from the setting. What lines and an upkeep make of a lane says `lane_calls`.
//!
//! ```text
//! states_follow_deeds();               // states and nodes change as the lane was told
//! lines_alone_are_segments();          // a line that runs alone is a segment of one line
//! segments_serve();                    // a lane that serves does so after a segment
//! lanes_at_rest_are_covered();         // what rest is to a search
//! ```
#![tactic(auto)]

pub mod laws;
pub mod setting;
pub mod spans;

pub use setting::Setting;
pub use spans::UpkeepSpan;
