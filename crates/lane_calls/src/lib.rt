//! What a lane is to its callers, and what calls make of it: one call, a line that is carried out alone, a pass of upkeep, and a
//! segment, in which feeders run many lines at once; types, definitions and laws.
//!
//! `LaneValue` in `specs/LaneValues.antt` has the journal, the fates given so far, the operations under way and what was drawn; the
//! relations there say what each call of a lane makes of it. `lane_core` has the lane itself. `specs/Lines.antt` says what a line that
//! is carried out alone makes of the journal (`IsCarriedOut`), `specs/Upkept.antt` what an upkeep does.
//!
//! What happened in a segment is a list of calls (`IsSegment` in `specs/Segments.antt`): each is for one line, which begins in its
//! turn, goes on by what it wants, and is closed. A feeder's line has its turn once all earlier lines of that feeder have their
//! outcomes. `Grows` in `specs/Growth.antt` says the same of the lane's journal, event by event. Whatever is to be said of a segment
//! is read off that, and a line that is carried out alone makes a journal grow so too.
//!
//! ```text
//! segments_grow();             // by calls a journal grows as `Grows` says
//! lines_alone_grow();          // and so it does by lines that are carried out one after the other
//! lines_come_in_order();       // a line begins once the earlier ones of its feeder have their outcomes
//! others_have_no_event();      // no other line has an event
//! lines_go_their_courses();    // and is closed with the outcome to which its course led
//! lines_are_answered_once();
//! ```
#![tactic(auto)]

pub mod answers;
pub mod laws;
pub mod progress;

pub use answers::{Advance, Begin};
pub use progress::{Progress, UnderWay};
