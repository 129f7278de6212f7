//! A segment of a session: lines that change no state, no node, no fate and no upkeep, dealt with together.
//!
//! `deal_together` sorts the lines by their lanes and their feeders, runs the feeders in threads, and answers the lines in
//! order once all feeders are done: an operation with the outcome that its lane's journal has, a search with what it finds
//! behind the segment. A contract sees what it makes of the session's cell (`IsFed` in `specs/Fed.antt`). In a lane the segment is one
//! deed of its life, and `specs/FedDeeds.antt` says which: what a session did is a list of parts (`specs/Parts.antt`), and each part
//! is a line alone, or the lines of a segment together.
//!
//! ```text
//! deal_together(&rt, alloc, &gate, &setting, 4, first, commands, &mut session)?   // an answer for each line
//! segments_are_kept();                                                            // the parts so far, and this one more
//! ```
#![tactic(auto)]

mod answering;
pub mod dealing;
pub mod laws;
mod running;
pub mod sorting;

pub use dealing::deal_together;
