//! What the operation of a line does in a lane, from its search for a row to its end.
//!
//! Its owner's state is opened (`opened_lines`), and a round is run where the row of its key has too few complete
//! members (`filled_rows`); `find_row` does both, or says why the operation ends (`readying`). Once it is prepared
//! its messages are sent one by one, and its machine is told what came back (`steps`). It ends, acknowledged or not
//! (`closing`). The openings and rounds are those of `lane_rounds`: `laws` says that they are what the line wants.
//!
//! ```text
//! find_row(lane, distributor, key, &mut carrier)?;                              // openings and rounds: None, or why it ends
//! send_next(lane, line, key, &mut written, &mut machine, places, &mut carrier)?;    // Wrote { .. }, Sent { .. }, ..
//! note_end(lane, line, distributor, key, outcome, answered);                    // Closed { .. }
//! ```
#![tactic(auto)]

pub mod closing;
pub mod filled_rows;
pub mod laws;
pub mod opened_lines;
pub mod readying;
pub mod steps;

pub use readying::Shortage;
