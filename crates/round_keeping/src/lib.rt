//! What a lane knows of the round that is under way in it, and how a round that it runs is seen in its journal.
//!
//! A round of a row reads all that the nodes hold of it, and gives the union to the row's receivers: these are
//! complete members then. `KnowsRound` of `lane_keeping` says that a `merge_rounds::Round` is what the
//! lane's journal says of it: which Reads and Applies were sent, whose answer was shown, what the answers have
//! together and who has the union. The laws lead it over each event of a round, from its begin to its end, so
//! that each message may be sent and the end is legal; where the round gave too few copies they say whom an
//! operation names that ends for it.
//!
//! `RoundRun` is a round that a lane runs and `RoundEnd` what is known of it once it is over; `specs/RoundRuns.antt`
//! says which events each step of it adds, in words of journals, fates and late messages alone.
//!
//! ```text
//! rounds_begin();        // the part begins a round where nothing is under way
//! rounds_send();         // the message that comes next may be sent
//! rounds_wait();         // late messages and second deliveries change nothing
//! rounds_hear();         // the message that was sent last is answered, or isn't
//! rounds_end();          // the round ends with its holders
//! rounds_fall_short();   // who didn't answer
//! runs_are_carried();    // the messages that a round sends have just the fates that were given for them
//! ```
#![tactic(auto)]

pub mod laws;
pub mod round_run;
pub mod run_laws;

pub use round_run::{RoundEnd, RoundRun};
