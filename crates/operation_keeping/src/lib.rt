//! What is known of an operation that is under way in a lane, over each event, and what its line wants next; a crate of laws.
//!
//! Several may be under way, each of another document. From its Begun on one isn't prepared yet (`KnowsPreparing` in
//! `specs/OperationKeeping.antt`); once it is, `KnowsOperation` says that what its machine was told (`op_machine`) is what the
//! journal shows: which nodes were sent a Read and a Store, who answered, which entry was seen newest, and whether its entry is
//! written. So each message, the entry and the outcome that the machine gives next may come next in the journal. While a message is
//! on its way, `KnowsAsked` says the same of all others.
//!
//! From its Begun on, a line wants one thing after the other: an event, which the journal then grows by, or its end with an outcome
//! (`Wants` in `specs/Wants.antt`). The distributor's part, the round and the machine that give it are what the journal says. A
//! journal that grew by what a line wanted, and by what carriers did with messages, is a run of the line (`IsRun`).
//!
//! ```text
//! operations_begin();     // Begun; lines_are_refused() where another distributor owns the lane
//! operations_prepare();   // Prepared, once the row has enough complete members
//! operations_send();      // a Read or a Store of the entry that was written (operations_write)
//! operations_hear();      // its answer is told, or that none came
//! operations_end();       // Closed, with the outcome of the machine; preparing_ends() before that
//! Wants lane rules line o J (Adds e)             // this event comes next
//! unprepared_lines_fall_short();                 // before it is prepared a line ends for a shortage alone
//! ```
#![tactic(auto)]

pub mod laws;
pub mod want_laws;
