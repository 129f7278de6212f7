//! With which outcome an operation ends, in plain words of the journal; a crate of laws.
//!
//! An operation asks in phases: it has its state opened, has a round of its row run, reads its document and stores what it wrote. It
//! ends with the first phase in which too few answered, or with what it saw, or acknowledged. `IsOutcome` in `specs/Outcomes.antt`
//! says so of the journal at its end, phase by phase; who counts, how many are needed and who is named as absent is said once, in
//! `specs/Shortages.antt`. What a line wants (`WantsSince` in `operation_keeping`) is said by the distributor's part, the round and
//! the operation's machine; both come to the same.
//!
//! ```text
//! ends_are_outcomes();     // whatever a line wants to end with, and may, is its outcome
//! outcomes_agree();        // and there is one
//! ```
#![tactic(auto)]

pub mod laws;
