//! What becomes of the messages of a lane; a crate of laws.
//!
//! Each message that is sent gets the next number, and the carrier gives its fate. `IsCarried` in
//! `specs/Carriage.antt` says that a journal's messages have the given fates: right behind each message
//! stands what its own fate adds, a second delivery too, and then those late ones are delivered that are
//! due with its number, in rising order. To a node that is stopped nothing is delivered, at once or late.
//! `IsWaiting` in `specs/Waits.antt` says which late messages wait.
//!
//! ```text
//! messages_are_carried();           // what was sent, delivered and returned, message by message
//! late_messages_fall_due();         // which messages are due with another
//! late_messages_wait();             // what waits after one message more, and what is delivered with it
//! ```
#![tactic(auto)]

pub mod laws;
