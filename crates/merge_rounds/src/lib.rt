//! A round of a row: each reader is asked for the whole row, their entries are joined, and the union goes
//! to the receivers.
//!
//! A `Round` sends nothing itself: it says which message comes next, and is told the reply of that
//! message's receiver, or that none came. A contract sees it as the record `RoundState`
//! (`specs/Rounds.antt`); `IsNext` there says which message is the next, `after_read` and `IsAfterApply`
//! what an answer makes of the round.
//!
//! ```text
//! let mut round = Round::new(alloc, origin, row, readers, receivers);
//! while let Some(message) = round.send(alloc)? {
//!     let reply = deliver(&message);                     // or None, where none came
//!     round.take_reply(message.receiver, reply);
//! }
//! round.holders()                                        // who has the union
//! ```
#![tactic(auto)]

pub mod laws;
mod order;
pub mod round;
mod shown;

pub use round::Round;
