//! The promise of completeness: what a lane is asked it does, where nothing hinders it; a crate of laws.
//!
//! An operation is begun by the owner of the lane under the newest state. Where the reply to each of its
//! messages comes back before it goes on (`IsUndisturbedLine` in `specs/Completeness.antt`), it never ends
//! with too few answers: it comes to what the answers say, and a put or a remove without condition to its
//! acknowledgement; or to NoMemory where a node wanted memory. Replies come back so where the carrier gives
//! no other fate than to deliver and to answer at once, and the nodes run.
//!
//! In any line too few answers have their cause (`IsMissing` in `specs/Causes.antt`): the absent node was sent a
//! message, and nothing was heard of it.
//!
//! ```text
//! undisturbed_operations_are_decided();   // no TooFew
//! undisturbed_writes_end_well();          // Acked, or NoMemory
//! answered_lines_are_undisturbed();       // by the fates of the carrier
//! too_few_has_its_cause();                // of the absent node nothing was heard
//! unheard_messages_are_lost();            // by the fate, or since the receiver was stopped
//! ```
#![tactic(auto)]

pub mod laws;
