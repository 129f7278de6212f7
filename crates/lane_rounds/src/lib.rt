//! What the owner of a lane does in several messages: it opens its state, and runs rounds.
//!
//! An owner opens its state: it asks node after node, deals with each Ask by the fate that the carrier gives, and is
//! told what came back (`opening`). It begins a round of a row, sends the messages of the round one after the other,
//! and decides its end (`rounds`). The lane keeps its journal over all of it (`lane_states`), and each call says by
//! which events the journal grows, whatever is lost or late. Where a node wants memory an opening and a round go on,
//! or end at once, as their caller says. What that is to a line whose operation waits for it is said in `lane_lines`.
//!
//! ```text
//! open_state(lane, distributor, key, &mut carrier, AtShortage::GoOn)?;    // Sent { .. }, Delivered { .. }, Returned { .. }, .., Opened { .. }
//! let run = begin_round(lane, distributor, key);                          // Decided { RoundBegun .. }
//! run_round(lane, &mut carrier, &mut run, AtShortage::GoOn)?;             // Sent { .. }, .., Decided { RoundEnded .. }
//! ```
#![tactic(auto)]

pub mod opening;
pub mod rounds;
