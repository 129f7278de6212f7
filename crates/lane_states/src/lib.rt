//! What a lane keeps: its journal, and what it says; calls append events one by one.
//!
//! A `LaneState` has a journal with the changes of its view that no shelf took (`EventLog`), the state that was
//! published last, the number of its last message, its nodes, and its distributors' parts. `IsKept` in
//! `specs/LaneStates.antt` says that they are what the journal says (`lane_keeping`), that late messages are on their way,
//! that the numbers of messages find room, which nodes are stopped, that the lane's bucket is one, that the active node of
//! each accepted row took its activation (`specs/Accepting.antt`), and that what was handed over to a shelf, and then what
//! is kept, are the changes that the journal gives (`specs/Told.antt`). A node or a part that isn't there yet counts as a
//! new one.
//!
//! Each call says by which events the journal grows. A distributor hears the newest state (`parts`). Nodes stop and
//! start (`stopping`); a message to a stopped node is not delivered. A message is delivered, or kept and delivered
//! when it falls due (`carriage`). It is sent, dealt with by the fate that the carrier gives, and its reply is handed
//! back in one place (`exchange`). What an owner does in several messages stands above: openings and rounds in
//! `lane_rounds`, the operation of a line in `lane_lines`. Changes of the view go to a shelf when it is asked for
//! (`settling`).
//!
//! ```text
//! let mut lane = LaneState::new(alloc, bucket, rules, schema);
//! lane.room(1)?;
//! lane.publish(&state);                   // Published { .. }
//! lane.hear(distributor)?;                // Heard { .. }
//! lane.exchange(message, None, &mut carrier)?;    // Sent { .. }, Delivered { .. }, Returned { .. }
//! ```
#![tactic(auto)]

pub mod at_shortage;
pub mod carriage;
pub mod event_log;
pub mod exchange;
pub mod known_owner;
pub mod lane_state;
pub mod parts;
pub mod settling;
pub mod shown;
pub mod stopping;
pub mod written;

pub use at_shortage::AtShortage;
pub use event_log::EventLog;
pub use known_owner::KnownOwner;
pub use lane_state::LaneState;
