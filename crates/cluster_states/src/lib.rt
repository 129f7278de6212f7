//! Cluster states: which distributors and storage nodes there are, how each is marked, and in how many
//! groups the nodes lie, after Vespa's cluster controller.
//!
//! A contract sees a `ClusterState` as its version, two lists of marks, from number 0 on, of 1 to 32
//! numbers each, and the number of groups (`specs/ClusterStates.antt`), and `States` as the list of the
//! states that were published, oldest first. Only `parse` and the default make a state, and each state is read again from its text.
//!
//! ```text
//! let state = ClusterState::parse("version:1 distributor:1 storage:4 groups:2 storage.3.s:d")?;
//! state.storage(3)              // Mark::Down
//! state.group_of(3)             // 1
//! states.publish(&state)?;      // or why it isn't published
//! ```
#![tactic(auto)]

pub mod cluster_state;
mod counts;
mod groups;
mod marks;
mod places;
mod reader;
mod signs;
pub mod states;
pub mod texts;

pub use cluster_state::ClusterState;
pub use marks::Mark;
pub use node_sets::NodeSet;
pub use states::{PublishFault, States};
pub use texts::BadState;
