//! Sets of nodes: numbers below 32, in one word.
//!
//! A contract sees a `NodeSet` as the number of its bits, and speaks of its members (`has_node`) and of
//! how many there are below a number (`size_below`). No call takes memory.
//!
//! ```text
//! let nodes = NodeSet::of(0b1101);
//! nodes.len()        // 3
//! nodes.at(1)        // 2
//! ```
#![tactic(auto)]

pub mod laws;
pub mod node_set;

pub use node_set::NodeSet;
