//! What a lane keeps beside its journal, its nodes and its distributors' parts, over each event; a crate of laws.
//!
//! `NodeKeeps J n x` in `specs/NodeKeeping.antt` says that `x` is what the journal `J` says of node `n`: its version, of
//! each document the entry that was written with the stamp that is held, its pieces and regions, and that each serial
//! that was named is that of a piece just where nothing was accepted there since. It is a record over what readers read,
//! so an event that they pass over leaves it. `Replays` is the same of all nodes of a lane, with its journal legal, and
//! `NodesGo` in `specs/Spans.antt` says that each delivery of a longer journal was taken by its receiver, and that
//! nothing else changed a node.
//!
//! `Keeps` in `specs/LaneKeeping.antt` says that the journal is legal, that no message has a greater number, that each
//! node is what the journal says, and that each distributor's part is: it holds the state that its distributor heard,
//! and where that distributor owns the lane under it, it knows who answered an Ask, which buckets were shown, and then
//! the rows with their marks. A node or a part that isn't there yet counts as a new one. Nodes may be stopped: a law
//! that has a message taken by its receiver asks that the receiver isn't.
//!
//! ```text
//! let reply = node.take(&message);        // `Takes` says what it is
//! nodes_replay();                         // so `Delivered { number, reply }` may come next in the journal,
//! journal.push(delivered)?;               // and the node is what the longer journal says
//! nodes_go_on();                          // spans begin with nothing, go on event by event, and one behind another is one
//! states_are_kept();     // a state is published, a distributor hears it
//! events_are_kept();     // any message is sent, taken by its node, returned; a line has an event; a node stops or starts
//! asks_are_kept();       // an Ask is sent and answered
//! parts_are_told();      // what the owner's part knows then
//! openings_are_kept();   // the owner's part opens the state
//! owners_act();          // what its part says of the journal: states, answers, rows
//! marks_are_kept();      // a round ends, an operation is acknowledged
//! ```
#![tactic(auto)]

pub mod laws;
pub mod node_laws;
pub mod spans;
