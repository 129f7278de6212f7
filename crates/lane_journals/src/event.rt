use bucket_ids::Bucket;
use cluster_states::ClusterState;
use document_ids::DocId;
use documents::SharedEntry;
use messages::{BucketList, Decision, NotedBody, NotedReply, Outcome};
use node_sets::NodeSet;
use stamps::Stamp;

/// One atomic step of a lane.
#[derive(Drop)]
pub enum LaneEvent {
    /// A state is published, to all lanes.
    Published {
        state: ClusterState,
    },
    /// A distributor takes the newest state.
    Heard {
        distributor: u8,
        version: u32,
    },
    /// A line's operation is begun by a distributor under a version; a get has no stamp.
    Begun {
        line: u32,
        distributor: u8,
        version: u32,
        id: DocId,
        stamp: Option<Stamp>,
    },
    /// A line was sent to a distributor that doesn't own the lane.
    Refused {
        line: u32,
        distributor: u8,
        outcome: Outcome,
    },
    /// All nodes of a version have answered an Ask: these are its rows.
    Opened {
        distributor: u8,
        version: u32,
        rows: BucketList,
    },
    /// A line's operation will go to the recipients, the row's complete members.
    Prepared {
        line: u32,
        row: Bucket,
        recipients: NodeSet,
    },
    /// The operation of a line writes this entry.
    Wrote {
        line: u32,
        entry: SharedEntry,
    },
    /// A distributor sends a message to a node.
    Sent {
        number: u64,
        version: u32,
        sender: u8,
        receiver: u8,
        body: NotedBody,
    },
    /// The message reaches its node, which makes this reply; this may come again.
    Delivered {
        number: u64,
        reply: NotedReply,
    },
    /// The first reply reaches the sender.
    Returned {
        number: u64,
    },
    /// The operation of a line is closed.
    Closed {
        line: u32,
        outcome: Outcome,
    },
    /// The lane's owner decides of a row.
    Decided {
        distributor: u8,
        version: u32,
        decision: Decision,
    },
    /// A node stops: nothing is delivered to it.
    Stopped {
        node: u8,
    },
    /// The node runs again, with what it held.
    Started {
        node: u8,
    },
}
