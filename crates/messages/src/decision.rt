use bucket_ids::Bucket;
use node_sets::NodeSet;

/// What the owner of a lane decides of a row.
#[derive(Clone, Copy, Debug, PartialEq, Eq)]
pub enum Decision {
    /// All of the row is read, and what is found goes to the receivers.
    RoundBegun {
        bucket: Bucket,
        receivers: NodeSet,
    },
    /// The round is over; these nodes have become complete.
    RoundEnded {
        bucket: Bucket,
        complete: NodeSet,
    },
    /// The row becomes its two children.
    RowSplit {
        bucket: Bucket,
    },
    /// The two children of the bucket become one row.
    RowsJoined {
        parent: Bucket,
    },
    /// This node is counted by searches of the row, for as long as the version lasts.
    ActiveOn {
        bucket: Bucket,
        node: u8,
    },
    /// The node's piece with this serial is to go.
    DeleteFrom {
        bucket: Bucket,
        node: u8,
        serial: u64,
    },
    /// The node answered that Delete.
    DeleteOver {
        bucket: Bucket,
        node: u8,
    },
}
