use bucket_db::Row;
use cluster_states::ClusterState;
use merge_rounds::Round;
use node_sets::NodeSet;

/// A round under way, and whose it is.
#[derive(Drop)]
pub struct RoundRun {
    pub distributor: u8,
    pub state: ClusterState,
    /// The key whose row it is for.
    pub key: u64,
    pub round: Round,
    /// Whether a node that was asked for the row replied that it wants memory.
    pub unread: bool,
    /// Whether one that was to take the union did.
    pub unapplied: bool,
}

/// What a round came to.
#[derive(Drop)]
pub struct RoundEnd {
    /// The row of the key with its marks.
    pub row: Row,
    /// Whether each reader has answered, so that there was a union.
    pub whole: bool,
    /// The nodes that were asked last and didn't answer: for the union if there was one, else for the row.
    pub missing: NodeSet,
    /// Whether one of those asked last replied that it wants memory.
    pub short: bool,
}
