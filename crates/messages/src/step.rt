use crate::decision::Decision;
use crate::lists::BucketList;
use crate::message::Message;
use node_sets::NodeSet;
use pieces::PieceList;

/// What the owner of a lane is to do there.
#[derive(Clone, Copy, PartialEq, Eq)]
pub enum Job {
    /// The row of a key is made fit for an operation.
    Prepare { key: u64 },
    /// One pass that brings the lane towards rest.
    Upkeep,
}

/// The next step of a job.
#[derive(Drop)]
pub enum Step {
    /// This message is sent; its answer, or that none came, is told before the next step.
    Send(Message),
    /// The state is opened with these rows.
    Open { rows: BucketList },
    /// This is decided.
    Decide(Decision),
    /// The job is over, and these nodes were asked and didn't answer.
    Finished { missing: NodeSet },
}

/// What one node's answer in a round showed.
#[derive(Drop)]
pub struct NodePieces {
    pub node: u8,
    pub pieces: PieceList,
    /// Whether it showed an entry.
    pub entries: bool,
}
