use bucket_ids::Bucket;
use messages::{Body, Decision};

/// A pass joins and settles twice, the second time only the rows that joins made then.
#[derive(Clone, Copy, PartialEq, Eq)]
pub enum Time {
    First,
    Again,
}

/// What comes next for a row that is settled; `node` is the one that may be told next.
#[derive(Clone, Copy, PartialEq, Eq)]
pub enum Settle {
    /// Whether it is to be settled at all.
    Beginning,
    /// Split or Join to the nodes whose pieces stand askew; and whether any was told one.
    Aligning { node: u8, any: bool },
    /// One more round, if any was.
    AlignRound,
    /// Ready; and whether the node that is to be active answered it.
    Readying { node: u8, ready: bool },
    /// That node becomes the active one.
    Deciding { ready: bool },
    /// Activate to the active node.
    Activating,
    /// Whether it accepted.
    Accepting { answered: bool },
    /// Deletes: a mark falls,
    Deleting { node: u8 },
    /// the node is told,
    DeleteTold { node: u8 },
    /// and that is over.
    DeleteOver { node: u8 },
}

/// Where a pass stands; `at` is a place in the list of rows, and `node` the one that may be told next.
#[derive(Clone, Copy, PartialEq, Eq)]
pub enum Doing {
    /// The unanswered Delete of the row of a place is sent again,
    ResendingDelete {
        at: usize,
    },
    /// and is over.
    ResentDelete {
        at: usize,
    },
    /// The active node of the row of a place is told so again, unless it accepted;
    ResendingActivate {
        at: usize,
    },
    /// and whether it answered now.
    ResentActivate {
        at: usize,
        answered: bool,
    },
    /// A round of the row of a place.
    Rounding {
        at: usize,
    },
    /// The row of a place, of so many bits, is joined with its sibling if both are small:
    Joining {
        time: Time,
        bits: u8,
        at: usize,
    },
    /// each node is told of the row that they made,
    JoinTold {
        time: Time,
        bits: u8,
        at: usize,
        parent: Bucket,
        node: u8,
    },
    /// and that has a round.
    JoinRound {
        time: Time,
        bits: u8,
        at: usize,
        parent: Bucket,
    },
    /// The row of a place is split, if it has too many documents:
    Splitting {
        at: usize,
    },
    /// each node is told of the first half,
    SplitTold {
        at: usize,
        first: Bucket,
        second: Bucket,
        node: u8,
    },
    /// and both have a round.
    SplitFirst {
        at: usize,
        first: Bucket,
        second: Bucket,
    },
    SplitSecond {
        at: usize,
        second: Bucket,
    },
    /// The row of a place is settled.
    Settling {
        time: Time,
        at: usize,
        next: Settle,
    },
    Finished,
}

/// What meets the lane.
#[derive(Drop)]
pub enum UpkeepStep {
    /// This is said to a node; `answer` is told whether it took it, or whether a Delete is over by its reply.
    Tell { node: u8, body: Body },
    /// This is decided of the row of a place; `decided` is told when it is.
    Decide { at: usize, decision: Decision },
    /// That the active node of the row of a place accepted is noted; `accepted` is told when it is.
    Accept { at: usize },
    /// A round of the row of a place is run; `round_over` is told what it showed.
    Round { at: usize },
    /// The pass is over.
    Finished,
}

/// What comes where the machine stands: it goes over to something else at once, or this step comes.
#[derive(Drop)]
pub enum Turn {
    Over(Doing),
    Says(UpkeepStep),
}
