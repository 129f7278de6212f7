use doc_updates::UpdateFault;
use document_ids::DocId;
use documents::Document;
use feed_lines::Cause;
use query_groups::SearchAnswer;
use stamps::Stamp;

/// What a line is answered.
#[derive(Drop)]
pub enum Answer {
    /// The entry of this stamp is stored.
    Acked {
        stamp: Stamp,
    },
    /// The document, in the entry of this stamp.
    Found {
        id: DocId,
        document: Document,
        stamp: Stamp,
    },
    /// There is no document; what was seen instead, if anything, is the remove of this stamp.
    Missing {
        seen: Option<Stamp>,
    },
    /// An update without a document to change; nothing is stored.
    Nothing,
    /// The condition isn't true of the document, or there is none; the newest entry that was seen, if any,
    /// has this stamp.
    ConditionFailed {
        seen: Option<Stamp>,
    },
    /// The document can't have the update, for this fault.
    BadUpdate {
        fault: UpdateFault,
    },
    /// So many nodes answered where so many were needed; the absent one is the first to look for.
    TooFew {
        answered: u8,
        needed: u8,
        absent: u8,
    },
    /// The document's lane belongs to another distributor under this version.
    OwnedElsewhere {
        owner: u8,
        version: u32,
    },
    /// The operation wanted memory.
    NoMemory,
    /// The line can't be dealt with.
    BadLine {
        cause: Cause,
    },
    /// The line has more bytes than a line may have.
    TooLong,
    /// What the documents are that a query found.
    Search {
        answer: SearchAnswer,
    },
    /// The text is no query; it is the front of one up to this place.
    BadQuery {
        offset: u32,
    },
    /// The state of this version is published.
    Published {
        version: u32,
    },
    /// The text is no state; it is one up to this place.
    BadState {
        offset: u32,
    },
    /// The state isn't newer than the last one, of this version.
    NotNewer {
        have: u32,
    },
    /// The state has no distributor that is up.
    NoDistributor,
    /// The state has so few storage nodes up where a write needs so many.
    TooFewUp {
        up: u8,
        acks: u8,
    },
    /// Under the state so many nodes would be out that a write of so many acknowledgements may be on them
    /// alone.
    TooManyOut {
        out: u8,
        acks: u8,
    },
    /// The node is stopped.
    Stopped {
        node: u8,
    },
    /// The node runs.
    Started {
        node: u8,
    },
    /// The fates are planned, or the carrier takes no plans.
    Planned {
        taken: bool,
    },
    /// What was asked before is answered.
    Barrier,
    /// Upkeep was made in so many lanes: in so many of them to the end, in so many an answer was missing, and in so
    /// many a late message came.
    Maintained {
        lanes: u8,
        rested: u8,
        blocked: u8,
        disturbed: u8,
    },
}
