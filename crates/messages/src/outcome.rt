use doc_updates::UpdateFault;
use stamps::Stamp;
use std::alloc::Global;
use value_lists::{NoMemory, TryCopy};

/// How an operation ended. What was seen is the stamp of the newest entry of the document that was shown,
/// or none.
#[derive(Debug, Drop)]
pub enum Outcome {
    /// The entry of this stamp is stored.
    Acked {
        stamp: Stamp,
    },
    /// The update saw no document; what was seen instead, if anything, is the remove of this stamp.
    Nothing {
        seen: Option<Stamp>,
    },
    /// The document is in the entry of this stamp.
    Found {
        stamp: Stamp,
    },
    /// There is no document; what was seen instead, if anything, is the remove of this stamp.
    Missing {
        seen: Option<Stamp>,
    },
    /// The condition isn't true of the document that was seen, or no document was.
    ConditionFailed {
        seen: Option<Stamp>,
    },
    /// The document that was seen can't have the update, for this fault.
    BadUpdate {
        fault: UpdateFault,
    },
    /// So many nodes answered where so many were needed; the absent one is the first to look for: the
    /// active node where it was asked and didn't answer, else the lowest node that didn't.
    TooFew {
        answered: u8,
        needed: u8,
        absent: u8,
    },
    /// The lane belongs to another distributor under this version.
    OwnedElsewhere {
        owner: u8,
        version: u32,
    },
    /// Memory was wanted, here or by a node that was asked where too few answered.
    NoMemory,
}

impl TryCopy for Outcome {
    fn copy(&self, alloc: Global) -> Result<Outcome, NoMemory> {
        match self {
            Outcome::Acked { stamp } => Ok(Outcome::Acked { stamp: *stamp }),
            Outcome::Nothing { seen } => Ok(Outcome::Nothing { seen: *seen }),
            Outcome::Found { stamp } => Ok(Outcome::Found { stamp: *stamp }),
            Outcome::Missing { seen } => Ok(Outcome::Missing { seen: *seen }),
            Outcome::ConditionFailed { seen } => Ok(Outcome::ConditionFailed { seen: *seen }),
            Outcome::BadUpdate { fault } => Ok(Outcome::BadUpdate {
                fault: fault.copy(alloc)?,
            }),
            Outcome::TooFew {
                answered,
                needed,
                absent,
            } => Ok(Outcome::TooFew {
                answered: *answered,
                needed: *needed,
                absent: *absent,
            }),
            Outcome::OwnedElsewhere { owner, version } => Ok(Outcome::OwnedElsewhere {
                owner: *owner,
                version: *version,
            }),
            Outcome::NoMemory => Ok(Outcome::NoMemory),
        }
    }
}
