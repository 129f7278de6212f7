use std::alloc::Global;
use value_lists::{Listed, NoMemory, TryCopy};

/// What becomes of a message.
#[derive(Clone, Copy, Debug, PartialEq, Eq)]
pub enum Fate {
    /// It is delivered, and its reply is returned.
    Deliver,
    /// It isn't delivered.
    LoseRequest,
    /// It is delivered, and nothing is returned.
    LoseReply,
    /// It is delivered, its reply is returned, and it is delivered again.
    Twice,
    /// Nothing is returned, and it is delivered after so many further messages of its lane.
    Late(u32),
}

/// Fates of messages that follow each other.
pub type FateList = Listed<Fate>;

impl TryCopy for Fate {
    fn copy(&self, _alloc: Global) -> Result<Fate, NoMemory> {
        Ok(*self)
    }
}
