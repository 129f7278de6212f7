use entry_maps::EntryMap;
use pieces::PieceList;
use std::alloc::Global;
use value_lists::{NoMemory, TryCopy};

/// What a node replies.
#[derive(Drop)]
pub enum Reply {
    /// The message was taken; what it asks to see.
    Answer {
        pieces: PieceList,
        entries: EntryMap,
    },
    /// The node has taken a message of this greater version.
    Newer {
        version: u32,
    },
    /// No piece is there.
    NoBucket,
    /// A piece is there, and isn't the one that was named.
    Differs,
    NoMemory,
}

impl TryCopy for Reply {
    /// Entries are shared.
    fn copy(&self, alloc: Global) -> Result<Reply, NoMemory> {
        match self {
            Reply::Answer { pieces, entries } => Ok(Reply::Answer {
                pieces: pieces.copy(alloc)?,
                entries: entries.copy(alloc)?,
            }),
            Reply::Newer { version } => Ok(Reply::Newer { version: *version }),
            Reply::NoBucket => Ok(Reply::NoBucket),
            Reply::Differs => Ok(Reply::Differs),
            Reply::NoMemory => Ok(Reply::NoMemory),
        }
    }
}
