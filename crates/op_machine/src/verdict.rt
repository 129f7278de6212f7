use documents::SharedEntry;
use messages::Outcome;

/// What an operation comes to by what it saw.
#[derive(Drop)]
pub enum Verdict {
    /// It is over.
    Ends { outcome: Outcome },
    /// It goes ahead, and this entry is to be stored.
    Writes { entry: SharedEntry },
}
