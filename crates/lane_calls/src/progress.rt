use messages::{Outcome, SharedOperation};

/// How far the operation is that is under way.
#[derive(Drop)]
pub enum Progress {
    /// It was begun, and nothing was done for it.
    Begun,
    /// It is prepared in its row, and wants something more.
    Runs,
    /// It wants nothing but its end, with this outcome.
    Over { outcome: Outcome },
    /// Memory was wanted.
    Short,
}

/// What a lane says of an operation that is under way there.
#[derive(Drop)]
pub struct UnderWay {
    pub line: u32,
    pub operation: SharedOperation,
    /// The distributor at which it was begun.
    pub distributor: u8,
    pub progress: Progress,
    /// So many calls of `advance` at most are still to come.
    pub left: u8,
}
