use messages::Outcome;

/// What a lane answers where a distributor is to hear the newest state.
#[derive(Clone, Copy, PartialEq, Eq)]
pub enum Hear {
    /// It holds the newest state, now or already.
    Heard { version: u32 },
    /// The operation of a line is under way there, and it holds an older state.
    Held { by: u32 },
    /// Nothing has changed.
    NoMemory,
}

/// What a lane answers to the beginning of an operation.
#[derive(Drop)]
pub enum Begin {
    /// It is under way.
    Begun,
    /// Another distributor owns the lane under the state that was held.
    Refused { outcome: Outcome },
    /// The operation of a line stands against it, and nothing has changed.
    Held { by: u32 },
    /// Nothing has changed.
    NoMemory,
}

/// What a lane answers to a call that lets an operation go on.
#[derive(Clone, Copy, PartialEq, Eq)]
pub enum Advance {
    /// It wants something more.
    More,
    /// It wants a round of its row, in which the operation of a line is prepared. Nothing has changed.
    Waits { by: u32 },
    /// It wants nothing but its end.
    Done,
    /// Memory was wanted; it will end with that.
    NoMemory,
}
