/// What an upkeep comes to.
#[derive(Clone, Copy, Debug, PartialEq, Eq)]
pub enum Upkeep {
    /// Each message that was sent came back, and no late one was delivered.
    Rested,
    /// No late message was delivered, and the first message that didn't come back was sent to this node.
    Blocked { absent: u8 },
    /// A late message was delivered: the first such has this number.
    Disturbed { message: u64 },
    /// The operation of this line is under way, so nothing was done.
    Held { by: u32 },
    /// Memory was wanted; what was done until then stays.
    NoMemory,
}
