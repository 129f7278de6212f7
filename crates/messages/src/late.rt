use crate::Message;

/// A message that is delivered late.
#[derive(Drop)]
pub struct Late {
    /// The number of the message behind which it is delivered.
    pub due: u64,
    /// Its own number.
    pub number: u64,
    pub message: Message,
}
