/// What a lane is set up with.
#[derive(Clone, Copy, PartialEq, Eq)]
pub struct Rules {
    /// How many replicas a document is to have.
    pub redundancy: u8,
    /// How many replicas must have a write before it is acknowledged.
    pub acks: u8,
    /// How many replicas are to be ready for searches.
    pub searchable: u8,
    /// How many documents a row may have before it is split.
    pub split_at: u32,
}
