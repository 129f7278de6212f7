use upkeep_spans::Upkeep;

/// Where an upkeep stands in the journal of its lane, and what it came to.
#[derive(Clone, Copy, PartialEq, Eq)]
pub struct UpkeepSpan {
    /// How many events the journal had before it.
    pub from: u64,
    /// How many events it had behind it.
    pub to: u64,
    pub answer: Upkeep,
}
