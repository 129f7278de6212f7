use doc_types::{FieldValue, OutputKind};
use value_lists::Listed;

/// Outputs in the order in which the query names them.
pub type OutputList = Listed<Output>;

/// Groups, rising by value.
pub type GroupList = Listed<Group>;

/// What is said of a group.
#[derive(Drop)]
pub struct Output {
    pub kind: OutputKind,
    /// The count, the sum, the least number or the greatest; none where no document of the group has a number there.
    pub value: Option<i128>,
}

/// The documents that have one value in the field by which a query groups.
#[derive(Drop)]
pub struct Group {
    /// A number or a text.
    pub value: FieldValue,
    /// How many documents.
    pub count: u64,
    pub outputs: OutputList,
}

/// The answer of a search.
#[derive(Drop)]
pub struct SearchAnswer {
    /// Nodes at this version were searched.
    pub version: u32,
    /// How many documents were found.
    pub count: u64,
    /// How many keys the regions of these nodes have, of 2^58.
    pub covered: u64,
    /// Whether these are all keys.
    pub full: bool,
    /// None where the query names no group.
    pub groups: GroupList,
}
