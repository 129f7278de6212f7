use std::alloc::Global;
use value_lists::{Listed, NoMemory, TextValue, TryCopy};

/// Outputs in order.
pub type OutputKinds = Listed<OutputKind>;

/// What a search says of a group: how many documents it has, or of a field of theirs the sum, the least
/// value or the greatest.
#[derive(Drop)]
pub enum OutputKind {
    Count,
    Sum(TextValue),
    Min(TextValue),
    Max(TextValue),
}

impl TryCopy for OutputKind {
    fn copy(&self, alloc: Global) -> Result<OutputKind, NoMemory> {
        match self {
            OutputKind::Count => Ok(OutputKind::Count),
            OutputKind::Sum(field) => Ok(OutputKind::Sum(field.copy(alloc)?)),
            OutputKind::Min(field) => Ok(OutputKind::Min(field.copy(alloc)?)),
            OutputKind::Max(field) => Ok(OutputKind::Max(field.copy(alloc)?)),
        }
    }
}
