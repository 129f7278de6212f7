ghost use Rattle.std.specs.Prelude.{◌≡◌, IfOk};

use doc_types::{OutputKinds, TextValue};
use std::alloc::Global;
use value_lists::NoMemory;

/// How the documents that are found are grouped, and what is said of each group.
#[derive(Drop)]
pub struct GroupBy {
    /// The field whose value they share.
    pub field: TextValue,
    pub outputs: OutputKinds,
}

/// A name that is kept.
pub fn kept(alloc: Global, name: &str) -> Result<TextValue, NoMemory>
    ensures { IfOk result (λ text. text ≡ name.now) }
{
    Ok(TextValue::of(String::from_str(alloc, name)?))
}
