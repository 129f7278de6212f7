use doc_types::{FieldValue, IntList, TextList};
use value_lists::TextValue;

/// What an update does to one field.
#[derive(Drop)]
pub enum Change {
    /// The field has this value.
    Assign { value: FieldValue },
    /// The field has no value.
    Clear,
    /// So much is added to its number.
    Increment { by: i64 },
    /// So much is taken from its number.
    Decrement { by: i64 },
    /// Its number is multiplied.
    Multiply { by: i64 },
    /// Its number is divided, toward zero.
    Divide { by: i64 },
    /// These numbers go behind its list.
    AddNumbers { items: IntList },
    /// These texts go behind its list.
    AddTexts { items: TextList },
}

/// A change of the field of a name.
#[derive(Drop)]
pub struct Named {
    pub name: TextValue,
    pub change: Change,
}
