ghost use Rattle.std.specs.Prelude.{◌≡◌, ℕ, List, Option, IsTrue};
ghost use Rattle.std.specs.Option.{option_copied};
ghost use Rattle.documents.specs.Fields.{Contents};
ghost use Rattle.document_indexes.specs.Entering.{IsLent, cell_of};
ghost use Rattle.view_columns.specs.Cells.{HaveOne};

use doc_types::{FieldType, FieldValue};
use field_indexes::FieldIndex;

/// What the document of a local id has in a field, if it is of the column's type.
pub fn cell<'a>(column: Option<&'a FieldIndex>, local: u32) -> Option<&'a FieldValue>
    ensures { (name field : List ℕ) (g : ℕ → Option Contents) → IsLent name field g (option_copied column.entry)
        → option_copied result ≡ cell_of name field (g local) }
{
    match column {
        Some(index) => index.value(local),
        None => None,
    }
}

/// Whether each document has one number at most in a field.
pub fn has_one(column: Option<&FieldIndex>) -> bool
    ensures { IsTrue result → (name field : List ℕ) (g : ℕ → Option Contents) → IsLent name field g (option_copied column.entry)
        → HaveOne name field g }
{
    match column {
        Some(index) => match index.kind() {
            FieldType::IntArray => false,
            FieldType::Int | FieldType::Text | FieldType::TextArray => true,
        },
        None => true,
    }
}
