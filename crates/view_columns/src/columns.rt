ghost use Rattle.std.specs.Option.{option_copied};
ghost use Rattle.document_indexes.specs.Entering.{IsLent};
ghost use Rattle.document_rows.specs.Reading.{row_at};
ghost use Rattle.view_changes.specs.Serving.{rows_of};

use field_indexes::FieldIndex;
use view_changes::Shown;

/// What a search reads of the fields of a lane's documents. Nothing here takes memory.
pub trait Columns: Shown {
    /// What a node's documents of a type have in a field, by local id; nothing where none ever had a value there.
    fn column(&self, node: u8, type_name: &str, field: &str) -> Option<&FieldIndex>
        ensures { IsLent type_name.now field.now (row_at (rows_of node (Self.seen self.now))) (option_copied result) };
}
