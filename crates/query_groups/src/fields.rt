ghost use Rattle.std.specs.Prelude.{◌≡◌, option_and_then};
ghost use Rattle.std.specs.FinMap as fin;
ghost use Rattle.std.specs.List.{list_any};
ghost use Rattle.std.specs.String.{string_bytes};
ghost use Rattle.doc_types.specs.declared.outputs.OutputKind.TheVariants as kinds;
ghost use Rattle.query_groups.specs.Outputs.{field_kind};
ghost use Rattle.query_groups.specs.Outputs.{output_of, same_output, is_named, groups_by, has_groups, is_free, some_free, some_left};

use doc_types::schema::FieldOf;
use doc_types::{FieldType, OutputKind, Schema};
use value_lists::TextValue;

/// What an output says of a field.
#[derive(Clone, Copy, PartialEq, Eq)]
pub enum Fold {
    Sum,
    Min,
    Max,
}

/// The output that says so of a field.
pub fn output_of(fold: Fold, field: TextValue) -> OutputKind
    ensures { result ≡ output_of fold field }
{
    match fold {
        Fold::Sum => OutputKind::Sum(field),
        Fold::Min => OutputKind::Min(field),
        Fold::Max => OutputKind::Max(field),
    }
}

/// Whether an output says so of a field.
fn is_output_of(fold: Fold, field: &str, output: &OutputKind) -> bool
    ensures { result ≡ same_output (output_of fold field.now) output.now }
{
    match (fold, output) {
        (Fold::Sum, OutputKind::Sum(other)) => field == other.text(),
        (Fold::Min, OutputKind::Min(other)) => field == other.text(),
        (Fold::Max, OutputKind::Max(other)) => field == other.text(),
        _ => false,
    }
}

/// Whether some output says so of a field.
fn is_folded(fold: Fold, field: &str, outputs: &[OutputKind]) -> bool
    ensures { result ≡ is_named (output_of fold field.now) outputs.now }
{
    outputs
        .iter()
        .any(|output| is_output_of(fold, field, output))
}

/// Whether an output counts.
fn is_count(output: &OutputKind) -> bool
    ensures { result ≡ same_output kinds.Count output.now }
{
    matches!(output, OutputKind::Count)
}

/// Whether some output counts.
pub fn is_counted(outputs: &[OutputKind]) -> bool
    ensures { result ≡ is_named kinds.Count outputs.now }
{
    outputs.iter().any(|output| is_count(output))
}

/// Whether documents are grouped by a field of a kind.
pub fn groups_by(kind: Option<FieldType>) -> bool
    ensures { result ≡ groups_by kind }
{
    matches!(kind, Some(FieldType::Int | FieldType::Text))
}

/// Whether a field is an int and isn't yet named so.
pub fn is_free(fold: Fold, outputs: &[OutputKind], field: &str, kind: Option<FieldType>) -> bool
    ensures { result ≡ is_free fold outputs.now field.now kind }
{
    match kind {
        Some(FieldType::Int) => !is_folded(fold, field, outputs),
        _ => false,
    }
}

/// Whether documents of a type are grouped by one of some fields.
fn groups_some(schema: &Schema, type_name: &str, fields: &[FieldOf]) -> bool
    ensures { result
        ≡ list_any (λ f. groups_by (field_kind schema.now type_name.now (string_bytes f.name))) fields.now }
{
    fields.iter().any(|field| groups_by(schema.field(type_name, field.name.as_str())))
}

/// Whether documents of a type are grouped by some field.
pub fn has_groups(schema: &Schema, type_name: &str) -> bool
    ensures { result ≡ has_groups schema.now type_name.now }
{
    match schema.type_named(type_name) {
        Some(found) => groups_some(schema, type_name, &found.fields),
        None => false,
    }
}

/// Whether one of some fields is an int that isn't yet named so.
fn frees_some(
    schema: &Schema,
    type_name: &str,
    outputs: &[OutputKind],
    fold: Fold,
    fields: &[FieldOf],
) -> bool
    ensures { result ≡ list_any (λ f. is_free fold outputs.now (string_bytes f.name)
        (field_kind schema.now type_name.now (string_bytes f.name))) fields.now }
{
    fields.iter().any(|field| {
        let name = field.name.as_str();
        is_free(fold, outputs, name, schema.field(type_name, name))
    })
}

/// Whether some int field of a type isn't yet named so.
pub fn some_free(schema: &Schema, type_name: &str, outputs: &[OutputKind], fold: Fold) -> bool
    ensures { result ≡ some_free schema.now type_name.now outputs.now fold }
{
    match schema.type_named(type_name) {
        Some(found) => frees_some(schema, type_name, outputs, fold, &found.fields),
        None => false,
    }
}

/// Whether an output is left.
pub fn some_left(schema: &Schema, type_name: &str, outputs: &[OutputKind]) -> bool
    ensures { result ≡ some_left schema.now type_name.now outputs.now }
{
    !is_counted(outputs)
        || some_free(schema, type_name, outputs, Fold::Sum)
        || some_free(schema, type_name, outputs, Fold::Min)
        || some_free(schema, type_name, outputs, Fold::Max)
}
