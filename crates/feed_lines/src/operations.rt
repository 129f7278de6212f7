ghost use Rattle.std.specs.Prelude.{◌≡◌, IfSome, true, Ok, Err, Some, option_map, if◌then◌else◌};
ghost use Rattle.line_values.specs.Order.{keys_rise, HasRising};
ghost use Rattle.line_values.specs.View.{view};
ghost use Rattle.json_documents.specs.Schemas.{is_object};
ghost use Rattle.feed_lines.specs.Meaning.{kind_said, id_said, feed_said, Gives, cause_of};
ghost use Rattle.feed_lines.specs.Tests.{has_type, beside_of};
ghost use Rattle.feed_lines.specs.declared.command.Cause.TheVariants as cause;
ghost use Rattle.feed_lines.specs.declared.keys.Verb.TheVariants as verb;

use crate::command::{Cause, Command, LineFault};
use crate::keys::Verb;
use crate::options::{are_options, bad, condition_said, create_in, fault_by, via_in};
use crate::shape::id_in;
use doc_types::Schema;
use document_ids::DocId;
use documents::DocumentFault;
use json_documents::{document_from_line, update_from_line};
use line_values::LineValue;
use messages::{OpKind, Operation};
use std::alloc::Global;
use value_lists::TryCopy;

/// The cause that a fault of the fields is.
fn cause_of(fault: DocumentFault) -> LineFault
    ensures { result ≡ cause_of fault }
{
    let cause = match fault {
        DocumentFault::UnknownType => Cause::Type,
        DocumentFault::UnknownField { .. } => Cause::Field,
        DocumentFault::WrongValue { .. } => Cause::Value,
        DocumentFault::TooLarge { .. } => Cause::Size,
        DocumentFault::NoMemory => return LineFault::NoMemory,
    };
    LineFault::BadLine { cause }
}

/// The cause where `fields` is no object.
fn no_object(id: &DocId, schema: &Schema) -> Cause
    ensures { result ≡ (if has_type schema.now id.now then cause.Value else cause.Type) }
{
    if schema.has_type(id.type_name()) {
        Cause::Value
    } else {
        Cause::Type
    }
}

/// The put of a document with the fields that an object says.
fn put_object(
    alloc: Global,
    id: &DocId,
    fields: &LineValue<'_>,
    schema: &Schema,
) -> Result<OpKind, LineFault>
    requires object { is_object (view fields.now) ≡ true }
    requires rising { keys_rise (view fields.now) ≡ true }
    ensures { Gives result (kind_said schema.now verb.Put id.now (Some (view fields.now))) }
{
    match document_from_line(alloc, id.copy(alloc)?, fields, schema) {
        Ok(document) => Ok(OpKind::Put(document)),
        Err(fault) => Err(cause_of(fault)),
    }
}

/// The update of a document by what an object says.
fn update_object(
    alloc: Global,
    id: &DocId,
    fields: &LineValue<'_>,
    schema: &Schema,
) -> Result<OpKind, LineFault>
    requires object { is_object (view fields.now) ≡ true }
    requires rising { keys_rise (view fields.now) ≡ true }
    ensures { Gives result (kind_said schema.now verb.Update id.now (Some (view fields.now))) }
{
    match update_from_line(alloc, id, fields, schema) {
        Ok(update) => Ok(OpKind::Update(update)),
        Err(fault) => Err(cause_of(fault)),
    }
}

/// The put of a document with these fields.
fn put_value(
    alloc: Global,
    id: &DocId,
    fields: &LineValue<'_>,
    schema: &Schema,
) -> Result<OpKind, LineFault>
    requires { keys_rise (view fields.now) ≡ true }
    ensures { Gives result (kind_said schema.now verb.Put id.now (Some (view fields.now))) }
{
    if !fields.is_object() {
        return Err(bad(no_object(id, schema)));
    }
    put_object(alloc, id, fields, schema)
}

/// The update of a document by these fields.
fn update_value(
    alloc: Global,
    id: &DocId,
    fields: &LineValue<'_>,
    schema: &Schema,
) -> Result<OpKind, LineFault>
    requires { keys_rise (view fields.now) ≡ true }
    ensures { Gives result (kind_said schema.now verb.Update id.now (Some (view fields.now))) }
{
    if !fields.is_object() {
        return Err(bad(no_object(id, schema)));
    }
    update_object(alloc, id, fields, schema)
}

/// The put of a document, where there are fields.
fn put_kind(
    alloc: Global,
    id: &DocId,
    fields: Option<&LineValue<'_>>,
    schema: &Schema,
) -> Result<OpKind, LineFault>
    requires { IfSome fields (λ v. keys_rise (view v.now) ≡ true) }
    ensures { Gives result (kind_said schema.now verb.Put id.now (option_map (λ v. view v.now) fields.entry)) }
{
    match fields {
        Some(fields) => put_value(alloc, id, fields, schema),
        None => Err(bad(no_object(id, schema))),
    }
}

/// The update of a document, where there are fields.
fn update_kind(
    alloc: Global,
    id: &DocId,
    fields: Option<&LineValue<'_>>,
    schema: &Schema,
) -> Result<OpKind, LineFault>
    requires { IfSome fields (λ v. keys_rise (view v.now) ≡ true) }
    ensures { Gives result (kind_said schema.now verb.Update id.now (option_map (λ v. view v.now) fields.entry)) }
{
    match fields {
        Some(fields) => update_value(alloc, id, fields, schema),
        None => Err(bad(no_object(id, schema))),
    }
}

/// What is done without fields with a document of a type of the schema.
fn typed(id: &DocId, kind: OpKind, schema: &Schema) -> Result<OpKind, LineFault>
    ensures { Gives result (if has_type schema.now id.now then Ok kind else Err cause.Type) }
{
    if !schema.has_type(id.type_name()) {
        return Err(bad(Cause::Type));
    }
    Ok(kind)
}

/// What is done with a document of this id.
fn kind_said(
    alloc: Global,
    verb: Verb,
    id: &DocId,
    fields: Option<&LineValue<'_>>,
    schema: &Schema,
) -> Result<OpKind, LineFault>
    requires { IfSome fields (λ v. keys_rise (view v.now) ≡ true) }
    ensures { Gives result (kind_said schema.now verb id.now (option_map (λ v. view v.now) fields.entry)) }
{
    match verb {
        Verb::Put => put_kind(alloc, id, fields, schema),
        Verb::Update => update_kind(alloc, id, fields, schema),
        Verb::Remove => typed(id, OpKind::Remove, schema),
        Verb::Get => typed(id, OpKind::Get, schema),
    }
}

/// What is asked of a document of this id. A wrong `condition`, `create` or `via` comes before the size of
/// the document, and a condition that is no selection behind it.
fn id_command(
    alloc: Global,
    verb: Verb,
    id: DocId,
    line: &LineValue<'_>,
    schema: &Schema,
) -> Result<Command, LineFault>
    requires { HasRising (view line.now) }
    ensures { Gives result (id_said schema.now verb id (beside_of (view line.now))) }
{
    let condition = line.get("condition");
    let create = line.get("create");
    let via = line.get("via");
    let right = are_options(condition, create, via);
    let kind = match kind_said(alloc, verb, &id, line.get("fields"), schema) {
        Ok(kind) => kind,
        Err(fault) => return Err(fault_by(right, fault)),
    };
    if !right {
        return Err(bad(Cause::Value));
    }
    let condition = match condition_said(alloc, condition, schema) {
        Ok(condition) => condition,
        Err(fault) => return Err(fault),
    };
    Ok(Command::Feed {
        operation: Operation {
            id,
            kind,
            condition,
            create: create_in(create),
        },
        via: via_in(via),
    })
}

/// The operation that a line of a verb asks for.
pub fn feed_command(
    alloc: Global,
    verb: Verb,
    line: &LineValue<'_>,
    schema: &Schema,
) -> Result<Command, LineFault>
    requires { HasRising (view line.now) }
    ensures { Gives result (feed_said schema.now verb (view line.now)) }
{
    match id_in(alloc, verb, line)? {
        Some(id) => id_command(alloc, verb, id, line, schema),
        None => Err(bad(Cause::Id)),
    }
}
