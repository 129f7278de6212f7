ghost use Rattle.std.specs.Prelude.{◌≡◌, ◌≢◌, true, Some, None, IfOk, IfErr};
ghost use Rattle.serde_json.specs.Find.{as_object};
ghost use Rattle.line_values.specs.Order.{keys_rise};
ghost use Rattle.line_values.specs.View.{view};
ghost use Rattle.document_ids.specs.Parts.{type_of};
ghost use Rattle.documents.specs.Kinds.{kinds_of};
ghost use Rattle.documents.specs.declared.fault.DocumentFault.TheVariants as reason;
ghost use Rattle.json_documents.specs.DocumentFaults.{document_fault};
ghost use Rattle.json_documents.specs.Json.{fields_in};
ghost use Rattle.json_documents.specs.Schemas.{is_object, members_in};
ghost use Rattle.json_documents.specs.Updates.{update_fault, changes_in};

use crate::members::fields_in;
use crate::words::changes_in;
use doc_types::Schema;
use doc_updates::Update;
use document_ids::DocId;
use documents::{Document, DocumentFault};
use line_values::LineValue;
use std::alloc::Global;

/// The document that an object of a line says, by a schema: of each field what the member of its name has,
/// `null` for none. The fault is the first that holds, in the order of `DocumentFault`, with the
/// least name.
pub fn document_from_line(
    alloc: Global,
    id: DocId,
    fields: &LineValue<'_>,
    schema: &Schema,
) -> Result<Document, DocumentFault>
    requires object { is_object (view fields.now) ≡ true }
    requires rising { keys_rise (view fields.now) ≡ true }
    ensures read { IfOk result (λ document.
        (document_fault schema.now (type_of id) (members_in (as_object (view fields.now))) ≡ None)
        × (document ≡ record {
          id = id;
          fields = fields_in (kinds_of schema.now (type_of id))
              (members_in (as_object (view fields.now)));
        })) }
    ensures refused { IfErr result (λ fault. (fault ≢ reason.NoMemory)
        → (document_fault schema.now (type_of id) (members_in (as_object (view fields.now)))
        ≡ Some fault)) }
{
    if !schema.has_type(id.type_name()) {
        return Err(DocumentFault::UnknownType);
    }
    let Some(members) = fields.as_object() else {
        unreachable!()
    };
    let list = fields_in(alloc, members, id.type_name(), schema)?;
    Document::of(id, list)
}

/// The update that an object of a line says of a document of this id, by a schema: for each field an object
/// with exactly one word. The fault is the first that holds, in the order of `DocumentFault`, with
/// the least name; an update is never too large.
pub fn update_from_line(
    alloc: Global,
    id: &DocId,
    fields: &LineValue<'_>,
    schema: &Schema,
) -> Result<Update, DocumentFault>
    requires object { is_object (view fields.now) ≡ true }
    requires rising { keys_rise (view fields.now) ≡ true }
    ensures read { IfOk result (λ update.
        (update_fault schema.now (type_of id.now) (members_in (as_object (view fields.now))) ≡ None)
        × (update ≡ changes_in (kinds_of schema.now (type_of id.now))
        (members_in (as_object (view fields.now))))) }
    ensures refused { IfErr result (λ fault. (fault ≢ reason.NoMemory)
        → (update_fault schema.now (type_of id.now) (members_in (as_object (view fields.now)))
        ≡ Some fault)) }
{
    if !schema.has_type(id.type_name()) {
        return Err(DocumentFault::UnknownType);
    }
    let Some(members) = fields.as_object() else {
        unreachable!()
    };
    let list = changes_in(alloc, members, id.type_name(), schema)?;
    Ok(Update::of(alloc, list)?)
}
