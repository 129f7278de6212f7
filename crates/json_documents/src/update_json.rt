ghost use Rattle.std.specs.Prelude.{◌≡◌, ◌≢◌, true, Some, None, IfOk, IfErr};
ghost use Rattle.serde_json.specs.Find.{as_object};
ghost use Rattle.serde_json.specs.View.{view};
ghost use Rattle.document_ids.specs.Parts.{type_of};
ghost use Rattle.documents.specs.Kinds.{kinds_of};
ghost use Rattle.documents.specs.declared.fault.DocumentFault.TheVariants as reason;
ghost use Rattle.json_documents.specs.Schemas.{is_object, members_in};
ghost use Rattle.json_documents.specs.Updates.{update_fault, changes_in};

use crate::line_json::update_from_line;
use doc_types::Schema;
use doc_updates::Update;
use document_ids::DocId;
use documents::DocumentFault;
use line_values::lent;
use serde_json::Value;
use std::alloc::Global;

/// The update that an object says of a document of this id, by a schema: for each field an object
/// with exactly one word. The fault is the first that holds, in the order of `DocumentFault`, with
/// the least name; an update is never too large.
pub fn update_from_json(
    alloc: Global,
    id: &DocId,
    fields: &Value,
    schema: &Schema,
) -> Result<Update, DocumentFault>
    requires object { is_object (view fields.now) ≡ true }
    ensures read { IfOk result (λ update.
        (update_fault schema.now (type_of id.now) (members_in (as_object (view fields.now))) ≡ None)
        × (update ≡ changes_in (kinds_of schema.now (type_of id.now))
        (members_in (as_object (view fields.now))))) }
    ensures refused { IfErr result (λ fault. (fault ≢ reason.NoMemory)
        → (update_fault schema.now (type_of id.now) (members_in (as_object (view fields.now)))
        ≡ Some fault)) }
{
    let fields = lent(alloc, fields)?;
    update_from_line(alloc, id, &fields, schema)
}
