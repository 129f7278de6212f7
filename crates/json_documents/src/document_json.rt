ghost use Rattle.std.specs.Prelude.{◌≡◌, ◌≢◌, true, Some, None, IfOk, IfErr};
ghost use Rattle.serde_json.specs.Data.{object};
ghost use Rattle.serde_json.specs.Find.{as_object};
ghost use Rattle.serde_json.specs.View.{view};
ghost use Rattle.document_ids.specs.Parts.{type_of};
ghost use Rattle.documents.specs.Kinds.{kinds_of};
ghost use Rattle.documents.specs.declared.fault.DocumentFault.TheVariants as reason;
ghost use Rattle.json_documents.specs.DocumentFaults.{document_fault};
ghost use Rattle.json_documents.specs.Json.{fields_in, fields_json};
ghost use Rattle.json_documents.specs.Schemas.{is_object, members_in};

use crate::line_json::document_from_line;
use crate::written::members_json;
use doc_types::Schema;
use document_ids::DocId;
use documents::{Document, DocumentFault};
use line_values::lent;
use serde_json::Value;
use std::alloc::Global;
use value_lists::NoMemory;

/// The document that an object says, by a schema: of each field what the member of its name has,
/// `null` for none. The fault is the first that holds, in the order of `DocumentFault`, with the
/// least name.
pub fn document_from_json(
    alloc: Global,
    id: DocId,
    fields: &Value,
    schema: &Schema,
) -> Result<Document, DocumentFault>
    requires object { is_object (view fields.now) ≡ true }
    ensures read { IfOk result (λ document.
        (document_fault schema.now (type_of id) (members_in (as_object (view fields.now))) ≡ None)
        × (document ≡ record {
          id = id;
          fields = fields_in (kinds_of schema.now (type_of id))
              (members_in (as_object (view fields.now)));
        })) }
    ensures refused { IfErr result (λ fault. (fault ≢ reason.NoMemory)
        → (document_fault schema.now (type_of id) (members_in (as_object (view fields.now)))
        ≡ Some fault)) }
{
    let fields = lent(alloc, fields)?;
    document_from_line(alloc, id, &fields, schema)
}

/// All fields of a document in JSON, in the order of their names.
pub fn fields_json(alloc: Global, document: &Document) -> Result<Value, NoMemory>
    ensures { IfOk result (λ json. view json ≡ object (fields_json document.now.fields)) }
{
    Ok(Value::Object(members_json(alloc, document.fields())?))
}
