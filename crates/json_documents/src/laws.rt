//! Laws of schemas, of fields and their JSON; no function here does anything.

ghost use Rattle.std.specs.Prelude.{◌≡◌, ◌↔◌, ◌≤◌, ℕ, List, Some, None, true, is_some};
ghost use Rattle.std.specs.FinMap as fin;
ghost use Rattle.serde_json.specs.Data.{Data};
ghost use Rattle.doc_types.specs.SchemaCodes.{Types};
ghost use Rattle.json_documents.specs.DocumentFaults.{document_fault};
ghost use Rattle.documents.specs.Fields.{FieldMap};
ghost use Rattle.documents.specs.Fitting.{Fits};
ghost use Rattle.documents.specs.Kinds.{kinds_of};
ghost use Rattle.json_documents.specs.Json.{fields_in, fields_json};
ghost use Rattle.documents.specs.Sizes.{largest, size_of};
ghost use Rattle.json_documents.specs.Schemas.{schema_fault};
ghost use Rattle.json_documents.specs.SchemaTexts.{IsSchema};

/// A JSON value is a schema exactly where it is an object of at most 16 types, each of which has a name and is
/// an object of at most 32 fields, each of which has a name and the word of a kind.
pub fn schemas_are_spelled()
    ensures { (d : Data) → (schema_fault (Some d) ≡ None) ↔ IsSchema d }
{}

/// Fields that a type may have are read again from their JSON, without a fault.
pub fn json_and_back()
    ensures right { (types : Types) (type_name : List ℕ) (fields : FieldMap)
        → is_some (fin.get types type_name) ≡ true
        → Fits (kinds_of types type_name) (fin.entries fields) → size_of fields ≤ largest
        → document_fault types type_name (fields_json fields) ≡ None }
    ensures same { (types : Types) (type_name : List ℕ) (fields : FieldMap)
        → Fits (kinds_of types type_name) (fin.entries fields)
        → fields_in (kinds_of types type_name) (fields_json fields) ≡ fields }
{}
