ghost use Rattle.std.specs.Prelude.{◌≡◌, T, Some, None, IfOk, IfErr, OnOk, OnErr, option_map};
ghost use Rattle.std.specs.FinMap as fin;
ghost use Rattle.doc_types.specs.SchemaCodes.{name_cmp};
ghost use Rattle.documents.specs.Faults.{size_fault};
ghost use Rattle.documents.specs.Fields.{pairs};
ghost use Rattle.documents.specs.Sizes.{size_of};

use crate::fault::DocumentFault;
use crate::field::SharedField;
use crate::field_lists::{clear_in, field_of, put_in};
use crate::sizes::fields_size;
use doc_types::FieldValue;
use document_ids::DocId;
use std::alloc::Global;
use std::marker::Model;
use value_lists::{NoMemory, TryCopy, copy_all};

/// The largest size that a put or an update may leave.
pub const LARGEST: u64 = 65_536;

/// The most items of a list.
pub const MOST_ITEMS: usize = 256;

/// A document: its id, and what its fields have.
#[derive(Drop)]
pub struct Document {
    id: DocId,
    fields: Vec<SharedField>,
}

impl Model for Document {
    ghost use Rattle.std.specs.Prelude.{T};
    ghost use Rattle.std.specs.FinMap as fin;
    ghost use Rattle.doc_types.specs.SchemaCodes.{name_cmp};
    ghost use Rattle.documents.specs.Fields.{Contents, contents_code, pairs};

    ghost Value = { Contents };

    ghost coded = { contents_code };

    ghost view = { λ d. record { id = d.id; fields = fin.from_sorted (pairs d.fields.items) } };

    ghost invariant = { λ d. T (fin.is_sorted name_cmp (pairs d.fields.items)) };
}

impl Document {
    /// The document without fields.
    pub fn empty(alloc: Global, id: DocId) -> Document
        ensures id { result.id ≡ id }
        ensures fields { result.fields ≡ fin.empty }
    {
        Document {
            id,
            fields: Vec::new(alloc),
        }
    }

    /// The document of these fields, in the order of their names, if it isn't too large.
    pub fn of(id: DocId, fields: Vec<SharedField>) -> Result<Document, DocumentFault>
        requires sorted { T (fin.is_sorted name_cmp (pairs fields.items)) }
        ensures read { IfOk result (λ document. (size_fault (fin.from_entries (pairs fields.items)) ≡ None)
            × (document ≡ record { id = id; fields = fin.from_entries (pairs fields.items) })) }
        ensures refused { IfErr result (λ fault. size_fault (fin.from_entries (pairs fields.items))
            ≡ Some fault) }
    {
        let document = Document { id, fields };
        let size = document.size();
        if size > LARGEST {
            return Err(DocumentFault::TooLarge { size });
        }
        Ok(document)
    }

    /// All fields in the order of their names.
    pub fn fields(&self) -> &[SharedField]
        ensures { pairs result.now ≡ fin.entries self.now.fields }
    {
        &self.fields
    }

    /// Its id.
    pub fn id(&self) -> &DocId
        ensures { result.now ≡ self.now.id }
    {
        &self.id
    }

    /// What a field has.
    pub fn get(&self, field: &str) -> Option<&FieldValue>
        ensures { option_map (λ value. value.now) result ≡ fin.get self.now.fields field.now }
    {
        match field_of(&self.fields, field) {
            Some(field) => Some(field.value()),
            None => None,
        }
    }

    /// Gives a field a value.
    pub fn set(&mut self, alloc: Global, field: &str, value: FieldValue) -> Result<(), NoMemory>
        ensures id { self.new.id ≡ self.old.id }
        ensures ok { OnOk result (self.new.fields ≡ fin.insert self.old.fields field.now value) }
        ensures err { OnErr result (self.new ≡ self.old) }
    {
        let field = SharedField::of(alloc, field, value)?;
        put_in(&mut self.fields, field)?;
        Ok(())
    }

    /// Leaves a field without a value.
    pub fn clear(&mut self, field: &str)
        ensures id { self.new.id ≡ self.old.id }
        ensures fields { self.new.fields ≡ fin.remove self.old.fields field.now }
    {
        clear_in(&mut self.fields, field);
    }

    /// The bytes of the names and values: for each field its name, 8, and for a text its bytes, for a
    /// list 8 an item and the bytes of each; at most 2^64 - 1.
    pub fn size(&self) -> u64
        ensures { result ≡ size_of self.now.fields }
    {
        fields_size(&self.fields)
    }
}

impl TryCopy for Document {
    fn copy(&self, alloc: Global) -> Result<Document, NoMemory> {
        Ok(Document {
            id: self.id.copy(alloc)?,
            fields: copy_all(alloc, &self.fields)?,
        })
    }
}
