ghost use Rattle.std.specs.Prelude.{◌≡◌, ◌<◌, ◌≤◌, ◌↔◌, ◌^◌, ◌+◌, ℕ, ℤ, false, Some, None, [], length, take, option_map, vec_len, vec_capacity, IfNone, IfOk, IfSome, OnOk, OnErr};
ghost use Rattle.std.specs.Int.Signed.{◌≤ℤ◌, ◌<ℤ◌};
ghost use Rattle.std.specs.Option.{option_copied};
ghost use Rattle.local_ids.specs.Rising.{IsRising};
ghost use Rattle.global_ids.specs.Keys.{key_of};
ghost use Rattle.document_indexes.specs.Entering.{cell_of, IsLent};
ghost use Rattle.document_rows.specs.Rows.{AreDistinct, has_row, without, with_document, taken_into};
ghost use Rattle.document_rows.specs.Reading.{row_at, value_at, places_where, is_any, is_of_type, has_token, has_number_in, IsWide};
ghost use Rattle.node_rows.specs.Kept.{document_in, documents_in, IsProper, set_at, put_new, by_body, kept_in};
ghost use Rattle.node_rows.specs.TypedRows.{with_rows, lies_in, without_in, all_taken, all_left, AreNew, AreFitted};

use crate::fitting::kept_entry;
use crate::shared_schema::SharedSchema;
use bucket_ids::Bucket;
use doc_types::FieldValue;
use document_ids::DocId;
use document_indexes::Indexes;
use documents::{Document, SharedEntry};
use field_indexes::FieldIndex;
use global_ids::key_of;
use global_ids::laws::keys_locate;
use meta_store::MetaStore;
use std::alloc::Global;
use std::marker::Model;
use value_lists::{NoMemory, TryCopy};

/// The document of a place, if it isn't free.
fn document_of(row: &Option<SharedEntry>) -> Option<&Document>
    ensures { option_copied result ≡ document_in row.now }
{
    match row {
        Some(entry) => entry.entry().body.as_ref(),
        None => None,
    }
}

/// The document of an entry.
fn body_of(entry: &SharedEntry) -> Option<&Document>
    ensures { option_copied result ≡ entry.now.body }
{
    entry.entry().body.as_ref()
}

/// Another entry at a place, or one more behind the last, for which there must be room.
fn set_row(rows: &mut Vec<Option<SharedEntry>>, at: usize, entry: Option<SharedEntry>)
    requires room { length rows.old.items ≤ at → vec_len rows.old < vec_capacity rows.old }
    ensures { documents_in rows.new.items ≡ set_at at (document_in entry) (documents_in rows.old.items) }
{
    if at < rows.len() {
        rows[at] = entry;
    } else {
        rows.push_reserved(entry);
    }
}

/// The documents of a node by local id.
#[derive(Drop)]
pub struct NodeRows {
    schema: SharedSchema,
    ids: MetaStore,
    rows: Vec<Option<SharedEntry>>,
    indexes: Indexes,
}

impl Model for NodeRows {
    ghost use Rattle.field_indexes.specs.Told.{fields_of};
    ghost use Rattle.node_rows.specs.Kept.{documents_in, IsKept};
    ghost use Rattle.node_rows.specs.TypedRows.{TypedRows, typed_code};

    ghost Value = { TypedRows };

    ghost coded = { typed_code };

    ghost view = { λ n. record { types = n.schema; rows = documents_in n.rows.items } };

    ghost invariant = { λ n. IsKept n.schema n.ids (documents_in n.rows.items) n.indexes.types (fields_of n.indexes.fields) };
}

/// The most places that rows have.
const MOST: usize = 4_294_967_295;

impl NodeRows {
    /// No documents, of a schema that is shared.
    pub fn new(alloc: Global, schema: &SharedSchema) -> Result<NodeRows, NoMemory>
        ensures { IfOk result (λ r. r ≡ record { types = schema.now; rows = [] }) }
    {
        Ok(NodeRows {
            schema: schema.copy(alloc)?,
            ids: MetaStore::new(alloc),
            rows: Vec::new(alloc),
            indexes: Indexes::new(alloc),
        })
    }

    /// The document of a place goes.
    fn clear(&mut self, local: u32)
        requires { local < length self.old.rows }
        ensures { self.new ≡ with_rows (set_at local None self.old.rows) self.old }
    {
        let at = local as usize;
        if let Some(document) = document_of(&self.rows[at]) {
            self.indexes.leave(local, document);
            self.ids.free(local);
            set_row(&mut self.rows, at, None);
        }
    }

    /// The document of an id goes, where there is one.
    fn leave(&mut self, id: &DocId)
        ensures { self.new ≡ with_rows (without id.now self.old.rows) self.old }
    {
        if let Some(local) = self.ids.local(id) {
            self.clear(local);
        }
    }

    /// A new document comes to the least free place, if one is below 2^32 - 1.
    fn enter(&mut self, alloc: Global, key: u64, entry: SharedEntry) -> Result<(), NoMemory>
        requires own { IfSome entry.body (λ d. IsProper self.old.types d × (key ≡ key_of d.id) × (has_row d.id self.old.rows ≡ false)) }
        ensures ok { OnOk result (self.new ≡ with_rows (by_body put_new entry.body self.old.rows) self.old) }
        ensures err { OnErr result (self.new ≡ self.old) }
    {
        let Some(document) = body_of(&entry) else {
            return Ok(());
        };
        if self.ids.len() >= MOST {
            return Ok(());
        }
        self.rows.reserve(1)?;
        let local = self.ids.assign(alloc, document.id(), key)?;
        if let Err(fault) = self.indexes.enter(alloc, local, document) {
            self.ids.free(local);
            return Err(fault);
        }
        set_row(&mut self.rows, local as usize, Some(entry));
        Ok(())
    }

    /// Another document comes to the place of one of the same id: it enters the indexes behind the last place and moves
    /// down once that has left, which takes no memory.
    fn replace(&mut self, alloc: Global, local: u32, entry: SharedEntry) -> Result<(), NoMemory>
        requires own { IfSome entry.body (λ d. IsProper self.old.types d × (option_map (λ c. c.id) (row_at self.old.rows local) ≡ Some d.id)) }
        ensures ok { OnOk result (self.new ≡ with_rows (by_body (λ d rows. set_at local (Some d) rows) entry.body self.old.rows) self.old) }
        ensures err { OnErr result (self.new ≡ self.old) }
    {
        let Some(document) = body_of(&entry) else {
            return Ok(());
        };
        let at = local as usize;
        let last = self.rows.len() as u32;
        let Some(before) = document_of(&self.rows[at]) else {
            return Ok(());
        };
        self.indexes.enter(alloc, last, document)?;
        self.indexes.leave(local, before);
        self.indexes.move_down(last, local, document);
        set_row(&mut self.rows, at, Some(entry));
        Ok(())
    }

    /// A document comes to its place.
    fn put(&mut self, alloc: Global, key: u64, entry: SharedEntry) -> Result<(), NoMemory>
        requires own { IfSome entry.body (λ d. IsProper self.old.types d × (key ≡ key_of d.id) × (d.id ≡ entry.id)) }
        ensures ok { OnOk result (self.new ≡ with_rows (by_body with_document entry.body self.old.rows) self.old) }
        ensures err { OnErr result (self.new ≡ self.old) }
    {
        match self.ids.local(&entry.entry().id) {
            Some(local) => self.replace(alloc, local, entry),
            None => self.enter(alloc, key, entry),
        }
    }

    /// A node keeps an entry: its document comes to its place, or goes. The key is that of its id. Takes the size of the
    /// document before and of this one, for each of their numbers a logarithm, for each word one look, and the move of the
    /// ids above in their lists; a document that goes takes no memory.
    pub fn take(&mut self, alloc: Global, key: u64, entry: &SharedEntry) -> Result<(), NoMemory>
        requires { key ≡ key_of entry.now.id }
        ensures ok { OnOk result (self.new ≡ with_rows (taken_into self.old.types self.old.rows entry.now) self.old) }
        ensures err { OnErr result (self.new ≡ self.old) }
    {
        match kept_entry(alloc, self.schema.schema(), entry)? {
            Some(kept) => self.put(alloc, key, kept),
            None => {
                self.leave(&entry.entry().id);
                Ok(())
            }
        }
    }

    /// No places behind so many, which are free.
    fn cut(&mut self, count: usize)
        requires { (k : ℕ) → count ≤ k → row_at self.old.rows k ≡ None }
        ensures { self.new ≡ with_rows (take count self.old.rows) self.old }
    {
        self.rows.truncate(count);
    }

    /// The documents of some entries go, where they are there. For each of them takes what its leaving takes, and no
    /// memory.
    pub fn leave_all(&mut self, entries: &[SharedEntry])
        ensures { self.new ≡ with_rows (all_left entries.now self.old.rows) self.old }
    {
        for at in 0..entries.len() {
            self.leave(&entries[at].entry().id);
        }
    }

    /// A node keeps some entries of documents that it lacked, in their order, or none of them. Takes for each what `take`
    /// takes, and a digest of its id.
    pub fn take_all(&mut self, alloc: Global, entries: &[SharedEntry]) -> Result<(), NoMemory>
        requires new { AreNew self.old.rows entries.now }
        ensures ok { OnOk result (self.new ≡ with_rows (all_taken self.old.types entries.now self.old.rows) self.old) }
        ensures err { OnErr result (self.new ≡ self.old) }
    {
        let count = self.len();
        for at in 0..entries.len() {
            let key = key_of(&entries[at].entry().id);
            if let Err(fault) = self.take(alloc, key, &entries[at]) {
                self.leave_all(entries);
                self.cut(count);
                return Err(fault);
            }
        }
        Ok(())
    }

    /// Whether the document of a place has its key in a bucket.
    fn lies_in(&self, local: u32, bucket: Bucket) -> bool
        ensures { result ≡ lies_in bucket (row_at self.now.rows local) }
    {
        keys_locate();
        match self.key(local) {
            Some(key) => bucket.contains(key),
            None => false,
        }
    }

    /// The document of a place goes, if its key lies in a bucket.
    fn clear_in(&mut self, local: u32, bucket: Bucket)
        requires { local < length self.old.rows }
        ensures { self.new ≡ with_rows (set_at local (kept_in bucket (row_at self.old.rows local)) self.old.rows) self.old }
    {
        if self.lies_in(local, bucket) {
            self.clear(local);
        }
    }

    /// The documents of a bucket go from so many places.
    fn drop_below(&mut self, count: u32, bucket: Bucket)
        requires { count ≡ length self.old.rows }
        ensures { self.new ≡ with_rows (without_in bucket self.old.rows) self.old }
    {
        for local in 0..count {
            self.clear_in(local, bucket);
        }
    }

    /// The documents of a bucket go. Takes no memory, but goes over all places: who knows these documents' entries
    /// leaves them all instead.
    pub fn drop_in(&mut self, bucket: Bucket)
        ensures { self.new ≡ with_rows (without_in bucket self.old.rows) self.old }
    {
        self.drop_below(self.len() as u32, bucket);
    }

    /// One more place, which is free.
    fn append_free(&mut self) -> Result<(), NoMemory>
        requires { length self.old.rows < 4294967295 }
        ensures { OnOk result (self.new ≡ with_rows (set_at (length self.old.rows) None self.old.rows) self.old) }
    {
        self.rows.push(None)?;
        Ok(())
    }

    /// One more place, with the document of an entry.
    fn append(&mut self, alloc: Global, key: u64, entry: SharedEntry) -> Result<(), NoMemory>
        requires few { length self.old.rows < 4294967295 }
        requires own { IfSome entry.body (λ d. IsProper self.old.types d × (key ≡ key_of d.id) × (has_row d.id self.old.rows ≡ false)) }
        ensures { OnOk result (self.new ≡ with_rows (set_at (length self.old.rows) entry.body self.old.rows) self.old) }
    {
        let Some(document) = body_of(&entry) else {
            return self.append_free();
        };
        let local = self.rows.len() as u32;
        self.rows.reserve(1)?;
        self.ids.place(alloc, local, document.id(), key)?;
        if let Err(fault) = self.indexes.enter(alloc, local, document) {
            self.ids.free(local);
            return Err(fault);
        }
        set_row(&mut self.rows, local as usize, Some(entry));
        Ok(())
    }

    /// One more place, with a copy of another.
    fn append_copy(
        &mut self,
        alloc: Global,
        key: u64,
        row: &Option<SharedEntry>,
    ) -> Result<(), NoMemory>
        requires few { length self.old.rows < 4294967295 }
        requires own { IfSome (document_in row.now) (λ d. IsProper self.old.types d × (key ≡ key_of d.id) × (has_row d.id self.old.rows ≡ false)) }
        ensures { OnOk result (self.new ≡ with_rows (set_at (length self.old.rows) (document_in row.now) self.old.rows) self.old) }
    {
        match row {
            Some(entry) => self.append(alloc, key, entry.copy(alloc)?),
            None => self.append_free(),
        }
    }

    /// The next place of other rows.
    fn append_from(&mut self, alloc: Global, other: &NodeRows, local: u32) -> Result<(), NoMemory>
        requires some { local < length other.now.rows }
        requires same { self.old ≡ with_rows (take local other.now.rows) other.now }
        ensures { OnOk result (self.new ≡ with_rows (take (local + 1) other.now.rows) other.now) }
    {
        let row = &other.rows[local as usize];
        match other.key(local) {
            Some(key) => self.append_copy(alloc, key, row),
            None => self.append_free(),
        }
    }

    /// How many places there are.
    pub fn len(&self) -> usize
        ensures value { result ≡ length self.now.rows }
        ensures few { result < 2 ^ 32 }

        // No document has two places, and each value is of its kind.
        ensures distinct { AreDistinct self.now.rows }
        ensures fitted { AreFitted self.now.types self.now.rows }
    {
        self.rows.len()
    }

    /// The places of all documents.
    pub fn locals(&self) -> &[u32]
        ensures ids { result.now ≡ places_where is_any self.now.rows }
        ensures rising { IsRising result.now }
    {
        self.ids.locals()
    }

    /// The place of a document.
    pub fn local(&self, id: &DocId) -> Option<u32>
        ensures { (n : ℕ) → (result ≡ Some n) ↔ (option_map (λ d. d.id) (row_at self.now.rows n) ≡ Some id.now) }
    {
        self.ids.local(id)
    }

    /// The key of the document of a place.
    pub fn key(&self, local: u32) -> Option<u64>
        ensures { result ≡ option_map (λ d. key_of d.id) (row_at self.now.rows local) }
    {
        self.ids.key_of(local)
    }

    /// The document of a place.
    pub fn document(&self, local: u32) -> Option<&Document>
        ensures { option_copied result ≡ row_at self.now.rows local }
    {
        match self.rows.get(local as usize) {
            Some(row) => document_of(row),
            None => None,
        }
    }

    /// What the documents of a type have in a field, by place: nothing where none ever had a value there.
    pub fn column(&self, type_name: &str, field: &str) -> Option<&FieldIndex>
        ensures { IsLent type_name.now field.now (row_at self.now.rows) (option_copied result) }
    {
        self.indexes.index(type_name, field)
    }

    /// What a column has at a place.
    fn cell(&self, type_name: &str, field: &str, local: u32) -> Option<&FieldValue>
        ensures { option_copied result ≡ cell_of type_name.now field.now (row_at self.now.rows local) }
    {
        match self.indexes.index(type_name, field) {
            Some(index) => index.value(local),
            None => None,
        }
    }

    /// What the document of a place has in a field, read from the field's column.
    pub fn value(&self, local: u32, field: &str) -> Option<&FieldValue>
        ensures { option_copied result ≡ value_at self.now.rows local field.now }
    {
        match self.document(local) {
            Some(document) => self.cell(document.id().type_name(), field, local),
            None => None,
        }
    }

    /// The places of the documents of a type.
    pub fn of_type(&self, type_name: &str) -> &[u32]
        ensures ids { result.now ≡ places_where (is_of_type type_name.now) self.now.rows }
        ensures rising { IsRising result.now }
    {
        self.indexes.of_type(type_name)
    }

    /// The places of those that have a token in a field, in some item of a list.
    pub fn with_token(&self, type_name: &str, field: &str, token: &str) -> &[u32]
        ensures ids { result.now ≡ places_where (has_token type_name.now field.now token.now) self.now.rows }
        ensures rising { IsRising result.now }
    {
        match self.indexes.index(type_name, field) {
            Some(index) => index.with_word(token),
            None => &[],
        }
    }

    /// The least number from one to another, both with them, that a document of a type has in a field, as its value or as
    /// an item, and the places of those that have it.
    pub fn next_value(
        &self,
        type_name: &str,
        field: &str,
        low: i64,
        high: i64,
    ) -> Option<(i64, &[u32])>
        ensures none { IfNone result ((q : ℤ) → low ≤ℤ q → q ≤ℤ high
            → places_where (has_number_in type_name.now field.now q) self.now.rows ≡ []) }

        // The number lies between, and none before it is that of a document.
        ensures from { IfSome result (λ r. low ≤ℤ r.0) }
        ensures to { IfSome result (λ r. r.0 ≤ℤ high) }
        ensures least { IfSome result (λ r. (q : ℤ) → low ≤ℤ q → q <ℤ r.0
            → places_where (has_number_in type_name.now field.now q) self.now.rows ≡ []) }

        // Its documents, one at least.
        ensures ids { IfSome result (λ r. r.1.now ≡ places_where (has_number_in type_name.now field.now r.0) self.now.rows) }
        ensures some { IfSome result (λ r. 0 < length r.1.now) }

        // Numbers of documents are of 64 bits.
        ensures wide { (q : ℤ) → 0 < length (places_where (has_number_in type_name.now field.now q) self.now.rows) → IsWide q }
    {
        match self.indexes.index(type_name, field) {
            Some(index) => index.next_value(low, high),
            None => None,
        }
    }
}

impl TryCopy for NodeRows {
    fn copy(&self, alloc: Global) -> Result<NodeRows, NoMemory> {
        let mut copy = NodeRows::new(alloc, &self.schema)?;
        for local in 0..self.len() as u32 {
            copy.append_from(alloc, self, local)?;
        }
        Ok(copy)
    }
}
