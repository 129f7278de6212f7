ghost use Rattle.std.specs.Prelude.{◌≡◌, ◌==◌, ◌<◌, ℕ, List, None, Some, [], if◌then◌else◌, bytes_eq, IfSome, OnOk, OnErr};
ghost use Rattle.std.specs.List.{Contains};
ghost use Rattle.std.specs.Option.{option_copied};
ghost use Rattle.std.specs.FinMap as fin;
ghost use Rattle.document_ids.specs.Parts.{type_of};
ghost use Rattle.local_ids.specs.Rising.{IsRising, with_local, without_local, moved_local};
ghost use Rattle.word_index.specs.Index.{list_of};
ghost use Rattle.field_indexes.specs.Fields.{cell};
ghost use Rattle.field_indexes.specs.Told.{fields_of};
ghost use Rattle.document_indexes.specs.Entering.{kind_at, DoFit, ComesFrom, cell_of};

use crate::fields::{enter_fields, leave_fields, move_fields};
use documents::Document;
use field_indexes::{FieldIndex, FieldIndexes};
use std::alloc::Global;
use value_lists::NoMemory;
use word_index::WordIndex;

/// Of each type its documents (`list_of`), and of each field its values, words and numbers (`cell`).
#[derive(Drop)]
pub struct Indexes {
    pub types: WordIndex,
    pub fields: FieldIndexes,
}

impl Indexes {
    /// Nothing.
    pub fn new(alloc: Global) -> Indexes
        ensures listed { (name : List ℕ) → list_of name result.types ≡ [] }
        ensures fields { (n f : List ℕ) → fields_of result.fields n f ≡ None }
    {
        Indexes {
            types: WordIndex::new(alloc),
            fields: FieldIndexes::new(alloc),
        }
    }

    /// A document has a local id that none had.
    pub fn enter(&mut self, alloc: Global, local: u32, document: &Document) -> Result<(), NoMemory>
        requires rising { IsRising (list_of (type_of document.now.id) self.old.types) }
        requires new { Contains (list_of (type_of document.now.id) self.old.types) local → ⊥ }
        requires fit { DoFit (fields_of self.old.fields) (type_of document.now.id) (fin.entries document.now.fields) }
        requires free { (n f : List ℕ) → cell (fields_of self.old.fields) n f local ≡ None }
        ensures listed { OnOk result ((name : List ℕ) → list_of name self.new.types
            ≡ (if bytes_eq (type_of document.now.id) name then with_local local (list_of name self.old.types)
            else list_of name self.old.types)) }
        ensures cells { OnOk result ((n f : List ℕ) (k : ℕ) → cell (fields_of self.new.fields) n f k
            ≡ (if k == local then cell_of n f (Some document.now) else cell (fields_of self.old.fields) n f k)) }
        ensures listed_before { OnErr result ((name : List ℕ) → list_of name self.new.types ≡ list_of name self.old.types) }
        ensures cells_before { OnErr result ((n f : List ℕ) (k : ℕ)
            → cell (fields_of self.new.fields) n f k ≡ cell (fields_of self.old.fields) n f k) }
        ensures kinds { (n f : List ℕ) → IfSome (fields_of self.new.fields n f)
            (ComesFrom (fields_of self.old.fields) (type_of document.now.id) (fin.entries document.now.fields) n f) }
    {
        let name = document.id().type_name();
        self.types.add(alloc, name, local)?;
        match enter_fields(alloc, &mut self.fields, name, document.fields(), local) {
            Ok(()) => Ok(()),
            Err(fault) => {
                self.types.remove(name, local);
                Err(fault)
            }
        }
    }

    /// A document has its local id no more.
    pub fn leave(&mut self, local: u32, document: &Document)
        requires own { (n f : List ℕ) → cell (fields_of self.old.fields) n f local ≡ cell_of n f (Some document.now) }
        ensures listed { (name : List ℕ) → list_of name self.new.types
            ≡ (if bytes_eq (type_of document.now.id) name then without_local local (list_of name self.old.types)
            else list_of name self.old.types) }
        ensures cells { (n f : List ℕ) (k : ℕ) → cell (fields_of self.new.fields) n f k
            ≡ (if k == local then None else cell (fields_of self.old.fields) n f k) }
        ensures kinds { (n f : List ℕ) → kind_at (fields_of self.new.fields) n f ≡ kind_at (fields_of self.old.fields) n f }
    {
        let name = document.id().type_name();
        self.types.remove(name, local);
        leave_fields(&mut self.fields, name, document.fields(), local);
    }

    /// A document has a lower local id from now on, which none had.
    pub fn move_down(&mut self, from: u32, to: u32, document: &Document)
        requires below { to < from }
        requires own { (n f : List ℕ) → cell (fields_of self.old.fields) n f from ≡ cell_of n f (Some document.now) }
        requires free { (n f : List ℕ) → cell (fields_of self.old.fields) n f to ≡ None }
        ensures listed { (name : List ℕ) → list_of name self.new.types
            ≡ (if bytes_eq (type_of document.now.id) name then moved_local from to (list_of name self.old.types)
            else list_of name self.old.types) }
        ensures cells { (n f : List ℕ) (k : ℕ) → cell (fields_of self.new.fields) n f k
            ≡ (if k == to then cell_of n f (Some document.now)
            else (if k == from then None else cell (fields_of self.old.fields) n f k)) }
        ensures kinds { (n f : List ℕ) → kind_at (fields_of self.new.fields) n f ≡ kind_at (fields_of self.old.fields) n f }
    {
        let name = document.id().type_name();
        self.types.move_id(name, from, to);
        move_fields(&mut self.fields, name, document.fields(), from, to);
    }

    /// The local ids of the documents of a type.
    pub fn of_type(&self, name: &str) -> &[u32]
        ensures ids { result.now ≡ list_of name.now self.now.types }
        ensures rising { IsRising result.now }
    {
        self.types.list(name)
    }

    /// A field of a type, where some document had a value there.
    pub fn index(&self, name: &str, field: &str) -> Option<&FieldIndex>
        ensures { option_copied result ≡ fields_of self.now.fields name.now field.now }
    {
        self.fields.index(name, field)
    }
}
