ghost use Rattle.std.specs.Prelude.{◌≡◌, ◌<◌, ◌-◌, ◌^◌, ◌↔◌, ℕ, Some, None, Ok, option_map, IfOk, OnOk, OnErr};
ghost use Rattle.std.specs.FinMap as fin;
ghost use Rattle.local_ids.specs.Rising.{IsRising};
ghost use Rattle.meta_store.specs.Store.{Has, IsNew, IsLeastFree, IsStored};

use crate::indexes::{drop_id, enter, least_free};
use document_ids::DocId;
use local_ids::{LocalMap, drop_local};
use std::alloc::Global;
use std::collections::HashMap;
use std::marker::Model;
use value_lists::{NoMemory, TryCopy};

/// A document that a node has.
#[derive(Drop)]
pub struct Named {
    pub id: DocId,
    /// The key of the id, 0 to 2^58 - 1.
    pub key: u64,
}

/// The documents of a node, by local id.
#[derive(Drop)]
pub struct MetaStore {
    named: LocalMap<Named>,
    locals: Vec<u32>,
    by_id: HashMap<String, u32>,
}

impl Model for MetaStore {
    ghost use Rattle.meta_store.specs.Store.{Store, store_code, IsStored};

    ghost Value = { Store };

    ghost coded = { store_code };

    ghost view = { λ s. s.named };

    ghost invariant = { λ s. IsStored s.named s.locals.items s.by_id };
}

/// A new document takes a local id that is free.
fn place_in(
    alloc: Global,
    named: &mut LocalMap<Named>,
    locals: &mut Vec<u32>,
    by_id: &mut HashMap<String, u32>,
    local: u32,
    id: &DocId,
    key: u64,
) -> Result<(), NoMemory>
    requires stored { IsStored named.old locals.old.items by_id.old }
    requires new { IsNew named.old id.now }
    requires free { fin.get named.old local ≡ None }
    ensures stored { IsStored named.new locals.new.items by_id.new }
    ensures ok { OnOk result (named.new ≡ fin.insert named.old local (record { id = id.now; key = key })) }
    ensures err { OnErr result (named.new ≡ named.old) }
{
    let document = Named {
        id: id.copy(alloc)?,
        key,
    };
    named.set(local, document)?;
    match enter(alloc, locals, by_id, id, local) {
        Ok(()) => Ok(()),
        Err(fault) => {
            named.clear(local);
            Err(fault)
        }
    }
}

/// A new document takes the least local id that is free.
fn take_in(
    alloc: Global,
    named: &mut LocalMap<Named>,
    locals: &mut Vec<u32>,
    by_id: &mut HashMap<String, u32>,
    id: &DocId,
    key: u64,
) -> Result<u32, NoMemory>
    requires stored { IsStored named.old locals.old.items by_id.old }
    requires new { IsNew named.old id.now }
    requires few { fin.len named.old < 2 ^ 32 - 1 }
    ensures stored { IsStored named.new locals.new.items by_id.new }
    ensures least { IfOk result (λ n. IsLeastFree named.old n) }
    ensures ok { IfOk result (λ n. named.new ≡ fin.insert named.old n (record { id = id.now; key = key })) }
    ensures err { OnErr result (named.new ≡ named.old) }
{
    let local = least_free(locals);
    place_in(alloc, named, locals, by_id, local, id, key)?;
    Ok(local)
}

impl MetaStore {
    /// No documents.
    pub fn new(alloc: Global) -> MetaStore
        ensures { result ≡ fin.empty }
    {
        MetaStore {
            named: LocalMap::new(alloc),
            locals: Vec::new(alloc),
            by_id: HashMap::new(alloc),
        }
    }

    /// The local id of a document: the one that it has, else the least that is free. Takes a look at
    /// the id, a binary search among the local ids, and the move of those above the new one by four bytes each; now and
    /// then, where there are too many documents for the table of ids, a look at each.
    pub fn assign(&mut self, alloc: Global, id: &DocId, key: u64) -> Result<u32, NoMemory>
        requires { fin.len self.old < 2 ^ 32 - 1 }

        // A document that is there keeps its local id.
        ensures again { (n : ℕ) → Has self.old n id.now → result ≡ Ok n }
        ensures unchanged { (n : ℕ) → Has self.old n id.now → self.new ≡ self.old }

        // A new one has the least that is free.
        ensures least { IfOk result (λ n. IsNew self.old id.now → IsLeastFree self.old n) }
        ensures ok { IfOk result (λ n. IsNew self.old id.now
            → self.new ≡ fin.insert self.old n (record { id = id.now; key = key })) }
        ensures err { OnErr result (self.new ≡ self.old) }
    {
        if let Some(local) = self.local(id) {
            return Ok(local);
        }
        take_in(
            alloc,
            &mut self.named,
            &mut self.locals,
            &mut self.by_id,
            id,
            key,
        )
    }

    /// Gives a document that is new a local id that is free. Takes what `assign` takes.
    pub fn place(&mut self, alloc: Global, local: u32, id: &DocId, key: u64) -> Result<(), NoMemory>
        requires new { IsNew self.old id.now }
        requires free { fin.get self.old local ≡ None }
        ensures ok { OnOk result (self.new ≡ fin.insert self.old local (record { id = id.now; key = key })) }
        ensures err { OnErr result (self.new ≡ self.old) }
    {
        place_in(
            alloc,
            &mut self.named,
            &mut self.locals,
            &mut self.by_id,
            local,
            id,
            key,
        )
    }

    /// The local id of a document, which no other document has.
    pub fn local(&self, id: &DocId) -> Option<u32>
        ensures { (n : ℕ) → (result ≡ Some n) ↔ Has self.now n id.now }
    {
        self.by_id.get(id.text()).copied()
    }

    /// The key of the document of a local id.
    pub fn key_of(&self, local: u32) -> Option<u64>
        ensures { result ≡ option_map (λ d. d.key) (fin.get self.now local) }
    {
        match self.named.get(local) {
            Some(document) => Some(document.key),
            None => None,
        }
    }

    /// The id of the document of a local id.
    pub fn id_of(&self, local: u32) -> Option<&DocId>
        ensures { option_map (λ id. id.now) result ≡ option_map (λ d. d.id) (fin.get self.now local) }
    {
        match self.named.get(local) {
            Some(document) => Some(&document.id),
            None => None,
        }
    }

    /// All local ids that documents have.
    pub fn locals(&self) -> &[u32]
        ensures ids { result.now ≡ fin.keys self.now }
        ensures rising { IsRising result.now }
    {
        &self.locals
    }

    /// How many documents there are.
    pub fn len(&self) -> usize
        ensures { result ≡ fin.len self.now }
    {
        self.locals.len()
    }

    /// A local id is free.
    pub fn free(&mut self, local: u32)
        ensures { self.new ≡ fin.remove self.old local }
    {
        let Some(document) = self.named.get(local) else {
            return;
        };
        drop_id(&mut self.by_id, &document.id);
        drop_local(&mut self.locals, local);
        self.named.clear(local);
    }
}
