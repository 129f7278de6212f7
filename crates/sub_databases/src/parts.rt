ghost use Rattle.std.specs.Prelude.{◌≡◌, ◌↔◌, ℕ, List, Some, option_map, is_some, IfOk, OnOk, OnErr};
ghost use Rattle.std.specs.Option.{option_copied};
ghost use Rattle.std.specs.FinMap as fin;
ghost use Rattle.local_ids.specs.Rising.{IsRising};
ghost use Rattle.global_ids.specs.Keys as keys;
ghost use Rattle.document_rows.specs.Rows.{has_row};
ghost use Rattle.document_rows.specs.Reading.{row_at, places_where, has_token};
ghost use Rattle.entry_maps.specs.Entries.{in_bucket};
ghost use Rattle.sub_databases.specs.Parts.{no_parts, place_in, AreParts};
ghost use Rattle.sub_databases.specs.Changes.{after_take, place_after, Unites, MakesReady, after_drop, place_dropped, after_forget, place_forgotten};

use crate::dropping::{drop_rows, listed_in};
use crate::filling::waiting;
use crate::place::{Place, is_ready, place_by};
use crate::taking::{is_newer, is_remove_of, take_first, take_newer};
use crate::uniting::{MOST, has_room, unite_ready, unite_waiting};
use bucket_ids::Bucket;
use document_ids::DocId;
use documents::{Entry, SharedEntry};
use entry_maps::{EntryMap, join};
use global_ids::key_of;
use node_rows::{NodeRows, SharedSchema};
use stamps::Stamp;
use std::alloc::Global;
use std::marker::Model;
use value_lists::{NoMemory, TryCopy};
use view_changes::laws::entries_find_room;

/// The three parts of a node in one lane.
#[derive(Drop)]
pub struct SubDatabases {
    entries: EntryMap,
    ready: NodeRows,
}

impl Model for SubDatabases {
    ghost use Rattle.sub_databases.specs.Parts.{Parts, parts_code, AreParts};

    ghost Value = { Parts };

    ghost coded = { parts_code };

    ghost view = { λ s. record { types = s.ready.types; entries = s.entries; rows = s.ready.rows } };

    ghost invariant = { λ s. AreParts (record { types = s.ready.types; entries = s.entries; rows = s.ready.rows }) };
}

impl SubDatabases {
    /// No entries, of a schema that is shared.
    pub fn new(alloc: Global, schema: &SharedSchema) -> Result<SubDatabases, NoMemory>
        ensures { IfOk result (λ parts. parts ≡ no_parts schema.now) }
    {
        Ok(SubDatabases {
            entries: EntryMap::new(alloc),
            ready: NodeRows::new(alloc, schema)?,
        })
    }

    /// Where a document is.
    pub fn place(&self, id: &DocId) -> Place
        ensures place { result ≡ place_in self.now id.now }
        ensures valid { AreParts self.now }
    {
        place_by(id, self.entries.get(id), self.ready.local(id).is_some())
    }

    /// The newest entry of a document.
    pub fn get(&self, id: &DocId) -> Option<&Entry>
        ensures entry { option_copied result ≡ fin.get self.now.entries id.now }
        ensures valid { AreParts self.now }
    {
        self.entries.get(id)
    }

    /// The newest entries of all three parts.
    pub fn newest(&self) -> &EntryMap
        ensures entries { result.now ≡ self.now.entries }
        ensures valid { AreParts self.now }
    {
        &self.entries
    }

    /// How many entries there are, removes among them.
    pub fn entries(&self) -> u64
        ensures { result ≡ fin.len self.now.entries }
    {
        self.entries.entries()
    }

    /// The local id of a document that is ready: its place in the ready part.
    pub fn local(&self, id: &DocId) -> Option<u32>
        ensures local { (n : ℕ) → (result ≡ Some n) ↔ (option_map (λ d. d.id) (row_at self.now.rows n) ≡ Some id.now) }

        // There is one exactly where the document is ready.
        ensures ready { is_some result ≡ has_row id.now self.now.rows }
    {
        self.ready.local(id)
    }

    /// The local ids, rising, of the ready documents of a type that have a token in a field, in some item of a list.
    pub fn with_token(&self, type_name: &str, field: &str, token: &str) -> &[u32]
        ensures ids { result.now ≡ places_where (has_token type_name.now field.now token.now) self.now.rows }
        ensures rising { IsRising result.now }
    {
        self.ready.with_token(type_name, field, token)
    }

    /// Takes an entry with the key of its id, which comes ready or not: the newest of its document is kept, and the
    /// mark that came with that decides; an entry that isn't newer changes nothing, nor does its mark.
    pub fn take(
        &mut self,
        alloc: Global,
        key: u64,
        entry: &SharedEntry,
        ready: bool,
    ) -> Result<(), NoMemory>
        requires key { key ≡ keys.key_of entry.now.id }
        ensures ok { OnOk result (self.new ≡ after_take entry.now ready self.old) }
        ensures places { OnOk result ((id : List ℕ) → place_in self.new id ≡ place_after entry.now ready self.old id) }
        ensures err { OnErr result (self.new ≡ self.old) }
    {
        entries_find_room();
        let _ = self.ready.len();
        if !has_room(&self.entries, ready) {
            return Err(NoMemory);
        }
        if !ready && !is_ready(&self.ready, entry) {
            self.entries.put_at(key, entry.copy(alloc)?)?;
            return Ok(());
        }
        let there = self.entries.get_at(key, &entry.entry().id);
        if there.is_none() {
            return take_first(&mut self.entries, &mut self.ready, alloc, key, entry, ready);
        }
        if !is_newer(entry.entry(), there) {
            return Ok(());
        }
        take_newer(&mut self.entries, &mut self.ready, alloc, key, entry, ready)
    }

    /// Takes the entries of a map, which come ready or not: of each document the newer entry is kept, and the mark decides
    /// on those that are newer. Costs the map's entries, where one of them is newer; and where they come ready and one of
    /// them is of a document that has an entry, a copy of the ready part.
    pub fn unite(&mut self, alloc: Global, entries: &EntryMap, ready: bool) -> Result<(), NoMemory>
        ensures ok { OnOk result (Unites entries.now ready self.old self.new) }
        ensures err { OnErr result (self.new ≡ self.old) }
    {
        if !ready && self.ready.len() == 0 {
            return join(&mut self.entries, entries);
        }
        let list = entries.listed()?;
        if !entries.has_newer(&self.entries) {
            return Ok(());
        }
        if ready {
            return unite_ready(&mut self.entries, &mut self.ready, alloc, entries, list);
        }
        unite_waiting(&mut self.entries, &mut self.ready, entries, list)
    }

    /// Makes a bucket ready: its documents are in the ready part from then on, or none is where memory doesn't serve.
    /// Costs the bucket's entries.
    pub fn make_ready(&mut self, alloc: Global, bucket: Bucket) -> Result<(), NoMemory>
        ensures ok { OnOk result (MakesReady bucket self.old self.new) }
        ensures err { OnErr result (self.new ≡ self.old) }
    {
        entries_find_room();
        let _ = self.ready.len();
        if self.entries.entries() >= MOST {
            return Err(NoMemory);
        }
        let entries = listed_in(&self.entries, bucket)?;
        let waiting = waiting(alloc, &self.ready, &entries)?;
        self.ready.take_all(alloc, &waiting)
    }

    /// Drops the entries of a bucket, and its documents from the ready part. Costs the bucket's entries, or where memory
    /// doesn't serve for a list of them, all places of the ready part.
    pub fn drop_bucket(&mut self, bucket: Bucket)
        ensures left { self.new ≡ after_drop bucket self.old }
        ensures places { (id : List ℕ) → place_in self.new id ≡ place_dropped (in_bucket bucket id) (place_in self.old id) }
    {
        drop_rows(&mut self.ready, &self.entries, bucket);
        self.entries.remove_within(bucket);
    }

    /// Drops a document's entry exactly where it is a remove of a stamp.
    pub fn forget(&mut self, id: &DocId, stamp: Stamp)
        ensures left { self.new ≡ after_forget id.now stamp self.old }
        ensures places { (other : List ℕ) → place_in self.new other ≡ place_forgotten id.now stamp self.old other }
    {
        let key = key_of(id);
        if is_remove_of(stamp, self.entries.get_at(key, id)) {
            self.entries.remove_at(key, id);
        }
    }
}

impl TryCopy for SubDatabases {
    /// Entries and documents are shared.
    fn copy(&self, alloc: Global) -> Result<SubDatabases, NoMemory> {
        Ok(SubDatabases {
            entries: self.entries.copy(alloc)?,
            ready: self.ready.copy(alloc)?,
        })
    }
}
