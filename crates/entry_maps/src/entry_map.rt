ghost use Rattle.std.specs.Prelude.{◌≡◌, ℕ, List, IfOk, OnOk, OnErr, not, true, false};
ghost use Rattle.std.specs.Option.{option_copied};
ghost use Rattle.std.specs.FinMap as fin;
ghost use Rattle.global_ids.specs.Keys.{key_of};
ghost use Rattle.entry_maps.specs.Entries.{is_newer, with_entry, with_instead, newer_of, alone, in_bucket, documents_of, by_id, AreSingle, HasNoneNewer, HasOneNewer};
ghost use Rattle.entry_maps.specs.Stamps.{stamps_of};

use crate::kept::Kept;
use crate::kept_stamps::KeptStamps;
use bucket_ids::{Bucket, path_of};
use document_ids::DocId;
use documents::{Entry, SharedEntry};
use global_ids::key_of;
use stamps::Stamp;
use std::alloc::Global;
use std::marker::Model;
use value_lists::{NoMemory, TryCopy};

/// The newest entry of each document.
#[derive(Drop)]
pub struct EntryMap {
    kept: Kept,
    /// The stamps of its entries, where they are kept until one comes or goes.
    stamps: Option<KeptStamps>,
    alloc: Global,
}

impl Model for EntryMap {
    ghost use Rattle.entry_maps.specs.EntryCodes.{Entries, entries_code};
    ghost use Rattle.entry_maps.specs.Kept.{kept_entries, IsMap};

    ghost Value = { Entries };

    ghost coded = { entries_code };

    ghost view = { λ m. kept_entries m.kept };

    ghost invariant = { λ m. IsMap m.kept m.stamps };
}

/// The entry that is shared, if there is one.
fn lent(shared: Option<&SharedEntry>) -> Option<&Entry>
    ensures { option_copied result ≡ option_copied shared.entry }
{
    match shared {
        Some(shared) => Some(shared.entry()),
        None => None,
    }
}

/// The stamps that may be kept, shared.
fn shared(alloc: Global, stamps: &Option<KeptStamps>) -> Result<Option<KeptStamps>, NoMemory>
    ensures { IfOk result (λ copy. copy ≡ stamps.now) }
{
    match stamps {
        Some(stamps) => Ok(Some(stamps.copy(alloc)?)),
        None => Ok(None),
    }
}

impl EntryMap {
    /// A map without entries.
    pub fn new(alloc: Global) -> EntryMap
        ensures { result ≡ fin.empty }
    {
        EntryMap {
            kept: Kept::none(alloc),
            stamps: None,
            alloc,
        }
    }

    /// The map of one entry.
    pub fn of_one(alloc: Global, entry: SharedEntry) -> EntryMap
        ensures { result ≡ alone entry }
    {
        EntryMap {
            kept: Kept::One(entry),
            stamps: None,
            alloc,
        }
    }

    /// The entry of a document.
    pub fn get(&self, id: &DocId) -> Option<&Entry>
        ensures { option_copied result ≡ fin.get self.now id.now }
    {
        lent(self.kept.find(id))
    }

    /// The same, with the key of the document's id beside it, so that nothing is digested.
    pub fn get_at(&self, key: u64, id: &DocId) -> Option<&Entry>
        requires { key ≡ key_of id.now }
        ensures { option_copied result ≡ fin.get self.now id.now }
    {
        lent(self.shared_at(key, id))
    }

    /// The same, so that copies of the entry share it.
    pub fn shared_at(&self, key: u64, id: &DocId) -> Option<&SharedEntry>
        requires { key ≡ key_of id.now }
        ensures { option_copied result ≡ fin.get self.now id.now }
    {
        self.kept.get(path_of(key), id)
    }

    /// How many entries there are, removes among them.
    pub fn entries(&self) -> u64
        ensures { result ≡ fin.len self.now }
    {
        self.kept.entries() as u64
    }

    /// How many documents there are: the entries that aren't removes.
    pub fn documents(&self) -> u64
        ensures { result ≡ documents_of self.now }
    {
        self.kept.documents() as u64
    }

    /// The stamps of all entries, each once, the smallest first.
    pub fn stamps(&self) -> Result<Vec<Stamp>, NoMemory>
        ensures { IfOk result (λ stamps. stamps.items ≡ stamps_of self.now) }
    {
        match &self.stamps {
            Some(stamps) => stamps.list(self.alloc),
            None => self.kept.stamps(self.alloc),
        }
    }

    /// Keeps the stamps of all entries until one comes or goes; copies share them till then.
    pub fn keep_stamps(&mut self) -> Result<(), NoMemory>
        ensures { self.new ≡ self.old }
    {
        if self.stamps.is_none() {
            let stamps = self.kept.stamps(self.alloc)?;
            self.stamps = Some(KeptStamps::new(self.alloc, stamps)?);
        }
        Ok(())
    }

    /// All entries, shared; their order isn't told.
    pub fn listed(&self) -> Result<Vec<SharedEntry>, NoMemory>
        ensures entries { IfOk result (λ list. fin.from_entries (by_id list.items) ≡ self.now) }
        ensures single { IfOk result (λ list. AreSingle (by_id list.items)) }
    {
        self.kept.listed(self.alloc)
    }

    /// Takes an entry; `false` exactly where an entry of the same or a greater stamp was there,
    /// which stays.
    pub fn put(&mut self, entry: Entry) -> Result<bool, NoMemory>
        ensures taken { IfOk result (λ taken. taken ≡ is_newer entry (fin.get self.old entry.id)) }
        ensures ok { OnOk result (self.new ≡ with_entry self.old entry) }
        ensures err { OnErr result (self.new ≡ self.old) }
    {
        let key = key_of(&entry.id);
        self.put_at(key, SharedEntry::new(self.alloc, entry)?)
    }

    /// The same of an entry that may be shared, with the key of its id beside it, so that nothing is digested.
    pub fn put_at(&mut self, key: u64, entry: SharedEntry) -> Result<bool, NoMemory>
        requires { key ≡ key_of entry.id }
        ensures taken { IfOk result (λ taken. taken ≡ is_newer entry (fin.get self.old entry.id)) }
        ensures ok { OnOk result (self.new ≡ with_entry self.old entry) }
        ensures err { OnErr result (self.new ≡ self.old) }
    {
        self.stamps = None;
        self.kept.put(self.alloc, path_of(key), entry)
    }

    /// Puts an entry in the place of its document's one, be it newer or older, with the key of its id beside it;
    /// where there is none, nothing is put.
    pub fn put_instead_at(&mut self, key: u64, entry: SharedEntry)
        requires { key ≡ key_of entry.id }
        ensures { self.new ≡ with_instead self.old entry }
    {
        self.stamps = None;
        self.kept.put_instead(path_of(key), entry);
    }

    /// Removes the entry of a document, if there is one, with the key of its id beside it.
    pub fn remove_at(&mut self, key: u64, id: &DocId)
        requires { key ≡ key_of id.now }
        ensures { self.new ≡ fin.remove self.old id.now }
    {
        self.stamps = None;
        self.kept.remove(self.alloc, path_of(key), id);
    }

    /// Takes, of each document, the other map's entry where that is newer.
    pub fn merge(&mut self, other: &EntryMap) -> Result<(), NoMemory>
        ensures ok { OnOk result ((id : List ℕ)
            → fin.get self.new id ≡ newer_of (fin.get self.old id) (fin.get other.now id)) }
        ensures err { OnErr result (self.new ≡ self.old) }
    {
        self.stamps = None;
        self.kept.merge(self.alloc, &other.kept)
    }

    /// Whether it has a newer entry of some document than another map. It takes a walk over both, and where that finds one that
    /// is new there, a search for each entry, to the first that is newer.
    pub fn has_newer(&self, there: &EntryMap) -> bool
        ensures none { result ≡ false → HasNoneNewer self.now there.now }
        ensures some { result ≡ true → HasOneNewer self.now there.now }
    {
        self.kept.has_newer(&there.kept)
    }

    /// The entries whose documents' keys lie in a bucket.
    pub fn within(&self, bucket: Bucket) -> Result<EntryMap, NoMemory>
        ensures { IfOk result (λ part. part ≡ fin.retain_keys self.now (in_bucket bucket)) }
    {
        Ok(EntryMap {
            kept: self.kept.within(self.alloc, bucket)?,
            stamps: None,
            alloc: self.alloc,
        })
    }

    /// Removes the entries whose documents' keys lie in a bucket.
    pub fn remove_within(&mut self, bucket: Bucket)
        ensures { self.new ≡ fin.retain_keys self.old (λ id. not (in_bucket bucket id)) }
    {
        self.stamps = None;
        self.kept.remove_within(self.alloc, bucket);
    }
}

impl TryCopy for EntryMap {
    /// The entries are shared.
    fn copy(&self, alloc: Global) -> Result<EntryMap, NoMemory> {
        Ok(EntryMap {
            kept: self.kept.shared(alloc)?,
            stamps: shared(alloc, &self.stamps)?,
            alloc,
        })
    }
}
