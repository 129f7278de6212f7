ghost use Rattle.std.specs.Prelude.{◌≡◌, ℕ, List, not, IfOk, OnOk, OnErr};
ghost use Rattle.std.specs.Option.{option_copied};
ghost use Rattle.std.specs.FinMap as fin;
ghost use Rattle.entry_maps.specs.Entries.{is_newer, with_entry, with_instead, newer_of, alone, in_bucket, documents_of, by_id, AreSingle};
ghost use Rattle.entry_maps.specs.Kept.{kept_entries, IsWell};
ghost use Rattle.entry_maps.specs.Slots.{IsStored, slots_in, entries_of, path_by};
ghost use Rattle.entry_maps.specs.Stamps.{stamps_of};

use crate::stored::Stored;
use bucket_ids::{Bucket, path_of};
use document_ids::DocId;
use documents::SharedEntry;
use global_ids::key_of;
use stamps::Stamp;
use std::alloc::Global;
use value_lists::{NoMemory, TryCopy};

/// How a map has its entries.
#[derive(Drop)]
pub enum Kept {
    /// One entry alone, for which no row is made: what a node shows of one document.
    One(SharedEntry),
    Rows(Stored),
}

/// The entry, where it is a document's.
fn if_of<'a>(entry: &'a SharedEntry, id: &DocId) -> Option<&'a SharedEntry>
    ensures { option_copied result ≡ fin.get (alone entry.now) id.now }
{
    if entry.is_of(id) { Some(entry) } else { None }
}

/// Its stamp, in a list.
fn stamps(entry: &SharedEntry, alloc: Global) -> Result<Vec<Stamp>, NoMemory>
    ensures { IfOk result (λ stamps. stamps.items ≡ stamps_of (alone entry.now)) }
{
    let mut stamps = Vec::with_capacity(alloc, 1)?;
    stamps.push(entry.entry().stamp)?;
    Ok(stamps)
}

/// The entry, shared, in a list.
fn listed(entry: &SharedEntry, alloc: Global) -> Result<Vec<SharedEntry>, NoMemory>
    ensures entries { IfOk result (λ list. fin.from_entries (by_id list.items) ≡ alone entry.now) }
    ensures single { IfOk result (λ list. AreSingle (by_id list.items)) }
{
    let mut list = Vec::with_capacity(alloc, 1)?;
    list.push(entry.copy(alloc)?)?;
    Ok(list)
}

/// The entry in a row.
fn laid(entry: &SharedEntry, alloc: Global) -> Result<Stored, NoMemory>
    ensures entries { IfOk result (λ stored. entries_of (slots_in stored) ≡ alone entry.now) }
    ensures stored { IfOk result IsStored }
{
    let mut stored = Stored::new(alloc);
    let path = path_of(key_of(&entry.entry().id));
    stored.put(alloc, path, entry.copy(alloc)?)?;
    Ok(stored)
}

/// Whether the key of its document lies in a bucket.
fn lies_in(entry: &SharedEntry, bucket: Bucket) -> bool
    ensures { result ≡ in_bucket bucket entry.now.id }
{
    bucket.contains(key_of(&entry.entry().id))
}

impl Kept {
    /// No entry.
    pub fn none(alloc: Global) -> Kept
        ensures entries { kept_entries result ≡ fin.empty }
        ensures well { IsWell result }
    {
        Kept::Rows(Stored::new(alloc))
    }

    /// The entry of a document.
    pub fn find(&self, id: &DocId) -> Option<&SharedEntry>
        requires { IsWell self.now }
        ensures { option_copied result ≡ fin.get (kept_entries self.now) id.now }
    {
        match self {
            Kept::One(entry) => if_of(entry, id),
            Kept::Rows(stored) => {
                if stored.entries <= 1 {
                    stored.only(id)
                } else {
                    stored.get(path_of(key_of(id)), id)
                }
            }
        }
    }

    /// The same, with the path of the document's key beside it.
    pub fn get(&self, path: u64, id: &DocId) -> Option<&SharedEntry>
        requires well { IsWell self.now }
        requires path { path ≡ path_by id.now }
        ensures { option_copied result ≡ fin.get (kept_entries self.now) id.now }
    {
        match self {
            Kept::One(entry) => if_of(entry, id),
            Kept::Rows(stored) => stored.get(path, id),
        }
    }

    /// How many entries there are.
    pub fn entries(&self) -> usize
        requires { IsWell self.now }
        ensures { result ≡ fin.len (kept_entries self.now) }
    {
        match self {
            Kept::One(_) => 1,
            Kept::Rows(stored) => stored.entries,
        }
    }

    /// How many entries have documents.
    pub fn documents(&self) -> usize
        requires { IsWell self.now }
        ensures { result ≡ documents_of (kept_entries self.now) }
    {
        match self {
            Kept::One(entry) => { if entry.has_document() { 1 } else { 0 } }
            Kept::Rows(stored) => stored.documents,
        }
    }

    /// The stamps of all entries, each once, the smallest first.
    pub fn stamps(&self, alloc: Global) -> Result<Vec<Stamp>, NoMemory>
        requires { IsWell self.now }
        ensures { IfOk result (λ stamps. stamps.items ≡ stamps_of (kept_entries self.now)) }
    {
        match self {
            Kept::One(entry) => stamps(entry, alloc),
            Kept::Rows(stored) => stored.stamps(alloc),
        }
    }

    /// All entries, shared.
    pub fn listed(&self, alloc: Global) -> Result<Vec<SharedEntry>, NoMemory>
        requires { IsWell self.now }
        ensures entries { IfOk result (λ list. fin.from_entries (by_id list.items) ≡ kept_entries self.now) }
        ensures single { IfOk result (λ list. AreSingle (by_id list.items)) }
    {
        match self {
            Kept::One(entry) => listed(entry, alloc),
            Kept::Rows(stored) => stored.listed(alloc),
        }
    }

    /// Takes an entry where it is newer than what is there, and says whether it is.
    pub fn put(&mut self, alloc: Global, path: u64, entry: SharedEntry) -> Result<bool, NoMemory>
        requires well { IsWell self.old }
        requires path { path ≡ path_by entry.id }
        ensures taken { IfOk result (λ taken. taken ≡ is_newer entry (fin.get (kept_entries self.old) entry.id)) }
        ensures ok { OnOk result (kept_entries self.new ≡ with_entry (kept_entries self.old) entry) }
        ensures err { OnErr result (kept_entries self.new ≡ kept_entries self.old) }
        ensures well { IsWell self.new }
    {
        match self {
            Kept::Rows(stored) => stored.put(alloc, path, entry),
            Kept::One(one) => {
                let mut stored = laid(one, alloc)?;
                let taken = stored.put(alloc, path, entry)?;
                *self = Kept::Rows(stored);
                Ok(taken)
            }
        }
    }

    /// Puts an entry in the place of its document's one, if there is one.
    pub fn put_instead(&mut self, path: u64, entry: SharedEntry)
        requires well { IsWell self.old }
        requires path { path ≡ path_by entry.id }
        ensures entries { kept_entries self.new ≡ with_instead (kept_entries self.old) entry }
        ensures well { IsWell self.new }
    {
        match self {
            Kept::Rows(stored) => stored.put_instead(path, entry),
            Kept::One(one) => {
                if one.is_of(&entry.entry().id) {
                    *self = Kept::One(entry);
                }
            }
        }
    }

    /// Takes out the entry of a document, if there is one.
    pub fn remove(&mut self, alloc: Global, path: u64, id: &DocId)
        requires well { IsWell self.old }
        requires path { path ≡ path_by id.now }
        ensures entries { kept_entries self.new ≡ fin.remove (kept_entries self.old) id.now }
        ensures well { IsWell self.new }
    {
        match self {
            Kept::Rows(stored) => stored.remove(path, id),
            Kept::One(entry) => {
                if entry.is_of(id) {
                    *self = Kept::none(alloc);
                }
            }
        }
    }

    /// Takes the entries of rows that are newer.
    fn merge_rows(&mut self, alloc: Global, others: &Stored) -> Result<(), NoMemory>
        requires well { IsWell self.old }
        requires other { IsStored others.now }
        ensures ok { OnOk result ((id : List ℕ) → fin.get (kept_entries self.new) id
            ≡ newer_of (fin.get (kept_entries self.old) id) (fin.get (entries_of (slots_in others.now)) id)) }
        ensures err { OnErr result (kept_entries self.new ≡ kept_entries self.old) }
        ensures well { IsWell self.new }
    {
        match self {
            Kept::Rows(stored) => stored.merge(alloc, others),
            Kept::One(one) => {
                let mut stored = laid(one, alloc)?;
                stored.merge(alloc, others)?;
                *self = Kept::Rows(stored);
                Ok(())
            }
        }
    }

    /// Takes another entry where it is newer than what is there.
    fn merge_one(&mut self, alloc: Global, other: &SharedEntry) -> Result<(), NoMemory>
        requires { IsWell self.old }
        ensures ok { OnOk result ((id : List ℕ) → fin.get (kept_entries self.new) id
            ≡ newer_of (fin.get (kept_entries self.old) id) (fin.get (alone other.now) id)) }
        ensures err { OnErr result (kept_entries self.new ≡ kept_entries self.old) }
        ensures well { IsWell self.new }
    {
        let path = path_of(key_of(&other.entry().id));
        self.put(alloc, path, other.copy(alloc)?)?;
        Ok(())
    }

    /// Takes the entries of another map that are newer.
    pub fn merge(&mut self, alloc: Global, other: &Kept) -> Result<(), NoMemory>
        requires well { IsWell self.old }
        requires other { IsWell other.now }
        ensures ok { OnOk result ((id : List ℕ) → fin.get (kept_entries self.new) id
            ≡ newer_of (fin.get (kept_entries self.old) id) (fin.get (kept_entries other.now) id)) }
        ensures err { OnErr result (kept_entries self.new ≡ kept_entries self.old) }
        ensures well { IsWell self.new }
    {
        match other {
            Kept::One(entry) => self.merge_one(alloc, entry),
            Kept::Rows(stored) => self.merge_rows(alloc, stored),
        }
    }

    /// The entries whose keys lie in a bucket.
    pub fn within(&self, alloc: Global, bucket: Bucket) -> Result<Kept, NoMemory>
        requires { IsWell self.now }
        ensures entries { IfOk result (λ part. kept_entries part
            ≡ fin.retain_keys (kept_entries self.now) (in_bucket bucket)) }
        ensures well { IfOk result IsWell }
    {
        match self {
            Kept::One(entry) => {
                if lies_in(entry, bucket) {
                    Ok(Kept::One(entry.copy(alloc)?))
                } else {
                    Ok(Kept::none(alloc))
                }
            }
            Kept::Rows(stored) => Ok(Kept::Rows(stored.within(alloc, bucket)?)),
        }
    }

    /// Removes the entries whose keys lie in a bucket.
    pub fn remove_within(&mut self, alloc: Global, bucket: Bucket)
        requires { IsWell self.old }
        ensures entries { kept_entries self.new
            ≡ fin.retain_keys (kept_entries self.old) (λ id. not (in_bucket bucket id)) }
        ensures well { IsWell self.new }
    {
        match self {
            Kept::Rows(stored) => stored.remove_within(bucket),
            Kept::One(entry) => {
                if lies_in(entry, bucket) {
                    *self = Kept::none(alloc);
                }
            }
        }
    }

    /// A copy that shares all entries.
    pub fn shared(&self, alloc: Global) -> Result<Kept, NoMemory>
        requires { IsWell self.now }
        ensures entries { IfOk result (λ copy. kept_entries copy ≡ kept_entries self.now) }
        ensures well { IfOk result IsWell }
    {
        match self {
            Kept::One(entry) => Ok(Kept::One(entry.copy(alloc)?)),
            Kept::Rows(stored) => Ok(Kept::Rows(stored.shared(alloc)?)),
        }
    }
}
