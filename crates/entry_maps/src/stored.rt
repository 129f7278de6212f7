ghost use Rattle.std.specs.Prelude.{◌≡◌, ◌+◌, ◌<◌, ◌≤◌, ◌^◌, ◌++◌, ◌∷◌, [], if◌then◌else◌, IfOk, OnOk, OnErr, None};
ghost use Rattle.std.specs.FinMap as fin;
ghost use Rattle.std.specs.Option.{option_copied};
ghost use Rattle.entry_rows.specs.Chunks.{place, IsSeat, IsPlaceFor};
ghost use Rattle.entry_maps.specs.Entries.{is_newer, with_entry, with_instead};
ghost use Rattle.entry_maps.specs.Slots.{IsCounted, IsStored, IsPlaced, IsSlotOf, slots_in, entries_of, entry_in, path_by};

use crate::seeks::seek;
use document_ids::DocId;
use documents::SharedEntry;
use entry_rows::chunks::{Chunks, Spot};
use entry_rows::slots::Slot;
use std::alloc::Global;
use value_lists::NoMemory;

/// Slots in order, how many there are, and how many of them hold documents.
#[derive(Drop)]
pub struct Stored {
    pub list: Chunks,
    pub entries: usize,
    pub documents: usize,
}

/// A count of which one goes where `before`, and to which one comes where `after`.
fn counted(count: usize, before: bool, after: bool) -> usize
    requires few { count < 2 ^ 63 }
    requires some { (if before then 1 else 0) ≤ count }
    ensures { result + (if before then 1 else 0) ≡ count + (if after then 1 else 0) }
{
    if before == after {
        count
    } else if before {
        count - 1
    } else {
        count + 1
    }
}

impl Stored {
    /// No slot.
    pub fn new(alloc: Global) -> Stored
        ensures slots { slots_in result ≡ [] }
        ensures counted { IsCounted result }
    {
        Stored {
            list: Chunks::new(alloc),
            entries: 0,
            documents: 0,
        }
    }

    /// The entry of a document at its path.
    pub fn get(&self, path: u64, id: &DocId) -> Option<&SharedEntry>
        requires stored { IsStored self.now }
        requires path { path ≡ path_by id.now }
        ensures { option_copied result ≡ fin.get (entries_of (slots_in self.now)) id.now }
    {
        match seek(&self.list, path, id) {
            Ok(seat) => Some(&self.list.at(seat).entry),
            Err(_) => None,
        }
    }

    /// The entry of a document where there is at most one slot: the ids are compared, and no path is asked for.
    pub fn only(&self, id: &DocId) -> Option<&SharedEntry>
        requires stored { IsStored self.now }
        requires few { self.now.entries ≤ 1 }
        ensures { option_copied result ≡ fin.get (entries_of (slots_in self.now)) id.now }
    {
        match self.list.slot(self.list.first()) {
            Some(slot) => {
                if slot.entry.is_of(id) {
                    Some(&slot.entry)
                } else {
                    None
                }
            }
            None => None,
        }
    }

    /// Adds a slot behind all, in rows of a length.
    pub fn append(&mut self, alloc: Global, long: usize, slot: Slot) -> Result<(), NoMemory>
        requires { IsCounted self.old }
        ensures ok { OnOk result (slots_in self.new ≡ slots_in self.old ++ slot ∷ []) }
        ensures counted { OnOk result (IsCounted self.new) }
    {
        if self.entries >= 1 << 62 {
            return Err(NoMemory);
        }
        let more = slot.entry.has_document();
        self.list.append(alloc, long, slot)?;
        self.entries += 1;
        self.documents = counted(self.documents, false, more);
        Ok(())
    }

    /// Puts another slot of the same document at a seat.
    fn replace(&mut self, seat: Spot, slot: Slot)
        requires stored { IsStored self.old }
        requires placed { IsPlaced slot }
        requires seat { IsSeat self.old.list seat }
        requires there { IsSlotOf (slots_in self.old) slot.entry.id (place self.old.list seat) }
        ensures entries { entries_of (slots_in self.new)
            ≡ fin.insert (entries_of (slots_in self.old)) slot.entry.id slot.entry }
        ensures stored { IsStored self.new }
    {
        let before = self.list.at(seat).entry.has_document();
        let after = slot.entry.has_document();
        self.list.replace(seat, slot);
        self.documents = counted(self.documents, before, after);
    }

    /// Adds the slot of a document that has none.
    fn add(&mut self, alloc: Global, spot: Spot, slot: Slot) -> Result<(), NoMemory>
        requires stored { IsStored self.old }
        requires placed { IsPlaced slot }
        requires spot { IsPlaceFor self.old.list slot.path slot.entry.id spot }
        requires none { entry_in (slots_in self.old) slot.entry.id ≡ None }
        ensures ok { OnOk result (entries_of (slots_in self.new)
            ≡ fin.insert (entries_of (slots_in self.old)) slot.entry.id slot.entry) }
        ensures err { OnErr result (entries_of (slots_in self.new) ≡ entries_of (slots_in self.old)) }
        ensures stored { IsStored self.new }
    {
        if self.entries >= 1 << 62 {
            return Err(NoMemory);
        }
        let more = slot.entry.has_document();
        self.list.insert(alloc, spot, slot)?;
        self.entries += 1;
        self.documents = counted(self.documents, false, more);
        Ok(())
    }

    /// Whether an entry is newer than its document's one, which is at a seat.
    fn is_newer(&self, seat: Spot, entry: &SharedEntry) -> bool
        requires stored { IsStored self.now }
        requires seat { IsSeat self.now.list seat }
        requires there { IsSlotOf (slots_in self.now) entry.now.id (place self.now.list seat) }
        ensures { result ≡ is_newer entry.now (fin.get (entries_of (slots_in self.now)) entry.now.id) }
    {
        let there = self.list.at(seat).entry.entry();
        there.stamp.is_before(entry.entry().stamp)
    }

    /// Takes an entry in the place of the document's one where it is newer, and says whether it is.
    fn renew(&mut self, seat: Spot, path: u64, entry: SharedEntry) -> bool
        requires stored { IsStored self.old }
        requires path { path ≡ path_by entry.id }
        requires seat { IsSeat self.old.list seat }
        requires there { IsSlotOf (slots_in self.old) entry.id (place self.old.list seat) }
        ensures taken { result ≡ is_newer entry (fin.get (entries_of (slots_in self.old)) entry.id) }
        ensures entries { entries_of (slots_in self.new) ≡ with_entry (entries_of (slots_in self.old)) entry }
        ensures stored { IsStored self.new }
    {
        if !self.is_newer(seat, &entry) {
            return false;
        }
        self.replace(seat, Slot { path, entry });
        true
    }

    /// Takes an entry where it is newer than what is there, and says whether it is.
    pub fn put(&mut self, alloc: Global, path: u64, entry: SharedEntry) -> Result<bool, NoMemory>
        requires stored { IsStored self.old }
        requires path { path ≡ path_by entry.id }
        ensures taken { IfOk result (λ taken. taken
            ≡ is_newer entry (fin.get (entries_of (slots_in self.old)) entry.id)) }
        ensures ok { OnOk result (entries_of (slots_in self.new)
            ≡ with_entry (entries_of (slots_in self.old)) entry) }
        ensures err { OnErr result (entries_of (slots_in self.new) ≡ entries_of (slots_in self.old)) }
        ensures stored { IsStored self.new }
    {
        match seek(&self.list, path, &entry.entry().id) {
            Ok(seat) => Ok(self.renew(seat, path, entry)),
            Err(spot) => {
                self.add(alloc, spot, Slot { path, entry })?;
                Ok(true)
            }
        }
    }

    /// Puts an entry in the place of its document's one, if there is one.
    pub fn put_instead(&mut self, path: u64, entry: SharedEntry)
        requires stored { IsStored self.old }
        requires path { path ≡ path_by entry.id }
        ensures entries { entries_of (slots_in self.new) ≡ with_instead (entries_of (slots_in self.old)) entry }
        ensures stored { IsStored self.new }
    {
        if let Ok(seat) = seek(&self.list, path, &entry.entry().id) {
            self.replace(seat, Slot { path, entry });
        }
    }

    /// Takes out the slot of a document, which is at a seat.
    fn take_out(&mut self, seat: Spot, id: &DocId)
        requires stored { IsStored self.old }
        requires seat { IsSeat self.old.list seat }
        requires there { IsSlotOf (slots_in self.old) id.now (place self.old.list seat) }
        ensures entries { entries_of (slots_in self.new) ≡ fin.remove (entries_of (slots_in self.old)) id.now }
        ensures stored { IsStored self.new }
    {
        let gone = self.list.at(seat).entry.has_document();
        let past = self.list.next(seat);
        self.list.cut(seat, past);
        self.entries -= 1;
        self.documents = counted(self.documents, gone, false);
    }

    /// Takes out the entry of a document, if there is one.
    pub fn remove(&mut self, path: u64, id: &DocId)
        requires stored { IsStored self.old }
        requires path { path ≡ path_by id.now }
        ensures entries { entries_of (slots_in self.new) ≡ fin.remove (entries_of (slots_in self.old)) id.now }
        ensures stored { IsStored self.new }
    {
        if let Ok(seat) = seek(&self.list, path, id) {
            self.take_out(seat, id);
        }
    }
}
