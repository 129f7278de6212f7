ghost use Rattle.std.specs.Prelude.{◌≡◌, true, false};
ghost use Rattle.std.specs.FinMap as fin;
ghost use Rattle.entry_maps.specs.Entries.{is_newer, HasNoneNewer, HasOneNewer};
ghost use Rattle.entry_maps.specs.Kept.{kept_entries, IsWell};
ghost use Rattle.entry_maps.specs.Slots.{IsStored, path_by, slots_in, entries_of};

use crate::kept::Kept;
use crate::stored::Stored;
use bucket_ids::path_of;
use documents::SharedEntry;
use global_ids::key_of;

/// Whether an entry, with the path of its document's key beside it, is newer than what a map has of the document.
fn is_newer(path: u64, entry: &SharedEntry, there: &Kept) -> bool
    requires well { IsWell there.now }
    requires path { path ≡ path_by entry.now.id }
    ensures { result ≡ is_newer entry.now (fin.get (kept_entries there.now) entry.now.id) }
{
    match there.get(path, &entry.entry().id) {
        Some(known) => known.entry().stamp.is_before(entry.entry().stamp),
        None => true,
    }
}

impl Stored {
    #[tactic(auto, using(crate::proofs::NewerLaws::none_newer_than))]
    /// Whether a walk over both maps side by side finds each entry there with the same or a greater stamp.
    fn is_there(&self, there: &Kept) -> bool
        requires own { IsStored self.now }
        requires well { IsWell there.now }
        ensures { result ≡ true → HasNoneNewer (entries_of (slots_in self.now)) (kept_entries there.now) }
    {
        let Kept::Rows(rows) = there else {
            return false;
        };
        match self.list.slot(self.list.first()) {
            Some(first) => rows.has_as_new(self, first),
            None => false,
        }
    }

    /// Whether an entry is newer than what a map has of its document.
    fn has_newer(&self, there: &Kept) -> bool
        requires own { IsStored self.now }
        requires well { IsWell there.now }
        ensures none { result ≡ false → HasNoneNewer (entries_of (slots_in self.now)) (kept_entries there.now) }
        ensures some { result ≡ true → HasOneNewer (entries_of (slots_in self.now)) (kept_entries there.now) }
    {
        if self.is_there(there) {
            return false;
        }
        let mut at = self.list.first();
        while let Some(slot) = self.list.slot(at) {
            if is_newer(slot.path, &slot.entry, there) {
                return true;
            }
            at = self.list.next(at);
        }
        false
    }
}

impl Kept {
    /// Whether an entry is newer than what another map has of its document.
    pub fn has_newer(&self, there: &Kept) -> bool
        requires own { IsWell self.now }
        requires well { IsWell there.now }
        ensures none { result ≡ false → HasNoneNewer (kept_entries self.now) (kept_entries there.now) }
        ensures some { result ≡ true → HasOneNewer (kept_entries self.now) (kept_entries there.now) }
    {
        match self {
            Kept::One(entry) => is_newer(path_of(key_of(&entry.entry().id)), entry, there),
            Kept::Rows(stored) => stored.has_newer(there),
        }
    }
}
