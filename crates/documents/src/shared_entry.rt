ghost use Rattle.std.specs.Prelude.{◌≡◌, ◌≢◌, true, false, IfOk, is_some};

use crate::entry::Entry;
use document_ids::DocId;
use std::alloc::Global;
use std::marker::Model;
use std::sync::Arc;
use value_lists::{NoMemory, TryCopy};

/// An entry that copies share, seen by contracts as the entry.
#[derive(Drop)]
pub struct SharedEntry {
    entry: Arc<Entry>,
}

impl Model for SharedEntry {
    ghost use Rattle.std.specs.Arc.{arc_value};
    ghost use Rattle.documents.specs.declared.entry.Entry.{Entry};
    ghost use Rattle.documents.specs.EntryCodes.{entry_code};

    ghost Value = { Entry };

    ghost coded = { entry_code };

    ghost view = { λ e. arc_value e.entry };
}

impl SharedEntry {
    /// The entry, to be shared.
    pub fn new(alloc: Global, entry: Entry) -> Result<SharedEntry, NoMemory>
        ensures { IfOk result (λ shared. shared ≡ entry) }
    {
        match Arc::new(alloc, entry) {
            Ok(entry) => Ok(SharedEntry { entry }),
            Err(_) => Err(NoMemory),
        }
    }

    /// The entry.
    pub fn entry(&self) -> &Entry
        ensures { result.now ≡ self.now }
    {
        &self.entry
    }

    /// Whether the entry is a document's.
    pub fn is_of(&self, id: &DocId) -> bool
        ensures its { result ≡ true → self.now.id ≡ id.now }
        ensures other { result ≡ false → self.now.id ≢ id.now }
    {
        self.entry.id.text() == id.text()
    }

    /// Whether the entry has a document.
    pub fn has_document(&self) -> bool
        ensures { result ≡ is_some self.now.body }
    {
        self.entry.body.is_some()
    }
}

impl TryCopy for SharedEntry {
    fn copy(&self, _alloc: Global) -> Result<SharedEntry, NoMemory> {
        Ok(SharedEntry {
            entry: Arc::try_clone(&self.entry)?,
        })
    }
}
