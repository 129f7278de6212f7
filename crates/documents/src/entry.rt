ghost use Rattle.std.specs.Prelude.{◌≡◌, IfOk};

use crate::Document;
use document_ids::DocId;
use stamps::Stamp;
use std::alloc::Global;
use value_lists::{NoMemory, TryCopy};

/// What one write leaves of a document: the document, or that it is removed.
#[derive(Drop)]
pub struct Entry {
    pub stamp: Stamp,
    pub id: DocId,
    /// The document, or none for a remove.
    pub body: Option<Document>,
}

/// A copy of the body.
fn copy_body(alloc: Global, body: &Option<Document>) -> Result<Option<Document>, NoMemory>
    ensures { IfOk result (λ copy. copy ≡ body.now) }
{
    match body {
        Some(document) => Ok(Some(document.copy(alloc)?)),
        None => Ok(None),
    }
}

impl TryCopy for Entry {
    fn copy(&self, alloc: Global) -> Result<Entry, NoMemory> {
        Ok(Entry {
            stamp: self.stamp,
            id: self.id.copy(alloc)?,
            body: copy_body(alloc, &self.body)?,
        })
    }
}
