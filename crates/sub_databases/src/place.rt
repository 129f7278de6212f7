ghost use Rattle.std.specs.Prelude.{◌≡◌};
ghost use Rattle.std.specs.Option.{option_copied};
ghost use Rattle.document_rows.specs.Rows.{is_of, has_row};
ghost use Rattle.sub_databases.specs.Parts.{entry_place};

use document_ids::DocId;
use documents::{Entry, SharedEntry};
use node_rows::NodeRows;

/// Which of a node's parts has a document.
#[derive(Clone, Copy, Debug, PartialEq, Eq)]
pub enum Place {
    /// The ready part: the document has a local id.
    Ready,
    /// The part of the documents that aren't ready.
    NotReady,
    /// The part of the removes. An entry with the document of another id counts as one.
    Removed,
    /// None: there is no entry.
    Nowhere,
}

/// Whether an entry has the document of an id.
pub fn has_document(entry: &Entry, id: &DocId) -> bool
    ensures { result ≡ is_of id.now entry.now.body }
{
    match &entry.body {
        Some(document) => document.id().text() == id.text(),
        None => false,
    }
}

/// Whether an entry has a document of its id.
pub fn has_own(entry: &SharedEntry) -> bool
    ensures { result ≡ is_of entry.now.id entry.now.body }
{
    let entry = entry.entry();
    has_document(entry, &entry.id)
}

/// Whether the document of an entry is ready.
pub fn is_ready(rows: &NodeRows, entry: &SharedEntry) -> bool
    ensures { result ≡ has_row entry.now.id rows.now.rows }
{
    rows.local(&entry.entry().id).is_some()
}

/// The place of a document by its newest entry, and whether it is ready.
pub fn place_by(id: &DocId, newest: Option<&Entry>, ready: bool) -> Place
    ensures { result ≡ entry_place id.now (option_copied newest.entry) ready }
{
    match newest {
        None => Place::Nowhere,
        Some(entry) => {
            if !has_document(entry, id) {
                Place::Removed
            } else if ready {
                Place::Ready
            } else {
                Place::NotReady
            }
        }
    }
}
