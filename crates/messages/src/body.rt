ghost use Rattle.std.specs.Prelude.{◌≡◌, IfOk};

use bucket_ids::Bucket;
use document_ids::DocId;
use documents::SharedEntry;
use entry_maps::EntryMap;
use std::alloc::Global;
use value_lists::{NoMemory, TryCopy};

/// What a message asks of a node.
#[derive(Drop)]
pub enum Body {
    /// Which pieces there are.
    Ask,
    /// All entries of a bucket and the pieces that meet it; or what there is of one document, whose key's
    /// bucket of 58 bits is named.
    Read { bucket: Bucket, only: Option<DocId> },
    /// The entry is to be kept where it is newer.
    Store { entry: SharedEntry },
    /// The bucket is to be one piece and to have these entries where they are newer.
    Apply { bucket: Bucket, entries: EntryMap },
    /// The piece with just this serial is to go, with its entries.
    Delete { bucket: Bucket, serial: u64 },
    /// The piece that covers the bucket is to be split until the bucket is a piece.
    Split { bucket: Bucket },
    /// The pieces inside the bucket are to be one.
    Join { bucket: Bucket },
    /// The piece is to be ready for searches.
    Ready { bucket: Bucket },
    /// The bucket is to be counted by searches.
    Activate { bucket: Bucket },
}

/// A copy of what may be an id.
pub fn copy_id(alloc: Global, id: &Option<DocId>) -> Result<Option<DocId>, NoMemory>
    ensures { IfOk result (λ copy. copy ≡ id.now) }
{
    match id {
        Some(id) => Ok(Some(id.copy(alloc)?)),
        None => Ok(None),
    }
}

impl TryCopy for Body {
    /// Ids, documents and entries are shared.
    fn copy(&self, alloc: Global) -> Result<Body, NoMemory> {
        Ok(match self {
            Body::Ask => Body::Ask,
            Body::Read { bucket, only } => Body::Read {
                bucket: *bucket,
                only: copy_id(alloc, only)?,
            },
            Body::Store { entry } => Body::Store {
                entry: entry.copy(alloc)?,
            },
            Body::Apply { bucket, entries } => Body::Apply {
                bucket: *bucket,
                entries: entries.copy(alloc)?,
            },
            Body::Delete { bucket, serial } => Body::Delete {
                bucket: *bucket,
                serial: *serial,
            },
            Body::Split { bucket } => Body::Split { bucket: *bucket },
            Body::Join { bucket } => Body::Join { bucket: *bucket },
            Body::Ready { bucket } => Body::Ready { bucket: *bucket },
            Body::Activate { bucket } => Body::Activate { bucket: *bucket },
        })
    }
}
