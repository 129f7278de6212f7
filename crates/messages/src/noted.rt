ghost use Rattle.std.specs.Prelude.{◌≡◌, IfOk};
ghost use Rattle.entry_maps.specs.Stamps.{stamps_of};
ghost use Rattle.messages.specs.Noting.{noted_body, noted_reply};

use crate::body::{Body, copy_id};
use crate::lists::StampList;
use crate::reply::Reply;
use bucket_ids::Bucket;
use document_ids::DocId;
use entry_maps::EntryMap;
use pieces::PieceList;
use stamps::Stamp;
use std::alloc::Global;
use value_lists::{NoMemory, TryCopy};

/// A body in which each entry is named by its stamp, as a journal keeps it.
#[derive(Debug, Drop)]
pub enum NotedBody {
    /// Which pieces there are.
    Ask,
    /// All entries of a bucket and the pieces that meet it; or what there is of one document.
    Read { bucket: Bucket, only: Option<DocId> },
    /// The entry is to be kept where it is newer.
    Store { stamp: Stamp },
    /// The bucket is to be one piece and to have these entries where they are newer.
    Apply { bucket: Bucket, entries: StampList },
    /// The piece with just this serial is to go, with its entries.
    Delete { bucket: Bucket, serial: u64 },
    /// The piece that covers the bucket is to be split until the bucket is a piece.
    Split { bucket: Bucket },
    /// The pieces inside the bucket are to be one.
    Join { bucket: Bucket },
    /// The piece is to be ready for searches.
    Ready { bucket: Bucket },
    /// The bucket is to be counted by searches.
    Activate { bucket: Bucket },
}

impl TryCopy for NotedBody {
    /// Ids are shared.
    fn copy(&self, alloc: Global) -> Result<NotedBody, NoMemory> {
        Ok(match self {
            NotedBody::Ask => NotedBody::Ask,
            NotedBody::Read { bucket, only } => NotedBody::Read {
                bucket: *bucket,
                only: copy_id(alloc, only)?,
            },
            NotedBody::Store { stamp } => NotedBody::Store { stamp: *stamp },
            NotedBody::Apply { bucket, entries } => NotedBody::Apply {
                bucket: *bucket,
                entries: entries.copy(alloc)?,
            },
            NotedBody::Delete { bucket, serial } => NotedBody::Delete {
                bucket: *bucket,
                serial: *serial,
            },
            NotedBody::Split { bucket } => NotedBody::Split { bucket: *bucket },
            NotedBody::Join { bucket } => NotedBody::Join { bucket: *bucket },
            NotedBody::Ready { bucket } => NotedBody::Ready { bucket: *bucket },
            NotedBody::Activate { bucket } => NotedBody::Activate { bucket: *bucket },
        })
    }
}

/// A reply in which each entry is named by its stamp, as a journal keeps it.
#[derive(Debug, Drop)]
pub enum NotedReply {
    /// The message was taken; what it asks to see.
    Answer {
        pieces: PieceList,
        entries: StampList,
    },
    /// The node has taken a message of this greater version.
    Newer {
        version: u32,
    },
    /// No piece is there.
    NoBucket,
    /// A piece is there, and isn't the one that was named.
    Differs,
    NoMemory,
}

impl TryCopy for NotedReply {
    fn copy(&self, alloc: Global) -> Result<NotedReply, NoMemory> {
        match self {
            NotedReply::Answer { pieces, entries } => Ok(NotedReply::Answer {
                pieces: pieces.copy(alloc)?,
                entries: entries.copy(alloc)?,
            }),
            NotedReply::Newer { version } => Ok(NotedReply::Newer { version: *version }),
            NotedReply::NoBucket => Ok(NotedReply::NoBucket),
            NotedReply::Differs => Ok(NotedReply::Differs),
            NotedReply::NoMemory => Ok(NotedReply::NoMemory),
        }
    }
}

/// The stamps of some entries, in rising order.
fn noted_entries(entries: &EntryMap) -> Result<StampList, NoMemory>
    ensures { IfOk result (λ stamps. stamps ≡ stamps_of entries.now) }
{
    Ok(StampList::of(entries.stamps()?))
}

impl Body {
    /// The body with each entry named by its stamp, of several entries in rising order.
    pub fn noted(&self, alloc: Global) -> Result<NotedBody, NoMemory>
        ensures { IfOk result (λ noted. noted ≡ noted_body self.now) }
    {
        Ok(match self {
            Body::Ask => NotedBody::Ask,
            Body::Read { bucket, only } => NotedBody::Read {
                bucket: *bucket,
                only: copy_id(alloc, only)?,
            },
            Body::Store { entry } => NotedBody::Store {
                stamp: entry.entry().stamp,
            },
            Body::Apply { bucket, entries } => NotedBody::Apply {
                bucket: *bucket,
                entries: noted_entries(entries)?,
            },
            Body::Delete { bucket, serial } => NotedBody::Delete {
                bucket: *bucket,
                serial: *serial,
            },
            Body::Split { bucket } => NotedBody::Split { bucket: *bucket },
            Body::Join { bucket } => NotedBody::Join { bucket: *bucket },
            Body::Ready { bucket } => NotedBody::Ready { bucket: *bucket },
            Body::Activate { bucket } => NotedBody::Activate { bucket: *bucket },
        })
    }
}

impl Reply {
    /// The reply with each entry named by its stamp, in rising order.
    pub fn noted(&self, alloc: Global) -> Result<NotedReply, NoMemory>
        ensures { IfOk result (λ noted. noted ≡ noted_reply self.now) }
    {
        match self {
            Reply::Answer { pieces, entries } => Ok(NotedReply::Answer {
                pieces: pieces.copy(alloc)?,
                entries: noted_entries(entries)?,
            }),
            Reply::Newer { version } => Ok(NotedReply::Newer { version: *version }),
            Reply::NoBucket => Ok(NotedReply::NoBucket),
            Reply::Differs => Ok(NotedReply::Differs),
            Reply::NoMemory => Ok(NotedReply::NoMemory),
        }
    }
}
