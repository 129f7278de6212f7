//! Places, nodes, buckets, bodies and replies in words. A piece is its bucket, a point, its serial, and a `!` where it is
//! ready.

ghost use Rattle.std.specs.Prelude.{◌<◌, IfOk, IfSome};
ghost use Rattle.node_model.specs.Takes.{IsInside};
ghost use Rattle.replica_store.specs.Replicas.{LieIn};

use crate::texts::{halves, number, short};
use crate::versions::{read_entries, read_entry};
use bucket_ids::Bucket;
use document_ids::DocId;
use documents::SharedEntry;
use entry_maps::EntryMap;
use messages::{Body, Reply};
use node_sets::NodeSet;
use pieces::{Piece, PieceList};
use std::alloc::Global;
use value_lists::NoMemory;

/// A bucket's number.
pub fn read_bucket(word: &str) -> Option<Bucket> {
    Bucket::parse(word).ok()
}

/// A place below a count.
pub fn read_place(word: &str, count: usize) -> Option<usize>
    ensures { IfSome result (λ at. at < count) }
{
    match word.parse::<usize>() {
        Ok(at) if at < count => Some(at),
        _ => None,
    }
}

/// A node.
pub fn read_node(word: &str) -> Option<u8>
    ensures { IfSome result (λ node. node < 32) }
{
    match word.parse::<u8>() {
        Ok(node) if node < 32 => Some(node),
        _ => None,
    }
}

/// The set of these bits.
pub fn read_set(words: &str, at: usize) -> Option<NodeSet> {
    Some(NodeSet::of(short(words, at)?))
}

/// Appends a bucket; whether a word says one.
fn push_bucket(buckets: &mut Vec<Bucket>, word: &str) -> bool {
    match Bucket::parse(word) {
        Ok(bucket) => buckets.push(bucket).is_ok(),
        Err(_) => false,
    }
}

/// Buckets.
pub fn read_buckets(alloc: Global, words: &str) -> Option<Vec<Bucket>> {
    let mut buckets = Vec::new(alloc);
    let mut good = true;
    for word in words.split_ascii_whitespace() {
        good &= push_bucket(&mut buckets, word);
    }
    if good { Some(buckets) } else { None }
}

/// The body that stores an entry.
fn read_store(alloc: Global, word: &str) -> Option<Body>
    ensures { IfSome result IsInside }
{
    match SharedEntry::new(alloc, read_entry(alloc, word)?) {
        Ok(entry) => Some(Body::Store { entry }),
        Err(_) => None,
    }
}

/// The body that asks for a document.
fn read_find(alloc: Global, bucket: Bucket, id: &str) -> Option<Body>
    ensures { IfSome result IsInside }
{
    match DocId::parse(alloc, id) {
        Ok(id) => Some(Body::Read {
            bucket,
            only: Some(id),
        }),
        Err(_) => None,
    }
}

/// Those of some entries whose keys lie in a bucket.
pub fn entries_in(entries: &EntryMap, bucket: Bucket) -> Result<EntryMap, NoMemory>
    ensures { IfOk result (LieIn bucket) }
{
    Ok(entries.within(bucket)?)
}

/// The body that applies entries to a bucket.
fn read_apply(alloc: Global, bucket: Bucket, words: &str) -> Option<Body>
    ensures { IfSome result IsInside }
{
    let all = read_entries(alloc, words)?;
    match entries_in(&all, bucket) {
        Ok(entries) => Some(Body::Apply { bucket, entries }),
        Err(_) => None,
    }
}

/// A body that names just a bucket.
pub fn change_of(verb: &str, bucket: Bucket) -> Option<Body>
    ensures { IfSome result IsInside }
{
    match verb {
        "read" => Some(Body::Read { bucket, only: None }),
        "split" => Some(Body::Split { bucket }),
        "join" => Some(Body::Join { bucket }),
        "ready" => Some(Body::Ready { bucket }),
        "activate" => Some(Body::Activate { bucket }),
        _ => None,
    }
}

/// A body that names a bucket first.
fn read_change(alloc: Global, verb: &str, bucket: Bucket, rest: &str) -> Option<Body>
    ensures { IfSome result IsInside }
{
    match verb {
        "find" => read_find(alloc, bucket, rest),
        "apply" => read_apply(alloc, bucket, rest),
        "delete" => Some(Body::Delete {
            bucket,
            serial: number(rest, 0)?,
        }),
        verb => change_of(verb, bucket),
    }
}

/// The body that words say.
pub fn read_body(alloc: Global, verb: &str, rest: &str) -> Option<Body>
    ensures { IfSome result IsInside }
{
    let (bucket, behind) = halves(rest);
    match verb {
        "ask" => Some(Body::Ask),
        "store" => read_store(alloc, rest),
        verb => read_change(alloc, verb, read_bucket(bucket)?, behind),
    }
}

/// A piece.
fn read_piece(word: &str) -> Option<Piece> {
    let (bucket, serial) = word.split_once('.')?;
    Some(Piece {
        bucket: read_bucket(bucket)?,
        serial: number(serial.trim_end_matches('!'), 0)?,
        ready: serial.ends_with('!'),
    })
}

/// The list of the piece that a word says, or the empty one where it is a `-`.
fn read_pieces(alloc: Global, word: &str) -> Option<PieceList> {
    let mut pieces = Vec::new(alloc);
    let good = word == "-"
        || match read_piece(word) {
            Some(piece) => pieces.push(piece).is_ok(),
            None => false,
        };
    if good {
        Some(PieceList::of(pieces))
    } else {
        None
    }
}

/// The answer that shows a piece and entries.
fn read_answer(alloc: Global, words: &str) -> Option<Reply> {
    let (piece, entries) = halves(words);
    let pieces = read_pieces(alloc, piece)?;
    match read_entries(alloc, entries) {
        Some(entries) => Some(Reply::Answer { pieces, entries }),
        None => None,
    }
}

/// The reply that words say.
pub fn read_reply(alloc: Global, verb: &str, rest: &str) -> Option<Reply> {
    match verb {
        "answer" => read_answer(alloc, rest),
        "newer" => Some(Reply::Newer {
            version: short(rest, 0)?,
        }),
        "nobucket" => Some(Reply::NoBucket),
        "differs" => Some(Reply::Differs),
        "nomemory" => Some(Reply::NoMemory),
        _ => None,
    }
}

/// The same where `lost` says that none came.
pub fn read_arrived(alloc: Global, verb: &str, rest: &str) -> Option<Option<Reply>> {
    if verb == "lost" {
        return Some(None);
    }
    match read_reply(alloc, verb, rest) {
        Some(reply) => Some(Some(reply)),
        None => None,
    }
}
