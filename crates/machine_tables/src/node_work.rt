//! A node at work, for `bench/node` to time.

ghost use Rattle.std.specs.Prelude.{◌<◌, ◌≤◌, IfSome};
ghost use Rattle.node_model.specs.Takes.{IsInside};

use crate::node::{new_node, take};
use crate::words::{change_of, entries_in};
use bucket_ids::Bucket;
use document_ids::DocId;
use documents::{Document, Entry, SharedEntry};
use entry_maps::EntryMap;
use messages::{Body, Reply};
use service_layer::NodePart;
use stamps::Stamp;
use std::alloc::Global;
use value_lists::TryCopy;

/// The id of a numbered document.
fn id_of(alloc: Global, number: u32) -> Option<DocId> {
    DocId::parse(alloc, &format!(in alloc; "id:ns:music::{number}").ok()?).ok()
}

/// The message that stores a document.
fn store_of(alloc: Global, count: u64, id: DocId, document: Document) -> Option<Body>
    ensures { IfSome result IsInside }
{
    let entry = Entry {
        stamp: Stamp { version: 1, count },
        id,
        body: Some(document),
    };
    match SharedEntry::new(alloc, entry) {
        Ok(entry) => Some(Body::Store { entry }),
        Err(_) => None,
    }
}

/// The message that stores a numbered document.
fn store_numbered(alloc: Global, number: u32) -> Option<Body>
    ensures { IfSome result IsInside }
{
    let id = id_of(alloc, number)?;
    match id.copy(alloc) {
        Ok(copy) => store_of(alloc, u64::from(number), id, Document::empty(alloc, copy)),
        Err(_) => None,
    }
}

/// The message that asks for a numbered document.
fn find_of(alloc: Global, number: u32) -> Option<Body>
    ensures { IfSome result IsInside }
{
    match id_of(alloc, number) {
        Some(id) => Some(Body::Read {
            bucket: Bucket::new(58, 0),
            only: Some(id),
        }),
        None => None,
    }
}

/// Whether a node takes a message, if there is one.
fn takes(node: &mut NodePart, body: Option<Body>) -> bool
    requires { IfSome body IsInside }
{
    match body {
        Some(body) => take(node, 1, body).is_some(),
        None => false,
    }
}

/// Applies to a bucket those of some entries that lie in it.
fn applies(node: &mut NodePart, bucket: Bucket, entries: &EntryMap) -> bool {
    match entries_in(entries, bucket) {
        Ok(entries) => takes(node, Some(Body::Apply { bucket, entries })),
        Err(_) => false,
    }
}

/// A node that holds all keys in two buckets.
fn whole(alloc: Global) -> Option<NodePart> {
    let mut node = new_node(alloc)?;
    let none = EntryMap::new(alloc);
    if applies(&mut node, Bucket::new(1, 0), &none)
        && applies(&mut node, Bucket::new(1, 1), &none)
    {
        Some(node)
    } else {
        None
    }
}

/// So many, if all were done.
fn counted(count: u64, done: bool) -> Option<u64> {
    if done { Some(count) } else { None }
}

/// Stores so many documents.
fn store_all(alloc: Global, node: &mut NodePart, count: u32) -> Option<u64> {
    let mut done = true;
    for number in 0..count {
        done &= takes(node, store_numbered(alloc, number));
    }
    counted(u64::from(count), done)
}

/// Reads each of so many documents alone.
fn get_all(alloc: Global, node: &mut NodePart, count: u32) -> Option<u64> {
    let mut done = true;
    for number in 0..count {
        done &= takes(node, find_of(alloc, number));
    }
    counted(u64::from(count), done)
}

/// How many bits the buckets have in which there are some ten documents.
fn bits_of(count: u32) -> u8
    ensures some { 2 ≤ result }
    ensures few { result < 16 }
{
    match count {
        0..5_000 => 7,
        5_000..20_000 => 10,
        _ => 12,
    }
}

/// Sends a message that names just a bucket, for each bucket of so many bits.
fn tell_all(node: &mut NodePart, verb: &str, bits: u8) -> Option<u64>
    requires some { 1 ≤ bits }
    requires few { bits < 16 }
{
    let parts = 1u64 << bits;
    let mut done = true;
    for low in 0..parts {
        done &= takes(node, change_of(verb, Bucket::new(bits, low)));
    }
    counted(parts, done)
}

/// Applies to a bucket what a reply shows of it.
fn applies_reply(node: &mut NodePart, bucket: Bucket, reply: &Reply) -> bool {
    match reply {
        Reply::Answer { pieces: _, entries } => applies(node, bucket, entries),
        _ => false,
    }
}

/// Applies to a bucket what the node shows of it.
fn applies_shown(node: &mut NodePart, bucket: Bucket) -> bool {
    match take(node, 1, Body::Read { bucket, only: None }) {
        Some(taken) => applies_reply(node, bucket, &taken.reply),
        None => false,
    }
}

/// The same for each bucket of so many bits.
fn apply_all(node: &mut NodePart, bits: u8) -> Option<u64>
    requires some { 1 ≤ bits }
    requires few { bits < 16 }
{
    let parts = 1u64 << bits;
    let mut done = true;
    for low in 0..parts {
        done &= applies_shown(node, Bucket::new(bits, low));
    }
    counted(parts, done)
}

/// Splits the buckets down to those of so many bits, and then does a kind of work with these.
fn work_on_parts(node: &mut NodePart, kind: &str, bits: u8) -> Option<u64>
    requires some { 2 ≤ bits }
    requires few { bits < 16 }
{
    let split = tell_all(node, "split", bits)?;
    match kind {
        "splits" => Some(split),
        "joins" => tell_all(node, "join", bits - 1),
        "reads" => tell_all(node, "read", bits),
        "applies" => apply_all(node, bits),
        _ => None,
    }
}

/// Stores so many documents, and then does a kind of work with these.
fn work_on(alloc: Global, node: &mut NodePart, kind: &str, count: u32) -> Option<u64> {
    let stored = store_all(alloc, node, count)?;
    match kind {
        "stores" => Some(stored),
        "gets" => get_all(alloc, node, count),
        kind => work_on_parts(node, kind, bits_of(count)),
    }
}

/// Does a kind of work with so many entries, and says how many messages of it were taken.
pub fn work(alloc: Global, kind: &str, count: u32) -> Option<u64> {
    match whole(alloc) {
        Some(mut node) => work_on(alloc, &mut node, kind, count),
        None => None,
    }
}
