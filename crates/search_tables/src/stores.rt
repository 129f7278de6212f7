//! The documents of a node by local id.

use crate::table::{done, shown};
use crate::texts::{long, number, word};
use document_ids::DocId;
use meta_store::MetaStore;
use std::alloc::Global;

/// A store that lines fill.
#[derive(Drop)]
pub struct Stores {
    store: MetaStore,
}

/// The verbs, and the kinds of the words behind each.
pub const SHAPES: &[(&str, &str)] = &[
    ("begin", "."),
    ("locals", "."),
    ("len", "."),
    ("assign", "word u64 ."),
    ("free", "u32 ."),
    ("key", "u32 ."),
    ("id", "u32 ."),
    ("local", "word ."),
];

/// The local id that a document has now.
fn assign(alloc: Global, store: &mut MetaStore, id: &DocId, key: u64) -> Option<u32> {
    if store.len() < 4294967295 {
        store.assign(alloc, id, key).ok()
    } else {
        None
    }
}

/// The local id that a document of a key has now, or the one that it had.
fn of_id(alloc: Global, store: &mut MetaStore, verb: &str, rest: &str) -> Option<String> {
    let id = DocId::parse(alloc, word(rest, 0)).ok()?;
    if verb == "local" {
        shown(alloc, &store.local(&id))
    } else {
        shown(alloc, &assign(alloc, store, &id, long(rest, 1))?)
    }
}

/// The id of a local id, or `none`.
fn id_text(alloc: Global, store: &MetaStore, local: u32) -> Option<String> {
    let text = match store.id_of(local) {
        Some(id) => id.text(),
        None => "none",
    };
    String::from_str(alloc, text).ok()
}

impl Stores {
    /// No documents.
    pub fn new(alloc: Global) -> Stores {
        Stores {
            store: MetaStore::new(alloc),
        }
    }

    /// Does what a line says.
    pub fn say(&mut self, alloc: Global, verb: &str, rest: &str) -> Option<String> {
        let store = &mut self.store;
        let local = number(rest, 0);
        match verb {
            "key" => shown(alloc, &store.key_of(local)),
            "id" => id_text(alloc, store, local),
            "locals" => shown(alloc, &store.locals()),
            "len" => shown(alloc, &store.len()),
            "assign" | "local" => of_id(alloc, store, verb, rest),
            verb => done(alloc, change(alloc, store, verb, local)),
        }
    }
}

/// Frees a local id, or begins anew.
fn change(alloc: Global, store: &mut MetaStore, verb: &str, local: u32) -> bool {
    match verb {
        "free" => store.free(local),
        _ => *store = MetaStore::new(alloc),
    }
    true
}
