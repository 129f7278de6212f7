//! A node's three parts in one lane.

use crate::entries::{read_entry, schema};
use crate::table::{done, shown};
use crate::texts::{long, word};
use bucket_ids::Bucket;
use document_ids::DocId;
use documents::{Entry, SharedEntry};
use global_ids::key_of;
use stamps::Stamp;
use std::alloc::Global;
use sub_databases::SubDatabases;
use value_lists::TryCopy;

/// Parts that lines change; none before the first line.
#[derive(Drop)]
pub struct Databases {
    parts: Option<SubDatabases>,
}

/// The verbs, and the kinds of the words behind each.
pub const SHAPES: &[(&str, &str)] = &[
    ("begin", "."),
    ("copy", "."),
    ("entries", "."),
    ("ready", "u64 word ."),
    ("unready", "u64 word ."),
    ("forget", "u64 word ."),
    ("make_ready", "word ."),
    ("drop", "word ."),
    ("place", "word ."),
    ("local", "word ."),
    ("newest", "word ."),
    ("token", "word word word ."),
];

/// Parts without entries.
fn no_parts(alloc: Global) -> Option<SubDatabases> {
    let schema = schema(alloc)?;
    SubDatabases::new(alloc, &schema).ok()
}

/// Takes the entry that a word says, with a count in its stamp.
fn take(alloc: Global, parts: &mut SubDatabases, rest: &str, ready: bool) -> Option<()> {
    let entry = read_entry(alloc, word(rest, 1), long(rest, 0))?;
    let key = key_of(&entry.id);
    let entry = SharedEntry::new(alloc, entry).ok()?;
    parts.take(alloc, key, &entry, ready).ok()
}

/// Makes a bucket ready, or drops it.
fn change_bucket(alloc: Global, parts: &mut SubDatabases, verb: &str, bucket: &str) -> bool {
    let Ok(bucket) = Bucket::parse(bucket) else {
        return false;
    };
    if verb == "drop" {
        parts.drop_bucket(bucket);
        return true;
    }
    parts.make_ready(alloc, bucket).is_ok()
}

/// Forgets a remove of a document, if its stamp has this count.
fn forget(alloc: Global, parts: &mut SubDatabases, rest: &str) -> bool {
    let count = long(rest, 0);
    match DocId::parse(alloc, word(rest, 1)) {
        Ok(id) => {
            parts.forget(&id, Stamp { version: 1, count });
            true
        }
        Err(_) => false,
    }
}

/// Puts a copy in the place of the parts.
fn copy(alloc: Global, parts: &mut SubDatabases) -> bool {
    match parts.copy(alloc) {
        Ok(copy) => {
            *parts = copy;
            true
        }
        Err(_) => false,
    }
}

/// The count of the stamp of a document's entry, and whether it is a remove; or `none`.
fn newest(alloc: Global, entry: Option<&Entry>) -> Option<String> {
    let Some(entry) = entry else {
        return String::from_str(alloc, "none").ok();
    };
    let kind = if entry.body.is_none() {
        "remove"
    } else {
        "put"
    };
    format!(in alloc; "{} {kind}", entry.stamp.count).ok()
}

/// The answer to a question of a document.
fn ask(alloc: Global, parts: &SubDatabases, verb: &str, id: &str) -> Option<String> {
    let id = DocId::parse(alloc, id).ok()?;
    match verb {
        "place" => shown(alloc, &parts.place(&id)),
        "local" => shown(alloc, &parts.local(&id)),
        _ => newest(alloc, parts.get(&id)),
    }
}

/// What a line changes.
fn change(alloc: Global, parts: &mut SubDatabases, verb: &str, rest: &str) -> bool {
    match verb {
        "ready" => take(alloc, parts, rest, true).is_some(),
        "unready" => take(alloc, parts, rest, false).is_some(),
        "forget" => forget(alloc, parts, rest),
        "copy" => copy(alloc, parts),
        verb => change_bucket(alloc, parts, verb, rest),
    }
}

/// Does what a line says.
fn say(alloc: Global, parts: &mut SubDatabases, verb: &str, rest: &str) -> Option<String> {
    match verb {
        "entries" => shown(alloc, &parts.entries()),
        "token" => shown(
            alloc,
            &parts.with_token(word(rest, 0), word(rest, 1), word(rest, 2)),
        ),
        "place" | "local" | "newest" => ask(alloc, parts, verb, rest),
        verb => done(alloc, change(alloc, parts, verb, rest)),
    }
}

impl Databases {
    /// No parts.
    pub fn new() -> Databases {
        Databases { parts: None }
    }

    /// Begins with parts without entries.
    fn begin(&mut self, alloc: Global) -> bool {
        self.parts = no_parts(alloc);
        self.parts.is_some()
    }

    /// Does what a line says.
    pub fn say(&mut self, alloc: Global, verb: &str, rest: &str) -> Option<String> {
        if verb == "begin" {
            done(alloc, self.begin(alloc))
        } else {
            say(alloc, self.parts.as_mut()?, verb, rest)
        }
    }
}
