//! Two entry maps that lines change and ask.

use crate::table::{done, shown};
use crate::texts::{short, word};
use crate::versions::{put, read_entry};
use crate::words::read_bucket;
use document_ids::DocId;
use documents::{Entry, SharedEntry};
use entry_maps::EntryMap;
use global_ids::key_of;
use std::alloc::Global;
use std::mem;
use value_lists::TryCopy;

/// The two maps.
#[derive(Drop)]
pub struct Maps {
    one: EntryMap,
    two: EntryMap,
}

/// What an entry is: its stamp, and whether it has a document.
fn told(alloc: Global, entry: Option<&Entry>) -> Option<String> {
    match entry {
        Some(entry) => shown(alloc, &(entry.stamp, entry.body.is_some())),
        None => String::from_str(alloc, "nothing").ok(),
    }
}

/// Whether a map takes an entry, which may be put beside its key.
fn take(alloc: Global, map: &mut EntryMap, verb: &str, word: &str) -> Option<String> {
    let entry = read_entry(alloc, word)?;
    let key = key_of(&entry.id);
    let taken = match verb {
        "put" => map.put(entry).ok()?,
        _ => map.put_at(key, SharedEntry::new(alloc, entry).ok()?).ok()?,
    };
    shown(alloc, &taken)
}

/// What a map has of a document, which may be asked for beside its key.
fn get(alloc: Global, map: &EntryMap, verb: &str, id: &str) -> Option<String> {
    let id = DocId::parse(alloc, id).ok()?;
    match verb {
        "get" => told(alloc, map.get(&id)),
        _ => told(alloc, map.get_at(key_of(&id), &id)),
    }
}

/// The map of one entry.
fn alone(alloc: Global, word: &str) -> Option<EntryMap> {
    match SharedEntry::new(alloc, read_entry(alloc, word)?) {
        Ok(entry) => Some(EntryMap::of_one(alloc, entry)),
        Err(_) => None,
    }
}

/// Puts a map in another one's place, if there is one.
fn set(map: &mut EntryMap, other: Option<EntryMap>) -> bool {
    match other {
        Some(other) => {
            *map = other;
            true
        }
        None => false,
    }
}

/// Makes of a map the part of another one, or drops that part.
fn cut(one: &mut EntryMap, two: &mut EntryMap, verb: &str, bucket: &str) -> Option<()> {
    let bucket = read_bucket(bucket)?;
    match verb {
        "within" => *two = one.within(bucket).ok()?,
        _ => one.remove_within(bucket),
    }
    Some(())
}

/// Puts the document of a number.
fn put_numbered(alloc: Global, map: &mut EntryMap, number: u64, version: &str) -> bool {
    match format!(in alloc; "id:ns:music:n=7:d{number}@{version}") {
        Ok(word) => put(alloc, map, &word),
        Err(_) => false,
    }
}

/// Puts so many documents, whose numbers go on by steps.
fn put_many(alloc: Global, map: &mut EntryMap, words: &str) -> Option<()> {
    let (step, many) = (short(words, 0)?, short(words, 1)?);
    let mut good = true;
    for place in 0..many {
        let number = u64::from(place) * u64::from(step);
        good &= put_numbered(alloc, map, number, word(words, 2));
    }
    if good { Some(()) } else { None }
}

/// The counts of entries and documents of two maps.
fn counts(alloc: Global, one: &EntryMap, two: &EntryMap) -> Option<String> {
    shown(
        alloc,
        &[
            one.entries(),
            one.documents(),
            two.entries(),
            two.documents(),
        ],
    )
}

/// What changes the maps.
fn change(alloc: Global, one: &mut EntryMap, two: &mut EntryMap, verb: &str, rest: &str) -> bool {
    match verb {
        "clear" => set(one, Some(EntryMap::new(alloc))),
        "swap" => {
            mem::swap(one, two);
            true
        }
        "copy" => set(two, one.copy(alloc).ok()),
        "alone" => set(one, alone(alloc, rest)),
        "merge" => one.merge(two).is_ok(),
        "within" | "remove" => cut(one, two, verb, rest).is_some(),
        "many" => put_many(alloc, one, rest).is_some(),
        _ => false,
    }
}

impl Maps {
    pub fn new(alloc: Global) -> Maps {
        Maps {
            one: EntryMap::new(alloc),
            two: EntryMap::new(alloc),
        }
    }

    /// What comes of a line.
    pub fn say(&mut self, alloc: Global, verb: &str, rest: &str) -> Option<String> {
        let (one, two) = (&mut self.one, &mut self.two);
        match verb {
            "put" | "put_at" => take(alloc, one, verb, rest),
            "get" | "get_at" => get(alloc, one, verb, rest),
            "stamps" => shown(alloc, &one.stamps().ok()?),
            "counts" => counts(alloc, one, two),
            verb => done(alloc, change(alloc, one, two, verb, rest)),
        }
    }
}
