//! The view of a lane.

use crate::columns::value_text;
use crate::entries::{read_entry, schema};
use crate::searches::search;
use crate::table::{done, shown};
use crate::texts::{halves, node, number, signed, word};
use bucket_ids::Bucket;
use documents::{Document, SharedEntry};
use entry_maps::EntryMap;
use lane_views::LaneView;
use std::alloc::Global;
use value_lists::TryCopy;
use view_changes::{LaneChange, Lists};

/// A view that lines change; none before the first line.
#[derive(Drop)]
pub struct Views {
    view: Option<LaneView>,
}

/// The verbs of views and shelves, and the kinds of the words behind each.
pub const SHAPES: &[(&str, &str)] = &[
    ("begin", "."),
    ("copy", "."),
    ("append", "word u8"),
    ("keep", "word u8"),
    ("kept", "."),
    ("publish", "."),
    ("settle", "."),
    ("hide", "."),
    ("generation", "."),
    ("search", "u32 word"),
    ("measure", "u32 ."),
    ("adopt", "u8 u32 ."),
    ("activate", "u8 word"),
    ("take", "u8 word ."),
    ("stop", "u8 ."),
    ("start", "u8 ."),
    ("serves", "u8 u32 ."),
    ("locals", "u8 ."),
    ("key", "u8 u32 ."),
    ("value", "u8 u32 word ."),
    ("document", "u8 u32 ."),
    ("type", "u8 word ."),
    ("token", "u8 word word word ."),
    ("next", "u8 word word i64 i64 ."),
];

/// Puts the entry that a word says; whether it says one.
fn put(alloc: Global, entries: &mut EntryMap, word: &str) -> bool {
    match read_entry(alloc, word, 1) {
        Some(entry) => entries.put(entry).is_ok(),
        None => false,
    }
}

/// The change that puts the entries of a bucket in a node's place.
fn activation(alloc: Global, node: u8, words: &str) -> Option<LaneChange> {
    let (bucket, words) = halves(words);
    let bucket = Bucket::parse(bucket).ok()?;
    let mut entries = EntryMap::new(alloc);
    let mut good = true;
    for word in words.split_ascii_whitespace() {
        good &= put(alloc, &mut entries, word);
    }
    if good {
        Some(LaneChange::Activate {
            node,
            bucket,
            entries,
        })
    } else {
        None
    }
}

/// The change that gives a node an entry.
fn taking(alloc: Global, node: u8, word: &str) -> Option<LaneChange> {
    let entry = SharedEntry::new(alloc, read_entry(alloc, word, 1)?).ok()?;
    Some(LaneChange::Take { node, entry })
}

/// The change that a line says.
pub fn read_change(alloc: Global, verb: &str, rest: &str) -> Option<LaneChange> {
    let node = node(rest, 0);
    let (_, words) = halves(rest);
    match verb {
        "adopt" => Some(LaneChange::Adopt {
            node,
            version: number(words, 0),
        }),
        "activate" => activation(alloc, node, words),
        "take" => taking(alloc, node, words),
        "stop" => Some(LaneChange::Stop { node }),
        "start" => Some(LaneChange::Start { node }),
        _ => None,
    }
}

/// The id of a document, or `none`.
fn id_text(alloc: Global, document: Option<&Document>) -> Option<String> {
    let text = match document {
        Some(document) => document.id().text(),
        None => "none",
    };
    String::from_str(alloc, text).ok()
}

/// The documents of a node that a word says.
fn ask_words(alloc: Global, view: &LaneView, verb: &str, rest: &str) -> Option<String> {
    let (node, name, field) = (node(rest, 0), word(rest, 1), word(rest, 2));
    match verb {
        "type" => shown(alloc, &view.of_type(node, name)),
        "token" => shown(alloc, &view.with_token(node, name, field, word(rest, 3))),
        "next" => shown(
            alloc,
            &view.next_value(node, name, field, signed(rest, 3), signed(rest, 4)),
        ),
        _ => None,
    }
}

/// The answer to a question of a node.
fn ask_node(alloc: Global, view: &LaneView, verb: &str, rest: &str) -> Option<String> {
    let (node, local) = (node(rest, 0), number(rest, 1));
    match verb {
        "serves" => shown(alloc, &view.serves(node, local)),
        "locals" => shown(alloc, &view.locals(node)),
        "key" => shown(alloc, &view.key(node, local)),
        "value" => value_text(alloc, view.value(node, local, word(rest, 2))),
        "document" => id_text(alloc, view.document(node, local)),
        verb => ask_words(alloc, view, verb, rest),
    }
}

/// The answer to a question.
pub fn ask(alloc: Global, view: &LaneView, verb: &str, rest: &str) -> Option<String> {
    match verb {
        "generation" => shown(alloc, &view.generation()),
        "search" => search(alloc, view, number(rest, 0), halves(rest).1),
        "measure" => shown(alloc, &view.measure(number(rest, 0))),
        verb => ask_node(alloc, view, verb, rest),
    }
}

/// A view of which nothing was heard.
pub fn opening(alloc: Global) -> Option<LaneView> {
    LaneView::new(alloc, &schema(alloc)?).ok()
}

/// Changes a view or asks it.
fn say(alloc: Global, view: &mut LaneView, verb: &str, rest: &str) -> Option<String> {
    match read_change(alloc, verb, rest) {
        Some(change) => done(alloc, view.change(alloc, &change).is_ok()),
        None => ask(alloc, view, verb, rest),
    }
}

impl Views {
    /// No view.
    pub fn new() -> Views {
        Views { view: None }
    }

    /// Begins with a view of which nothing was heard.
    fn begin(&mut self, alloc: Global) -> bool {
        self.view = opening(alloc);
        self.view.is_some()
    }

    /// Puts a copy in the view's place.
    fn copy(&mut self, alloc: Global) -> Option<()> {
        self.view = Some(self.view.as_ref()?.copy(alloc).ok()?);
        Some(())
    }

    /// Does what a line says.
    pub fn say(&mut self, alloc: Global, verb: &str, rest: &str) -> Option<String> {
        match verb {
            "begin" => done(alloc, self.begin(alloc)),
            "copy" => done(alloc, self.copy(alloc).is_some()),
            verb => say(alloc, self.view.as_mut()?, verb, rest),
        }
    }
}
