//! Words and the documents that have them.

use crate::table::{done, shown};
use crate::texts::{number, word};
use std::alloc::Global;
use word_index::WordIndex;

/// An index that lines fill.
#[derive(Drop)]
pub struct Words {
    index: WordIndex,
}

/// The verbs, and the kinds of the words behind each.
pub const SHAPES: &[(&str, &str)] = &[
    ("begin", "."),
    ("add", "word u32 ."),
    ("remove", "word u32 ."),
    ("move", "word u32 u32 ."),
    ("list", "word ."),
];

impl Words {
    /// No words.
    pub fn new(alloc: Global) -> Words {
        Words {
            index: WordIndex::new(alloc),
        }
    }

    /// Does what a line says.
    pub fn say(&mut self, alloc: Global, verb: &str, rest: &str) -> Option<String> {
        let index = &mut self.index;
        let (word, from, to) = (word(rest, 0), number(rest, 1), number(rest, 2));
        match verb {
            "list" => return shown(alloc, &index.list(word)),
            "add" => return done(alloc, index.add(alloc, word, from).is_ok()),
            "remove" => index.remove(word, from),
            "move" => index.move_id(word, from, to),
            _ => *index = WordIndex::new(alloc),
        }
        done(alloc, true)
    }
}
