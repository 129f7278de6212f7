//! A shelf for one reader, and changes that are kept for it.

use crate::table::{done, shown};
use crate::texts::{fits, halves};
use crate::views::{SHAPES, ask, opening, read_change};
use shelves::{NoShelf, PlainShelf, Shelf, settle};
use std::alloc::Global;
use std::collections::VecDeque;
use view_changes::LaneChange;

/// A shelf that lines fill; none before the first line.
#[derive(Drop)]
pub struct OneShelf {
    shelf: Option<PlainShelf>,
    kept: VecDeque<LaneChange>,
}

/// The change that words say.
fn change(alloc: Global, words: &str) -> Option<LaneChange> {
    let (verb, rest) = halves(words);
    if fits(SHAPES, verb, rest) {
        read_change(alloc, verb, rest)
    } else {
        None
    }
}

/// Appends a change to a shelf.
fn append(alloc: Global, shelf: &mut PlainShelf, words: &str) -> bool {
    match change(alloc, words) {
        Some(change) => shelf.append(change).is_ok(),
        None => false,
    }
}

/// Keeps a change for the shelf.
fn keep(alloc: Global, kept: &mut VecDeque<LaneChange>, words: &str) -> bool {
    match change(alloc, words) {
        Some(change) => kept.push_back(change).is_ok(),
        None => false,
    }
}

/// What is kept is shown.
fn show(shelf: &mut PlainShelf, kept: &mut VecDeque<LaneChange>) -> bool {
    let settled = settle(shelf, kept).is_ok();
    shelf.tell();
    settled
}

/// What is kept goes to a shelf that shows it to nobody.
fn hide(kept: &mut VecDeque<LaneChange>) -> bool {
    let mut shelf = NoShelf;
    let settled = settle(&mut shelf, kept).is_ok();
    shelf.tell();
    settled
}

/// Does what a line says to a shelf, or asks what it shows.
fn say(
    alloc: Global,
    shelf: &mut PlainShelf,
    kept: &mut VecDeque<LaneChange>,
    verb: &str,
    rest: &str,
) -> Option<String> {
    match verb {
        "append" => done(alloc, append(alloc, shelf, rest)),
        "publish" => done(alloc, shelf.publish().is_ok()),
        "settle" => done(alloc, show(shelf, kept)),
        verb => ask(alloc, shelf.view(), verb, rest),
    }
}

impl OneShelf {
    /// No shelf.
    pub fn new(alloc: Global) -> OneShelf {
        OneShelf {
            shelf: None,
            kept: VecDeque::new(alloc),
        }
    }

    /// A shelf that shows a view of which nothing was heard.
    fn begin(&mut self, alloc: Global) -> bool {
        match opening(alloc) {
            Some(view) => {
                self.shelf = Some(PlainShelf::new(alloc, view));
                true
            }
            None => false,
        }
    }

    /// Does what a line says.
    pub fn say(&mut self, alloc: Global, verb: &str, rest: &str) -> Option<String> {
        match verb {
            "begin" => done(alloc, self.begin(alloc)),
            "keep" => done(alloc, keep(alloc, &mut self.kept, rest)),
            "kept" => shown(alloc, &self.kept.len()),
            "hide" => done(alloc, hide(&mut self.kept)),
            verb => say(alloc, self.shelf.as_mut()?, &mut self.kept, verb, rest),
        }
    }
}
