//! All parts that lines speak to.

use crate::columns::Columns;
use crate::databases::Databases;
use crate::maps::Maps;
use crate::shelf::OneShelf;
use crate::stores::Stores;
use crate::views::Views;
use crate::words::Words;
use crate::{columns, databases, maps, stores, views, words};
use std::alloc::Global;

/// Each part stays as it is from line to line, until a line says that it begins anew.
#[derive(Drop)]
pub struct Parts {
    maps: Maps,
    words: Words,
    stores: Stores,
    columns: Columns,
    views: Views,
    databases: Databases,
    shelf: OneShelf,
}

impl Parts {
    /// The parts before any line.
    pub fn new(alloc: Global) -> Parts {
        Parts {
            maps: Maps::new(alloc),
            words: Words::new(alloc),
            stores: Stores::new(alloc),
            columns: Columns::new(alloc),
            views: Views::new(),
            databases: Databases::new(),
            shelf: OneShelf::new(alloc),
        }
    }

    /// Does what a line of a table says, and tells what comes of it.
    pub fn say(&mut self, alloc: Global, table: &str, verb: &str, rest: &str) -> Option<String> {
        match table {
            "maps" | "map" => self.maps.say(alloc, verb, rest),
            "words" | "word" => self.words.say(alloc, verb, rest),
            "stores" | "store" => self.stores.say(alloc, verb, rest),
            "columns" | "column" => self.columns.say(alloc, verb, rest),
            "databases" => self.databases.say(alloc, verb, rest),
            "shelves" => self.shelf.say(alloc, verb, rest),
            _ => self.views.say(alloc, verb, rest),
        }
    }
}

/// The verbs of a table, and the kinds of the words behind each.
pub fn shapes(table: &str) -> &'static [(&'static str, &'static str)] {
    match table {
        "maps" | "map" => maps::SHAPES,
        "words" | "word" => words::SHAPES,
        "stores" | "store" => stores::SHAPES,
        "columns" | "column" => columns::SHAPES,
        "databases" => databases::SHAPES,
        _ => views::SHAPES,
    }
}
