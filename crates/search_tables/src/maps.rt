//! A map from local ids.

use crate::table::done;
use crate::texts::{number, word};
use local_ids::LocalMap;
use std::alloc::Global;
use value_lists::TextValue;

/// A map that lines fill.
#[derive(Drop)]
pub struct Maps {
    map: LocalMap<TextValue>,
}

/// The verbs, and the kinds of the words behind each.
pub const SHAPES: &[(&str, &str)] = &[
    ("begin", "."),
    ("compact", "."),
    ("set", "u32 word ."),
    ("move", "u32 u32 ."),
    ("clear", "u32 ."),
    ("get", "u32 ."),
];

/// The value of an id, or `none`.
fn value(alloc: Global, map: &LocalMap<TextValue>, local: u32) -> Option<String> {
    let text = match map.get(local) {
        Some(text) => text.text(),
        None => "none",
    };
    String::from_str(alloc, text).ok()
}

/// Moves a value down, where that may be.
fn move_down(map: &mut LocalMap<TextValue>, from: u32, to: u32) -> bool {
    let may = to < from && map.get(to).is_none();
    if may {
        map.move_down(from, to);
    }
    may
}

/// Sets a value.
fn set(alloc: Global, map: &mut LocalMap<TextValue>, local: u32, text: &str) -> bool {
    match String::from_str(alloc, text) {
        Ok(text) => map.set(local, TextValue::of(text)).is_ok(),
        Err(_) => false,
    }
}

impl Maps {
    /// No values.
    pub fn new(alloc: Global) -> Maps {
        Maps {
            map: LocalMap::new(alloc),
        }
    }

    /// Does what a line says.
    pub fn say(&mut self, alloc: Global, verb: &str, rest: &str) -> Option<String> {
        let map = &mut self.map;
        let (local, to) = (number(rest, 0), number(rest, 1));
        match verb {
            "get" => return value(alloc, map, local),
            "set" => return done(alloc, set(alloc, map, local, word(rest, 1))),
            "move" => return done(alloc, move_down(map, local, to)),
            "clear" => map.clear(local),
            "compact" => map.compact(),
            _ => *map = LocalMap::new(alloc),
        }
        done(alloc, true)
    }
}
