//! Maps in which the newest entry of a document wins.
//!
//! A contract sees an `EntryMap` as the finite map of std's from the text of an id to its entry (`Entries`). Inside,
//! entries are shared and lie in the order of their keys' bits turned round, so that each bucket is one run
//! (`specs/Slots.antt`), in the rows of `entry_rows`; a map that is made of one entry keeps that alone, without a row,
//! until it takes another one. A merge makes new rows only of those among which the other map's entries lie; the rows
//! before and behind them stay, and all where no entry of the other map is newer. Where maps are folded, one wants the
//! map itself: `joined` in `specs/Joins.antt` is that map, and `join` makes it.
//!
//! ```text
//! let mut map = EntryMap::new(alloc);
//! map.put(entry)?;                    // false where an entry of the same or a greater stamp was there
//! map.get(&id)                        // the newest
//! map.get_at(key, &id)                // the same, where the id's key is at hand
//! map.within(Bucket::new(4, 0))?      // the entries of one bucket
//! map.merge(&other)?;                 // of each document the newer entry
//! other.has_newer(&map)               // false now: a merge would change nothing
//! join(&mut union, &answer)?;         // union is now the join of both
//! map.stamps()?                       // the stamps of all entries, the smallest first
//! map.listed()?                       // all entries, shared, each document once
//! map.put_instead_at(key, entry);     // in the place of what is there, be it newer or older
//! map.remove_at(key, &id);            // the document has none
//! map.copy(alloc)?                    // the same entries, shared
//! EntryMap::of_one(alloc, entry)      // the map of one entry; takes no memory
//! ```
#![tactic(auto)]

mod copies;
pub mod entry_map;
pub mod joins;
mod kept;
mod kept_stamps;
pub mod laws;
mod listing;
mod merging;
mod newer;
mod runs;
mod seeks;
mod stored;

pub use entry_map::EntryMap;
pub use joins::{join, joins_are_by_document};
