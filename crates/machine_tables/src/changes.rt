//! The changes of a view that a node tells of a message, a word each.

use service_layer::ChangeList;
use std::alloc::Global;
use view_changes::LaneChange;

/// What a change is.
fn kind_of(change: &LaneChange) -> &'static str {
    match change {
        LaneChange::Adopt { .. } => "adopt ",
        LaneChange::Activate { entries, .. } if entries.entries() == 1 => "activate_one ",
        LaneChange::Take { entry, .. } if entry.has_document() => "take ",
        LaneChange::Take { .. } => "remove ",
        _ => "other ",
    }
}

/// The change that is taken off first, if there is one.
fn first_of(changes: ChangeList) -> &'static str {
    match changes.split_first() {
        Some((first, _)) => kind_of(&first),
        None => "",
    }
}

/// All changes by their places, and behind a bar the one that is taken off first.
pub fn told(alloc: Global, changes: ChangeList) -> Option<String> {
    let mut text = String::new(alloc);
    let mut good = true;
    for index in 0..changes.len() {
        good &= text.push_str(kind_of(changes.at(index))).is_ok();
    }
    good &= text.push_str("| ").is_ok();
    good &= text.push_str(first_of(changes)).is_ok();
    if good { Some(text) } else { None }
}
