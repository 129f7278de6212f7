ghost use Rattle.std.specs.Prelude.{◌≡◌, [], OnOk};
ghost use Rattle.shelves.specs.Shelves.{TakesFirst};

use crate::shelf::Shelf;
use std::collections::VecDeque;
use value_lists::NoMemory;
use view_changes::LaneChange;

/// Appends changes to a shelf, first to last. At want of memory the changes that weren't appended are left then.
pub fn hand_over<H: Shelf>(shelf: &mut H, kept: &mut VecDeque<LaneChange>) -> Result<(), NoMemory>
    ensures taken { TakesFirst (H.shows shelf.old) (H.shows shelf.new) (H.pending shelf.old) (H.pending shelf.new)
        kept.old.items kept.new.items }
    ensures all { OnOk result (kept.new.items ≡ []) }
    ensures name { H.name shelf.new ≡ H.name shelf.old }
{
    while let Some(change) = kept.pop_front() {
        if let Err(change) = shelf.append(change) {
            kept.push_front_reserved(change);
            return Err(NoMemory);
        }
    }
    Ok(())
}

/// Appends changes to a shelf, first to last, and publishes them. At want of memory some of them are shown then, others
/// are pending, and those that weren't appended are left; nothing is lost, and the order stays. Takes what the shelf
/// takes for each change.
pub fn settle<H: Shelf>(shelf: &mut H, kept: &mut VecDeque<LaneChange>) -> Result<(), NoMemory>
    ensures taken { TakesFirst (H.shows shelf.old) (H.shows shelf.new) (H.pending shelf.old) (H.pending shelf.new)
        kept.old.items kept.new.items }

    // All of them are shown.
    ensures appended { OnOk result (kept.new.items ≡ []) }
    ensures published { OnOk result (H.pending shelf.new ≡ []) }
    ensures name { H.name shelf.new ≡ H.name shelf.old }
{
    hand_over(shelf, kept)?;
    shelf.publish()
}
