ghost use Rattle.std.specs.Prelude.{◌≡◌, ℕ, Some, IfOk, OnOk, OnErr, if◌then◌else◌};
ghost use Rattle.std.specs.Option.{option_copied};
ghost use Rattle.lane_journals.specs.Stamps.{same_stamp};
ghost use Rattle.lane_journals.specs.Meanings.{entry_at};
ghost use Rattle.lane_journals.specs.KeptJournals.{past};
ghost use Rattle.stamps.specs.Places.{place_of};
ghost use Rattle.lane_states.specs.Written.{entry_of, FindsEntries};

use documents::Entry;
use lane_journals::LaneEvent;
use stamps::{Stamp, StampPlaces};
use std::alloc::Global;
use value_lists::NoMemory;

/// Whether two stamps are the same.
#[tactic(auto, unfolding(lane_journals::specs::Stamps::same_stamp))]
fn same_stamp(a: Stamp, b: Stamp) -> bool
    ensures { result ≡ same_stamp a b }
{
    if a.version == b.version {
        a.count == b.count
    } else {
        false
    }
}

/// The entry of an event, if it was written with the stamp.
fn entry_of(event: &LaneEvent, stamp: Stamp) -> Option<&Entry>
    ensures { option_copied result ≡ entry_of stamp (Some event.now) }
{
    match event {
        LaneEvent::Wrote { entry, .. } => {
            if same_stamp(entry.entry().stamp, stamp) {
                Some(entry.entry())
            } else {
                None
            }
        }
        _ => None,
    }
}

/// The entry that was written with a stamp, by the place that is kept for it.
pub fn entry_in<'a>(
    places: &StampPlaces,
    events: &'a [LaneEvent],
    stamp: Stamp,
) -> Option<&'a Entry>
    requires finds { FindsEntries (place_of places.now) events.now }
    ensures { option_copied result ≡ entry_at stamp (past events.now) }
{
    match places.get(stamp) {
        Some(place) => match events.get(place) {
            Some(event) => entry_of(event, stamp),
            None => None,
        },
        None => None,
    }
}

/// Keeps the place at which the entry of a stamp is to be written.
#[tactic(auto, unfolding(lane_journals::specs::Stamps::same_stamp))]
pub fn keep_place(
    alloc: Global,
    places: &mut StampPlaces,
    stamp: Stamp,
    place: usize,
) -> Result<(), NoMemory>
    ensures ok { OnOk result ((s : _) → place_of places.new s
        ≡ (if same_stamp stamp s then Some place else place_of places.old s)) }
    ensures err { OnErr result ((s : _) → place_of places.new s ≡ place_of places.old s) }
{
    places.keep(alloc, stamp, place)
}
