//! The changes of a lane's view go to a shelf.

ghost use Rattle.std.specs.Prelude.{◌≡◌, ◌≤◌, ◌<◌, [], IfErr, OnOk, length};
ghost use Rattle.std.specs.VecDeque.{deque_len, deque_capacity};
ghost use Rattle.shelves.specs.Shelves.{TakesFirst, Holds};
ghost use Rattle.lane_changes.specs.Changes.{changes_of};
ghost use Rattle.lane_states.specs.LaneStates.{journal_of, handed_of, IsKept};
ghost use Rattle.lane_states.specs.Told.{all_kept, ShowsOn};

use crate::lane_state::LaneState;
use service_layer::ChangeList;
use shelves::Shelf;
use shelves::laws::shelves_hold;
use std::collections::VecDeque;
use std::snapshot::Snapshot;
use value_lists::NoMemory;

/// Appends the changes of a list to a shelf, first to last. An error is want of memory: the changes that weren't
/// appended come back.
fn hand_over_list<H: Shelf>(shelf: &mut H, changes: ChangeList) -> Result<(), ChangeList>
    ensures taken { OnOk result (TakesFirst (H.shows shelf.old) (H.shows shelf.new) (H.pending shelf.old)
        (H.pending shelf.new) changes []) }
    ensures back { IfErr result (TakesFirst (H.shows shelf.old) (H.shows shelf.new) (H.pending shelf.old)
        (H.pending shelf.new) changes) }
    ensures name { H.name shelf.new ≡ H.name shelf.old }
{
    let mut left = changes;
    while let Some((first, later)) = left.split_first() {
        if let Err(first) = shelf.append(first) {
            return Err(later.behind(first));
        }
        left = later.all();
    }
    Ok(())
}

/// Appends the changes of some lists to a shelf, first to last. At want of memory the changes that weren't appended are
/// left then.
fn hand_over_lists<H: Shelf>(shelf: &mut H, kept: &mut VecDeque<ChangeList>) -> Result<(), NoMemory>
    ensures taken { TakesFirst (H.shows shelf.old) (H.shows shelf.new) (H.pending shelf.old) (H.pending shelf.new)
        (all_kept kept.old.items) (all_kept kept.new.items) }
    ensures all { OnOk result (kept.new.items ≡ []) }
    ensures name { H.name shelf.new ≡ H.name shelf.old }
    ensures lists { deque_len kept.new ≤ deque_len kept.old }
    ensures places { deque_capacity kept.new ≡ deque_capacity kept.old }
{
    while let Some(changes) = kept.pop_front() {
        if let Err(left) = hand_over_list(shelf, changes) {
            kept.push_front_reserved(left);
            return Err(NoMemory);
        }
    }
    Ok(())
}

impl LaneState {
    /// Hands the changes of the lane's view that are kept over to a shelf, first to last, behind those that it has.
    /// `NoMemory` comes also for the count of 2^64 - 1 changes; the others are kept then.
    pub fn hand_over<H: Shelf>(&mut self, shelf: &mut H) -> Result<(), NoMemory>
        requires keeps { IsKept self.old }
        ensures keeps { IsKept self.new }
        ensures after { self.new ≡ record self.old { journal = self.new.journal; handed = self.new.handed } }
        ensures events { self.new.journal.events ≡ self.old.journal.events }

        // What the shelf has is what was handed over, which is all where nothing is kept any more.
        ensures holds { Holds (H.shows shelf.old) (H.pending shelf.old) (handed_of self.old)
            → Holds (H.shows shelf.new) (H.pending shelf.new) (handed_of self.new) }
        ensures all { OnOk result (handed_of self.new ≡ changes_of (journal_of self.old)) }
        ensures few { OnOk result (length (changes_of (journal_of self.old)) < 18446744073709551615) }
        ensures more { ShowsOn (H.shows shelf.old) (H.shows shelf.new) }
        ensures name { H.name shelf.new ≡ H.name shelf.old }
    {
        shelves_hold::<H>();
        if self.journal.told == u64::MAX {
            return Err(NoMemory);
        }
        let handed = hand_over_lists(shelf, &mut self.journal.kept);
        self.handed = Snapshot::of(&self.journal);
        handed
    }

    /// Drops the changes of the lane's view that are kept; they count as handed over.
    pub fn drop_kept(&mut self)
        requires keeps { IsKept self.old }
        ensures keeps { IsKept self.new }
        ensures after { self.new ≡ record self.old { journal = self.new.journal; handed = self.new.handed } }
        ensures events { self.new.journal.events ≡ self.old.journal.events }
    {
        let log = &mut self.journal;
        log.kept.clear();
        self.handed = Snapshot::of(log);
    }
}
