//! What is left of the lines once all feeders are done is run by one alone.

ghost use Rattle.std.specs.Prelude.{◌≡◌, ◌<◌, ◌^◌, []};
ghost use Rattle.lane_locks.specs.Served.{AreOver};
ghost use Rattle.lane_locks.specs.Slots.{IsKept};

use crate::lines::{Line, Stage};
use crate::names::Segment;
use crate::slot::{Slot, Turn};
use carriers::Carrier;
use lane_core::Lane;
use shelves::Shelf;
use std::sync::Wait;
use std::sync::ledger::Share;

/// Each operation that is under way goes on by a call, and is closed where it is to be.
fn go_round<S: Segment<H::Name>, C: Carrier + Drop, H: Shelf + Drop>(slot: &mut Slot<S, C, H>)
    ensures { slot.new.number ≡ slot.old.number }
{
    for place in 0..slot.count() {
        slot.advance(place);
        slot.close(place);
    }
}

/// Goes round until no operation is under way.
fn end_all<S: Segment<H::Name>, C: Carrier + Drop, H: Shelf + Drop, R: Wait>(
    rt: &R,
    slot: &mut Slot<S, C, H>,
)
    ensures idle { slot.new.lane.lane.under_way ≡ [] }
    ensures number { slot.new.number ≡ slot.old.number }
{
    for _ in rt.forever() {
        if slot.is_idle() {
            return;
        }
        go_round(slot);
    }
    unreachable!()
}

/// Lets the line at a place begin, if it waits and it is its turn, and go on to its outcome.
fn run_waiting<S: Segment<H::Name>, C: Carrier + Drop, H: Shelf + Drop, R: Wait>(
    rt: &R,
    slot: &mut Slot<S, C, H>,
    place: usize,
)
    ensures { slot.new.number ≡ slot.old.number }
{
    if slot.begin(place) != Turn::On {
        return;
    }
    for _ in rt.forever() {
        if slot.advance(place) != Turn::On {
            break;
        }
    }
    slot.close(place);
}

/// Lets the lines that began come to their outcomes, and then runs each that waits, in order.
fn finish_lines<S: Segment<H::Name>, C: Carrier + Drop, H: Shelf + Drop, R: Wait>(
    rt: &R,
    slot: &mut Slot<S, C, H>,
)
    ensures idle { slot.new.lane.lane.under_way ≡ [] }
    ensures number { slot.new.number ≡ slot.old.number }
{
    end_all(rt, slot);
    for place in 0..slot.count() {
        run_waiting(rt, slot, place);
    }
    end_all(rt, slot);
}

impl<S: Segment<H::Name>, C: Carrier + Drop, H: Shelf + Drop> Slot<S, C, H> {
    /// Runs what feeders left, and gives what the lock kept: the lane's number, the lane, its lines, how far each is, and
    /// the part of the ledger. What waits then wanted memory, or stands behind a line of its feeder that did.
    pub fn finish<R: Wait>(self, rt: &R) -> (u8, Lane<C, H>, Vec<Line>, Vec<Stage>, Share<S>)
        ensures own { result.0 ≡ self.number }
        ensures mark { (result.0 < 64) × (result.4.parts ≡ 1) × (result.4.amount ≡ 2 ^ result.0) }
        ensures shelf { H.name result.1.shelf ≡ S.shelf result.0 }
        ensures kept { IsKept S.feeders (S.lines result.0) (S.began result.0) result.1.lane result.2.items result.3.items }
        ensures over { AreOver result.3.items }
        ensures idle { result.1.lane.under_way ≡ [] }
    {
        let mut slot = self;
        finish_lines(rt, &mut slot);
        slot.into_parts()
    }
}
