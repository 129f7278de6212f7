//! The locks of all lanes of a segment.

ghost use Rattle.std.specs.Prelude.{◌≡◌, ◌+◌, ◌^◌, ◌<◌, ◌≤◌, ℕ, [], map, length, slice_get, vec_capacity};
ghost use Rattle.std.specs.Prelude.{Some, IfOk, IfErr};
ghost use Rattle.lane_locks.specs.Powers.{powers, Stands};
ghost use Rattle.lane_locks.specs.Lanes.{EachAt, IsReady, IsFed};

use crate::lanes::{FedLane, ReadyLane};
use crate::names::Segment;
use crate::slot::Slot;
use carriers::Carrier;
use line_feeders::LineLock;
use shelves::Shelf;
use std::alloc::Global;
use std::marker::Model;
use std::sync::Wait;
use std::sync::ledger::{Blank, Share, Total};
use value_lists::NoMemory;

/// The locks of all lanes, with room for the lanes that come back.
#[derive(Drop)]
pub struct SegmentLocks<S: Segment<H::Name>, C: Carrier + Drop, H: Shelf + Drop> {
    locks: Vec<LineLock<Slot<S, C, H>>>,
    /// All marks of the lanes.
    total: Total<S>,
    /// None of them.
    marks: Share<S>,
    taken: Vec<FedLane<C, H>>,
    lanes: Vec<FedLane<C, H>>,
}

impl<S: Segment<H::Name>, C: Carrier + Drop, H: Shelf + Drop> Model for SegmentLocks<S, C, H> {
    ghost use Rattle.std.specs.Prelude.{◌≡◌, ℕ, ◌+◌, ◌^◌, ◌≤◌, [], length, vec_capacity};
    ghost use Rattle.lane_locks.specs.Lanes.{EachAt};

    ghost Value = { ℕ };

    ghost view = { λ l. length l.locks.items };

    ghost invariant = { λ l. (length l.locks.items ≤ 64) × (l.total.parts ≡ length l.locks.items)
        × (l.total.amount + 1 ≡ 2 ^ length l.locks.items) × (l.marks.parts ≡ 0) × (l.marks.amount ≡ 0)
        × (l.taken.items ≡ []) × (length l.locks.items ≤ vec_capacity l.taken)
        × (l.lanes.items ≡ []) × (length l.locks.items ≤ vec_capacity l.lanes)
        × EachAt (λ k n. n ≡ k) l.locks.items };
}

// ---- opening

/// Room for so many locks, and for the lanes that come back.
#[derive(Drop)]
struct Room<S: Segment<H::Name>, C: Carrier + Drop, H: Shelf + Drop> {
    locks: Vec<LineLock<Slot<S, C, H>>>,
    taken: Vec<FedLane<C, H>>,
    lanes: Vec<FedLane<C, H>>,
}

fn make_room<S: Segment<H::Name>, C: Carrier + Drop, H: Shelf + Drop>(
    alloc: Global,
    count: usize,
) -> Result<Room<S, C, H>, NoMemory>
    ensures locks { IfOk result (λ r. (r.locks.items ≡ []) × (count ≤ vec_capacity r.locks)) }
    ensures taken { IfOk result (λ r. (r.taken.items ≡ []) × (count ≤ vec_capacity r.taken)) }
    ensures lanes { IfOk result (λ r. (r.lanes.items ≡ []) × (count ≤ vec_capacity r.lanes)) }
{
    let locks = Vec::with_capacity(alloc, count)?;
    let taken = Vec::with_capacity(alloc, count)?;
    let lanes = Vec::with_capacity(alloc, count)?;
    Ok(Room {
        locks,
        taken,
        lanes,
    })
}

/// The mark of the lane with this number.
fn mark_of(number: u8) -> u64
    requires { number < 64 }
    ensures { result ≡ 2 ^ number }
{
    1u64 << number
}

/// The lane of a number goes behind a lock, with its mark.
fn lock_of<S: Segment<H::Name>, C: Carrier + Drop, H: Shelf + Drop>(
    number: u8,
    ready: ReadyLane<C, H>,
    mark: Share<S>,
) -> LineLock<Slot<S, C, H>>
    requires number { number < 64 }
    requires mark { (mark.parts ≡ 1) × (mark.amount ≡ 2 ^ number) }
    requires ready { IsReady H.name S.feeders S.began S.lines S.shelf number ready.lane ready.list }
    ensures { result ≡ number }
{
    let ReadyLane { lane, list } = ready;
    LineLock::new(Slot::new(number, lane, list, mark))
}

/// Each lane goes behind a lock, and all marks are in the total.
fn lock_all<S: Segment<H::Name>, C: Carrier + Drop, H: Shelf + Drop>(
    blank: Blank,
    lanes: Vec<ReadyLane<C, H>>,
    locks: &mut Vec<LineLock<Slot<S, C, H>>>,
) -> (Total<S>, Share<S>)
    requires name { blank.name ≡ S.name }
    requires parts { (blank.parts ≡ S.parts) × (blank.parts ≡ length lanes.items) }
    requires few { length lanes.items ≤ 64 }
    requires ready { EachAt (λ k r. IsReady H.name S.feeders S.began S.lines S.shelf k r.lane r.list) lanes.items }
    requires room { (locks.old.items ≡ []) × (length lanes.items ≤ vec_capacity locks.old) }
    ensures count { length locks.new.items ≡ length lanes.items }
    ensures parts { result.0.parts ≡ length lanes.items }
    ensures amount { result.0.amount + 1 ≡ 2 ^ length lanes.items }
    ensures rest { (result.1.parts ≡ 0) × (result.1.amount ≡ 0) }
    ensures numbers { EachAt (λ k n. n ≡ k) locks.new.items }
{
    let mut lanes = lanes;
    let (mut book, mut rest) = blank.open::<S>();
    while let Some(ready) = lanes.pop() {
        let number = lanes.len() as u8;
        let mut mark = rest.split_off(1, 0);
        book.add(&mut mark, mark_of(number));
        locks.push_reserved(lock_of(number, ready, mark));
    }
    locks.reverse();
    (book.close(), rest)
}

// ---- closing

/// What the locks kept, each lane once its lines are finished, with all their marks.
fn take_all<S: Segment<H::Name>, C: Carrier + Drop, H: Shelf + Drop, R: Wait>(
    rt: &R,
    locks: Vec<LineLock<Slot<S, C, H>>>,
    marks: &mut Share<S>,
    taken: &mut Vec<FedLane<C, H>>,
)
    requires none { (marks.old.parts ≡ 0) × (marks.old.amount ≡ 0) }
    requires room { (taken.old.items ≡ []) × (length locks.items ≤ vec_capacity taken.old) }
    ensures count { length taken.new.items ≡ length locks.items }
    ensures parts { marks.new.parts ≡ length locks.items }
    ensures amount { marks.new.amount ≡ powers (map (λ f. f.number) taken.new.items) }
    ensures fed { EachAt (λ _ f. IsFed H.name S.feeders S.began S.lines S.shelf f.number f.lane f.lines.items
        f.stages.items) taken.new.items }
{
    let mut locks = locks;
    while let Some(lock) = locks.pop() {
        let (number, lane, lines, stages, mark) = lock.into_lines().finish(rt);
        marks.merge(mark);
        taken.push_reserved(FedLane {
            number,
            lane,
            lines,
            stages,
        });
    }
}

/// Where the lane with this number stands.
fn find<C: Carrier + Drop, H: Shelf + Drop>(taken: &[FedLane<C, H>], number: u8) -> usize
    requires { Stands number (map (λ f. f.number) taken.now) }
    ensures place { result < length taken.now }
    ensures number { slice_get (map (λ f. f.number) taken.now) result ≡ Some number }
{
    for (place, lane) in taken.iter().enumerate() {
        if lane.number == number {
            return place;
        }
    }
    unreachable!()
}

/// The lanes, in the order of their numbers.
fn in_order<S: Segment<H::Name>, C: Carrier + Drop, H: Shelf + Drop>(
    taken: Vec<FedLane<C, H>>,
    lanes: &mut Vec<FedLane<C, H>>,
)
    requires few { length taken.items ≤ 64 }
    requires room { (lanes.old.items ≡ []) × (length taken.items ≤ vec_capacity lanes.old) }
    requires stand { (k : ℕ) → k < length taken.items → Stands k (map (λ f. f.number) taken.items) }
    requires fed { EachAt (λ _ f. IsFed H.name S.feeders S.began S.lines S.shelf f.number f.lane f.lines.items
        f.stages.items) taken.items }
    ensures count { length lanes.new.items ≡ length taken.items }
    ensures order { EachAt (λ k f. f.number ≡ k) lanes.new.items }
    ensures fed { EachAt (λ _ f. IsFed H.name S.feeders S.began S.lines S.shelf f.number f.lane f.lines.items
        f.stages.items) lanes.new.items }
{
    let mut taken = taken;
    let count = taken.len();
    for number in 0..count {
        let place = find(taken.as_slice(), number as u8);
        let lane = taken.remove(place);
        lanes.push_reserved(lane);
    }
}

impl<S: Segment<H::Name>, C: Carrier + Drop, H: Shelf + Drop> SegmentLocks<S, C, H> {
    /// A lock for each lane. Where memory is wanted, all lanes come back as they were.
    pub fn open(
        alloc: Global,
        blank: Blank,
        lanes: Vec<ReadyLane<C, H>>,
    ) -> Result<SegmentLocks<S, C, H>, Vec<ReadyLane<C, H>>>
        requires name { blank.name ≡ S.name }
        requires parts { (blank.parts ≡ S.parts) × (blank.parts ≡ length lanes.items) }
        requires few { length lanes.items ≤ 64 }
        requires ready { EachAt (λ k r. IsReady H.name S.feeders S.began S.lines S.shelf k r.lane r.list) lanes.items }
        ensures count { IfOk result (λ locks. locks ≡ length lanes.items) }
        ensures back { IfErr result (λ back. back ≡ lanes) }
    {
        let Ok(room) = make_room::<S, C, H>(alloc, lanes.len()) else {
            return Err(lanes);
        };
        let Room {
            mut locks,
            taken,
            lanes: fed,
        } = room;
        let (total, marks) = lock_all(blank, lanes, &mut locks);
        Ok(SegmentLocks {
            locks,
            total,
            marks,
            taken,
            lanes: fed,
        })
    }

    /// The locks, each at the place of its lane's number.
    pub fn locks(&self) -> &[LineLock<Slot<S, C, H>>]
        ensures count { length result.now ≡ self.now }
        ensures numbers { EachAt (λ k n. n ≡ k) result.now }
    {
        self.locks.as_slice()
    }

    /// Each lane, at the place of its number, once what is left of its lines is run there. It takes no memory of its own.
    pub fn close<R: Wait>(self, rt: &R) -> Vec<FedLane<C, H>>
        ensures count { length result.items ≡ self }
        ensures order { EachAt (λ k f. f.number ≡ k) result.items }
        ensures fed { EachAt (λ _ f. IsFed H.name S.feeders S.began S.lines S.shelf f.number f.lane f.lines.items
            f.stages.items) result.items }
    {
        let SegmentLocks {
            locks,
            total,
            mut marks,
            mut taken,
            mut lanes,
        } = self;
        take_all(rt, locks, &mut marks, &mut taken);
        total.audit(&mut marks);
        in_order::<S, C, H>(taken, &mut lanes);
        lanes
    }
}
