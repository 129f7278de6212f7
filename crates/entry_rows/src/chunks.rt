ghost use Rattle.std.specs.Prelude.{◌≡◌, ◌+◌, ◌<◌, ◌≤◌, [], true, false, length, IfSome, IfNone, slice_index_or, if◌then◌else◌};
ghost use Rattle.std.specs.List.{AllWithin};
ghost use Rattle.std.specs.List.Sorted.{IsStrictlySortedBy};
ghost use Rattle.entry_rows.specs.Chunks.{flat, place, AreSome, IsSpot, IsSeat, begins};
ghost use Rattle.entry_rows.specs.Order.{slot_cmp, is_below};

use crate::slots::{Slot, first_from};
use std::alloc::Global;

/// Slots in order, in rows; one that grows past 128 slots is cut in two where there is memory.
#[derive(Drop)]
pub struct Chunks {
    pub rows: Vec<Vec<Slot>>,
}

/// A place among the slots: a row, and how many slots of the row stand before it.
#[derive(Clone, Copy)]
pub struct Spot {
    pub row: usize,
    pub at: usize,
}

/// Whether a row begins below a path with an id.
fn begins_below(row: &[Slot], path: u64, id: &str) -> bool
    ensures { result ≡ begins (is_below path id.now) row.now }
{
    match row {
        [first, ..] => first.is_below(path, id),
        [] => false,
    }
}

impl Chunks {
    /// No slot.
    pub fn new(alloc: Global) -> Chunks
        ensures slots { flat result ≡ [] }
        ensures some { AreSome result }
    {
        Chunks {
            rows: Vec::new(alloc),
        }
    }

    /// How many rows begin below a path with an id.
    fn rows_below(&self, path: u64, id: &str) -> usize
        requires some { AreSome self.now }
        requires rising { IsStrictlySortedBy slot_cmp (flat self.now) }
        ensures within { result ≤ length self.now.rows.items }
        ensures before { AllWithin (λ r. begins (is_below path id.now) r.items ≡ true)
            self.now.rows.items 0 result }
        ensures from { AllWithin (λ r. begins (is_below path id.now) r.items ≡ false)
            self.now.rows.items result (length self.now.rows.items) }
    {
        self.rows
            .partition_point(|row: &Vec<Slot>| begins_below(row, path, id))
    }

    /// Where the slots that don't stand below a path with an id begin.
    pub fn first_from(&self, path: u64, id: &str) -> Spot
        requires some { AreSome self.now }
        requires rising { IsStrictlySortedBy slot_cmp (flat self.now) }
        ensures stands { IsSpot self.now result }
        ensures lies { 0 < length self.now.rows.items → result.row < length self.now.rows.items }
        ensures within { place self.now result ≤ length (flat self.now) }
        ensures before { AllWithin (λ s. is_below path id.now s ≡ true)
            (flat self.now) 0 (place self.now result) }
        ensures from { AllWithin (λ s. is_below path id.now s ≡ false)
            (flat self.now) (place self.now result) (length (flat self.now)) }
    {
        let below = self.rows_below(path, id);
        if below == 0 {
            return Spot { row: 0, at: 0 };
        }
        let row = below - 1;
        Spot {
            row,
            at: first_from(&self.rows[row], path, id),
        }
    }

    /// The seat of the first slot, or that behind all rows.
    pub fn first(&self) -> Spot
        requires { AreSome self.now }
        ensures seat { IsSeat self.now result }
        ensures first { place self.now result ≡ 0 }
    {
        Spot { row: 0, at: 0 }
    }

    /// The same place, in the next row where it lies behind a row.
    pub fn settled(&self, spot: Spot) -> Spot
        requires some { AreSome self.now }
        requires spot { IsSpot self.now spot }
        ensures seat { IsSeat self.now result }
        ensures same { place self.now result ≡ place self.now spot }
    {
        match self.rows.get(spot.row) {
            Some(row) => {
                if spot.at < row.len() {
                    spot
                } else {
                    Spot {
                        row: spot.row + 1,
                        at: 0,
                    }
                }
            }
            None => spot,
        }
    }

    /// The slot of a seat.
    pub fn slot(&self, seat: Spot) -> Option<&Slot>
        requires { IsSeat self.now seat }
        ensures slot { IfSome result (λ slot. slot.now
            ≡ slice_index_or (flat self.now) (place self.now seat) slot.now) }
        ensures within { IfSome result (λ _. place self.now seat < length (flat self.now)) }
        ensures none { IfNone result (place self.now seat ≡ length (flat self.now)) }
    {
        match self.rows.get(seat.row) {
            Some(row) => Some(&row[seat.at]),
            None => None,
        }
    }

    /// The slot of a seat that is not behind all rows.
    pub fn at(&self, seat: Spot) -> &Slot
        requires seat { IsSeat self.now seat }
        requires within { place self.now seat < length (flat self.now) }
        ensures { result.now ≡ slice_index_or (flat self.now) (place self.now seat) result.now }
    {
        &self.rows[seat.row][seat.at]
    }

    /// The seat behind that of a slot.
    pub fn next(&self, seat: Spot) -> Spot
        requires some { AreSome self.now }
        requires seat { IsSeat self.now seat }
        requires within { place self.now seat < length (flat self.now) }
        ensures seat { IsSeat self.now result }
        ensures next { place self.now result ≡ place self.now seat + 1 }
    {
        match self.rows.get(seat.row) {
            Some(row) => {
                if row.len() - seat.at > 1 {
                    Spot {
                        row: seat.row,
                        at: seat.at + 1,
                    }
                } else {
                    Spot {
                        row: seat.row + 1,
                        at: 0,
                    }
                }
            }
            None => seat,
        }
    }

    /// The seat behind that of a slot where `goes`, else the same one.
    pub fn next_if(&self, seat: Spot, goes: bool) -> Spot
        requires some { AreSome self.now }
        requires seat { IsSeat self.now seat }
        requires within { goes ≡ true → place self.now seat < length (flat self.now) }
        ensures seat { IsSeat self.now result }
        ensures next { place self.now result ≡ place self.now seat + (if goes then 1 else 0) }
        ensures within { place self.now seat ≤ length (flat self.now)
            → place self.now result ≤ length (flat self.now) }
    {
        if goes { self.next(seat) } else { seat }
    }
}
