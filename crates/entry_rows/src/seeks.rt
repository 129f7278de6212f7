ghost use Rattle.std.specs.Prelude.{◌≡◌, ◌<◌, ◌≤◌, true, false, length};
ghost use Rattle.std.specs.List.{AllWithin};
ghost use Rattle.std.specs.List.Sorted.{IsStrictlySortedBy, IsPartitionedBy};
ghost use Rattle.entry_rows.specs.Chunks.{flat, place, AreSome, IsSpot, begins};
ghost use Rattle.entry_rows.specs.Order.{slot_cmp, is_low};

use crate::chunks::{Chunks, Spot};
use crate::slots::Slot;

/// Whether a row begins with a lower path.
fn begins_low(row: &[Slot], path: u64) -> bool
    ensures { result ≡ begins (is_low path) row.now }
{
    match row {
        [first, ..] => first.is_low(path),
        [] => false,
    }
}

/// Where the slots of no lower path begin.
fn first_at(slots: &[Slot], path: u64) -> usize
    requires { IsPartitionedBy (is_low path) slots.now }
    ensures within { result ≤ length slots.now }
    ensures before { AllWithin (λ s. is_low path s ≡ true) slots.now 0 result }
    ensures from { AllWithin (λ s. is_low path s ≡ false) slots.now result (length slots.now) }
{
    slots.partition_point(|slot: &Slot| slot.is_low(path))
}

impl Chunks {
    /// How many rows begin with a lower path.
    fn rows_low(&self, path: u64) -> usize
        requires some { AreSome self.now }
        requires rising { IsStrictlySortedBy slot_cmp (flat self.now) }
        ensures within { result ≤ length self.now.rows.items }
        ensures before { AllWithin (λ r. begins (is_low path) r.items ≡ true) self.now.rows.items 0 result }
        ensures from { AllWithin (λ r. begins (is_low path) r.items ≡ false)
            self.now.rows.items result (length self.now.rows.items) }
    {
        self.rows
            .partition_point(|row: &Vec<Slot>| begins_low(row, path))
    }

    /// Where the slots of no lower path begin.
    pub fn first_at(&self, path: u64) -> Spot
        requires some { AreSome self.now }
        requires rising { IsStrictlySortedBy slot_cmp (flat self.now) }
        ensures stands { IsSpot self.now result }
        ensures lies { 0 < length self.now.rows.items → result.row < length self.now.rows.items }
        ensures within { place self.now result ≤ length (flat self.now) }
        ensures before { AllWithin (λ s. is_low path s ≡ true) (flat self.now) 0 (place self.now result) }
        ensures from { AllWithin (λ s. is_low path s ≡ false)
            (flat self.now) (place self.now result) (length (flat self.now)) }
    {
        let low = self.rows_low(path);
        if low == 0 {
            return Spot { row: 0, at: 0 };
        }
        let row = low - 1;
        Spot {
            row,
            at: first_at(&self.rows[row], path),
        }
    }
}
