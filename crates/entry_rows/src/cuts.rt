ghost use Rattle.std.specs.Prelude.{◌≡◌, ◌++◌, ◌+◌, ◌<◌, ◌≤◌, length, take, drop};
ghost use Rattle.std.specs.List.{HoldsAt};
ghost use Rattle.entry_rows.specs.Chunks.{flat, flat_before, place, AreSome, IsSeat};

use crate::chunks::{Chunks, Spot};
use crate::slots::Slot;

/// Takes out of a row the slots from one place to another.
fn cut_out(row: &mut Vec<Slot>, from: usize, to: usize)
    requires rising { from ≤ to }
    requires within { to ≤ length row.old.items }
    ensures { row.new.items ≡ take from row.old.items ++ drop to row.old.items }
{
    row.drain(from..to);
}

impl Chunks {
    /// Takes out of one row the slots from one place to another.
    fn cut_row(&mut self, row: usize, from: usize, to: usize)
        requires row { row < length self.old.rows.items }
        requires rising { from ≤ to }
        requires within { HoldsAt (λ r. to ≤ length r.items) self.old.rows.items row }
        ensures { flat self.new
            ≡ take (length (flat_before self.old row) + from) (flat self.old)
            ++ drop (length (flat_before self.old row) + to) (flat self.old) }
    {
        cut_out(&mut self.rows[row], from, to);
    }

    /// Takes out all slots from a seat on.
    fn cut_end(&mut self, from: Spot)
        requires row { from.row < length self.old.rows.items }
        requires within { HoldsAt (λ r. from.at ≤ length r.items) self.old.rows.items from.row }
        ensures { flat self.new ≡ take (place self.old from) (flat self.old) }
    {
        self.rows.truncate(from.row + 1);
        self.rows[from.row].truncate(from.at);
    }

    /// Takes out the slots from a seat to one in a later row.
    fn cut_rows(&mut self, from: Spot, to: Spot)
        requires rising { from.row < to.row }
        requires row { to.row < length self.old.rows.items }
        requires from { HoldsAt (λ r. from.at ≤ length r.items) self.old.rows.items from.row }
        requires to { HoldsAt (λ r. to.at ≤ length r.items) self.old.rows.items to.row }
        ensures { flat self.new
            ≡ take (place self.old from) (flat self.old) ++ drop (place self.old to) (flat self.old) }
    {
        self.rows[from.row].truncate(from.at);
        cut_out(&mut self.rows[to.row], 0, to.at);
        self.rows.drain(from.row + 1..to.row);
    }

    /// Takes out the slots from one seat to another; rows may be left empty.
    fn cut_between(&mut self, from: Spot, to: Spot)
        requires some { AreSome self.old }
        requires from { IsSeat self.old from }
        requires to { IsSeat self.old to }
        requires rising { place self.old from ≤ place self.old to }
        ensures { flat self.new
            ≡ take (place self.old from) (flat self.old) ++ drop (place self.old to) (flat self.old) }
    {
        if from.row >= self.rows.len() {
            return;
        }
        if to.row >= self.rows.len() {
            return self.cut_end(from);
        }
        if from.row == to.row {
            self.cut_row(from.row, from.at, to.at)
        } else {
            self.cut_rows(from, to)
        }
    }

    /// Takes out the rows without slots.
    fn drop_empty(&mut self)
        ensures slots { flat self.new ≡ flat self.old }
        ensures some { AreSome self.new }
    {
        self.rows.retain(|row: &Vec<Slot>| !row.is_empty());
    }

    /// Takes out the slots from one seat to another.
    pub fn cut(&mut self, from: Spot, to: Spot)
        requires some { AreSome self.old }
        requires from { IsSeat self.old from }
        requires to { IsSeat self.old to }
        requires rising { place self.old from ≤ place self.old to }
        ensures slots { flat self.new
            ≡ take (place self.old from) (flat self.old) ++ drop (place self.old to) (flat self.old) }
        ensures some { AreSome self.new }
    {
        self.cut_between(from, to);
        self.drop_empty();
    }
}
