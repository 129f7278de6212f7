ghost use Rattle.std.specs.Prelude.{◌≡◌, ◌<◌, ◌≤◌, ◌-◌, ◌++◌, length, slice_index_or, OnOk, OnErr};
ghost use Rattle.std.specs.List.{All};
ghost use Rattle.std.specs.List.Sorted.{IsStrictlySortedBy};
ghost use Rattle.entry_rows.specs.Chunks.{flat, flat_before, flat_behind, AreSome, AreRows};
ghost use Rattle.entry_rows.specs.Order.{slot_cmp, IsLower};

use crate::chunks::{Chunks, Spot};
use crate::slots::Slot;
use value_lists::NoMemory;

/// Rows side by side: the first of them, and the one behind the last.
#[derive(Clone, Copy)]
pub struct Rows {
    pub from: usize,
    pub to: usize,
}

impl Chunks {
    /// The last slot.
    pub fn last(&self) -> &Slot
        requires some { AreSome self.now }
        requires slots { 0 < length (flat self.now) }
        ensures { result.now ≡ slice_index_or (flat self.now) (length (flat self.now) - 1) result.now }
    {
        let row = self.rows.len() - 1;
        let at = self.rows[row].len() - 1;
        self.at(Spot { row, at })
    }

    /// The row of the first slot that doesn't stand below another one, or that behind all rows.
    fn row_from(&self, slot: &Slot) -> usize
        requires some { AreSome self.now }
        requires rising { IsStrictlySortedBy slot_cmp (flat self.now) }
        ensures within { result ≤ length self.now.rows.items }
        ensures below { All (λ s. IsLower s slot.now) (flat_before self.now result) }
    {
        self.first_from(slot.path, slot.entry.entry().id.text()).row
    }

    /// The row behind that of the first slot that doesn't stand below another one.
    fn row_past(&self, slot: &Slot) -> usize
        requires some { AreSome self.now }
        requires rising { IsStrictlySortedBy slot_cmp (flat self.now) }
        ensures within { result ≤ length self.now.rows.items }
        ensures above { All (λ s. IsLower slot.now s) (flat_behind self.now result) }
    {
        let seat = self.settled(self.first_from(slot.path, slot.entry.entry().id.text()));
        if seat.row < self.rows.len() {
            seat.row + 1
        } else {
            seat.row
        }
    }

    /// The rows that may have slots from one slot to another: those before are below the one, those behind
    /// above the other.
    pub fn rows_about(&self, first: &Slot, last: &Slot) -> Rows
        requires some { AreSome self.now }
        requires rising { IsStrictlySortedBy slot_cmp (flat self.now) }
        ensures rows { AreRows self.now result }
        ensures below { All (λ s. IsLower s first.now) (flat_before self.now result.from) }
        ensures above { All (λ s. IsLower last.now s) (flat_behind self.now result.to) }
    {
        let from = self.row_from(first);
        let to = self.row_past(last);
        if from <= to {
            Rows { from, to }
        } else {
            Rows { from, to: from }
        }
    }

    /// Adds a row behind all.
    pub fn append_row(&mut self, row: Vec<Slot>) -> Result<(), NoMemory>
        requires old { AreSome self.old }
        requires row { 0 < length row.items }
        ensures ok { OnOk result (flat self.new ≡ flat self.old ++ row.items) }
        ensures some { AreSome self.new }
    {
        self.rows.push(row)?;
        Ok(())
    }

    /// Puts others in the place of some rows; those behind are moved, and no slot is copied.
    pub fn replace_rows(&mut self, rows: Rows, others: Chunks) -> Result<(), NoMemory>
        requires some { AreSome self.old }
        requires rows { AreRows self.old rows }
        requires others { AreSome others }
        ensures ok { OnOk result (flat self.new
            ≡ flat_before self.old rows.from ++ (flat others ++ flat_behind self.old rows.to)) }
        ensures err { OnErr result (flat self.new ≡ flat self.old) }
        ensures some { AreSome self.new }
    {
        self.rows.splice(rows.from..rows.to, others.rows)?;
        Ok(())
    }
}
