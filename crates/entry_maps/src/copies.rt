ghost use Rattle.std.specs.Prelude.{◌≡◌, ◌++◌, ◌+◌, ◌≤◌, length, take, drop, IfOk, OnOk};
ghost use Rattle.entry_rows.specs.Chunks.{place, flat_of, AreRows};
ghost use Rattle.entry_maps.specs.Runs.{IsWhole};
ghost use Rattle.entry_maps.specs.Slots.{IsCounted, IsStored, slots_in};

use crate::runs::Run;
use crate::stored::Stored;
use entry_rows::chunks::Spot;
use entry_rows::copies::{documents_in, slots_copied};
use entry_rows::rows::Rows;
use entry_rows::slots::Slot;
use std::alloc::Global;
use value_lists::NoMemory;

impl Stored {
    /// Adds copies of slots behind all, as a row of their own.
    fn append_copies(&mut self, alloc: Global, slots: &[Slot]) -> Result<(), NoMemory>
        requires { IsCounted self.old }
        ensures ok { OnOk result (slots_in self.new ≡ slots_in self.old ++ slots.now) }
        ensures counted { OnOk result (IsCounted self.new) }
    {
        let entries = self.entries + slots.len();
        if entries > 1 << 62 {
            return Err(NoMemory);
        }
        if slots.is_empty() {
            return Ok(());
        }
        let row = slots_copied(alloc, slots)?;
        self.list.append_row(row)?;
        self.entries = entries;
        self.documents += documents_in(slots);
        Ok(())
    }

    /// Copies of the slots of some rows.
    pub fn rows_copied(&self, alloc: Global, rows: Rows) -> Result<Stored, NoMemory>
        requires { AreRows self.now.list rows }
        ensures slots { IfOk result (λ part. slots_in part ≡ flat_of self.now.list rows) }
        ensures counted { IfOk result IsCounted }
    {
        let mut part = Stored::new(alloc);
        for row in &self.list.rows[rows.from..rows.to] {
            part.append_copies(alloc, row)?;
        }
        Ok(part)
    }

    /// A copy that shares all entries.
    pub fn shared(&self, alloc: Global) -> Result<Stored, NoMemory>
        ensures slots { IfOk result (λ copy. slots_in copy ≡ slots_in self.now) }
        ensures counted { IfOk result IsCounted }
    {
        self.rows_copied(
            alloc,
            Rows {
                from: 0,
                to: self.list.rows.len(),
            },
        )
    }

    /// Copies of the slots of a run, row by row.
    pub fn copied(&self, alloc: Global, run: Run) -> Result<Stored, NoMemory>
        requires stored { IsStored self.now }
        requires run { IsWhole self.now.list run }
        ensures slots { IfOk result (λ part. slots_in part
            ≡ take run.entries (drop (place self.now.list run.from) (slots_in self.now))) }
        ensures counted { IfOk result IsCounted }
    {
        let mut part = Stored::new(alloc);
        let mut seat = run.from;
        let mut left = run.entries;
        while left > 0 {
            let row = &self.list.rows[seat.row][seat.at..];
            let many = left.min(row.len());
            part.append_copies(alloc, &row[..many])?;
            left -= many;
            seat = Spot {
                row: seat.row + 1,
                at: 0,
            };
        }
        Ok(part)
    }
}
