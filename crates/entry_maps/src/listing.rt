ghost use Rattle.std.specs.Prelude.{◌≡◌, ◌++◌, map, IfOk, OnOk};
ghost use Rattle.std.specs.FinMap as fin;
ghost use Rattle.std.specs.List.{flat_map};
ghost use Rattle.entry_maps.specs.Entries.{by_id, AreSingle};
ghost use Rattle.entry_maps.specs.Slots.{IsStored, pairs, slots_in, entries_of};
ghost use Rattle.entry_maps.specs.Stamps.{rising_of, stamps_of};

use crate::stored::Stored;
use documents::SharedEntry;
use entry_rows::slots::Slot;
use stamps::Stamp;
use std::alloc::Global;
use value_lists::{NoMemory, TryCopy};

/// Each of the stamps once, the smallest first.
fn rising(mut stamps: Vec<Stamp>) -> Vec<Stamp>
    ensures { result.items ≡ rising_of stamps.items }
{
    stamps.sort_unstable();
    stamps.dedup();
    stamps
}

/// Adds the stamps of some slots.
fn push_stamps(stamps: &mut Vec<Stamp>, row: &[Slot]) -> Result<(), NoMemory>
    ensures { OnOk result (stamps.new.items ≡ stamps.old.items ++ map (λ s. s.entry.stamp) row.now) }
{
    for slot in row {
        stamps.push(slot.entry.entry().stamp)?;
    }
    Ok(())
}

/// The stamps of the slots of some rows, in their order.
fn stamps_in(alloc: Global, rows: &[Vec<Slot>], many: usize) -> Result<Vec<Stamp>, NoMemory>
    ensures { IfOk result (λ stamps. stamps.items
        ≡ map (λ s. s.entry.stamp) (flat_map (λ r. r.items) rows.now)) }
{
    let mut stamps = Vec::with_capacity(alloc, many)?;
    for row in rows {
        push_stamps(&mut stamps, row)?;
    }
    Ok(stamps)
}

/// Adds the entries of some slots, shared.
fn push_entries(alloc: Global, entries: &mut Vec<SharedEntry>, row: &[Slot]) -> Result<(), NoMemory>
    ensures { OnOk result (by_id entries.new.items ≡ by_id entries.old.items ++ pairs row.now) }
{
    for slot in row {
        entries.push(slot.entry.copy(alloc)?)?;
    }
    Ok(())
}

/// The entries of the slots of some rows, shared, in their order.
fn entries_in(alloc: Global, rows: &[Vec<Slot>], many: usize) -> Result<Vec<SharedEntry>, NoMemory>
    ensures { IfOk result (λ entries. by_id entries.items ≡ pairs (flat_map (λ r. r.items) rows.now)) }
{
    let mut entries = Vec::with_capacity(alloc, many)?;
    for row in rows {
        push_entries(alloc, &mut entries, row)?;
    }
    Ok(entries)
}

impl Stored {
    /// All entries, shared.
    pub fn listed(&self, alloc: Global) -> Result<Vec<SharedEntry>, NoMemory>
        requires { IsStored self.now }
        ensures entries { IfOk result (λ list. fin.from_entries (by_id list.items) ≡ entries_of (slots_in self.now)) }
        ensures single { IfOk result (λ list. AreSingle (by_id list.items)) }
    {
        let list = entries_in(alloc, &self.list.rows, self.entries)?;
        Ok(list)
    }

    /// The stamps of all entries, each once, the smallest first.
    pub fn stamps(&self, alloc: Global) -> Result<Vec<Stamp>, NoMemory>
        requires { IsStored self.now }
        ensures { IfOk result (λ stamps. stamps.items ≡ stamps_of (entries_of (slots_in self.now))) }
    {
        Ok(rising(stamps_in(alloc, &self.list.rows, self.entries)?))
    }
}
