ghost use Rattle.std.specs.Prelude.{◌≡◌, ◌≤◌, true, false, length, IfOk};
ghost use Rattle.std.specs.List.{AllWithin};
ghost use Rattle.std.specs.List.Sorted.{IsPartitionedBy};
ghost use Rattle.documents.specs.EntryCodes.{id_cmp};
ghost use Rattle.entry_rows.specs.Order.{mark_cmp, mark, is_below, is_low};

use documents::shared_entry::SharedEntry;
use std::alloc::Global;
use std::cmp::Ordering;
use value_lists::{NoMemory, TryCopy};

/// An entry, and the path of its document's key.
#[derive(Drop)]
pub struct Slot {
    pub path: u64,
    pub entry: SharedEntry,
}

impl TryCopy for Slot {
    fn copy(&self, alloc: Global) -> Result<Slot, NoMemory> {
        Ok(Slot {
            path: self.path,
            entry: self.entry.copy(alloc)?,
        })
    }
}

/// The order of two ids. Of slots with one path the ids are nearly always the same, and that is seen faster than
/// which of two stands first: as bytes, which are compared without an order.
fn id_order(one: &str, other: &str) -> Ordering
    ensures { result ≡ id_cmp one.now other.now }
{
    if one.as_bytes() == other.as_bytes() {
        return Ordering::Equal;
    }
    one.cmp(other)
}

impl Slot {
    /// The order of the slot and a path with an id.
    pub fn order(&self, path: u64, id: &str) -> Ordering
        ensures { result ≡ mark_cmp (mark self.now) (path, id.now) }
    {
        match self.path.cmp(&path) {
            Ordering::Equal => id_order(self.entry.entry().id.text(), id),
            order => order,
        }
    }

    /// Whether the slot stands below a path with an id.
    pub fn is_below(&self, path: u64, id: &str) -> bool
        ensures { result ≡ is_below path id.now self.now }
    {
        self.order(path, id) == Ordering::Less
    }

    /// Whether the slot's path is lower than another one.
    pub fn is_low(&self, path: u64) -> bool
        ensures { result ≡ is_low path self.now }
    {
        self.path < path
    }
}

/// Where the slots that don't stand below a path with an id begin.
pub fn first_from(slots: &[Slot], path: u64, id: &str) -> usize
    requires { IsPartitionedBy (is_below path id.now) slots.now }
    ensures within { result ≤ length slots.now }
    ensures before { AllWithin (λ s. is_below path id.now s ≡ true) slots.now 0 result }
    ensures from { AllWithin (λ s. is_below path id.now s ≡ false) slots.now result (length slots.now) }
{
    slots.partition_point(|slot: &Slot| slot.is_below(path, id))
}
