ghost use Rattle.std.specs.Prelude.{◌≡◌, IfOk};
ghost use Rattle.std.specs.List.{count_by};
ghost use Rattle.entry_rows.specs.Slots.{has_document};

use crate::slots::Slot;
use std::alloc::Global;
use value_lists::{NoMemory, TryCopy};

/// Copies of slots.
pub fn slots_copied(alloc: Global, slots: &[Slot]) -> Result<Vec<Slot>, NoMemory>
    ensures { IfOk result (λ copies. copies.items ≡ slots.now) }
{
    let mut copies = Vec::with_capacity(alloc, slots.len())?;
    for slot in slots {
        copies.push(slot.copy(alloc)?)?;
    }
    Ok(copies)
}

/// How many of the slots hold documents.
pub fn documents_in(slots: &[Slot]) -> usize
    ensures { result ≡ count_by has_document slots.now }
{
    let mut documents = 0;
    for slot in slots {
        documents += usize::from(slot.entry.has_document());
    }
    documents
}
