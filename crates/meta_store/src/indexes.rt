ghost use Rattle.std.specs.Prelude.{◌≡◌, ◌≢◌, ◌<◌, ◌≤◌, ◌-◌, ◌^◌, ℕ, List, Some, None, bytes_eq, if◌then◌else◌, length, slice_index, OnOk, OnErr};
ghost use Rattle.std.specs.HashMap.{get_by_text};
ghost use Rattle.std.specs.List.{Contains};
ghost use Rattle.local_ids.specs.Rising.{IsRising, with_local};

use document_ids::DocId;
use local_ids::put_local;
use std::alloc::Global;
use std::collections::HashMap;
use value_lists::NoMemory;

/// The least id that a rising list lacks, by a binary search.
pub fn least_free(locals: &[u32]) -> u32
    requires rising { IsRising locals.now }
    requires few { length locals.now < 2 ^ 32 - 1 }
    ensures free { Contains locals.now result → ⊥ }
    ensures below { (k : ℕ) → k < result → Contains locals.now k }
{
    let mut low = 0;
    let mut high = locals.len();
    while low < high {
        let middle = low + (high - low) / 2;
        if locals[middle] as usize == middle {
            low = middle + 1;
        } else {
            high = middle;
        }
    }
    low as u32
}

/// A document has a local id.
fn put_id(
    alloc: Global,
    by_id: &mut HashMap<String, u32>,
    id: &DocId,
    local: u32,
) -> Result<(), NoMemory>
    ensures ok { OnOk result ((q : List ℕ) → get_by_text by_id.new q
        ≡ (if bytes_eq id.now q then Some local else get_by_text by_id.old q)) }
    ensures err { OnErr result ((q : List ℕ) → get_by_text by_id.new q ≡ get_by_text by_id.old q) }
{
    by_id.insert(String::from_str(alloc, id.text())?, local)?;
    Ok(())
}

/// A document has no local id.
pub fn drop_id(by_id: &mut HashMap<String, u32>, id: &DocId)
    ensures { (q : List ℕ) → get_by_text by_id.new q
        ≡ (if bytes_eq id.now q then None else get_by_text by_id.old q) }
{
    by_id.remove(id.text());
}

/// A new document has a local id that was free.
pub fn enter(
    alloc: Global,
    locals: &mut Vec<u32>,
    by_id: &mut HashMap<String, u32>,
    id: &DocId,
    local: u32,
) -> Result<(), NoMemory>
    requires rising { IsRising locals.old.items }
    requires new { get_by_text by_id.old id.now ≡ None }
    ensures taken { OnOk result (locals.new.items ≡ with_local local locals.old.items) }
    ensures found { OnOk result ((q : List ℕ) → get_by_text by_id.new q
        ≡ (if bytes_eq id.now q then Some local else get_by_text by_id.old q)) }
    ensures taken_before { OnErr result (locals.new.items ≡ locals.old.items) }
    ensures found_before { OnErr result ((q : List ℕ) → get_by_text by_id.new q ≡ get_by_text by_id.old q) }
{
    put_id(alloc, by_id, id, local)?;
    match put_local(locals, local) {
        Ok(()) => Ok(()),
        Err(fault) => {
            drop_id(by_id, id);
            Err(fault)
        }
    }
}
