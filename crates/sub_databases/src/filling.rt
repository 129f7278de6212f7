ghost use Rattle.std.specs.Prelude.{◌≡◌, ◌++◌, ◌∷◌, [], filter, if◌then◌else◌, IfOk, OnOk};
ghost use Rattle.sub_databases.specs.Changes.{is_waiting};

use crate::place::{has_own, is_ready};
use documents::SharedEntry;
use node_rows::NodeRows;
use std::alloc::Global;
use value_lists::{NoMemory, TryCopy};

/// Whether an entry has a document of its id, and that isn't ready.
fn is_waiting(rows: &NodeRows, entry: &SharedEntry) -> bool
    ensures { result ≡ is_waiting rows.now.rows entry.now }
{
    has_own(entry) && !is_ready(rows, entry)
}

/// Adds an entry where it has a document that isn't ready, shared.
fn push_waiting(
    alloc: Global,
    rows: &NodeRows,
    waiting: &mut Vec<SharedEntry>,
    entry: &SharedEntry,
) -> Result<(), NoMemory>
    ensures { OnOk result (waiting.new.items ≡ waiting.old.items
        ++ (if is_waiting rows.now.rows entry.now then entry.now ∷ [] else [])) }
{
    if is_waiting(rows, entry) {
        waiting.push(entry.copy(alloc)?)?;
    }
    Ok(())
}

/// Those of some entries that have documents that aren't ready, shared.
pub fn waiting(
    alloc: Global,
    rows: &NodeRows,
    entries: &[SharedEntry],
) -> Result<Vec<SharedEntry>, NoMemory>
    ensures { IfOk result (λ waiting. waiting.items ≡ filter (is_waiting rows.now.rows) entries.now) }
{
    let mut waiting = Vec::new(alloc);
    for entry in entries {
        push_waiting(alloc, rows, &mut waiting, entry)?;
    }
    Ok(waiting)
}
