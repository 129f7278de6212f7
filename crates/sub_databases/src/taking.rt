ghost use Rattle.std.specs.Prelude.{◌≡◌, None, true, false, is_some, OnOk, OnErr};
ghost use Rattle.std.specs.Option.{option_copied};
ghost use Rattle.std.specs.FinMap as fin;
ghost use Rattle.global_ids.specs.Keys.{key_of};
ghost use Rattle.entry_maps.specs.Entries.{is_newer};
ghost use Rattle.node_rows.specs.TypedRows.{with_rows};
ghost use Rattle.sub_databases.specs.Changes.{rows_after, is_remove_of, IsTaken};

use document_ids::DocId;
use documents::{Entry, SharedEntry};
use entry_maps::EntryMap;
use node_rows::NodeRows;
use stamps::Stamp;
use std::alloc::Global;
use std::slice;
use value_lists::{NoMemory, TryCopy};

/// Whether an entry is newer than one that may be there.
pub fn is_newer(entry: &Entry, there: Option<&Entry>) -> bool
    ensures { result ≡ is_newer entry.now (option_copied there.entry) }
{
    match there {
        None => true,
        Some(there) => there.stamp.is_before(entry.stamp),
    }
}

/// Whether an entry is a remove of this stamp.
pub fn is_remove_of(stamp: Stamp, newest: Option<&Entry>) -> bool
    ensures { result ≡ is_remove_of stamp (option_copied newest.entry) }
{
    match newest {
        None => false,
        Some(entry) => {
            entry.body.is_none()
                && entry.stamp.version == stamp.version
                && entry.stamp.count == stamp.count
        }
    }
}

/// Puts what a newer entry leaves into the ready part: its document where it comes ready, else none of its id.
fn settle(
    rows: &mut NodeRows,
    alloc: Global,
    key: u64,
    entry: &SharedEntry,
    ready: bool,
) -> Result<(), NoMemory>
    requires { key ≡ key_of entry.now.id }
    ensures ok { OnOk result (rows.new
        ≡ with_rows (rows_after rows.old.types ready rows.old.rows entry.now) rows.old) }
    ensures err { OnErr result (rows.new ≡ rows.old) }
{
    if ready {
        return rows.take(alloc, key, entry);
    }
    rows.leave_all(slice::from_ref(entry));
    Ok(())
}

/// Takes the first entry of a document.
pub fn take_first(
    entries: &mut EntryMap,
    rows: &mut NodeRows,
    alloc: Global,
    key: u64,
    entry: &SharedEntry,
    ready: bool,
) -> Result<(), NoMemory>
    requires key { key ≡ key_of entry.now.id }
    requires none { fin.get entries.old entry.now.id ≡ None }
    ensures { IsTaken entry.now ready entries.old rows.old result entries.new rows.new }
{
    entries.put_at(key, entry.copy(alloc)?)?;
    let Ok(()) = settle(rows, alloc, key, entry, ready) else {
        entries.remove_at(key, &entry.entry().id);
        return Err(NoMemory);
    };
    Ok(())
}

/// Takes a newer entry of a document that has one.
pub fn take_newer(
    entries: &mut EntryMap,
    rows: &mut NodeRows,
    alloc: Global,
    key: u64,
    entry: &SharedEntry,
    ready: bool,
) -> Result<(), NoMemory>
    requires key { key ≡ key_of entry.now.id }
    requires there { is_some (fin.get entries.old entry.now.id) ≡ true }
    ensures { IsTaken entry.now ready entries.old rows.old result entries.new rows.new }
{
    let shared = entry.copy(alloc)?;
    settle(rows, alloc, key, entry, ready)?;
    entries.put_instead_at(key, shared);
    Ok(())
}
