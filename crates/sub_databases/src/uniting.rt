ghost use Rattle.std.specs.Prelude.{◌≡◌, ◌+◌, ◌<◌, ◌≤◌, true, false, filter, IfOk};
ghost use Rattle.std.specs.List.{list_any};
ghost use Rattle.std.specs.FinMap as fin;
ghost use Rattle.node_rows.specs.TypedRows.{with_rows, all_taken};
ghost use Rattle.view_changes.specs.Room.{AllHave};
ghost use Rattle.sub_databases.specs.Uniting.{IsListOf, AreComing, does_come, does_oust, is_known, without_all, MayUnite};

use crate::place::is_ready;
use crate::taking::is_newer;
use documents::SharedEntry;
use entry_maps::{EntryMap, join};
use global_ids::key_of;
use node_rows::NodeRows;
use std::alloc::Global;
use value_lists::{NoMemory, TryCopy};
use view_changes::laws::entries_find_room;

/// Below so many entries each document finds a place.
pub const MOST: u64 = 4_294_967_295;

/// Whether an entry that comes with a mark finds a place.
pub fn has_room(entries: &EntryMap, ready: bool) -> bool
    ensures fits { result ≡ true → ready ≡ true → fin.len entries.now + 1 < 4294967295 }
    ensures full { result ≡ false → (ready ≡ true) × (4294967295 ≤ fin.len entries.now + 1) }
{
    !ready || entries.entries() < MOST - 1
}

/// Whether an entry is newer than what a map has of its document.
fn does_come(there: &EntryMap, entry: &SharedEntry) -> bool
    ensures { result ≡ does_come there.now entry.now }
{
    is_newer(entry.entry(), there.get(&entry.entry().id))
}

/// Whether that is so, and the document is ready.
fn does_oust(there: &EntryMap, rows: &NodeRows, entry: &SharedEntry) -> bool
    ensures { result ≡ does_oust there.now rows.now.rows entry.now }
{
    is_ready(rows, entry) && does_come(there, entry)
}

/// Of some entries those that are newer than what a map has.
fn coming(there: &EntryMap, mut list: Vec<SharedEntry>) -> Vec<SharedEntry>
    ensures { result.items ≡ filter (does_come there.now) list.items }
{
    list.retain(|entry| does_come(there, entry));
    list
}

/// Those of them whose documents are ready.
fn ousting(there: &EntryMap, rows: &NodeRows, mut list: Vec<SharedEntry>) -> Vec<SharedEntry>
    ensures { result.items ≡ filter (does_oust there.now rows.now.rows) list.items }
{
    list.retain(|entry| does_oust(there, rows, entry));
    list
}

/// Whether a map has an entry of the document of one of them.
fn are_known(there: &EntryMap, list: &[SharedEntry]) -> bool
    ensures { result ≡ list_any (is_known there.now) list.now }
{
    list.iter()
        .any(|entry| there.get(&entry.entry().id).is_some())
}

/// Whether all of two maps' entries find places.
fn do_fit(there: &EntryMap, others: &EntryMap) -> bool
    ensures fits { result ≡ true → fin.len there.now + fin.len others.now < 4294967295 }
    ensures full { result ≡ false → 4294967295 ≤ fin.len there.now + fin.len others.now }
{
    let many = others.entries();
    many < MOST && there.entries() < MOST - many
}

/// The map has the entries of these documents no more.
fn forget_all(entries: &mut EntryMap, list: &[SharedEntry])
    ensures { entries.new ≡ without_all list.now entries.old }
{
    for at in 0..list.len() {
        let id = &list[at].entry().id;
        entries.remove_at(key_of(id), id);
    }
}

/// A copy of the ready part that takes entries too.
fn copy_with(alloc: Global, rows: &NodeRows, list: &[SharedEntry]) -> Result<NodeRows, NoMemory>
    ensures { IfOk result (λ copy. copy ≡ with_rows (all_taken rows.now.types list.now rows.now.rows) rows.now) }
{
    let mut copy = rows.copy(alloc)?;
    for at in 0..list.len() {
        copy.take(alloc, key_of(&list[at].entry().id), &list[at])?;
    }
    Ok(copy)
}

/// Joins another map's entries onto a map, and puts those that come into the ready part; they are of documents that had no
/// entry.
fn unite_first(
    entries: &mut EntryMap,
    rows: &mut NodeRows,
    alloc: Global,
    others: &EntryMap,
    list: &[SharedEntry],
) -> Result<(), NoMemory>
    requires have { AllHave entries.old rows.old.rows }
    requires few { fin.len entries.old + fin.len others.now < 4294967295 }
    requires coming { AreComing others.now entries.old list.now }
    requires first { list_any (is_known entries.old) list.now ≡ false }
    ensures { MayUnite others.now true entries.old rows.old result entries.new rows.new }
{
    entries_find_room();
    let _ = rows.len();
    join(entries, others)?;
    if let Err(fault) = rows.take_all(alloc, list) {
        forget_all(entries, list);
        return Err(fault);
    }
    Ok(())
}

/// The same of any entries that come, by a copy of the ready part.
fn unite_by_copy(
    entries: &mut EntryMap,
    rows: &mut NodeRows,
    alloc: Global,
    others: &EntryMap,
    list: &[SharedEntry],
) -> Result<(), NoMemory>
    requires have { AllHave entries.old rows.old.rows }
    requires few { fin.len entries.old + fin.len others.now < 4294967295 }
    requires coming { AreComing others.now entries.old list.now }
    ensures { MayUnite others.now true entries.old rows.old result entries.new rows.new }
{
    entries_find_room();
    let _ = rows.len();
    let copy = copy_with(alloc, rows, list)?;
    join(entries, others)?;
    *rows = copy;
    Ok(())
}

/// Joins another map's entries, of which there is a list, onto a map, and puts those that come into the ready part.
pub fn unite_ready(
    entries: &mut EntryMap,
    rows: &mut NodeRows,
    alloc: Global,
    others: &EntryMap,
    list: Vec<SharedEntry>,
) -> Result<(), NoMemory>
    requires have { AllHave entries.old rows.old.rows }
    requires listed { IsListOf others.now list.items }
    ensures { MayUnite others.now true entries.old rows.old result entries.new rows.new }
{
    if !do_fit(entries, others) {
        return Err(NoMemory);
    }
    let list = coming(entries, list);
    if are_known(entries, &list) {
        return unite_by_copy(entries, rows, alloc, others, &list);
    }
    unite_first(entries, rows, alloc, others, &list)
}

/// Joins another map's entries, of which there is a list, onto a map; the documents of those that come are ready no more.
pub fn unite_waiting(
    entries: &mut EntryMap,
    rows: &mut NodeRows,
    others: &EntryMap,
    list: Vec<SharedEntry>,
) -> Result<(), NoMemory>
    requires listed { IsListOf others.now list.items }
    ensures { MayUnite others.now false entries.old rows.old result entries.new rows.new }
{
    let list = ousting(entries, rows, list);
    join(entries, others)?;
    rows.leave_all(&list);
    Ok(())
}
