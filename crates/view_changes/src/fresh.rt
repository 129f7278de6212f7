//! Entries in the order of their ids, and which of them come with an active bucket.

ghost use Rattle.std.specs.Prelude.{◌≡◌, filter, IfOk, OnOk};
ghost use Rattle.std.specs.FinMap as fin;
ghost use Rattle.std.specs.Ordering.{eq_by_cmp};
ghost use Rattle.entry_maps.specs.Entries.{by_id};
ghost use Rattle.view_changes.specs.EntryOrder.{entry_cmp, AreApart};
ghost use Rattle.view_changes.specs.Views.{in_regions, is_fresh, listed};

use crate::regions::have_key;
use bucket_ids::Bucket;
use documents::SharedEntry;
use entry_maps::EntryMap;
use global_ids::key_of;
use std::alloc::Global;
use std::cmp::Ordering;
use value_lists::NoMemory;

/// Whether an entry lies in a bucket, and in no region so far.
fn is_fresh(bucket: Bucket, regions: &[Bucket], entry: &SharedEntry) -> bool
    ensures { result ≡ is_fresh bucket regions.now entry.now }
{
    let key = key_of(&entry.entry().id);
    bucket.contains(key) && !have_key(regions, key)
}

/// How the ids of two entries stand.
fn compare(a: &SharedEntry, b: &SharedEntry) -> Ordering
    ensures { result ≡ entry_cmp a.now b.now }
{
    a.entry().id.text().cmp(b.entry().id.text())
}

/// Whether two entries have one id.
fn same_id(a: &SharedEntry, b: &SharedEntry) -> bool
    ensures { result ≡ eq_by_cmp entry_cmp a.now b.now }
{
    compare(a, b).is_eq()
}

/// The entries by their ids, of each id the first.
fn in_order(mut entries: Vec<SharedEntry>) -> Result<Vec<SharedEntry>, NoMemory>
    ensures list { IfOk result (λ list. list.items ≡ listed (fin.from_entries (by_id entries.items))) }
    ensures apart { IfOk result (λ list. AreApart list.items) }
{
    entries.sort_by(|a, b| compare(a, b))?;
    entries.dedup_by(|a, b| same_id(a, b));
    Ok(entries)
}

/// The entries of a map, shared, by their ids.
pub fn entries_in_order(entries: &EntryMap) -> Result<Vec<SharedEntry>, NoMemory>
    ensures list { IfOk result (λ list. list.items ≡ listed entries.now) }
    ensures apart { IfOk result (λ list. AreApart list.items) }
{
    in_order(entries.listed()?)
}

/// The entries of a map that lie in a bucket and in no region so far, by their ids.
pub fn fresh_entries(
    alloc: Global,
    bucket: Bucket,
    regions: &[Bucket],
    entries: &EntryMap,
) -> Result<Vec<SharedEntry>, NoMemory>
    ensures list { IfOk result (λ list. list.items ≡ filter (is_fresh bucket regions.now) (listed entries.now)) }
    ensures apart { IfOk result (λ list. AreApart list.items) }
{
    let mut list = entries.listed()?;
    list.retain(|entry| is_fresh(bucket, regions, entry));
    let fresh = in_order(list)?;
    Ok(fresh)
}
