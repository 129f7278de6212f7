//! Of each value that some document had, its tally.
//!
//! A value gets its place first, a tally of no document; that alone takes memory. Then a document is counted in it.

ghost use Rattle.std.specs.Prelude.{◌≡◌, ℕ, ℤ, List, length, Some, IsSome, if◌then◌else◌, bytes_eq, OnOk, IsSorted};
ghost use Rattle.documents.specs.Fields.{Contents};
ghost use Rattle.std.specs.Ordering.{int_cmp, int_eq};
ghost use Rattle.indexmap.specs.IndexMap as table;
ghost use Rattle.indexmap.specs.IndexMap.{get_by_text};
ghost use Rattle.std.specs.String.{string_cmp, string_eq};
ghost use Rattle.group_counts.specs.Tallies.{tally_with, AreKept, ArePlacesMore};
ghost use Rattle.group_counts.specs.Figures.{AreFigures};

use crate::slots::Slot;
use crate::tally::Tally;
use doc_types::OutputKind;
use indexmap::IndexMap;
use std::alloc::Global;
use value_lists::NoMemory;

/// A place for a number, if it has none.
pub fn place_number(
    alloc: Global,
    tallies: &mut IndexMap<i64, Tally>,
    number: i64,
    kinds: &[OutputKind],
) -> Result<(), NoMemory>
    ensures places { ArePlacesMore kinds.now tallies.old.entries tallies.new.entries
        (table.get int_eq tallies.old) (table.get int_eq tallies.new) }
    ensures placed { OnOk result (IsSome (table.get int_eq tallies.new number)) }
{
    if !tallies.contains_key(&number) {
        let tally = Tally::new(alloc, kinds)?;
        tallies.insert(number, tally)?;
    }
    Ok(())
}

/// A place for a text, if it has none.
pub fn place_text(
    alloc: Global,
    tallies: &mut IndexMap<String, Tally>,
    text: &str,
    kinds: &[OutputKind],
) -> Result<(), NoMemory>
    ensures places { ArePlacesMore kinds.now tallies.old.entries tallies.new.entries
        (get_by_text tallies.old) (get_by_text tallies.new) }
    ensures placed { OnOk result (IsSome (get_by_text tallies.new text.now)) }
{
    if !tallies.contains_key(text) {
        let tally = Tally::new(alloc, kinds)?;
        let key = String::from_str(alloc, text)?;
        tallies.insert(key, tally)?;
    }
    Ok(())
}

/// A document with a number more.
pub fn take_number(
    tallies: &mut IndexMap<i64, Tally>,
    number: i64,
    kinds: &[OutputKind],
    slots: &[Slot<'_>],
)
    requires few { AreKept kinds.now 9223372036854775807 (table.get int_eq tallies.old) }
    requires placed { IsSome (table.get int_eq tallies.old number) }
    requires same { length slots.now ≡ length kinds.now }
    ensures { (d : Contents) → AreFigures kinds.now d slots.now → (z : ℤ) → table.get int_eq tallies.new z
        ≡ (if int_eq number z then Some (tally_with kinds.now d (table.get int_eq tallies.old number))
        else table.get int_eq tallies.old z) }
{
    if let Some(tally) = tallies.get_mut(&number) {
        tally.take(kinds, slots);
    }
}

/// A document with a text more.
pub fn take_text(
    tallies: &mut IndexMap<String, Tally>,
    text: &str,
    kinds: &[OutputKind],
    slots: &[Slot<'_>],
)
    requires few { AreKept kinds.now 9223372036854775807 (get_by_text tallies.old) }
    requires placed { IsSome (get_by_text tallies.old text.now) }
    requires same { length slots.now ≡ length kinds.now }
    ensures { (d : Contents) → AreFigures kinds.now d slots.now → (t : List ℕ) → get_by_text tallies.new t
        ≡ (if bytes_eq text.now t then Some (tally_with kinds.now d (get_by_text tallies.old text.now))
        else get_by_text tallies.old t) }
{
    if let Some(tally) = tallies.get_mut(text) {
        tally.take(kinds, slots);
    }
}

/// No two numbers are the same, and no two texts; this does nothing.
pub fn keys_differ(numbers: &IndexMap<i64, Tally>, texts: &IndexMap<String, Tally>)
    ensures numbers { table.IsUnique int_eq numbers.now }
    ensures texts { table.IsUnique string_eq texts.now }
{
    // `len` says it of every map.
    let _ = (numbers.len(), texts.len());
}

/// The numbers in rising order.
pub fn sort_numbers(tallies: &mut IndexMap<i64, Tally>) -> Result<(), NoMemory>
    ensures sorted { OnOk result (IsSorted int_cmp (table.keys tallies.new)) }
    ensures same { (z : ℤ) → table.get int_eq tallies.new z ≡ table.get int_eq tallies.old z }
    ensures unique { OnOk result (table.IsUnique int_eq tallies.new) }
{
    Ok(tallies.sort_keys()?)
}

/// The texts in rising order of their bytes.
pub fn sort_texts(tallies: &mut IndexMap<String, Tally>) -> Result<(), NoMemory>
    ensures sorted { OnOk result (IsSorted string_cmp (table.keys tallies.new)) }
    ensures same { (t : List ℕ) → get_by_text tallies.new t ≡ get_by_text tallies.old t }
    ensures unique { OnOk result (table.IsUnique string_eq tallies.new) }
{
    tallies.sort_keys()?;
    Ok(())
}
