ghost use Rattle.std.specs.Prelude.{◌≡◌, ◌≢◌, ◌<◌, ℤ, [], true, false, if◌then◌else◌, length, IfNone, IfSome, OnOk, OnErr};
ghost use Rattle.std.specs.List.{Contains};
ghost use Rattle.std.specs.Ordering.{int_eq, int_cmp};
ghost use Rattle.std.specs.BTreeMap as tree;
ghost use Rattle.std.specs.Int.Signed.{◌≤ℤ◌, ◌<ℤ◌};
ghost use Rattle.local_ids.specs.Rising.{IsRising, with_local, without_local, moved_local};
ghost use Rattle.attribute_columns.specs.Columns.{has_number};
ghost use Rattle.attribute_columns.specs.Dictionary.{ids_at, HasNoEmpty};

use local_ids::{drop_local, move_local, put_local};
use std::alloc::Global;
use std::collections::BTreeMap;
use value_lists::NoMemory;

/// The ids at a number.
pub fn list_in(lists: &BTreeMap<i64, Vec<u32>>, number: i64) -> &[u32]
    ensures { result.now ≡ ids_at lists.now number }
{
    match lists.get(&number) {
        Some(list) => list,
        None => &[],
    }
}

/// An id more at a number.
fn add_in(
    alloc: Global,
    lists: &mut BTreeMap<i64, Vec<u32>>,
    number: i64,
    local: u32,
) -> Result<(), NoMemory>
    requires { IsRising (ids_at lists.old number) }
    ensures ok { OnOk result ((q : ℤ) → ids_at lists.new q
        ≡ (if int_eq number q then with_local local (ids_at lists.old number) else ids_at lists.old q)) }
    ensures err { OnErr result ((q : ℤ) → ids_at lists.new q ≡ ids_at lists.old q) }
    ensures some { HasNoEmpty lists.old → HasNoEmpty lists.new }
{
    if let Some(list) = lists.get_mut(&number) {
        return put_local(list, local);
    }
    let mut list = Vec::new(alloc);
    list.push(local)?;
    lists.insert(number, list)?;
    Ok(())
}

/// An id less at a number, whose list may then be empty.
fn drop_in(lists: &mut BTreeMap<i64, Vec<u32>>, number: i64, local: u32)
    requires { IsRising (ids_at lists.old number) }
    ensures ids { (q : ℤ) → ids_at lists.new q
        ≡ (if int_eq number q then without_local local (ids_at lists.old number) else ids_at lists.old q) }
    ensures some { HasNoEmpty lists.old → (q : ℤ) → int_eq number q ≡ false
        → IfSome (tree.get int_cmp lists.new q) (λ v. 0 < length v.items) }
{
    if let Some(list) = lists.get_mut(&number) {
        drop_local(list, local);
    }
}

/// Takes a number out whose list is empty.
fn tidy_in(lists: &mut BTreeMap<i64, Vec<u32>>, number: i64)
    ensures ids { (q : ℤ) → ids_at lists.new q ≡ ids_at lists.old q }
    ensures some { ((q : ℤ) → int_eq number q ≡ false → IfSome (tree.get int_cmp lists.old q) (λ v. 0 < length v.items))
        → HasNoEmpty lists.new }
{
    if list_in(lists, number).is_empty() {
        lists.remove(&number);
    }
}

/// An id less at a number.
fn remove_in(lists: &mut BTreeMap<i64, Vec<u32>>, number: i64, local: u32)
    requires { IsRising (ids_at lists.old number) }
    ensures ids { (q : ℤ) → ids_at lists.new q
        ≡ (if int_eq number q then without_local local (ids_at lists.old number) else ids_at lists.old q) }
    ensures some { HasNoEmpty lists.old → HasNoEmpty lists.new }
{
    drop_in(lists, number, local);
    tidy_in(lists, number);
}

/// An id less at each of some numbers.
pub fn remove_all(lists: &mut BTreeMap<i64, Vec<u32>>, numbers: &[i64], local: u32)
    requires { (q : ℤ) → IsRising (ids_at lists.old q) }
    ensures ids { (q : ℤ) → ids_at lists.new q
        ≡ (if has_number q numbers.now then without_local local (ids_at lists.old q) else ids_at lists.old q) }
    ensures some { HasNoEmpty lists.old → HasNoEmpty lists.new }
{
    for at in 0..numbers.len() {
        remove_in(lists, numbers[at], local);
    }
}

/// An id more at each of some numbers that lack it.
pub fn add_all(
    alloc: Global,
    lists: &mut BTreeMap<i64, Vec<u32>>,
    numbers: &[i64],
    local: u32,
) -> Result<(), NoMemory>
    requires rising { (q : ℤ) → IsRising (ids_at lists.old q) }
    requires lack { (q : ℤ) → has_number q numbers.now ≡ true → Contains (ids_at lists.old q) local → ⊥ }
    ensures ok { OnOk result ((q : ℤ) → ids_at lists.new q
        ≡ (if has_number q numbers.now then with_local local (ids_at lists.old q) else ids_at lists.old q)) }
    ensures err { OnErr result ((q : ℤ) → ids_at lists.new q ≡ ids_at lists.old q) }
    ensures some { HasNoEmpty lists.old → HasNoEmpty lists.new }
{
    for at in 0..numbers.len() {
        if let Err(fault) = add_in(alloc, lists, numbers[at], local) {
            remove_all(lists, &numbers[..at], local);
            return Err(fault);
        }
    }
    Ok(())
}

/// An id in the place of another at a number, whose list may then be empty.
fn shift_in(lists: &mut BTreeMap<i64, Vec<u32>>, number: i64, from: u32, to: u32)
    requires { IsRising (ids_at lists.old number) }
    ensures ids { (q : ℤ) → ids_at lists.new q
        ≡ (if int_eq number q then moved_local from to (ids_at lists.old number) else ids_at lists.old q) }
    ensures some { HasNoEmpty lists.old → (q : ℤ) → int_eq number q ≡ false
        → IfSome (tree.get int_cmp lists.new q) (λ v. 0 < length v.items) }
{
    if let Some(list) = lists.get_mut(&number) {
        move_local(list, from, to);
    }
}

/// An id in the place of another at a number.
fn move_in(lists: &mut BTreeMap<i64, Vec<u32>>, number: i64, from: u32, to: u32)
    requires { IsRising (ids_at lists.old number) }
    ensures ids { (q : ℤ) → ids_at lists.new q
        ≡ (if int_eq number q then moved_local from to (ids_at lists.old number) else ids_at lists.old q) }
    ensures some { HasNoEmpty lists.old → HasNoEmpty lists.new }
{
    shift_in(lists, number, from, to);
    tidy_in(lists, number);
}

/// An id in the place of another at each of some numbers.
pub fn move_all(lists: &mut BTreeMap<i64, Vec<u32>>, numbers: &[i64], from: u32, to: u32)
    requires rising { (q : ℤ) → IsRising (ids_at lists.old q) }
    requires other { to ≢ from }
    ensures ids { (q : ℤ) → ids_at lists.new q
        ≡ (if has_number q numbers.now then moved_local from to (ids_at lists.old q) else ids_at lists.old q) }
    ensures some { HasNoEmpty lists.old → HasNoEmpty lists.new }
{
    for at in 0..numbers.len() {
        move_in(lists, numbers[at], from, to);
    }
}

/// The least number from one to another that some id has, and the ids that have it.
pub fn next_in(lists: &BTreeMap<i64, Vec<u32>>, low: i64, high: i64) -> Option<(i64, &[u32])>
    requires { HasNoEmpty lists.now }
    ensures none { IfNone result ((q : ℤ) → low ≤ℤ q → q ≤ℤ high → ids_at lists.now q ≡ []) }
    ensures from { IfSome result (λ r. low ≤ℤ r.0) }
    ensures to { IfSome result (λ r. r.0 ≤ℤ high) }
    ensures least { IfSome result (λ r. (q : ℤ) → low ≤ℤ q → q <ℤ r.0 → ids_at lists.now q ≡ []) }
    ensures ids { IfSome result (λ r. r.1.now ≡ ids_at lists.now r.0) }
    ensures some { IfSome result (λ r. 0 < length r.1.now) }
{
    if high < low {
        return None;
    }
    match lists.range(low..=high).next() {
        Some((number, list)) => Some((*number, list)),
        None => None,
    }
}
