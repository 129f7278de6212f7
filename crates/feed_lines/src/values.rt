ghost use Rattle.std.specs.Prelude.{◌≡◌, ◌==◌, ◌<◌, ◌≤◌, ◌^◌, ℕ, Some, codes, IfOk, IfSome, option_map, option_and_then};
ghost use Rattle.serde_json.specs.Events.{items_len, members_len};
ghost use Rattle.serde_json.specs.Find.{as_array, as_object, get};
ghost use Rattle.line_values.specs.View.{view, items_view, members_view};
ghost use Rattle.json_documents.specs.Schemas.{members_in};
ghost use Rattle.json_documents.specs.Json.{each};
ghost use Rattle.feed_lines.specs.Values.{below, number_below, node_of, lane_end, lane_of, set_with, set_of, nodes_of, set_said, late_by, late_of, fate_named, fate_of, few_fates, fates_of};

use carriers::{Fate, FateList};
use line_values::LineValue;
use node_sets::NodeSet;
use std::alloc::Global;
use value_lists::NoMemory;

/// The most fates of a line, and the most messages after which a late one is delivered.
pub const MOST_FATES: u32 = 1_000;

/// A whole number from 0 on, below an end.
fn below(end: u32, number: Option<i64>) -> Option<u32>
    requires { end < 2 ^ 31 }
    ensures value { result ≡ below end number }
    ensures small { IfSome result (λ n. n < end) }
{
    match number {
        Some(number) => {
            if 0 <= number && number < i64::from(end) {
                Some(number as u32)
            } else {
                None
            }
        }
        None => None,
    }
}

/// The whole number from 0 on that a value is, below an end.
fn number_below(end: u32, value: &LineValue<'_>) -> Option<u32>
    requires { end < 2 ^ 31 }
    ensures value { result ≡ number_below end (view value.now) }
    ensures small { IfSome result (λ n. n < end) }
{
    below(end, value.as_i64())
}

/// The number of a node or a distributor that a value is.
pub fn node_of(value: &LineValue<'_>) -> Option<u8>
    ensures value { result ≡ node_of (view value.now) }
    ensures small { IfSome result (λ n. n < 32) }
{
    match number_below(32, value) {
        Some(number) => Some(number as u8),
        None => None,
    }
}

/// How many lanes there are; a lane's own number has 8 bits.
fn lane_end(bits: u8) -> u32
    ensures value { result ≡ lane_end bits }
    ensures most { result ≤ 256 }
{
    if bits < 8 { 1u32 << bits } else { 256 }
}

/// The number of a lane that a value is.
pub fn lane_of(bits: u8, value: &LineValue<'_>) -> Option<u8>
    ensures { result ≡ lane_of bits (view value.now) }
{
    match number_below(lane_end(bits), value) {
        Some(number) => Some(number as u8),
        None => None,
    }
}

/// A set, by its bits, with one number more.
fn set_with(bits: u32, node: u8) -> u32
    requires { node < 32 }
    ensures { result ≡ set_with bits node }
{
    bits | (1u32 << node)
}

/// The set of the numbers that items are, by its bits; none where an item is no number of a node.
fn set_of(items: &[LineValue<'_>]) -> Option<u32>
    ensures { result ≡ option_map set_of (each node_of (items_view items.now)) }
{
    let mut bits = 0;
    for item in items {
        match node_of(item) {
            Some(node) => bits = set_with(bits, node),
            None => return None,
        }
    }
    Some(bits)
}

/// The set that a list says, by its bits.
fn set_in(value: &LineValue<'_>) -> Option<u32>
    ensures { result ≡ option_map set_of (nodes_of (view value.now)) }
{
    match value.as_array() {
        Some(items) => set_of(items),
        None => None,
    }
}

/// The set that a list says, which may be left out; none where a value is no such list.
pub fn set_said(value: Option<&LineValue<'_>>) -> Option<NodeSet>
    ensures { result ≡ set_said (option_map (λ v. view v.now) value.entry) }
{
    match value {
        Some(value) => match set_in(value) {
            Some(bits) => Some(NodeSet::of(bits)),
            None => None,
        },
        None => Some(NodeSet::of(0)),
    }
}

/// The fate of a message that is late by so many.
fn late_by(count: Option<u32>) -> Option<Fate>
    ensures { result ≡ late_by count }
{
    match count {
        Some(0) => None,
        Some(count) => Some(Fate::Late(count)),
        None => None,
    }
}

/// How many members an object has.
fn size_of(members: &[(&str, LineValue<'_>)]) -> usize
    ensures { result ≡ members_len (members_view members.now) }
{
    members.len()
}

/// The same; another value has none.
fn count_members(value: &LineValue<'_>) -> usize
    ensures { result ≡ members_len (members_in (as_object (view value.now))) }
{
    match value.as_object() {
        Some(members) => size_of(members),
        None => 0,
    }
}

/// What `late` says of an object that has it.
fn late_number(value: &LineValue<'_>) -> Option<u32>
    ensures { result ≡ option_and_then (number_below 1001) (get (codes "late") (view value.now)) }
{
    match value.get("late") {
        Some(number) => number_below(MOST_FATES + 1, number),
        None => None,
    }
}

/// The fate that an object says.
fn late_of(value: &LineValue<'_>) -> Option<Fate>
    ensures { result ≡ late_of (view value.now) }
{
    if count_members(value) != 1 {
        return None;
    }
    late_by(late_number(value))
}

/// The fate that a word is.
#[tactic(auto, unfolding(crate::specs::Values::fate_named))]
fn fate_named(word: &str) -> Option<Fate>
    ensures { result ≡ fate_named word.now }
{
    if word == "deliver" {
        Some(Fate::Deliver)
    } else if word == "lose_request" {
        Some(Fate::LoseRequest)
    } else if word == "lose_reply" {
        Some(Fate::LoseReply)
    } else if word == "twice" {
        Some(Fate::Twice)
    } else {
        None
    }
}

/// The fate that a value says.
fn fate_of(value: &LineValue<'_>) -> Option<Fate>
    ensures { result ≡ fate_of (view value.now) }
{
    match value.as_str() {
        Some(word) => fate_named(word),
        None => late_of(value),
    }
}

/// The fates that items say; none where an item says none.
fn each_fate(alloc: Global, items: &[LineValue<'_>]) -> Result<Option<FateList>, NoMemory>
    ensures { IfOk result (λ fates. fates ≡ each fate_of (items_view items.now)) }
{
    let mut list = Vec::new(alloc);
    for item in items {
        match fate_of(item) {
            Some(fate) => list.push(fate)?,
            None => return Ok(None),
        }
    }
    Ok(Some(FateList::of(list)))
}

/// How many items there are.
fn count_items(items: &[LineValue<'_>]) -> usize
    ensures { result ≡ items_len (items_view items.now) }
{
    items.len()
}

/// The fates of a list of at most 1,000.
fn few_fates(alloc: Global, items: &[LineValue<'_>]) -> Result<Option<FateList>, NoMemory>
    ensures { IfOk result (λ fates. fates ≡ few_fates (items_view items.now)) }
{
    if count_items(items) > MOST_FATES as usize {
        return Ok(None);
    }
    each_fate(alloc, items)
}

/// The fates that a value says; none where it is no list of at most 1,000 fates.
pub fn fates_of(alloc: Global, value: &LineValue<'_>) -> Result<Option<FateList>, NoMemory>
    ensures { IfOk result (λ fates. fates ≡ fates_of (view value.now)) }
{
    match value.as_array() {
        Some(items) => few_fates(alloc, items),
        None => Ok(None),
    }
}
