//! What a search answers over a view.

use crate::entries::schema;
use doc_types::FieldValue;
use lane_views::LaneView;
use query_groups::{Group, SearchAnswer};
use query_text::Query;
use search_views::SearchSum;
use std::alloc::Global;

/// Appends the value of a group; whether it is one that groups have.
fn push_value(line: &mut String, value: &FieldValue) -> bool {
    match value {
        FieldValue::Int(number) => write!(line, "; {number}: ").is_ok(),
        FieldValue::Text(text) => write!(line, "; {}: ", text.text()).is_ok(),
        _ => false,
    }
}

/// Appends a group: its value, how many documents it has, and its outputs.
fn push_group(line: &mut String, group: &Group) -> bool {
    let mut good = push_value(line, &group.value);
    good &= write!(line, "{}", group.count).is_ok();
    for output in group.outputs.items() {
        good &= write!(line, " {:?}", output.value).is_ok();
    }
    good
}

/// An answer on one line.
fn answer_text(alloc: Global, answer: &SearchAnswer) -> Option<String> {
    let (count, version) = (answer.count, answer.version);
    let (covered, full) = (answer.covered, answer.full);
    let mut line = format!(in alloc; "{count} at {version}, {covered} covered, full {full}").ok()?;
    let mut good = true;
    for group in answer.groups.items() {
        good &= push_group(&mut line, group);
    }
    if good { Some(line) } else { None }
}

/// What a query answers over a view.
fn found(alloc: Global, view: &LaneView, query: &Query, version: u32) -> Option<String> {
    let mut sum = SearchSum::new(alloc, query, version);
    sum.add(alloc, view).ok()?;
    answer_text(alloc, &sum.finish(alloc).ok()?)
}

/// The query that a text says.
fn read_query(alloc: Global, text: &str) -> Option<Query> {
    let schema = schema(alloc)?;
    Query::parse(alloc, text, schema.schema()).ok()
}

/// What the search that a text says answers over a view.
pub fn search(alloc: Global, view: &LaneView, version: u32, text: &str) -> Option<String> {
    let query = read_query(alloc, text)?;
    found(alloc, view, &query, version)
}
