use crate::fields::text_of;
use crate::texts::{number, word};
use doc_types::FieldValue;
use query_groups::{Group, GroupList, Output, OutputKind, OutputList, SearchAnswer};
use std::alloc::Global;

/// What a search found: behind the line's number the version, how many documents, the measure and whether it is all,
/// and behind each `|` a group.
pub fn found(alloc: Global, words: &str) -> Option<SearchAnswer> {
    let (numbers, groups) = words.split_once('|').unwrap_or((words, ""));
    Some(SearchAnswer {
        version: word(numbers, 1),
        count: number(numbers, 2),
        covered: number(numbers, 3),
        full: number(numbers, 4) == 1,
        groups: groups_of(alloc, groups)?,
    })
}

fn groups_of(alloc: Global, words: &str) -> Option<GroupList> {
    let mut groups = Vec::new(alloc);
    let mut good = true;
    for group in words.split('|') {
        good &= group.is_empty() || push_group(alloc, &mut groups, group);
    }
    if good {
        Some(GroupList::of(groups))
    } else {
        None
    }
}

fn push_group(alloc: Global, groups: &mut Vec<Group>, words: &str) -> bool {
    match group_of(alloc, words) {
        Some(group) => groups.push(group).is_ok(),
        None => false,
    }
}

fn group_of(alloc: Global, words: &str) -> Option<Group> {
    let (value, outputs) = words.split_once(';').unwrap_or((words, ""));
    let value = value_of(alloc, value)?;
    match outputs_of(alloc, outputs) {
        Some(outputs) => Some(Group {
            value,
            count: 0,
            outputs,
        }),
        None => None,
    }
}

/// A text has a quote in front.
fn value_of(alloc: Global, value: &str) -> Option<FieldValue> {
    match value.strip_prefix("'") {
        Some(text) => Some(FieldValue::Text(text_of(alloc, text)?)),
        None => Some(FieldValue::Int(value.parse::<i64>().unwrap_or(0))),
    }
}

fn outputs_of(alloc: Global, words: &str) -> Option<OutputList> {
    let mut outputs = Vec::new(alloc);
    let mut good = true;
    for output in words.split(';') {
        good &= push_output(alloc, &mut outputs, output);
    }
    if good {
        Some(OutputList::of(outputs))
    } else {
        None
    }
}

/// Appends the output that a word says, if it says one; whether there is memory for it.
fn push_output(alloc: Global, outputs: &mut Vec<Output>, word: &str) -> bool {
    let Some((kind, value)) = word.split_once('=') else {
        return true;
    };
    let value = value.parse::<i128>().ok();
    match kind_of(alloc, kind) {
        Some(kind) => outputs.push(Output { kind, value }).is_ok(),
        None => false,
    }
}

/// As `sum(year)`.
fn kind_of(alloc: Global, kind: &str) -> Option<OutputKind> {
    let (word, rest) = kind.split_once('(').unwrap_or((kind, ""));
    let field = text_of(alloc, rest.strip_suffix(")").unwrap_or(rest))?;
    Some(match word {
        "sum" => OutputKind::Sum(field),
        "min" => OutputKind::Min(field),
        "max" => OutputKind::Max(field),
        _ => OutputKind::Count,
    })
}
