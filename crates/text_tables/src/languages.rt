use crate::tables::Table;
use crate::texts::{halves, number, shown};
use crate::world::World;
use doc_selection::{Selection, SelectionFault};
use documents::Document;
use query_text::{Query, QueryFault};
use std::alloc::Global;
use word_index::tokens;

/// For each document a `+` where a selection is true of it, and else a `-`; or that the selection is read, by the schema
/// whose number comes first.
pub fn selected(alloc: Global, world: &World, table: Table, asked: &str) -> Option<String> {
    let (schema, text) = halves(asked);
    match Selection::parse(alloc, text, world.schema(number(schema, 0))) {
        Ok(selection) => match table {
            Table::Holds => held(alloc, &selection, &world.documents),
            _ => String::from_str(alloc, "ok").ok(),
        },
        Err(fault) => match (table, fault) {
            (Table::Selections, SelectionFault::BadSelection { offset }) => shown(alloc, &offset),
            (_, fault) => shown(alloc, &fault),
        },
    }
}

fn held(alloc: Global, selection: &Selection, documents: &[Document]) -> Option<String> {
    let mut held = String::new(alloc);
    let mut good = true;
    for document in documents {
        good &= held.push(sign(selection.holds(document))).is_ok();
    }
    if good { Some(held) } else { None }
}

fn sign(holds: bool) -> char {
    if holds { '+' } else { '-' }
}

/// The same of a query, where a `+` stands for a document that it matches.
pub fn queried(alloc: Global, world: &World, table: Table, asked: &str) -> Option<String> {
    let (schema, text) = halves(asked);
    match Query::parse(alloc, text, world.schema(number(schema, 0))) {
        Ok(query) => match table {
            Table::Matches => matched(alloc, &query, &world.documents),
            _ => String::from_str(alloc, "ok").ok(),
        },
        Err(fault) => match (table, fault) {
            (Table::Queries, QueryFault::BadQuery { offset }) => shown(alloc, &offset),
            (_, fault) => shown(alloc, &fault),
        },
    }
}

fn matched(alloc: Global, query: &Query, documents: &[Document]) -> Option<String> {
    let mut matched = String::new(alloc);
    let mut good = true;
    for document in documents {
        good &= match query.holds(alloc, document) {
            Ok(holds) => matched.push(sign(holds)).is_ok(),
            Err(_) => false,
        };
    }
    if good { Some(matched) } else { None }
}

/// The tokens of a text behind the number of a schema, with blanks between them.
pub fn words(alloc: Global, asked: &str) -> Option<String> {
    let tokens = tokens(alloc, halves(asked).1).ok()?;
    let mut told = String::new(alloc);
    let mut good = true;
    for token in tokens.items() {
        good &= put_word(&mut told, token.text());
    }
    if good { Some(told) } else { None }
}

fn put_word(told: &mut String, word: &str) -> bool {
    let between = if told.is_empty() { "" } else { " " };
    told.push_str(between).is_ok() && told.push_str(word).is_ok()
}
