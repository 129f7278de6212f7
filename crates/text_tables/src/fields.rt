use crate::tables::Table;
use crate::texts::{halves, shown};
use doc_types::{FieldValue, IntList, Language, Lexeme, Schema, TextList, read_token, skip_blanks};
use doc_updates::Update;
use document_ids::DocId;
use documents::{Document, DocumentFault};
use json_documents::{document_from_json, fields_json, schema_from_json, update_from_json};
use serde_json::Value;
use std::alloc::Global;
use value_lists::{TextValue, TryCopy};

/// The id of the documents that have none of their own.
const ID: &str = "id:ns:music::a";

/// Why a text is no schema, if it is none; or what `TYPE` or `TYPE.FIELD` is in the schema of the second half.
pub fn schema_told(alloc: Global, table: Table, asked: &str) -> Option<String> {
    let (name, said) = halves(asked);
    match (table, schema_from_json(alloc, said)) {
        (Table::Schemas, read) => shown(alloc, &read.err()),
        (_, Ok(schema)) => kind_told(alloc, &schema, name),
        (_, Err(fault)) => shown(alloc, &fault),
    }
}

fn kind_told(alloc: Global, schema: &Schema, name: &str) -> Option<String> {
    match name.split_once('.') {
        Some((of, field)) => shown(alloc, &schema.field(of, field)),
        None => shown(alloc, &schema.has_type(name)),
    }
}

/// All tokens of the text behind a language, with the bytes of a text; and what is left where none can be read.
pub fn lexemes(alloc: Global, asked: &str) -> Option<String> {
    let (name, text) = halves(asked);
    let language = match name {
        "query" => Language::Query,
        _ => Language::Selection,
    };
    let mut lexemes = Vec::new(alloc);
    match put_lexemes(alloc, &mut lexemes, language, text) {
        Some(rest) => shown(alloc, &(lexemes, rest)),
        None => None,
    }
}

/// Appends all tokens of a text; the result is what is left.
fn put_lexemes<'a>(
    alloc: Global,
    lexemes: &mut Vec<Lexeme<'a>>,
    language: Language,
    text: &'a str,
) -> Option<&'a str> {
    let mut rest = skip_blanks(text);
    for _ in 0..text.len() {
        let Some((lexeme, behind)) = read_token(alloc, language, rest).ok()? else {
            break;
        };
        lexemes.push(lexeme).ok()?;
        rest = skip_blanks(behind);
    }
    Some(rest)
}

/// The value that a JSON text says; null where it says none.
fn json(alloc: Global, text: &str) -> Value {
    match Value::from_str(alloc, text) {
        Ok(value) => value,
        Err(_) => Value::Null,
    }
}

/// The document of an id and a JSON text; that its type is unknown where these say none at all.
pub fn document_of(
    alloc: Global,
    schema: &Schema,
    id: &str,
    fields: &str,
) -> Result<Document, DocumentFault> {
    match DocId::parse(alloc, id) {
        Ok(id) => document_with(alloc, schema, id, &json(alloc, fields)),
        Err(_) => Err(DocumentFault::UnknownType),
    }
}

fn document_with(
    alloc: Global,
    schema: &Schema,
    id: DocId,
    fields: &Value,
) -> Result<Document, DocumentFault> {
    if fields.is_object() {
        document_from_json(alloc, id, fields, schema)
    } else {
        Err(DocumentFault::UnknownType)
    }
}

/// The update that a JSON value says; that its type is unknown where it says none at all.
fn update_of(
    alloc: Global,
    schema: &Schema,
    document: &Document,
    fields: &Value,
) -> Result<Update, DocumentFault> {
    if fields.is_object() {
        update_from_json(alloc, document.id(), fields, schema)
    } else {
        Err(DocumentFault::UnknownType)
    }
}

/// A document's fields in JSON, written without spaces and with its keys in order.
fn fields_text(alloc: Global, document: &Document) -> Option<String> {
    match fields_json(alloc, document) {
        Ok(fields) => fields.to_string(alloc).ok(),
        Err(_) => None,
    }
}

/// Appends a document's size and its fields, of more than 100 bytes only how many; whether there is memory for them.
fn put_document(alloc: Global, told: &mut String, document: &Document) -> bool {
    match fields_text(alloc, document) {
        Some(text) => put_fields(told, document.size(), &text),
        None => false,
    }
}

fn put_fields(told: &mut String, size: u64, text: &str) -> bool {
    let length = text.len();
    if length > 100 {
        write!(told, "{size}, {length} bytes").is_ok()
    } else {
        write!(told, "{size}, {text}").is_ok()
    }
}

/// What fields say as a document, and what it is once its year is 2 and its title is gone, or the fault.
pub fn document_told(alloc: Global, schema: &Schema, fields: &str) -> Option<String> {
    match document_of(alloc, schema, ID, fields) {
        Ok(mut document) => twice_told(alloc, &mut document),
        Err(fault) => shown(alloc, &fault),
    }
}

/// A copy of a document, and the document once it is changed.
fn twice_told(alloc: Global, document: &mut Document) -> Option<String> {
    match document.copy(alloc) {
        Ok(copy) if change(alloc, document) => both_told(alloc, &copy, document),
        _ => None,
    }
}

fn change(alloc: Global, document: &mut Document) -> bool {
    document.clear("title");
    document.set(alloc, "year", FieldValue::Int(2)).is_ok()
}

fn both_told(alloc: Global, first: &Document, second: &Document) -> Option<String> {
    let mut told = String::new(alloc);
    let good = put_document(alloc, &mut told, first)
        && told.push_str("; ").is_ok()
        && put_document(alloc, &mut told, second);
    if good { Some(told) } else { None }
}

/// What the update of the second half makes of the document of the first, or the fault.
pub fn updated(alloc: Global, schema: &Schema, asked: &str) -> Option<String> {
    let (stored, said) = halves(asked);
    match document_of(alloc, schema, ID, stored) {
        Ok(document) => left_of(alloc, schema, &document, &json(alloc, said)),
        Err(fault) => shown(alloc, &fault),
    }
}

/// What an update makes of a document, or the fault.
fn left_of(alloc: Global, schema: &Schema, document: &Document, said: &Value) -> Option<String> {
    match update_of(alloc, schema, document, said) {
        Ok(update) => left_told(alloc, &update, document),
        Err(fault) => shown(alloc, &fault),
    }
}

fn left_told(alloc: Global, update: &Update, document: &Document) -> Option<String> {
    let mut told = String::new(alloc);
    match update.apply(alloc, document) {
        Ok(left) if put_document(alloc, &mut told, &left) => Some(told),
        Ok(_) => None,
        Err(fault) => shown(alloc, &fault),
    }
}

/// The value that a JSON value is: a list of texts where its first item is one.
fn value_of(alloc: Global, json: &Value) -> Option<FieldValue> {
    match json {
        Value::String(text) => Some(FieldValue::Text(text_of(alloc, text)?)),
        Value::Array(items) => list_of(alloc, items),
        json => Some(FieldValue::Int(json.as_i64().unwrap_or(0))),
    }
}

fn list_of(alloc: Global, items: &[Value]) -> Option<FieldValue> {
    match items.first() {
        Some(Value::String(_)) => texts_in(alloc, items),
        _ => numbers_in(alloc, items),
    }
}

/// A text as a value.
pub fn text_of(alloc: Global, text: &str) -> Option<TextValue> {
    match String::from_str(alloc, text) {
        Ok(text) => Some(TextValue::of(text)),
        Err(_) => None,
    }
}

/// The numbers among these items.
fn numbers_in(alloc: Global, items: &[Value]) -> Option<FieldValue> {
    let mut numbers = Vec::new(alloc);
    let mut good = true;
    for item in items {
        good &= numbers.push(item.as_i64().unwrap_or(0)).is_ok();
    }
    if good {
        Some(FieldValue::Ints(IntList::of(numbers)))
    } else {
        None
    }
}

fn push_text(alloc: Global, texts: &mut Vec<TextValue>, text: &str) -> bool {
    match text_of(alloc, text) {
        Some(text) => texts.push(text).is_ok(),
        None => false,
    }
}

/// The texts among these items.
fn texts_in(alloc: Global, items: &[Value]) -> Option<FieldValue> {
    let mut texts = Vec::new(alloc);
    let mut good = true;
    for item in items {
        good &= push_text(alloc, &mut texts, item.as_str().unwrap_or(""));
    }
    if good {
        Some(FieldValue::Texts(TextList::of(texts)))
    } else {
        None
    }
}

/// The kinds of two values, their order, whether they are one, and whether a copy of the first is the first.
pub fn values_compared(alloc: Global, asked: &str) -> Option<String> {
    let (first, second) = halves(asked);
    let one = value_of(alloc, &json(alloc, first))?;
    match value_of(alloc, &json(alloc, second)) {
        Some(two) => compared(alloc, &one, &two),
        None => None,
    }
}

fn compared(alloc: Global, one: &FieldValue, two: &FieldValue) -> Option<String> {
    match one.copy(alloc) {
        Ok(copy) => shown(
            alloc,
            &(
                one.kind(),
                two.kind(),
                one.order(two),
                one.equals(two),
                one.equals(&copy),
            ),
        ),
        Err(_) => None,
    }
}
