ghost use Rattle.std.specs.Prelude.{◌≡◌, ◌≢◌, Some, None, Err, IfOk};
ghost use Rattle.line_values.specs.Said.{value_said, array_said, object_said};
ghost use Rattle.line_values.specs.View.{view, items_view, members_view};

use crate::line_value::{LineValue, put};
use crate::numbers::number_of;
use crate::read_fault::ReadFault;
use json::{Reader, Token};
use std::alloc::Global;
use std::collections::BTreeMap;

/// Reads a value, in which at most `depth` arrays and objects nest, of a text that may be `long`.
#[cycle(read_value)]
#[inline(always)]
pub fn read_value<'a>(
    alloc: Global,
    reader: &mut Reader<'a>,
    depth: usize,
    long: bool,
) -> Result<LineValue<'a>, ReadFault>
    ensures ok { IfOk result (λ v. value_said depth reader.old ≡ Some (view v, reader.new)) }
    ensures fault { result ≡ Err ReadFault.Text → value_said depth reader.old ≡ None }
{
    let Some(token) = reader.next() else {
        return Err(ReadFault::Text);
    };
    match token {
        Token::String(text) => Ok(LineValue::Text(text)),
        Token::Number(text) => match number_of(text) {
            Some(number) => Ok(LineValue::Number(number)),
            None => Err(ReadFault::Text),
        },
        Token::Bool(truth) => Ok(LineValue::Bool(truth)),
        Token::Null => Ok(LineValue::Null),
        Token::BeginArray => Ok(LineValue::Array(read_array(alloc, reader, depth, long)?)),
        Token::BeginObject => Ok(LineValue::Object(read_object(alloc, reader, depth, long)?)),
        Token::EndObject | Token::EndArray | Token::Key(_) | Token::Bad => Err(ReadFault::Text),
    }
}

/// Reads the items of an array that was begun, and its end.
#[cycle(read_value)]
#[inline(never)]
fn read_array<'a>(
    alloc: Global,
    reader: &mut Reader<'a>,
    depth: usize,
    long: bool,
) -> Result<Vec<LineValue<'a>>, ReadFault>
    ensures ok { IfOk result
        (λ v. array_said depth reader.old ≡ Some (items_view v.items, reader.new)) }
    ensures fault { result ≡ Err ReadFault.Text → array_said depth reader.old ≡ None }
{
    if depth == 0 {
        return Err(ReadFault::Text);
    }
    let mut found = Vec::new(alloc);
    'items: while !reader.take_end_array() {
        let item = read_value(alloc, reader, depth - 1, long)?;
        found.push(item)?;
    }
    Ok(found)
}

/// Reads the members of an object that was begun, and its end; the last value of a key stays.
#[cycle(read_value)]
#[inline(never)]
fn read_object<'a>(
    alloc: Global,
    reader: &mut Reader<'a>,
    depth: usize,
    long: bool,
) -> Result<Vec<(&'a str, LineValue<'a>)>, ReadFault>
    ensures ok { IfOk result
        (λ m. object_said depth reader.old ≡ Some (members_view m.items, reader.new)) }
    ensures fault { result ≡ Err ReadFault.Text → object_said depth reader.old ≡ None }
{
    if long {
        return read_many(alloc, reader, depth);
    }
    if depth == 0 {
        return Err(ReadFault::Text);
    }
    let mut found = Vec::with_capacity(alloc, 4)?;
    'members: while let Some(key) = reader.next_key()? {
        let member = read_value(alloc, reader, depth - 1, false)?;
        put(&mut found, key, member)?;
    }
    Ok(found)
}

/// The same in a long text, whose object may have many members: a map takes them first.
#[cycle(read_value)]
#[inline(never)]
fn read_many<'a>(
    alloc: Global,
    reader: &mut Reader<'a>,
    depth: usize,
) -> Result<Vec<(&'a str, LineValue<'a>)>, ReadFault>
    ensures ok { IfOk result
        (λ m. object_said depth reader.old ≡ Some (members_view m.items, reader.new)) }
    ensures fault { result ≡ Err ReadFault.Text → object_said depth reader.old ≡ None }
{
    if depth == 0 {
        return Err(ReadFault::Text);
    }
    let mut found = BTreeMap::new(alloc);
    'members: while let Some(key) = reader.next_key()? {
        let member = read_value(alloc, reader, depth - 1, true)?;
        drop(found.insert(key, member)?);
    }
    let list = listed(alloc, found)?;
    Ok(list)
}

/// The members of a map, in the order of their keys.
fn listed<'a>(
    alloc: Global,
    members: BTreeMap<&'a str, LineValue<'a>>,
) -> Result<Vec<(&'a str, LineValue<'a>)>, ReadFault>
    ensures ok { IfOk result (λ m. members_view m.items ≡ members_view members.entry.entries) }
    ensures fault { result ≢ Err ReadFault.Text }
{
    let mut left = members;
    let mut list = Vec::with_capacity(alloc, left.len())?;
    'members: while let Some(member) = left.pop_first() {
        list.push(member)?;
    }
    Ok(list)
}
