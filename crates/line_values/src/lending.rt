ghost use Rattle.std.specs.Prelude.{◌≡◌, true, IfOk};
ghost use Rattle.serde_json.specs.View.{view as owned, items_view as items_owned, members_view as members_owned};
ghost use Rattle.line_values.specs.Order.{are_rising, keys_rise};
ghost use Rattle.line_values.specs.View.{view, items_view, members_view};

use crate::line_value::LineValue;
use serde_json::{Map, Value};
use std::alloc::{AllocError, Global};

/// The same value, with the texts of another that owns them.
#[cycle(lent)]
pub fn lent<'a>(alloc: Global, value: &'a Value) -> Result<LineValue<'a>, AllocError>
    ensures value { IfOk result (λ v. view v ≡ owned value.now) }
    ensures rising { IfOk result (λ v. keys_rise (view v) ≡ true) }
{
    match value {
        Value::Null => Ok(LineValue::Null),
        Value::Bool(truth) => Ok(LineValue::Bool(*truth)),
        Value::Number(number) => Ok(LineValue::Number(*number)),
        Value::String(text) => Ok(LineValue::Text(text.as_str())),
        Value::Array(items) => Ok(LineValue::Array(lent_items(alloc, items)?)),
        Value::Object(members) => Ok(LineValue::Object(lent_members(alloc, members)?)),
    }
}

#[cycle(lent)]
fn lent_items<'a>(alloc: Global, items: &'a Vec<Value>) -> Result<Vec<LineValue<'a>>, AllocError>
    ensures { IfOk result (λ v. items_view v.items ≡ items_owned items.now.items) }
{
    let mut list = Vec::with_capacity(alloc, items.len())?;
    for item in items {
        list.push(lent(alloc, item)?)?;
    }
    Ok(list)
}

#[cycle(lent)]
fn lent_members<'a>(
    alloc: Global,
    members: &'a Map<String, Value>,
) -> Result<Vec<(&'a str, LineValue<'a>)>, AllocError>
    ensures value { IfOk result (λ m. members_view m.items ≡ members_owned members.now.entries) }
    ensures rising { IfOk result (λ m. are_rising (members_view m.items) ≡ true) }
{
    let mut list = Vec::with_capacity(alloc, members.len())?;
    for (key, member) in members.iter() {
        list.push((key.as_str(), lent(alloc, member)?))?;
    }
    Ok(list)
}
