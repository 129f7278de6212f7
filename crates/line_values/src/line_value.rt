ghost use Rattle.std.specs.Prelude.{◌≡◌, ◌≢◌, Err, option_map, option_and_then, is_some, OnOk};
ghost use Rattle.serde_json.specs.Data.{put};
ghost use Rattle.serde_json.specs.Find.{as_str, as_bool, as_null, as_number, as_i64, as_array, as_object, get, get_member};
ghost use Rattle.line_values.specs.View.{view, items_view, members_view};

use crate::read_fault::ReadFault;
use serde_json::Number;
use std::cmp::Ordering;

/// A JSON value whose texts are borrowed. The members of an object that was read stand in the order of their
/// keys, each once.
#[derive(Drop)]
pub enum LineValue<'a> {
    Null,
    Bool(bool),
    Number(Number),
    Text(&'a str),
    Array(Vec<LineValue<'a>>),
    Object(Vec<(&'a str, LineValue<'a>)>),
}

/// What members have under a key.
fn member<'v, 'a>(members: &'v [(&'a str, LineValue<'a>)], key: &str) -> Option<&'v LineValue<'a>>
    ensures { option_map (λ v. view v.now) result ≡ get_member key.now (members_view members.now) }
{
    for entry in members {
        if entry.0 == key {
            return Some(&entry.1);
        }
    }
    None
}

impl<'a> LineValue<'a> {
    /// What an object has under a key.
    pub fn get(&self, key: &str) -> Option<&LineValue<'a>>
        ensures { option_map (λ v. view v.now) result ≡ get key.now (view self.now) }
    {
        match self {
            LineValue::Object(members) => member(members, key),
            _ => None,
        }
    }

    /// The members of the object that it is.
    pub fn as_object(&self) -> Option<&[(&'a str, LineValue<'a>)]>
        ensures { option_map (λ m. members_view m.now) result ≡ as_object (view self.now) }
    {
        if let LineValue::Object(members) = self {
            Some(members.as_slice())
        } else {
            None
        }
    }

    /// Whether it is an object.
    pub fn is_object(&self) -> bool
        ensures { result ≡ is_some (as_object (view self.now)) }
    {
        self.as_object().is_some()
    }

    /// The items of the array that it is.
    pub fn as_array(&self) -> Option<&[LineValue<'a>]>
        ensures { option_map (λ v. items_view v.now) result ≡ as_array (view self.now) }
    {
        if let LineValue::Array(items) = self {
            Some(items.as_slice())
        } else {
            None
        }
    }

    /// The text that it is.
    pub fn as_str(&self) -> Option<&'a str>
        ensures { option_map (λ s. s.now) result ≡ as_str (view self.now) }
    {
        if let LineValue::Text(text) = self {
            Some(text)
        } else {
            None
        }
    }

    /// Whether it is null.
    pub fn is_null(&self) -> bool
        ensures { result ≡ is_some (as_null (view self.now)) }
    {
        matches!(self, LineValue::Null)
    }

    /// The truth value that it is.
    pub fn as_bool(&self) -> Option<bool>
        ensures { result ≡ as_bool (view self.now) }
    {
        if let LineValue::Bool(truth) = self {
            Some(*truth)
        } else {
            None
        }
    }

    /// The whole number of 64 bits with its sign that it is.
    pub fn as_i64(&self) -> Option<i64>
        ensures { result ≡ option_and_then as_i64 (as_number (view self.now)) }
    {
        if let LineValue::Number(number) = self {
            number.as_i64()
        } else {
            None
        }
    }
}

/// Puts a value at a key among members in the order of their keys; of a key that is there already the new value
/// stays.
pub fn put<'a>(
    members: &mut Vec<(&'a str, LineValue<'a>)>,
    key: &'a str,
    value: LineValue<'a>,
) -> Result<(), ReadFault>
    ensures ok { OnOk result (members_view members.new.items ≡ put key.now (view value.entry) (members_view members.old.items)) }
    ensures fault { result ≢ Err ReadFault.Text }
{
    let mut at = 0;
    'places: while at < members.len() {
        let name = members[at].0;
        match key.cmp(name) {
            Ordering::Less => {
                members.insert(at, (key, value))?;
                return Ok(());
            }
            Ordering::Equal => {
                members[at].1 = value;
                return Ok(());
            }
            Ordering::Greater => at += 1,
        }
    }
    members.push((key, value))?;
    Ok(())
}
