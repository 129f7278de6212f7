ghost use Rattle.std.specs.Prelude.{◌≡◌, ◌≢◌, ◌+ℤ◌, ◌-ℤ◌, ◌*ℤ◌, ◌++◌, Ok, Err, IfOk, IfErr, option_map};
ghost use Rattle.doc_updates.specs.Effects.{number_in, numbers_in, texts_in, fitted, quotient, with_items, changed};
ghost use Rattle.doc_updates.specs.declared.fault.Reason.TheVariants as reason;

use crate::change::Change;
use crate::fault::Reason;
use doc_types::{FieldValue, IntList, TextList};
use documents::document::MOST_ITEMS;
use std::alloc::Global;
use value_lists::{NoMemory, TextValue, TryCopy, copy_all};

/// The number of a field, 0 where it has none.
fn number_in(old: Option<&FieldValue>) -> i64
    ensures { result ≡ number_in (option_map (λ v. v.now) old.entry) }
{
    match old {
        Some(FieldValue::Int(number)) => *number,
        _ => 0,
    }
}

/// The numbers of a field's list, none where it has none.
fn numbers_in(old: Option<&FieldValue>) -> &[i64]
    ensures { result.now ≡ numbers_in (option_map (λ v. v.now) old.entry) }
{
    match old {
        Some(FieldValue::Ints(numbers)) => numbers.items(),
        _ => &[],
    }
}

/// The texts of a field's list, none where it has none.
fn texts_in(old: Option<&FieldValue>) -> &[TextValue]
    ensures { result.now ≡ texts_in (option_map (λ v. v.now) old.entry) }
{
    match old {
        Some(FieldValue::Texts(texts)) => texts.items(),
        _ => &[],
    }
}

fn sum(one: i64, two: i64) -> Result<i64, Reason>
    ensures { result ≡ fitted (one +ℤ two) }
{
    match one.checked_add(two) {
        Some(number) => Ok(number),
        None => Err(Reason::Overflow),
    }
}

fn difference(one: i64, two: i64) -> Result<i64, Reason>
    ensures { result ≡ fitted (one -ℤ two) }
{
    match one.checked_sub(two) {
        Some(number) => Ok(number),
        None => Err(Reason::Overflow),
    }
}

fn product(one: i64, two: i64) -> Result<i64, Reason>
    ensures { result ≡ fitted (one *ℤ two) }
{
    match one.checked_mul(two) {
        Some(number) => Ok(number),
        None => Err(Reason::Overflow),
    }
}

/// A quotient, rounded toward zero.
fn quotient(one: i64, two: i64) -> Result<i64, Reason>
    ensures { result ≡ quotient one two }
{
    if two == 0 {
        return Err(Reason::ZeroDivisor);
    }
    match one.checked_div(two) {
        Some(number) => Ok(number),
        None => Err(Reason::Overflow),
    }
}

/// Copies of some items and of others behind them.
fn joined<T: TryCopy + Drop>(alloc: Global, front: &[T], back: &[T]) -> Result<Vec<T>, NoMemory>
    ensures { IfOk result (λ list. list.items ≡ front.now ++ back.now) }
{
    let mut list = copy_all(alloc, front)?;
    let mut rest = copy_all(alloc, back)?;
    list.append(&mut rest)?;
    Ok(list)
}

/// A list with items behind it, if there aren't too many.
fn with_items<T: TryCopy + Drop>(alloc: Global, old: &[T], items: &[T]) -> Result<Vec<T>, Reason>
    ensures read { IfOk result (λ list. with_items old.now items.now ≡ Ok list.items) }
    ensures refused { IfErr result (λ why. (why ≢ reason.NoMemory) → with_items old.now items.now ≡ Err why) }
{
    if old.len().saturating_add(items.len()) > MOST_ITEMS {
        return Err(Reason::TooMany);
    }
    Ok(joined(alloc, old, items)?)
}

/// What a change makes of a field's value.
pub fn changed(
    alloc: Global,
    change: &Change,
    old: Option<&FieldValue>,
) -> Result<Option<FieldValue>, Reason>
    ensures read { IfOk result (λ found. changed change.now (option_map (λ v. v.now) old.entry) ≡ Ok found) }
    ensures refused { IfErr result (λ why. (why ≢ reason.NoMemory)
        → changed change.now (option_map (λ v. v.now) old.entry) ≡ Err why) }
{
    match change {
        Change::Assign { value } => Ok(Some(value.copy(alloc)?)),
        Change::Clear => Ok(None),
        Change::Increment { by } => Ok(Some(FieldValue::Int(sum(number_in(old), *by)?))),
        Change::Decrement { by } => Ok(Some(FieldValue::Int(difference(number_in(old), *by)?))),
        Change::Multiply { by } => Ok(Some(FieldValue::Int(product(number_in(old), *by)?))),
        Change::Divide { by } => Ok(Some(FieldValue::Int(quotient(number_in(old), *by)?))),
        Change::AddNumbers { items } => Ok(Some(FieldValue::Ints(IntList::of(with_items(
            alloc,
            numbers_in(old),
            items.items(),
        )?)))),
        Change::AddTexts { items } => Ok(Some(FieldValue::Texts(TextList::of(with_items(
            alloc,
            texts_in(old),
            items.items(),
        )?)))),
    }
}
