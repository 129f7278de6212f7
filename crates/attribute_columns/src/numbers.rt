ghost use Rattle.std.specs.Prelude.{◌≡◌, ◌&&◌, ℤ, not, IfOk};
ghost use Rattle.std.specs.Ordering.{int_cmp};
ghost use Rattle.std.specs.BTreeSet.{contains};
ghost use Rattle.attribute_columns.specs.Columns.{numbers_of, has_number};

use doc_types::FieldValue;
use std::alloc::Global;
use std::collections::BTreeSet;
use std::slice;
use value_lists::NoMemory;

/// The numbers of a value: itself or its items.
pub fn numbers_of(value: &FieldValue) -> &[i64]
    ensures { result.now ≡ numbers_of value.now }
{
    match value {
        FieldValue::Int(number) => slice::from_ref(number),
        FieldValue::Ints(numbers) => numbers.items(),
        FieldValue::Text(_) => &[],
        FieldValue::Texts(_) => &[],
    }
}

/// The set of numbers.
fn set_of(alloc: Global, numbers: &[i64]) -> Result<BTreeSet<i64>, NoMemory>
    ensures { IfOk result (λ set. (q : ℤ) → contains int_cmp set q ≡ has_number q numbers.now) }
{
    let mut set = BTreeSet::new(alloc);
    for number in numbers {
        set.insert(*number)?;
    }
    Ok(set)
}

/// The numbers that aren't among others.
pub fn lacking(alloc: Global, numbers: &[i64], others: &[i64]) -> Result<Vec<i64>, NoMemory>
    ensures { IfOk result (λ list. (q : ℤ) → has_number q list.items
        ≡ (has_number q numbers.now && not (has_number q others.now))) }
{
    let set = set_of(alloc, others)?;
    let mut list = Vec::new(alloc);
    for number in numbers {
        if !set.contains(number) {
            list.push(*number)?;
        }
    }
    Ok(list)
}
