//! What one output is with a number more.

ghost use Rattle.std.specs.Prelude.{◌≡◌, ◌+◌, ◌+ℤ◌, ℕ, [], Some, IfSome};
ghost use Rattle.std.specs.Int.{int_min, int_max};
ghost use Rattle.group_counts.specs.Numbers.{either};
ghost use Rattle.std.specs.Option.{option_copied};
ghost use Rattle.group_counts.specs.Keyed.{number_of, output_over};
ghost use Rattle.group_counts.specs.Tallies.{plus, with_number, IsSmall, IsWide};
ghost use Rattle.group_counts.specs.Figures.{with_figure};

use doc_types::{FieldValue, OutputKind};

/// The number of a value, if it is one.
pub fn number_of(value: Option<&FieldValue>) -> Option<i64>
    ensures value { result ≡ number_of (option_copied value.entry) }
    ensures wide { IfSome result IsWide }
{
    match value {
        Some(FieldValue::Int(number)) => Some(*number),
        _ => None,
    }
}

/// A sum and a number.
fn plus(sum: i128, number: i64) -> i128
    requires { IsSmall 9223372036854775807 (Some sum) }
    ensures { result ≡ sum +ℤ number }
{
    sum + i128::from(number)
}

/// A sum with a number more, where there is one.
fn summed(value: Option<i128>, number: Option<i64>) -> Option<i128>
    requires { IsSmall 9223372036854775807 value }
    ensures { result ≡ with_number plus value number }
{
    match (value, number) {
        (Some(sum), Some(number)) => Some(plus(sum, number)),
        _ => value,
    }
}

/// The least number with one more, where there is one.
fn lowered(value: Option<i128>, number: Option<i64>) -> Option<i128>
    ensures { result ≡ with_number (either int_min) value number }
{
    match (value, number) {
        (Some(least), Some(number)) => Some(least.min(i128::from(number))),
        (None, Some(number)) => Some(i128::from(number)),
        _ => value,
    }
}

/// The greatest number with one more, where there is one.
fn raised(value: Option<i128>, number: Option<i64>) -> Option<i128>
    ensures { result ≡ with_number (either int_max) value number }
{
    match (value, number) {
        (Some(greatest), Some(number)) => Some(greatest.max(i128::from(number))),
        (None, Some(number)) => Some(i128::from(number)),
        _ => value,
    }
}

/// An output with a number more, where there is one.
pub fn next_value(kind: &OutputKind, value: Option<i128>, number: Option<i64>) -> Option<i128>
    requires small { IsSmall 9223372036854775807 value }
    requires wide { IfSome number IsWide }
    ensures value { result ≡ with_figure kind.now value number }
    ensures small { (n : ℕ) → IsSmall n value → IsSmall (n + 1) result }
{
    match kind {
        OutputKind::Count => summed(value, number),
        OutputKind::Sum(_) => summed(value, number),
        OutputKind::Min(_) => lowered(value, number),
        OutputKind::Max(_) => raised(value, number),
    }
}

/// An output of no documents.
pub fn first_value(kind: &OutputKind) -> Option<i128>
    ensures value { result ≡ output_over [] kind.now }
    ensures small { IsSmall 0 result }
{
    match kind {
        OutputKind::Count | OutputKind::Sum(_) => Some(0),
        OutputKind::Min(_) | OutputKind::Max(_) => None,
    }
}
