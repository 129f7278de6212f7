ghost use Rattle.std.specs.Prelude.{◌≡◌, ◌<◌, ◌≤◌, ◌^◌, MatchOption, true};
ghost use Rattle.std.specs.List.{list_all};
ghost use Rattle.std.specs.Char.{is_ascii_digit};
ghost use Rattle.std.specs.Str.Parse.{digits_value};
ghost use Rattle.doc_types.specs.Tokens.{is_numeral, signed, number_of};

use crate::cuts::digit_run;

/// Whether digits are a numeral: some of them, and no leading zero but for `0` itself.
fn is_numeral(digits: &[u8]) -> bool
    ensures { result ≡ is_numeral digits.now }
{
    match digits {
        [] => false,
        [_] => true,
        [first, ..] => *first > b'0',
    }
}

/// The number of these digits, where it is at most 2^63.
fn magnitude(digits: &[u8]) -> Option<u64>
    requires digits { list_all is_ascii_digit digits.now ≡ true }
    ensures { MatchOption result (2 ^ 63 < digits_value 10 digits.now)
        (λ v. (v ≡ digits_value 10 digits.now) × (v ≤ 2 ^ 63)) }
{
    let mut value: u128 = 0;
    for digit in digits {
        value = 10 * value + u128::from(*digit - b'0');
        if value > 1 << 63 {
            return None;
        }
    }
    Some(value as u64)
}

/// A number with its sign, in the signed 64-bit range.
fn signed(negative: bool, value: u64) -> Option<i64>
    requires { value ≤ 2 ^ 63 }
    ensures { result ≡ signed negative value }
{
    if negative {
        if value == 1 << 63 {
            return Some(i64::MIN);
        }
        return Some(-(value as i64));
    }
    if value == 1 << 63 {
        return None;
    }
    Some(value as i64)
}

/// The number of a run of digits.
pub fn number_of(negative: bool, digits: &[u8]) -> Option<i64>
    requires digits { list_all is_ascii_digit digits.now ≡ true }
    ensures { result ≡ number_of negative digits.now }
{
    if !is_numeral(digits) {
        return None;
    }
    match magnitude(digits) {
        Some(value) => signed(negative, value),
        None => None,
    }
}
