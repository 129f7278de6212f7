ghost use Rattle.std.specs.Prelude.{◌≡◌, true, false, option_map};
ghost use Rattle.serde_json.specs.Read.{number_of, number_from, float_of};
ghost use Rattle.serde_json.specs.View.{number_view};

use fast_float::Numeral;
use serde_json::Number;

/// The float that a numeral is nearest to, if one is.
fn float_of(negative: bool, numeral: &Numeral<'_>) -> Option<Number>
    ensures { option_map number_view result ≡ float_of negative numeral.now }
{
    Number::from_f64(numeral.to_float::<f64>(negative))
}

/// The number that a numeral without sign is.
fn from_zero(numeral: &Numeral<'_>) -> Option<Number>
    ensures { option_map number_view result ≡ number_from false numeral.now }
{
    match numeral.to_u64() {
        Some(number) => Some(Number::from(number)),
        None => float_of(false, numeral),
    }
}

/// The number that a numeral behind a minus is; `-0` is a float.
fn below_zero(numeral: &Numeral<'_>) -> Option<Number>
    ensures { option_map number_view result ≡ number_from true numeral.now }
{
    match numeral.to_i64(true) {
        Some(number) if number < 0 => Some(Number::from(number)),
        _ => float_of(true, numeral),
    }
}

/// The number that a number's text is; none where it is too large for a float.
pub fn number_of(text: &str) -> Option<Number>
    ensures { option_map number_view result ≡ number_of text.now }
{
    let bytes = text.as_bytes();
    let Some((first, behind)) = bytes.split_first() else {
        return from_zero(&Numeral::scan(bytes));
    };
    if *first == b'-' {
        below_zero(&Numeral::scan(behind))
    } else {
        from_zero(&Numeral::scan(bytes))
    }
}
