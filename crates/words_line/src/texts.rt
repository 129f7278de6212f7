ghost use Rattle.std.specs.Prelude.{◌≡◌, IfOk};

use std::alloc::Global;
use value_lists::{NoMemory, TextValue};

/// A text of its own with these characters.
pub fn text_value(alloc: Global, text: &str) -> Result<TextValue, NoMemory>
    ensures { IfOk result (λ value. value ≡ text.now) }
{
    Ok(TextValue::of(String::from_str(alloc, text)?))
}
