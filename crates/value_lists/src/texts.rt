ghost use Rattle.std.specs.Prelude.{◌≡◌};
ghost use Rattle.std.specs.String.{string_bytes};

use crate::copies::TryCopy;
use crate::no_memory::NoMemory;
use std::alloc::Global;
use std::marker::Model;

/// A text, seen by contracts as its bytes, which are UTF-8.
#[derive(Debug, Drop)]
pub struct TextValue {
    text: String,
}

impl Model for TextValue {
    ghost use Rattle.std.specs.Prelude.{List, ℕ};
    ghost use Rattle.std.specs.String.{string_bytes};

    ghost Value = { List ℕ };

    ghost view = { λ t. string_bytes t.text };
}

impl TextValue {
    /// The value of this text.
    pub fn of(text: String) -> TextValue
        ensures { result ≡ string_bytes text }
    {
        TextValue { text }
    }

    /// The text.
    pub fn text(&self) -> &str
        ensures { result.now ≡ self.now }
    {
        self.text.as_str()
    }
}

impl TryCopy for TextValue {
    fn copy(&self, alloc: Global) -> Result<Self, NoMemory> {
        Ok(TextValue {
            text: String::from_str(alloc, self.text.as_str())?,
        })
    }
}
