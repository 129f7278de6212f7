ghost use Rattle.std.specs.Prelude.{◌≡◌};

use crate::copies::{TryCopy, copy_all};
use crate::no_memory::NoMemory;
use std::alloc::Global;
use std::marker::Model;

/// A list of items, seen by contracts as just that.
#[derive(Debug, Drop)]
pub struct Listed<T: Drop> {
    items: Vec<T>,
}

impl<T: Drop> Model for Listed<T> {
    ghost use Rattle.std.specs.Prelude.{List};

    ghost Value = { List T };

    ghost view = { λ l. l.items.items };
}

impl<T: Drop> Listed<T> {
    /// The list of these items.
    pub fn of(items: Vec<T>) -> Self
        ensures { result ≡ items.items }
    {
        Listed { items }
    }

    /// The items, in order.
    pub fn items(&self) -> &[T]
        ensures { result.now ≡ self.now }
    {
        &self.items
    }
}

impl<T: TryCopy + Drop> TryCopy for Listed<T> {
    fn copy(&self, alloc: Global) -> Result<Self, NoMemory> {
        Ok(Listed {
            items: copy_all(alloc, &self.items)?,
        })
    }
}
