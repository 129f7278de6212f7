ghost use Rattle.std.specs.Prelude.{◌≡◌, IfOk};

use crate::no_memory::NoMemory;
use std::alloc::Global;

/// A value that can be copied where there is memory.
pub trait TryCopy: Sized {
    /// An equal value.
    fn copy(&self, alloc: Global) -> Result<Self, NoMemory>
        ensures { IfOk result (λ copy. copy ≡ self.now) };
}

/// Copies of all items, in order.
pub fn copy_all<T: TryCopy + Drop>(alloc: Global, items: &[T]) -> Result<Vec<T>, NoMemory>
    ensures { IfOk result (λ copies. copies.items ≡ items.now) }
{
    let mut copies = Vec::with_capacity(alloc, items.len())?;
    for item in items {
        copies.push(item.copy(alloc)?)?;
    }
    Ok(copies)
}

impl TryCopy for i64 {
    fn copy(&self, _alloc: Global) -> Result<i64, NoMemory> {
        Ok(*self)
    }
}
