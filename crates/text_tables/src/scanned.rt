//! A scanner at one type: texts of at most three letters, which say how many those are.

ghost use Rattle.std.specs.Prelude.{◌≡◌, ℕ, ◌≤◌, List, length};

use crate::texts::shown;
use std::alloc::Global;
use text_scanners::{Scanner, scan};

/// How many letters were read.
#[derive(Clone, Copy)]
struct Few {
    count: u8,
}

impl Scanner for Few {
    type Letter = u8;

    type Value = u8;

    ghost language = { λ letters value. (length letters ≡ value) × (length letters ≤ 3) };

    ghost reached = { λ s letters. (length letters ≡ s.count) × (s.count ≤ 3) };

    fn step(self, _letter: u8) -> Option<Few> {
        if self.count < 3 {
            Some(Few {
                count: self.count + 1,
            })
        } else {
            None
        }
    }

    fn value(self) -> Option<u8> {
        if self.count <= 3 {
            Some(self.count)
        } else {
            None
        }
    }
}

/// What letters say, or where no text goes on.
pub fn scanned(alloc: Global, letters: &str) -> Option<String> {
    shown(alloc, &scan(Few { count: 0 }, letters.as_bytes()))
}
