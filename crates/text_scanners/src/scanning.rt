ghost use Rattle.std.specs.Prelude.{◌≡◌, List, [], IfOk, IfErr};
ghost use Rattle.text_scanners.specs.Refusals.{Begins, IsRefusedAt};

use crate::scanner::Scanner;
use thiserror::Error;

/// No text begins with one letter more than these.
#[derive(Clone, Copy, Debug, PartialEq, Eq, Error)]
#[error("refused at {offset}")]
pub struct Refused {
    /// How many letters the longest prefix has that can still become a text.
    pub offset: usize,
}

/// What the letters say, or where they stop to be the beginning of a text.
pub fn scan<S: Scanner + Drop>(start: S, letters: &[S::Letter]) -> Result<S::Value, Refused>
    requires reached { S.reached start [] }
    requires some { Begins S.language [] }
    ensures read { IfOk result (λ value. S.language letters.now value) }
    ensures refused { IfErr result (λ refused. IsRefusedAt S.language letters.now refused.offset) }
{
    let mut state = start;
    let mut offset = 0;
    while offset < letters.len() {
        match state.step(letters[offset]) {
            Some(next) => state = next,
            None => return Err(Refused { offset }),
        }
        offset += 1;
    }
    state.value().ok_or(Refused { offset })
}
