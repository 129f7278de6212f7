ghost use Rattle.std.specs.Prelude.{◌≡◌, ◌-◌, ◌≤◌, min, length, []};
ghost use Rattle.conditions.specs.Readings.{Answers};

use crate::reader::{Stop, TokenReader};
use doc_types::{Language, Schema, read_token, skip_blanks};
use std::alloc::Global;
use thiserror::Error;

/// Why a text is not read.
#[derive(Clone, Copy, Debug, PartialEq, Eq, Error)]
pub enum ReadFault {
    /// It is no text of the language.
    #[error("refused at {offset}")]
    Refused {
        /// How many bytes stand before the token that is refused.
        offset: u32,
    },
    #[error("out of memory")]
    NoMemory,
}

/// How many bytes of a text stand before its rest, at most the greatest number of 32 bits.
fn place_of(text: &str, rest: &str) -> u32
    requires { length rest.now ≤ length text.now }
    ensures { result ≡ min (length text.now - length rest.now) 4294967295 }
{
    let place = text.len() - rest.len();
    if place < 4294967295 {
        place as u32
    } else {
        4294967295
    }
}

/// What a text says, read from a reader that took no token yet.
pub fn read<R: TokenReader + Drop>(
    alloc: Global,
    language: Language,
    schema: &Schema,
    start: R,
    text: &str,
) -> Result<R::Value, ReadFault>
    requires { R.reached schema.now start [] }
    ensures { Answers language (R.language schema.now) text.now result }
{
    let mut reader = start;
    let mut rest = skip_blanks(text);
    'reading: while !rest.is_empty() {
        let read = match read_token(alloc, language, rest) {
            Ok(read) => read,
            Err(_) => return Err(ReadFault::NoMemory),
        };
        let Some((token, behind)) = read else {
            return Err(ReadFault::Refused {
                offset: place_of(text, rest),
            });
        };
        reader = match reader.take(alloc, schema, token) {
            Ok(next) => next,
            Err(Stop::Refused) => {
                return Err(ReadFault::Refused {
                    offset: place_of(text, rest),
                });
            }
            Err(Stop::NoMemory) => return Err(ReadFault::NoMemory),
        };
        rest = skip_blanks(behind);
    }
    match reader.value(alloc, schema) {
        Ok(value) => Ok(value),
        Err(Stop::Refused) => Err(ReadFault::Refused {
            offset: place_of(text, rest),
        }),
        Err(Stop::NoMemory) => Err(ReadFault::NoMemory),
    }
}
