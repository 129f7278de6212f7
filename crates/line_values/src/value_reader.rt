ghost use Rattle.std.specs.Prelude.{◌≡◌, Some, None, Err, IfOk};
ghost use Rattle.serde_json.specs.Read.{read as read_text};
ghost use Rattle.line_values.specs.Order.{HasRising};
ghost use Rattle.line_values.specs.View.{view};

use crate::line_value::LineValue;
use crate::read_fault::ReadFault;
use crate::tokens::read_value;
use json::{Reader, Scratch};
use std::alloc::Global;

/// How many arrays and objects may nest.
const MOST_NESTED: usize = 127;

/// In a text of more bytes an object's members are put into a map first, since there may be many.
const LONG: usize = 1_024;

/// Reads texts into values. Its working memory, 16 KB and the length of the longest text, is made once.
#[derive(Drop)]
pub struct ValueReader {
    scratch: Scratch,
}

impl ValueReader {
    pub fn new(alloc: Global) -> ValueReader {
        ValueReader {
            scratch: Scratch::new(alloc),
        }
    }

    /// The value that a text is, which borrows from it; of a key that comes twice in an object, the last value.
    pub fn read<'a>(&'a mut self, alloc: Global, text: &'a str) -> Result<LineValue<'a>, ReadFault>
        ensures ok { IfOk result (λ v. read_text text.now ≡ Some (view v)) }
        ensures rising { IfOk result (λ v. HasRising (view v)) }
        ensures fault { result ≡ Err ReadFault.Text → read_text text.now ≡ None }
    {
        let mut reader = Reader::new(text, &mut self.scratch)?;
        let value = read_value(alloc, &mut reader, MOST_NESTED, text.len() > LONG)?;
        match reader.next() {
            Some(_) => Err(ReadFault::Text),
            None => Ok(value),
        }
    }
}
