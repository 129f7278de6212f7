ghost use Rattle.std.specs.Prelude.{◌≡◌, ◌<◌, ◌≤◌, ◌-◌, length, IfOk, IfSome};
ghost use Rattle.doc_types.specs.Tokens.{is_escaped, body_at};
ghost use Rattle.doc_types.specs.Bodies.{BodyIs, content_at};

use std::alloc::Global;
use value_lists::NoMemory;

/// Whether a backslash may stand before a byte.
fn is_escaped(byte: u8) -> bool
    ensures { result ≡ is_escaped byte }
{
    byte == b'\\' || byte == b'"' || byte == b'\''
}

/// Where the byte stands that is meant at a place: behind a backslash, where one may stand there.
fn content_at(bytes: &[u8], at: usize) -> Option<usize>
    requires { at < length bytes.now }
    ensures place { result ≡ content_at bytes.now at }
    ensures within { IfSome result (λ place. place < length bytes.now) }
{
    if bytes[at] != b'\\' {
        return Some(at);
    }
    if at + 1 == bytes.len() {
        return None;
    }
    if is_escaped(bytes[at + 1]) {
        Some(at + 1)
    } else {
        None
    }
}

/// The bytes of a text literal behind its first quote, and how many bytes with the closing quote there
/// are; none where it stays open or has a wrong backslash.
pub fn body_at(alloc: Global, quote: u8, bytes: &[u8]) -> Result<Option<(Vec<u8>, usize)>, NoMemory>
    ensures { IfOk result (BodyIs quote bytes.now) }
{
    let mut body = Vec::new(alloc);
    let mut at = 0;
    while at < bytes.len() {
        if bytes[at] == quote {
            return Ok(Some((body, at + 1)));
        }
        match content_at(bytes, at) {
            Some(place) => {
                body.push(bytes[place])?;
                at = place + 1;
            }
            None => return Ok(None),
        }
    }
    Ok(None)
}
