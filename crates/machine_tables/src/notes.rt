//! How a journal names what a body or a reply carries.

use crate::table::shown;
use crate::texts::halves;
use crate::words::{read_body, read_reply};
use messages::{Body, Reply};
use std::alloc::Global;
use std::fmt::Debug;
use value_lists::TryCopy;

/// A copy of what a journal notes.
fn told<T: Debug + Drop + TryCopy>(alloc: Global, noted: &T) -> Option<String> {
    match noted.copy(alloc) {
        Ok(copy) => shown(alloc, &copy),
        Err(_) => None,
    }
}

/// The noted form of a body.
fn body_told(alloc: Global, body: &Body) -> Option<String> {
    match body.noted(alloc) {
        Ok(noted) => told(alloc, &noted),
        Err(_) => None,
    }
}

/// The same of a copy of a body.
fn noted_body(alloc: Global, verb: &str, rest: &str) -> Option<String> {
    let body = read_body(alloc, verb, rest)?;
    match body.copy(alloc) {
        Ok(copy) => body_told(alloc, &copy),
        Err(_) => None,
    }
}

/// The noted form of a reply.
fn reply_told(alloc: Global, reply: &Reply) -> Option<String> {
    match reply.noted(alloc) {
        Ok(noted) => told(alloc, &noted),
        Err(_) => None,
    }
}

/// The same of a copy of a reply.
fn noted_reply(alloc: Global, words: &str) -> Option<String> {
    let (verb, rest) = halves(words);
    let reply = read_reply(alloc, verb, rest)?;
    match reply.copy(alloc) {
        Ok(copy) => reply_told(alloc, &copy),
        Err(_) => None,
    }
}

/// What a body carries, or behind `reply` a reply.
pub fn say(alloc: Global, verb: &str, rest: &str) -> Option<String> {
    if verb == "reply" {
        return noted_reply(alloc, rest);
    }
    noted_body(alloc, verb, rest)
}
