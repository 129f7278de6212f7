ghost use Rattle.std.specs.Prelude.{◌≡◌, ℕ, ◌+◌, ◌^◌, ◌<◌, ◌≤◌, List, [], ◌++◌, length, drop, take, IfOk, OnErr};
ghost use Rattle.std.specs.Io.KnownBytes.{Keeps};
ghost use Rattle.io_ends.specs.Causes.{HasRisen};
ghost use Rattle.io_ends.specs.Filling.{FindsFeed};
ghost use Rattle.io_ends.specs.Fetching.{Fetches};

use crate::ends::Source;
use crate::fetching::FetchError;
use crate::sizes::PIECE;
use memchr::memchr;
use std::alloc::Global;
use std::marker::Model;
use value_lists::NoMemory;

/// The bytes that were read and not yet given.
#[derive(Drop)]
pub struct Window {
    buffer: Vec<u8>,
    start: usize,
    passed: u64,
    /// What the last call of the source gave.
    piece: Vec<u8>,
}

impl Model for Window {
    ghost use Rattle.std.specs.Prelude.{◌≡◌, ◌≤◌, drop, vec_len};
    ghost use Rattle.io_ends.specs.Ahead.{Ahead};
    ghost use Rattle.io_ends.specs.declared.sizes.TheConstants.{PIECE};

    ghost Value = { Ahead };

    ghost view = { λ w. record { ahead = drop w.start w.buffer.items; passed = w.passed } };

    ghost invariant = { λ w. (w.start ≤ vec_len w.buffer) × (vec_len w.piece ≡ PIECE) };
}

/// Drops the first `count` bytes.
fn drop_front(buffer: &mut Vec<u8>, count: usize)
    requires { count ≤ length buffer.old.items }
    ensures { buffer.new.items ≡ drop count buffer.old.items }
{
    let len = buffer.len();
    buffer.copy_within(count.., 0);
    buffer.truncate(len - count);
}

impl Window {
    /// An empty window with room for `room` bytes.
    pub fn new(alloc: Global, room: usize) -> Result<Window, NoMemory>
        ensures { IfOk result (λ w. w ≡ record { ahead = []; passed = 0 }) }
    {
        Ok(Window {
            buffer: Vec::with_capacity(alloc, room)?,
            start: 0,
            passed: 0,
            piece: vec![in alloc; 0u8; PIECE]?,
        })
    }

    /// What lies ahead.
    pub fn ahead(&self) -> &[u8]
        ensures { result.now ≡ self.now.ahead }
    {
        &self.buffer[self.start..]
    }

    /// How many bytes of the current line were passed over.
    pub fn passed(&self) -> u64
        ensures value { result ≡ self.now.passed }
        ensures small { result < 2 ^ 64 }
    {
        self.passed
    }

    /// The place of the first line feed ahead, of which the first `from` bytes have none.
    pub fn feed_after(&self, from: usize) -> Option<usize>
        requires { from ≤ length self.now.ahead }
        ensures { FindsFeed self.now.ahead from result }
    {
        let (_, rest) = self.ahead().split_at(from);
        match memchr(b'\n', rest) {
            Some(at) => Some(from + at),
            None => None,
        }
    }

    /// Passes all over that lies ahead.
    pub fn pass_over(&mut self)
        requires { self.old.passed + length self.old.ahead < 2 ^ 64 }
        ensures { self.new ≡ record { ahead = []; passed = self.old.passed + length self.old.ahead } }
    {
        self.passed += (self.buffer.len() - self.start) as u64;
        self.start = self.buffer.len();
    }

    /// Takes the first `count` bytes away; the next line begins there.
    pub fn begin_after(&mut self, count: usize)
        requires { count ≤ length self.old.ahead }
        ensures { self.new ≡ record { ahead = drop count self.old.ahead; passed = 0 } }
    {
        self.start += count;
        self.passed = 0;
    }

    /// Reads one piece of the source behind what lies ahead, and answers how many bytes came.
    pub fn fetch<S: Source>(&mut self, source: &mut S) -> Result<usize, FetchError>
        ensures ok { IfOk result (λ n. Fetches self.old self.new (S.left source.old) (S.left source.new) n) }
        ensures gave { IfOk result (λ n. S.gave source.new ≡ n) }
        ensures err { OnErr result ((self.new ≡ self.old) × Keeps (S.left source.old) (S.left source.new)) }
        ensures count { S.faults source.old ≤ S.faults source.new }
        ensures fault { result ≡ Err FetchError.Fault
            → HasRisen S.last (S.faults source.old) (S.faults source.new) }
    {
        self.compact();
        self.buffer.reserve(self.piece.len())?;
        let count = source.read(&mut self.piece)?;
        match self.buffer.extend_from_slice(&self.piece[..count]) {
            Ok(()) => Ok(count),
            Err(_) => unreachable!(),
        }
    }

    /// Moves what lies ahead to the front of the buffer.
    fn compact(&mut self)
        ensures { self.new ≡ self.old }
    {
        if self.start > 0 {
            drop_front(&mut self.buffer, self.start);
            self.start = 0;
        }
    }
}
