ghost use Rattle.std.specs.Prelude.{◌≡◌, ◌↔◌, ◌⊎◌, ◌+◌, ◌<◌, ◌≤◌, List, ℕ, [], true, false, Some, None, IsErr, OnErr, IsTrue, Contains};
ghost use Rattle.std.specs.Io.{ReadsAtMost, WritesAtMost};
ghost use Rattle.std.specs.Io.KnownBytes.{ReadConsumes, WriteAppends};
ghost use Rattle.io_ends.specs.Causes.{HasRisen, TakesSome, given_by};
ghost use Rattle.io_ends.specs.Memory.{MemorySourceView, MemorySinkView, IsToFail, last_count, one_more};

use crate::ends::{Failed, Sink, Source};
use std::alloc::Global;
use std::marker::Model;

/// Whether the call of this number was told to fail.
fn is_told(failing: &[u64], call: u64) -> bool
    ensures { IsTrue result ↔ IsToFail failing.now call }
{
    call < u64::MAX && failing.contains(&call)
}

/// A source over bytes in memory, some of whose calls fail.
#[derive(Drop)]
pub struct MemorySource {
    bytes: Vec<u8>,
    at: usize,
    failing: Vec<u64>,
    calls: u64,
    faults: u64,
    gave: usize,
}

impl Model for MemorySource {
    ghost use Rattle.std.specs.Prelude.{◌≤◌, drop, vec_len};
    ghost use Rattle.io_ends.specs.Memory.{MemorySourceView};

    ghost Value = { MemorySourceView };

    ghost view = { λ s. record {
      left = drop s.at s.bytes.items;
      failing = s.failing.items;
      calls = s.calls;
      faults = s.faults;
      gave = s.gave;
    } };

    ghost invariant = { λ s. (s.at ≤ vec_len s.bytes) × (s.faults ≤ s.calls) };
}

impl MemorySource {
    /// A source of these bytes whose calls of these numbers, from 0, fail.
    pub fn new(bytes: Vec<u8>, failing: Vec<u64>) -> MemorySource
        ensures { result ≡ record { left = bytes.items; failing = failing.items; calls = 0; faults = 0; gave = 0 } }
    {
        MemorySource {
            bytes,
            at: 0,
            failing,
            calls: 0,
            faults: 0,
            gave: 0,
        }
    }
}

/// A call fails exactly where it was told to, and the count of faults rises by one then.
impl Source for MemorySource {
    ghost left = { λ s. Some s.left };

    ghost faults = { λ s. s.faults };

    ghost last = { None };

    ghost gave = { λ s. s.gave };

    fn read(&mut self, into: &mut [u8]) -> Result<usize, Failed>
        ensures bound { ReadsAtMost result into.new }
        ensures bytes { ReadConsumes (Some self.old.left) (Some self.new.left) result into.new }
        ensures gave { self.new.gave ≡ given_by result }
        ensures count { self.old.faults ≤ self.new.faults }
        ensures fault { OnErr result (HasRisen None self.old.faults self.new.faults) }
        ensures fails { IsErr result ↔ IsToFail self.old.failing self.old.calls }
        ensures calls { self.new.calls ≡ one_more self.old.calls }
        ensures failing { self.new.failing ≡ self.old.failing }
    {
        let number = self.calls;
        self.calls = number.saturating_add(1);
        self.gave = 0;
        if is_told(&self.failing, number) {
            self.faults += 1;
            return Err(Failed);
        }
        let (_, left) = self.bytes.split_at(self.at);
        let count = into.len().min(left.len());
        let (next, _) = left.split_at(count);
        let (front, _) = into.split_at_mut(count);
        front.copy_from_slice(next);
        self.at += count;
        self.gave = count;
        Ok(count)
    }
}

/// A sink into memory, some of whose calls fail.
#[derive(Drop)]
pub struct MemorySink {
    bytes: Vec<u8>,
    failing: Vec<u64>,
    calls: u64,
    faults: u64,
    wants: bool,
}

impl Model for MemorySink {
    ghost use Rattle.std.specs.Prelude.{◌≤◌};
    ghost use Rattle.io_ends.specs.Memory.{MemorySinkView};

    ghost Value = { MemorySinkView };

    ghost view = { λ s. record {
      written = s.bytes.items;
      failing = s.failing.items;
      calls = s.calls;
      faults = s.faults;
      wants = s.wants;
    } };

    ghost invariant = { λ s. s.faults ≤ s.calls };
}

impl MemorySink {
    /// An empty sink whose calls of these numbers, from 0, fail; so does a call that wants memory.
    /// TakesSome no memory.
    pub fn new(alloc: Global, failing: Vec<u64>) -> MemorySink
        ensures { result
            ≡ record { written = []; failing = failing.items; calls = 0; faults = 0; wants = false } }
    {
        MemorySink {
            bytes: Vec::new(alloc),
            failing,
            calls: 0,
            faults: 0,
            wants: false,
        }
    }

    /// What was written.
    pub fn bytes(&self) -> &[u8]
        ensures { result.now ≡ self.now.written }
    {
        &self.bytes
    }

    /// Whether the last call failed since it wanted memory.
    pub fn wants(&self) -> bool
        ensures { result ≡ self.now.wants }
    {
        self.wants
    }
}

/// A call fails exactly where it was told to, or where it wants memory; the count of faults rises by
/// one then. Only after 2^64 - 1 calls may it stand, where memory wants on.
impl Sink for MemorySink {
    ghost written = { λ s. Some s.written };

    ghost faults = { λ s. s.faults };

    ghost last = { Some last_count };

    fn write(&mut self, from: &[u8]) -> Result<usize, Failed>
        ensures bound { WritesAtMost result from.now }
        ensures some { TakesSome from.now result }
        ensures bytes { WriteAppends (Some self.old.written) (Some self.new.written) result from.now }
        ensures count { self.old.faults ≤ self.new.faults }
        ensures fault { OnErr result (HasRisen (Some last_count) self.old.faults self.new.faults) }
        ensures fails { IsErr result ↔ (IsToFail self.old.failing self.old.calls ⊎ (self.new.wants ≡ true)) }
        ensures rises { self.old.calls < last_count → OnErr result (self.new.faults ≡ self.old.faults + 1) }
        ensures calls { self.new.calls ≡ one_more self.old.calls }
        ensures failing { self.new.failing ≡ self.old.failing }
    {
        let number = self.calls;
        self.calls = number.saturating_add(1);
        self.wants = false;
        if is_told(&self.failing, number) {
            self.faults += 1;
            return Err(Failed);
        }
        match self.bytes.extend_from_slice(from) {
            Ok(()) => Ok(from.len()),
            Err(_) => {
                self.wants = true;
                self.faults = self.faults.saturating_add(1);
                Err(Failed)
            }
        }
    }
}
