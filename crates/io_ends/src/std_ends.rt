ghost use Rattle.std.specs.Prelude.{◌≡◌, ◌≤◌, Some, None, OnErr};
ghost use Rattle.io_ends.specs.Causes.{HasRisen};
ghost use Rattle.io_ends.specs.Memory.{last_count};

use crate::ends::{Failed, Sink, Source};
use std::io::{Read, Write};

/// A source over a reader of std's; the trusted edge of the program.
#[derive(Drop)]
pub struct StdSource<R: Read + Drop> {
    reader: R,
    faults: u64,
    gave: usize,
}

impl<R: Read + Drop> StdSource<R> {
    /// The source with no fault so far.
    pub fn new(reader: R) -> StdSource<R>
        ensures reader { result.reader ≡ reader }
        ensures faults { result.faults ≡ 0 }
        ensures gave { result.gave ≡ 0 }
    {
        StdSource {
            reader,
            faults: 0,
            gave: 0,
        }
    }

    /// Counts a fault, which gave nothing; at its last value the count stands.
    fn failed(&mut self) -> Failed
        ensures reader { self.new.reader ≡ self.old.reader }
        ensures gave { self.new.gave ≡ 0 }
        ensures fault { HasRisen (Some last_count) self.old.faults self.new.faults }
    {
        self.faults = self.faults.saturating_add(1);
        self.gave = 0;
        Failed
    }
}

impl<R: Read + Drop> Source for StdSource<R> {
    ghost left = { λ s. R.Read.remaining s.reader };

    ghost faults = { λ s. s.faults };

    ghost last = { Some last_count };

    ghost gave = { λ s. s.gave };

    fn read(&mut self, into: &mut [u8]) -> Result<usize, Failed> {
        match self.reader.read(into) {
            Ok(count) => {
                self.gave = count;
                Ok(count)
            }
            Err(_) => Err(self.failed()),
        }
    }
}

/// A sink over a writer of std's; the trusted edge of the program.
#[derive(Drop)]
pub struct StdSink<W: Write + Drop> {
    writer: W,
    faults: u64,
}

impl<W: Write + Drop> StdSink<W> {
    /// The sink with no fault so far.
    pub fn new(writer: W) -> StdSink<W>
        ensures writer { result.writer ≡ writer }
        ensures faults { result.faults ≡ 0 }
    {
        StdSink { writer, faults: 0 }
    }

    /// Counts a fault; at its last value the count stands.
    fn failed(&mut self) -> Failed
        ensures writer { self.new.writer ≡ self.old.writer }
        ensures fault { HasRisen (Some last_count) self.old.faults self.new.faults }
    {
        self.faults = self.faults.saturating_add(1);
        Failed
    }
}

impl<W: Write + Drop> Sink for StdSink<W> {
    ghost written = { λ s. W.Write.contents s.writer };

    ghost faults = { λ s. s.faults };

    ghost last = { Some last_count };

    fn write(&mut self, from: &[u8]) -> Result<usize, Failed> {
        match self.writer.write(from) {
            Ok(count) if count > 0 || from.is_empty() => Ok(count),
            _ => Err(self.failed()),
        }
    }
}
