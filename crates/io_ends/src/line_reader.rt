ghost use Rattle.std.specs.Prelude.{◌≡◌, ℕ, ◌+◌, ◌<◌, ◌≤◌, List, [], length, IfOk};
ghost use Rattle.io_ends.specs.Causes.{HasRisen};
ghost use Rattle.io_ends.specs.Lines.{NoLineFeed};
ghost use Rattle.io_ends.specs.Filling.{Gives, GivesLast, after_line};
ghost use Rattle.io_ends.specs.Reading.{IsNearEnd, Reading, StandsIn, Counts, Tells, Stays, IsLittle, HoldsLittle, EndsLast};

use crate::ends::Source;
use crate::fetching::FetchError;
use crate::filling::{LineEnd, find_end};
use crate::next::{LimitKind, Next};
use crate::sizes::{LONGEST, PIECE};
use crate::window::Window;
use std::alloc::Global;
use std::marker::Model;
use value_lists::NoMemory;

/// Reads the lines of a source one after the other.
#[derive(Drop)]
pub struct LineReader {
    window: Window,
    lines: u32,
    given: u64,
    max_lines: u32,
    max_bytes: u64,
}

impl Model for LineReader {
    ghost use Rattle.io_ends.specs.Reading.{Reading};
    ghost use Rattle.io_ends.specs.ReaderState.{IsReader};

    ghost Value = { Reading };

    ghost view = { λ r. record {
      ahead = r.window.ahead;
      passed = r.window.passed;
      lines = r.lines;
      given = r.given;
      max_lines = r.max_lines;
      max_bytes = r.max_bytes;
    } };

    ghost invariant = { λ r. IsReader r.window r.lines r.given r.max_lines r.max_bytes };
}

impl LineReader {
    /// A reader that has given no line, of at most `max_lines` lines and `max_bytes` bytes, where a
    /// line feed counts as a byte of its line. It takes its buffer.
    pub fn new(alloc: Global, max_bytes: u64, max_lines: u32) -> Result<LineReader, NoMemory>
        ensures { IfOk result
            (λ r. r ≡ record {
              ahead = [];
              passed = 0;
              lines = 0;
              given = 0;
              max_lines = max_lines;
              max_bytes = max_bytes;
            }) }
    {
        Ok(LineReader {
            window: Window::new(alloc, LONGEST + 2 * PIECE)?,
            lines: 0,
            given: 0,
            max_lines,
            max_bytes,
        })
    }

    /// The next line, in `into`, or why there is none. A limit comes before the answer of the line
    /// that passes it, the one on lines first. After a fault what lies ahead is no whole line. For a
    /// line the source is read to the piece in which the line ends, and no further: what was read behind
    /// the line came with the call that gave its last byte.
    pub fn next<S: Source>(&mut self, source: &mut S, into: &mut Vec<u8>) -> Next
        ensures counts { Counts self.old self.new result }
        ensures told { (text : List ℕ) → StandsIn text self.old (S.left source.old)
            → Tells text self.old result into.new.items }
        ensures stands { (text : List ℕ) → StandsIn text self.old (S.left source.old)
            → StandsIn text self.new (S.left source.new) }
        ensures count { S.faults source.old ≤ S.faults source.new }
        ensures fault { result ≡ Next.ReadFault → HasRisen S.last (S.faults source.old) (S.faults source.new) }
        ensures unended { result ≡ Next.ReadFault → NoLineFeed self.new.ahead }
        ensures near { HoldsLittle self.new result }
        ensures last { IsNearEnd (S.gave source.old) self.old.ahead → IsNearEnd (S.gave source.new) self.new.ahead }
        ensures ends { (text : List ℕ) → StandsIn text self.old (S.left source.old)
            → IsNearEnd (S.gave source.old) self.old.ahead → EndsLast (S.gave source.new) text self.old self.new result }
    {
        if self.lines == self.max_lines {
            return self.past_the_last(source);
        }
        self.next_line(source, into)
    }

    /// The answer where no further line may be given.
    fn past_the_last<S: Source>(&mut self, source: &mut S) -> Next
        requires { self.old.lines ≡ self.old.max_lines }
        ensures counts { Stays self.old self.new × Counts self.old self.new result }
        ensures told { (text : List ℕ) (line : List ℕ) → StandsIn text self.old (S.left source.old)
            → Tells text self.old result line }
        ensures stands { (text : List ℕ) → StandsIn text self.old (S.left source.old)
            → StandsIn text self.new (S.left source.new) }
        ensures count { S.faults source.old ≤ S.faults source.new }
        ensures fault { result ≡ Next.ReadFault → HasRisen S.last (S.faults source.old) (S.faults source.new) }
        ensures unended { result ≡ Next.ReadFault → NoLineFeed self.new.ahead }
        ensures last { IsNearEnd (S.gave source.old) self.old.ahead → IsNearEnd (S.gave source.new) self.new.ahead }
        ensures ends { (text : List ℕ) → EndsLast (S.gave source.new) text self.old self.new result }
    {
        if self.window.passed() > 0 {
            return Next::Limit {
                which: LimitKind::Lines,
            };
        }
        if !self.window.ahead().is_empty() {
            return Next::Limit {
                which: LimitKind::Lines,
            };
        }
        let count = match self.window.fetch(source) {
            Ok(count) => count,
            Err(FetchError::Fault) => return Next::ReadFault,
            Err(FetchError::Memory) => return Next::NoMemory,
        };
        if count == 0 {
            return Next::End;
        }
        Next::Limit {
            which: LimitKind::Lines,
        }
    }

    /// The answer where a further line may be given.
    fn next_line<S: Source>(&mut self, source: &mut S, into: &mut Vec<u8>) -> Next
        requires { self.old.lines < self.old.max_lines }
        ensures counts { Counts self.old self.new result }
        ensures told { (text : List ℕ) → StandsIn text self.old (S.left source.old)
            → Tells text self.old result into.new.items }
        ensures stands { (text : List ℕ) → StandsIn text self.old (S.left source.old)
            → StandsIn text self.new (S.left source.new) }
        ensures count { S.faults source.old ≤ S.faults source.new }
        ensures fault { result ≡ Next.ReadFault → HasRisen S.last (S.faults source.old) (S.faults source.new) }
        ensures unended { result ≡ Next.ReadFault → NoLineFeed self.new.ahead }
        ensures near { HoldsLittle self.new result }
        ensures last { IsNearEnd (S.gave source.old) self.old.ahead → IsNearEnd (S.gave source.new) self.new.ahead }
        ensures ends { (text : List ℕ) → StandsIn text self.old (S.left source.old)
            → IsNearEnd (S.gave source.old) self.old.ahead → EndsLast (S.gave source.new) text self.old self.new result }
    {
        let room = self.max_bytes - self.given;
        match find_end(&mut self.window, source, room) {
            LineEnd::Feed { at } => self.give(at, 1, into),
            LineEnd::Input => self.give_last(into),
            LineEnd::Past => Next::Limit {
                which: LimitKind::Bytes,
            },
            LineEnd::Fault => Next::ReadFault,
            LineEnd::Memory => Next::NoMemory,
        }
    }

    /// Gives the line whose last `size` bytes lie ahead, with `feed` bytes of a line feed behind.
    fn give(&mut self, size: usize, feed: usize, into: &mut Vec<u8>) -> Next
        requires ahead { size + feed ≤ length self.old.ahead }
        requires within { self.old.lines < self.old.max_lines }
        requires near { length self.old.ahead < size + feed + PIECE }
        ensures gives { Gives self.old self.new size feed result into.new.items }
        ensures near { HoldsLittle self.new result }
    {
        let room = self.max_bytes - self.given - self.window.passed();
        if size as u64 > room {
            return Next::Limit {
                which: LimitKind::Bytes,
            };
        }
        if feed as u64 > room - size as u64 {
            return Next::Limit {
                which: LimitKind::Bytes,
            };
        }
        let taken = size + feed;
        if self.window.passed() > 0 {
            let number = self.begin_next(taken);
            return Next::TooLong { number };
        }
        if size > LONGEST {
            let number = self.begin_next(taken);
            return Next::TooLong { number };
        }
        into.clear();
        match into.extend_from_slice(&self.window.ahead()[..size]) {
            Ok(()) => {
                let number = self.begin_next(taken);
                Next::Line { number }
            }
            Err(_) => Next::NoMemory,
        }
    }

    /// Gives the line that the end of the input ends, if it has a byte.
    fn give_last(&mut self, into: &mut Vec<u8>) -> Next
        requires { self.old.lines < self.old.max_lines }
        ensures gives { GivesLast self.old self.new result into.new.items }
        ensures near { HoldsLittle self.new result }
    {
        let size = self.window.ahead().len();
        if self.window.passed() == 0 && size == 0 {
            return Next::End;
        }
        self.give(size, 0, into)
    }

    /// Counts the current line, which ends within `taken` bytes of what lies ahead, and answers its
    /// number.
    fn begin_next(&mut self, taken: usize) -> u32
        requires ahead { taken ≤ length self.old.ahead }
        requires lines { self.old.lines < self.old.max_lines }
        requires bytes { self.old.given + self.old.passed + taken ≤ self.old.max_bytes }
        requires near { length self.old.ahead < taken + PIECE }
        ensures after { self.new ≡ after_line self.old taken }
        ensures number { result ≡ self.old.lines + 1 }
        ensures near { IsLittle self.new }
    {
        let size = self.window.passed() + taken as u64;
        self.window.begin_after(taken);
        self.given += size;
        self.lines += 1;
        self.lines
    }
}
