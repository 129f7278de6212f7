//! The lock of a group of lines.

ghost use Rattle.std.specs.Prelude.{◌≡◌, false};
ghost use Rattle.line_feeders.specs.Waiting.{waits};
ghost use Rattle.line_feeders.specs.Calls.{IsAnswer, Begins, Advances, Closes};

use crate::turns::{LineTurns, Went};
use std::marker::Model;
use std::sync::{Condvar, Mutex, Wait};

/// The lock of a group of lines, and where those wait who are held there. A contract sees it as the group's number.
/// Whether that group is behind it is tested once the lock is taken.
#[derive(Drop)]
pub struct LineLock<T: LineTurns + Drop> {
    number: u8,
    lines: Mutex<T>,
    /// A line was closed there.
    closed: Condvar,
}

impl<T: LineTurns + Drop> Model for LineLock<T> {
    ghost use Rattle.std.specs.Prelude.{ℕ};

    ghost Value = { ℕ };

    ghost view = { λ l. l.number };
}

/// Whether another line stands against it.
fn waits(went: Went) -> bool
    ensures { result ≡ waits went }
{
    match went {
        Went::Waits => true,
        Went::On | Went::Ends | Went::Over | Went::Left => false,
    }
}

impl<T: LineTurns + Drop> LineLock<T> {
    /// A lock that is free.
    pub fn new(lines: T) -> LineLock<T>
        ensures { result ≡ T.number lines }
    {
        LineLock {
            number: lines.number(),
            lines: Mutex::new(lines),
            closed: Condvar::new(),
        }
    }

    /// The number of the group.
    pub fn number(&self) -> u8
        ensures { result ≡ self.now }
    {
        self.number
    }

    /// What the lock kept.
    pub fn into_lines(self) -> T {
        self.lines.into_inner()
    }

    // ---- one call, under the lock; where another group is behind it, the line is left

    /// Begins the line at a place. While another line stands against it, waits until one was closed there, and tries again.
    pub fn begin<R: Wait>(&self, rt: &R, place: usize) -> Went
        ensures answer { IsAnswer T.number T.does self.now Begins place result }
        ensures waits { waits result ≡ false }
    {
        let mut lines = self.lines.lock(rt);
        for _ in rt.forever() {
            if lines.number() != self.number {
                return Went::Left;
            }
            let went = lines.begin(place);
            if !waits(went) {
                return went;
            }
            lines = self.closed.wait(rt, lines);
        }
        unreachable!()
    }

    /// Lets the line at a place go on by one call, and waits as `begin` does.
    pub fn advance<R: Wait>(&self, rt: &R, place: usize) -> Went
        ensures answer { IsAnswer T.number T.does self.now Advances place result }
        ensures waits { waits result ≡ false }
    {
        let mut lines = self.lines.lock(rt);
        for _ in rt.forever() {
            if lines.number() != self.number {
                return Went::Left;
            }
            let went = lines.advance(place);
            if !waits(went) {
                return went;
            }
            lines = self.closed.wait(rt, lines);
        }
        unreachable!()
    }

    /// Closes the line at a place; those who wait there try again.
    pub fn close<R: Wait>(&self, rt: &R, place: usize) -> Went
        ensures { IsAnswer T.number T.does self.now Closes place result }
    {
        let mut lines = self.lines.lock(rt);
        if lines.number() != self.number {
            return Went::Left;
        }
        let went = lines.close(place);
        self.closed.notify_all();
        went
    }
}
