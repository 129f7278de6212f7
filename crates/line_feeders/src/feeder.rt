//! A feeder, and the lines that it runs.

ghost use Rattle.std.specs.Prelude.{◌≡◌, ◌<◌, length};
ghost use Rattle.line_feeders.specs.declared.turns.Went.TheVariants as went;
ghost use Rattle.line_feeders.specs.Calls.{IsAnswer, Advances, RanTo, is_over};
ghost use Rattle.line_feeders.specs.Errands.{RanErrand, WasRun, WereRun};

use crate::gate::Gate;
use crate::line_lock::LineLock;
use crate::turns::{LineTurns, Went};
use std::sync::Wait;
use std::thread;
use std::thread::Threads;

/// A line that a feeder is to run: its number, which lock it is behind, and its place there.
#[derive(Clone, Copy)]
pub struct Errand {
    pub line: u32,
    pub lock: u8,
    pub place: usize,
}

/// The lines of a feeder, in order, and how many of them have their outcomes.
#[derive(Drop)]
pub struct Feeder {
    pub errands: Vec<Errand>,
    pub done: usize,
}

/// Whether it has its outcome.
fn is_over(went: Went) -> bool
    ensures { result ≡ is_over went }
{
    match went {
        Went::Over => true,
        Went::On | Went::Waits | Went::Ends | Went::Left => false,
    }
}

/// Lets a line go on until it is to be closed, or isn't to go on.
fn go_on<T: LineTurns + Drop, R: Wait>(rt: &R, lock: &LineLock<T>, place: usize) -> Went
    ensures last { IsAnswer T.number T.does lock.now Advances place result }
    ensures not_on { result ≡ went.On → ⊥ }
{
    for _ in rt.forever() {
        let went = lock.advance(rt, place);
        if went != Went::On {
            return went;
        }
    }
    unreachable!()
}

/// Runs the line at a place to its outcome. It says whether the line has one now.
pub fn run_line<T: LineTurns + Drop, R: Wait>(rt: &R, lock: &LineLock<T>, place: usize) -> bool
    ensures { RanTo (IsAnswer T.number T.does lock.now) place result }
{
    let began = lock.begin(rt, place);
    if began != Went::On {
        return is_over(began);
    }
    let _last = go_on(rt, lock, place);
    is_over(lock.close(rt, place))
}

/// Runs a line, and tells the gate of it.
fn run_errand<T: LineTurns + Drop, G: Gate, R: Wait>(
    rt: &R,
    locks: &[LineLock<T>],
    gate: &G,
    errand: Errand,
) -> bool
    ensures { RanErrand (IsAnswer T.number T.does) locks.now errand result }
{
    let Some(lock) = locks.get(usize::from(errand.lock)) else {
        return false;
    };
    gate.before(errand.line);
    let answered = run_line(rt, lock, errand.place);
    if answered {
        gate.answered(errand.line);
    }
    answered
}

/// Runs the lines of a feeder in order, up to one that has no outcome then: that one and all behind it are left.
fn feed<T: LineTurns + Drop, G: Gate, R: Wait>(
    rt: &R,
    locks: &[LineLock<T>],
    gate: &G,
    feeder: &mut Feeder,
)
    ensures { WasRun (IsAnswer T.number T.does) locks.now feeder.old feeder.new }
{
    feeder.done = 0;
    for place in 0..feeder.errands.len() {
        let errand = feeder.errands[place];
        if !run_errand(rt, locks, gate, errand) {
            return;
        }
        feeder.done = place + 1;
    }
}

/// Runs the lines of all feeders, each feeder in a thread of its own.
pub fn run_feeders<T: LineTurns + Drop + Send, G: Gate + Sync, R: Threads + Wait + Sync>(
    rt: &R,
    locks: &[LineLock<T>],
    gate: &G,
    feeders: &mut [Feeder],
)
    requires { 0 < length feeders.old }
    ensures { WereRun (IsAnswer T.number T.does) locks.now feeders.old feeders.new }
{
    let threads = feeders.len();
    thread::for_each_mut(
        rt,
        feeders,
        threads,
        &|_, feeder| feed(rt, locks, gate, feeder),
    );
}
