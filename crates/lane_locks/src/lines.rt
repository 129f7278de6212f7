//! The lines of a segment in a lane, and how far each is.

ghost use Rattle.std.specs.Prelude.{◌≡◌, ◌≤◌, ◌<◌, ◌++◌, ◌/◌, ◌%◌, ◌^◌, [], ◌∷◌, IfOk, IfSome, OnOk, OnErr, length};
ghost use Rattle.global_ids.specs.Keys as keys;
ghost use Rattle.op_machine.specs.Plans.{IsOwn, IsPlainGet};
ghost use Rattle.lane_locks.specs.Lines.{lines_of, IsAbove, AreLines, AreWaiting, AreEmpty};

use messages::{Outcome, SharedOperation};
use std::alloc::Global;
use std::marker::Model;
use value_lists::NoMemory;

/// A line that asks for an operation.
#[derive(Drop)]
pub struct Line {
    pub number: u32,
    /// The key of its document.
    pub key: u64,
    pub operation: SharedOperation,
    /// The distributor that it names.
    pub via: Option<u8>,
    /// The place of the last line before it that is of its feeder.
    pub before: Option<usize>,
}

/// How far a line is.
#[derive(Drop)]
pub enum Stage {
    /// It has no event yet.
    Waiting,
    /// Its operation is under way, and wants to go on.
    Going,
    /// Its operation is under way, and is to be closed.
    Ending,
    /// It was closed, or refused.
    Answered { outcome: Outcome },
}

/// Lines of a segment in a lane, in rising number, none of which began; so many feeders run them.
#[derive(Drop)]
pub struct LineList {
    feeders: u8,
    lines: Vec<Line>,
    stages: Vec<Stage>,
    /// Of each feeder the place of its last line.
    last: Vec<Option<usize>>,
}

impl Model for LineList {
    ghost use Rattle.lane_locks.specs.Lines.{Listed, listed_code, lines_of, AreLines, AreWaiting, AreLast};

    ghost Value = { Listed };

    ghost coded = { listed_code };

    ghost view = { λ l. record { feeders = l.feeders; lines = lines_of l.lines.items } };

    ghost invariant = { λ l. AreLines l.feeders l.lines.items × AreWaiting l.lines.items l.stages.items
        × AreLast l.feeders l.lines.items l.last.items };
}

/// No place for any of so many feeders.
fn no_places(alloc: Global, feeders: u8) -> Result<Vec<Option<usize>>, NoMemory>
    ensures { IfOk result (λ last. AreEmpty feeders last.items) }
{
    let mut last = Vec::new(alloc);
    for _ in 0..feeders {
        last.push(None)?;
    }
    Ok(last)
}

/// The feeder of a key.
pub fn feeder_of_key(key: u64, feeders: u8) -> usize
    requires { 0 < feeders }
    ensures { (result ≡ (key / 2 ^ 32) % feeders) × (result < feeders) }
{
    ((key >> 32) % u64::from(feeders)) as usize
}

impl LineList {
    /// No line.
    pub fn new(alloc: Global, feeders: u8) -> Result<LineList, NoMemory>
        requires { 0 < feeders }
        ensures { IfOk result (λ list. list ≡ record { feeders = feeders; lines = [] }) }
    {
        let last = no_places(alloc, feeders)?;
        Ok(LineList {
            feeders,
            lines: Vec::new(alloc),
            stages: Vec::new(alloc),
            last,
        })
    }

    /// How many lines there are.
    pub fn len(&self) -> usize
        ensures { result ≡ length self.now.lines }
    {
        self.lines.len()
    }

    /// Adds a line behind the others.
    pub fn push(
        &mut self,
        number: u32,
        key: u64,
        operation: SharedOperation,
        via: Option<u8>,
    ) -> Result<(), NoMemory>
        requires number { 1 ≤ number }
        requires above { IsAbove self.old.lines number }
        requires key { key ≡ keys.key_of operation.id }
        requires own { IsOwn operation.id operation.kind }
        requires plain { IsPlainGet operation }
        requires via { IfSome via (λ d. d < 32) }
        ensures ok { OnOk result (self.new ≡ record self.old {
          lines = self.old.lines ++ record { number = number; operation = operation; via = via } ∷ [];
        }) }
        ensures err { OnErr result (self.new ≡ self.old) }
    {
        self.lines.reserve(1)?;
        self.stages.reserve(1)?;
        let feeder = feeder_of_key(key, self.feeders);
        let before = self.last[feeder];
        self.last[feeder] = Some(self.lines.len());
        self.lines.push_reserved(Line {
            number,
            key,
            operation,
            via,
            before,
        });
        self.stages.push_reserved(Stage::Waiting);
        Ok(())
    }

    /// The lines, and how far they are.
    pub fn into_parts(self) -> (Vec<Line>, Vec<Stage>)
        ensures lines { lines_of result.0.items ≡ self.lines }
        ensures are { AreLines self.feeders result.0.items }
        ensures waiting { AreWaiting result.0.items result.1.items }
    {
        let LineList { lines, stages, .. } = self;
        (lines, stages)
    }
}
