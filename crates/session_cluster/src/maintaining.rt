//! The upkeep that a line asks for.

ghost use Rattle.std.specs.Prelude.{◌≡◌, ◌≤◌, ◌⊎◌, ◌∷◌, ◌++◌, [], None, Some, length, IfOk, OnOk, OnErr};
ghost use Rattle.session_cluster.specs.Output.{upkeep_answer};
ghost use Rattle.session_cluster.specs.Spans.{spans_of, is_rested, is_blocked, is_disturbed, count_of};
ghost use Rattle.session_cluster.specs.Steps.{EachLane, AreSettled, MayMaintain, MayHaveAllPassed, AreSpans, HasSpans, IsMaintained};

use crate::cluster::{LineSpans, SpanList};
use crate::every_lane::maintain_all;
use crate::session::Session;
use carriers::Carrier;
use lane_lives::UpkeepSpan;
use reports::Answer;
use std::alloc::Global;
use upkeep_spans::Upkeep;
use value_lists::NoMemory;

impl<C: Carrier + Drop> Session<C> {
    /// Makes upkeep in every lane, in their order, and gives the answer; then the lanes show what changed in them. After
    /// want of memory some lanes may have made theirs.
    pub(crate) fn maintain(&mut self, alloc: Global, line: u32) -> Result<Option<Answer>, NoMemory>
        requires may { EachLane MayMaintain self.old.cell.lanes }
        requires few { length self.old.cell.lanes ≤ 64 }
        requires new { spans_of line self.old.cell.upkeeps ≡ None }
        requires settled { AreSettled self.old }
        ensures ok { IfOk result (λ answer. IsMaintained line self.old.cell self.new.cell
            × (answer ≡ upkeep_answer (spans_of line self.new.cell.upkeeps))) }
        ensures noted { OnOk result (HasSpans line self.old.cell self.new.cell) }
        ensures settled { OnOk result (AreSettled self.new) }
        ensures err { OnErr result ((self.new.cell ≡ self.old.cell) ⊎ IsMaintained line self.old.cell self.new.cell) }
    {
        let mut spans = Vec::with_capacity(alloc, self.lanes.len())?;
        self.maintain_lanes(line, &mut spans)?;
        let answer = answer_of(&spans);
        self.note(line, spans)?;
        self.settle()?;
        Ok(Some(answer))
    }

    /// Makes upkeep in every lane, and deals with the line by that.
    fn maintain_lanes(&mut self, line: u32, spans: &mut Vec<UpkeepSpan>) -> Result<(), NoMemory>
        requires may { EachLane MayMaintain self.old.cell.lanes }
        requires none { spans.old.items ≡ [] }
        ensures now { self.new.cell ≡ record self.old.cell { lanes = self.new.cell.lanes; dealt = line } }
        ensures passed { MayHaveAllPassed self.old.cell.lanes self.new.cell.lanes }
        ensures spans { OnOk result (AreSpans self.old.cell.lanes self.new.cell.lanes spans.new.items) }
        ensures shelves { self.new.shelves ≡ self.old.shelves }
    {
        let made = maintain_all(&mut self.lanes, spans);
        self.dealt = line;
        made
    }

    /// Notes the spans of a line.
    fn note(&mut self, line: u32, spans: Vec<UpkeepSpan>) -> Result<(), NoMemory>
        ensures ok { OnOk result (self.new ≡ record self.old {
          cell = record self.old.cell { upkeeps = self.old.cell.upkeeps ++ record { line = line; spans = spans.items } ∷ [] };
        }) }
        ensures err { OnErr result (self.new ≡ self.old) }
    {
        let spans = SpanList::of(spans);
        self.upkeeps.push(LineSpans { line, spans })?;
        Ok(())
    }
}

/// Whether upkeep went to its end.
fn is_rested(answer: Upkeep) -> bool
    ensures { result ≡ is_rested answer }
{
    match answer {
        Upkeep::Rested => true,
        Upkeep::Blocked { .. }
        | Upkeep::Disturbed { .. }
        | Upkeep::Held { .. }
        | Upkeep::NoMemory => false,
    }
}

/// Whether an answer was missing.
fn is_blocked(answer: Upkeep) -> bool
    ensures { result ≡ is_blocked answer }
{
    match answer {
        Upkeep::Blocked { .. } => true,
        Upkeep::Rested | Upkeep::Disturbed { .. } | Upkeep::Held { .. } | Upkeep::NoMemory => false,
    }
}

/// Whether a late message came.
fn is_disturbed(answer: Upkeep) -> bool
    ensures { result ≡ is_disturbed answer }
{
    match answer {
        Upkeep::Disturbed { .. } => true,
        Upkeep::Rested | Upkeep::Blocked { .. } | Upkeep::Held { .. } | Upkeep::NoMemory => false,
    }
}

/// In how many lanes upkeep went to its end.
fn count_rested(spans: &[UpkeepSpan]) -> usize
    ensures { result ≡ count_of is_rested spans.now }
{
    spans.iter().filter(|span| is_rested(span.answer)).count()
}

/// In how many lanes an answer was missing.
fn count_blocked(spans: &[UpkeepSpan]) -> usize
    ensures { result ≡ count_of is_blocked spans.now }
{
    spans.iter().filter(|span| is_blocked(span.answer)).count()
}

/// In how many lanes a late message came.
fn count_disturbed(spans: &[UpkeepSpan]) -> usize
    ensures { result ≡ count_of is_disturbed spans.now }
{
    spans
        .iter()
        .filter(|span| is_disturbed(span.answer))
        .count()
}

/// The answer that these spans are.
#[tactic(auto, using(crate::proofs::SpanLists::few_of))]
fn answer_of(spans: &[UpkeepSpan]) -> Answer
    requires { length spans.now ≤ 64 }
    ensures { Some result ≡ upkeep_answer (Some spans.now) }
{
    Answer::Maintained {
        lanes: spans.len() as u8,
        rested: count_rested(spans) as u8,
        blocked: count_blocked(spans) as u8,
        disturbed: count_disturbed(spans) as u8,
    }
}
