//! What the lines of a segment are answered behind it.

ghost use Rattle.std.specs.Prelude.{◌≡◌, ◌<◌, ◌≤◌, ◌+◌, ◌^◌, ℕ, [], List, None, Some, length, option_map, IfOk, OnOk, OnErr};
ghost use Rattle.lane_calls.specs.Lines.{Lines};
ghost use Rattle.lane_lives.specs.declared.setting.Setting.{Setting};
ghost use Rattle.messages.specs.declared.outcome.Outcome.{Outcome};
ghost use Rattle.session_cluster.specs.Cells.{journals_of};
ghost use Rattle.session_cluster.specs.Lanes.{journal_in};
ghost use Rattle.session_cluster.specs.Output.{outcome_answer, entry_of};
ghost use Rattle.session_cluster.specs.Searches.{fronts_of};
ghost use Rattle.session_cluster.specs.Steps.{AreSettled};
ghost use Rattle.session_cluster.specs.declared.asked.Asked.{Asked};
ghost use Rattle.session_segments.specs.Sorted.{has_outcome, are_answered, all_answered, outcome_of, outcome_at, AreTyped, MayBeAnswered, IsDueFor, AreDue, IsAnswered, IsUnread, MayHaveRead, AreAnsweredSoFar, WasReadSoFar};

use crate::running::StageList;
use crate::sorting::Due;
use carriers::Carrier;
use lane_locks::Stage;
use messages::Outcome;
use reports::Answer;
use session_cluster::Session;
use std::alloc::Global;
use value_lists::{NoMemory, TryCopy};

/// Whether a line has its outcome.
fn has_outcome(stage: &Stage) -> bool
    ensures { result ≡ has_outcome stage.now }
{
    match stage {
        Stage::Answered { .. } => true,
        Stage::Waiting | Stage::Going | Stage::Ending => false,
    }
}

/// Whether all lines of a lane do.
fn are_answered(stages: &[Stage]) -> bool
    ensures { result ≡ are_answered stages.now }
{
    stages.iter().all(|stage| has_outcome(stage))
}

/// Whether all lines do.
pub(crate) fn all_answered(stages: &[StageList]) -> bool
    ensures { result ≡ all_answered stages.now }
{
    stages.iter().all(|of_lane| are_answered(of_lane.items()))
}

/// The outcome of a line, if it has one.
fn outcome_of(stage: &Stage) -> Option<&Outcome>
    ensures { option_map (λ outcome. outcome.now) result ≡ outcome_of stage.now }
{
    match stage {
        Stage::Answered { outcome } => Some(outcome),
        Stage::Waiting | Stage::Going | Stage::Ending => None,
    }
}

/// That of the line at a place in a lane.
fn outcome_at(stages: &[StageList], lane: u8, place: usize) -> Option<&Outcome>
    ensures { option_map (λ outcome. outcome.now) result ≡ outcome_at stages.now lane place }
{
    outcome_of(stages.get(usize::from(lane))?.items().get(place)?)
}

/// What the line at a place in a lane is answered.
fn answer_outcome<C: Carrier + Drop>(
    alloc: Global,
    session: &Session<C>,
    lane: u8,
    place: usize,
    stages: &[StageList],
) -> Result<Option<Answer>, NoMemory>
    ensures { IfOk result (λ answer. (x : Outcome) × (outcome_at stages.now lane place ≡ Some x)
        × (answer ≡ outcome_answer x (entry_of x (journal_in lane (journals_of session.now.cell))))) }
{
    match outcome_at(stages, lane, place) {
        Some(outcome) => session.answer(alloc, lane, outcome.copy(alloc)?),
        None => Err(NoMemory),
    }
}

/// What a line is answered. All changes of the lanes are shown.
fn answer_due<C: Carrier + Drop>(
    alloc: Global,
    session: &mut Session<C>,
    line: u32,
    due: Due,
    stages: &[StageList],
) -> Result<Option<Answer>, NoMemory>
    requires few { length session.old.cell.lanes ≤ 64 }
    requires typed { AreTyped session.old.cell }
    requires settled { AreSettled session.old }
    requires new { fronts_of line session.old.cell.fronts ≡ None }
    ensures ok { IfOk result (λ answer. (s : Setting) (lines : ℕ → Lines) (c : Asked) → MayBeAnswered s lines stages.now
        session.old.cell → IsDueFor s lines line c due → IsAnswered s line c session.old.cell session.new.cell answer) }
    ensures read { MayHaveRead line session.old.cell session.new.cell }
    ensures settled { AreSettled session.new }
    ensures err { OnErr result (session.new ≡ session.old) }
{
    match due {
        Due::Outcome { lane, place } => answer_outcome(alloc, session, lane, place, stages),
        Due::Search { query } => Ok(Some(session.search_now(alloc, line, query)?)),
        Due::Fixed { answer } => Ok(answer),
    }
}

/// Answers all lines of a segment in order, of which the first has this number. At want of memory some first searches are
/// noted.
pub(crate) fn answer_all<C: Carrier + Drop>(
    alloc: Global,
    session: &mut Session<C>,
    first: u32,
    dues: Vec<Due>,
    stages: &[StageList],
) -> Result<Vec<Option<Answer>>, NoMemory>
    requires few { length session.old.cell.lanes ≤ 64 }
    requires typed { AreTyped session.old.cell }
    requires settled { AreSettled session.old }
    requires numbers { first + length dues.items < 2 ^ 32 }
    requires unread { IsUnread first session.old.cell }
    ensures ok { IfOk result (λ answers. (s : Setting) (lines : ℕ → Lines) (cs : List Asked) → MayBeAnswered s lines
        stages.now session.old.cell → AreDue s lines first cs dues.items → AreAnsweredSoFar s lines first cs []
        session.old.cell session.new.cell answers.items) }
    ensures settled { OnOk result (AreSettled session.new) }
    ensures err { OnErr result ((s : Setting) (lines : ℕ → Lines) (cs : List Asked) → MayBeAnswered s lines
        stages.now session.old.cell → AreDue s lines first cs dues.items → WasReadSoFar first cs
        session.old.cell session.new.cell) }
{
    let mut answers = Vec::with_capacity(alloc, dues.len())?;
    let mut line = first;
    for due in dues {
        answers.push(answer_due(alloc, session, line, due, stages)?)?;
        line += 1;
    }
    Ok(answers)
}
