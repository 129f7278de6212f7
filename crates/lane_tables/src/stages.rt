//! How far the lines of a script are.

ghost use Rattle.std.specs.Prelude.{◌≡◌, true, IfSome, Some, slice_get, slice_set, replicate};
ghost use Rattle.lane_tables.specs.Scripted.{stages_begun, stages_gone};
ghost use Rattle.lane_tables.specs.declared.stages.LineStage.TheVariants as stage;

use lane_calls::answers::{Advance, Begin};
use std::alloc::Global;

/// How many lines a script has at most, with the number 0, which is none's.
const MOST_LINES: usize = 32;

/// How far a line is.
#[derive(Clone, Copy)]
pub enum LineStage {
    /// It has not begun.
    Fresh,
    /// Its operation is under way, and wants to go on.
    Going,
    /// Its operation is under way, and is to be closed.
    Ending,
    /// It was closed, or refused.
    Closed,
}

/// No line has begun.
pub fn fresh_lines(alloc: Global) -> Option<Vec<LineStage>>
    ensures { IfSome result (λ stages. stages.items ≡ replicate 32 stage.Fresh) }
{
    match vec![in alloc; LineStage::Fresh; MOST_LINES] {
        Ok(stages) => Some(stages),
        Err(_) => None,
    }
}

/// Whether the line of a number has not begun.
pub fn is_fresh_line(stages: &[LineStage], line: u8) -> bool {
    matches!(stages.get(usize::from(line)), Some(LineStage::Fresh))
}

/// Whether it wants to go on.
pub fn is_going(stages: &[LineStage], line: u8) -> bool
    ensures { result ≡ true → slice_get stages.now line ≡ Some stage.Going }
{
    match stages.get(usize::from(line)) {
        Some(LineStage::Going) => true,
        Some(LineStage::Fresh | LineStage::Ending | LineStage::Closed) | None => false,
    }
}

/// Whether it is to be closed.
pub fn is_ending(stages: &[LineStage], line: u8) -> bool
    ensures { result ≡ true → slice_get stages.now line ≡ Some stage.Ending }
{
    match stages.get(usize::from(line)) {
        Some(LineStage::Ending) => true,
        Some(LineStage::Fresh | LineStage::Going | LineStage::Closed) | None => false,
    }
}

/// Notes how far a line is.
fn note(stages: &mut Vec<LineStage>, line: u8, stage: LineStage)
    ensures { stages.new.items ≡ slice_set stages.old.items line stage }
{
    if usize::from(line) < stages.len() {
        stages[usize::from(line)] = stage;
    }
}

/// Notes the answer to its beginning.
pub fn note_begin(stages: &mut Vec<LineStage>, line: u8, answer: &Begin)
    ensures { stages.new.items ≡ stages_begun line answer.now stages.old.items }
{
    match answer {
        Begin::Begun => note(stages, line, LineStage::Going),
        Begin::Refused { .. } => note(stages, line, LineStage::Closed),
        Begin::Held { .. } | Begin::NoMemory => {}
    }
}

/// Notes the answer to a call that let it go on.
pub fn note_advance(stages: &mut Vec<LineStage>, line: u8, answer: Advance)
    ensures { stages.new.items ≡ stages_gone line answer stages.old.items }
{
    match answer {
        Advance::More | Advance::Waits { .. } => {}
        Advance::Done | Advance::NoMemory => note(stages, line, LineStage::Ending),
    }
}

/// Notes that it was closed.
pub fn note_close(stages: &mut Vec<LineStage>, line: u8)
    ensures { stages.new.items ≡ slice_set stages.old.items line stage.Closed }
{
    note(stages, line, LineStage::Closed);
}
