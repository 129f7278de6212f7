//! The lines of a segment, dealt with together.

ghost use Rattle.std.specs.Prelude.{◌≡◌, ◌⊎◌, ◌≤◌, ◌+◌, [], true, length, IfOk, OnOk, OnErr};
ghost use Rattle.session_cluster.specs.Keeping.{IsReady};
ghost use Rattle.session_cluster.specs.Steps.{AreOpened, AreSettled};
ghost use Rattle.session_segments.specs.Fed.{IsFed, IsFedShort, answers_from};
ghost use Rattle.session_segments.specs.Parts.{AreStill, AreOwn};
ghost use Rattle.session_segments.specs.Sorted.{all_answered};

use crate::answering::{all_answered, answer_all};
use crate::running::{StageList, any_feeds, feed_any};
use crate::sorting::{Sorted, sort};
use carriers::Carrier;
use lane_lives::Setting;
use line_feeders::Gate;
use reports::Answer;
use session_cluster::{Asked, Session};
use std::alloc::Global;
use std::sync::Wait;
use std::thread::Threads;
use value_lists::NoMemory;

/// Shows what the lines of a segment changed, if all of them have their outcomes; else memory was wanted.
fn settle_over<C: Carrier + Drop>(
    stages: &[StageList],
    session: &mut Session<C>,
) -> Result<(), NoMemory>
    requires { AreOpened session.old.cell.lanes session.old.shelves }
    ensures cell { session.new.cell ≡ session.old.cell }
    ensures over { OnOk result (all_answered stages.now ≡ true) }
    ensures settled { OnOk result (AreSettled session.new) }
{
    if !all_answered(stages) {
        return Err(NoMemory);
    }
    session.settle()
}

/// Deals with the lines of a segment together, of which the first has this number, and gives the answer of each, which a
/// blank line has not: so many feeders run the operations in threads, and what was asked besides is answered behind them.
/// At want of memory some lines may be left without an outcome, and some searches not made.
pub fn deal_together<C: Carrier + Drop + Send, G: Gate + Sync, R: Threads + Wait + Sync>(
    rt: &R,
    alloc: Global,
    gate: &G,
    setting: &Setting,
    feeders: u8,
    first: u32,
    commands: Vec<Asked>,
    session: &mut Session<C>,
) -> Result<Vec<Option<Answer>>, NoMemory>
    requires ready { IsReady setting.now first session.old.cell }
    requires feeders { (1 ≤ feeders) × (feeders ≤ 8) }
    requires still { AreStill commands.items }
    requires own { AreOwn setting.now.bits commands.items }
    requires few { first + length commands.items ≤ 50001 }
    requires settled { AreSettled session.old }
    ensures ok { IfOk result (λ answers. IsFed setting.now feeders first commands.items (λ _. []) session.old.cell
        session.new.cell × (answers.items ≡ answers_from setting.now session.old.cell.told first commands.items
        session.new.cell)) }
    ensures settled { OnOk result (AreSettled session.new) }
    ensures err { OnErr result ((session.new.cell ≡ session.old.cell)
        ⊎ IsFedShort setting.now feeders first commands.items session.old.cell session.new.cell) }
{
    let count = commands.len() as u32;
    let any = any_feeds(&commands);
    let Sorted {
        lists,
        feeders: mut of_feeders,
        dues,
    } = sort(alloc, setting, feeders, first, commands)?;
    let stages = feed_any(rt, alloc, gate, any, lists, &mut of_feeders, session)?;
    session.deal_up_to(first + count - 1);
    settle_over(&stages, session)?;
    answer_all(alloc, session, first, dues, &stages)
}
