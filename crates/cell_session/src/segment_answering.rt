ghost use Rattle.std.specs.Prelude.{◌≡◌, ◌≤◌, ◌+◌, [], length, OnOk, IfErr};
ghost use Rattle.std.specs.Io.KnownBytes.{Appends};
ghost use Rattle.io_ends.specs.Causes.{HasRisen};
ghost use Rattle.session_cluster.specs.Keeping.{IsReady};
ghost use Rattle.session_cluster.specs.Steps.{AreSettled};
ghost use Rattle.session_segments.specs.Fed.{IsFed, answers_from};
ghost use Rattle.cell_session.specs.FedAnswering.{StopsSegmentAs};
ghost use Rattle.session_segments.specs.Parts.{AreStill, AreOwn};
ghost use Rattle.cell_session.specs.Reporting.{reports_from};
ghost use Rattle.cell_session.specs.declared.answering.Stop.TheVariants as stop;

use crate::answering::Stop;
use crate::reporting::report_lines;
use carriers::Carrier;
use io_ends::Sink;
use lane_lives::Setting;
use line_feeders::Gate;
use session_cluster::asked::Asked;
use session_cluster::session::Session;
use session_segments::deal_together;
use std::alloc::Global;
use std::sync::Wait;
use std::thread::Threads;

/// Deals with the lines of a segment together, of which the first has this number, and then writes their reports in their
/// order.
pub fn answer_segment<R: Threads + Wait + Sync, K: Sink, C: Carrier + Drop + Send, G: Gate + Sync>(
    rt: &R,
    alloc: Global,
    gate: &G,
    setting: &Setting,
    feeders: u8,
    first: u32,
    commands: Vec<Asked>,
    sink: &mut K,
    session: &mut Session<C>,
) -> Result<(), Stop>
    requires ready { IsReady setting.now first session.old.cell }
    requires feeders { (1 ≤ feeders) × (feeders ≤ 8) }
    requires still { AreStill commands.items }
    requires own { AreOwn setting.now.bits commands.items }
    requires few { first + length commands.items ≤ 50001 }
    requires settled { AreSettled session.old }
    ensures fed { OnOk result (IsFed setting.now feeders first commands.items (λ _. []) session.old.cell
        session.new.cell) }
    ensures settled { OnOk result (AreSettled session.new) }
    ensures written { OnOk result (Appends (K.written sink.old) (K.written sink.new)
        (reports_from first (answers_from setting.now session.old.cell.told first commands.items session.new.cell))) }
    ensures stopped { IfErr result (λ why. StopsSegmentAs why setting.now feeders first commands.items
        session.old.cell session.new.cell (K.written sink.old) (K.written sink.new)) }
    ensures count { K.faults sink.old ≤ K.faults sink.new }
    ensures fault { IfErr result (λ why. why ≡ stop.Fault
        → HasRisen K.last (K.faults sink.old) (K.faults sink.new)) }
{
    let Ok(answers) = deal_together(rt, alloc, gate, setting, feeders, first, commands, session)
    else {
        return Err(Stop::Memory);
    };
    report_lines(alloc, first, &answers, sink)
}
