ghost use Rattle.std.specs.Prelude.{◌≡◌, ◌≤◌, ◌+◌, length, IfOk, OnOk, IfErr};
ghost use Rattle.std.specs.Io.KnownBytes.{Appends};
ghost use Rattle.io_ends.specs.Causes.{HasRisen};
ghost use Rattle.cell_session.specs.Reporting.{LeavesFront, LeavesSome, reports_from};
ghost use Rattle.session_cluster.specs.Output.{bytes_of};
ghost use Rattle.cell_session.specs.declared.answering.Stop.TheVariants as stop;

use crate::answering::Stop;
use io_ends::{Sink, write_all};
use reports::{Answer, report};
use std::alloc::Global;
use value_lists::NoMemory;

/// Writes the report of a line.
pub fn report_line<K: Sink>(
    alloc: Global,
    line: u32,
    answer: &Option<Answer>,
    sink: &mut K,
) -> Result<(), Stop>
    ensures written { OnOk result (Appends (K.written sink.old) (K.written sink.new) (bytes_of line answer.now)) }
    ensures stopped { IfErr result (λ why. LeavesFront why (bytes_of line answer.now) (K.written sink.old)
        (K.written sink.new)) }
    ensures count { K.faults sink.old ≤ K.faults sink.new }
    ensures fault { IfErr result (λ why. why ≡ stop.Fault
        → HasRisen K.last (K.faults sink.old) (K.faults sink.new)) }
{
    let Ok(bytes) = bytes_of(alloc, line, answer) else {
        return Err(Stop::Memory);
    };
    match write_all(sink, &bytes) {
        Ok(()) => Ok(()),
        Err(_) => Err(Stop::Fault),
    }
}

/// Writes the reports of lines in their order, of which the first has this number.
pub fn report_lines<K: Sink>(
    alloc: Global,
    first: u32,
    answers: &[Option<Answer>],
    sink: &mut K,
) -> Result<(), Stop>
    requires { first + length answers.now ≤ 50001 }
    ensures written { OnOk result (Appends (K.written sink.old) (K.written sink.new) (reports_from first answers.now)) }
    ensures stopped { IfErr result (λ why. LeavesSome why first answers.now (K.written sink.old)
        (K.written sink.new)) }
    ensures count { K.faults sink.old ≤ K.faults sink.new }
    ensures fault { IfErr result (λ why. why ≡ stop.Fault
        → HasRisen K.last (K.faults sink.old) (K.faults sink.new)) }
{
    for at in 0..answers.len() {
        if let Err(stop) = report_line(alloc, first + at as u32, &answers[at], sink) {
            return Err(stop);
        }
    }
    Ok(())
}

/// The report of what may be an answer.
pub fn bytes_of(alloc: Global, line: u32, answer: &Option<Answer>) -> Result<Vec<u8>, NoMemory>
    ensures { IfOk result (λ bytes. bytes.items ≡ bytes_of line answer.now) }
{
    match answer {
        Some(answer) => report(alloc, line, answer),
        None => Ok(Vec::new(alloc)),
    }
}
