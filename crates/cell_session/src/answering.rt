ghost use Rattle.std.specs.Prelude.{◌≡◌, ◌≤◌, OnOk, IfErr};
ghost use Rattle.std.specs.Io.KnownBytes.{Appends};
ghost use Rattle.io_ends.specs.Causes.{HasRisen};
ghost use Rattle.cell_session.specs.Answering.{StopsAs, stop_status};
ghost use Rattle.session_cluster.specs.Asking.{IsOwnAsked};
ghost use Rattle.session_cluster.specs.Output.{report_in};
ghost use Rattle.session_cluster.specs.Keeping.{IsReady};
ghost use Rattle.session_cluster.specs.Steps.{IsDealt, AreSettled};
ghost use Rattle.cell_session.specs.declared.answering.Stop.TheVariants as stop;

use crate::reporting::bytes_of;
use crate::status::Status;
use carriers::Carrier;
use io_ends::{Sink, WriteFault, write_all};
use lane_lives::Setting;
use session_cluster::asked::Asked;
use session_cluster::session::Session;
use std::alloc::Global;
use thiserror::Error;
use value_lists::NoMemory;

/// Why a line's report didn't reach the sink.
#[derive(Clone, Copy, Debug, PartialEq, Eq, Error)]
pub enum Stop {
    #[error("the sink failed")]
    Fault,
    #[error("out of memory")]
    Memory,
}

impl Stop {
    /// How a session ends that stops so.
    pub fn status(self) -> Status
        ensures { result ≡ stop_status self }
    {
        match self {
            Stop::Fault => Status::WriteFault,
            Stop::Memory => Status::NoMemory,
        }
    }
}

impl From<NoMemory> for Stop {
    ghost from_gives = { λ _ e. e ≡ stop.Memory };

    fn from(_error: NoMemory) -> Stop {
        Stop::Memory
    }
}

impl From<WriteFault> for Stop {
    ghost from_gives = { λ _ e. e ≡ stop.Fault };

    fn from(_fault: WriteFault) -> Stop {
        Stop::Fault
    }
}

/// Deals with a line's command and writes its report.
pub fn answer_line<K: Sink, C: Carrier + Drop>(
    alloc: Global,
    setting: &Setting,
    line: u32,
    command: Asked,
    sink: &mut K,
    session: &mut Session<C>,
) -> Result<(), Stop>
    requires ready { IsReady setting.now line session.old.cell }
    requires own { IsOwnAsked setting.now.bits command }
    requires settled { AreSettled session.old }
    ensures dealt { OnOk result (IsDealt setting.now line command session.old.cell session.new.cell) }
    ensures settled { OnOk result (AreSettled session.new) }
    ensures written { OnOk result (Appends (K.written sink.old) (K.written sink.new)
        (report_in setting.now session.old.cell.told line command session.new.cell)) }
    ensures stopped { IfErr result (λ why. StopsAs why setting.now line command session.old.cell session.new.cell
        (K.written sink.old) (K.written sink.new)) }
    ensures count { K.faults sink.old ≤ K.faults sink.new }
    ensures fault { IfErr result (λ why. why ≡ stop.Fault
        → HasRisen K.last (K.faults sink.old) (K.faults sink.new)) }
{
    let answer = session.deal(alloc, setting, line, command)?;
    let bytes = bytes_of(alloc, line, &answer)?;
    write_all(sink, &bytes)?;
    Ok(())
}
