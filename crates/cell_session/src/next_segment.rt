ghost use Rattle.std.specs.Prelude.{◌≡◌, ◌<◌, ◌≤◌, IfOk};
ghost use Rattle.cell_session.specs.SegmentReads.{ReadsSegment, IsCutBy, IsOwnBehind, CausedBehind};
ghost use Rattle.session_segments.specs.Parts.{cuts, AreStill, AreOwn};

use crate::next_command::{Step, next_command};
use doc_types::Schema;
use io_ends::{LineReader, Source};
use line_values::ValueReader;
use session_cluster::asked::Asked;
use std::alloc::Global;
use value_lists::NoMemory;

/// The most lines that are dealt with together.
pub const MOST_TOGETHER: usize = 2_048;

/// The lines of a segment, or as many as are dealt with together, and what comes behind them.
#[derive(Drop)]
pub struct Segment {
    /// What they ask for, in order.
    pub commands: Vec<Asked>,
    /// The line that ends the segment, or how the session ends; nothing where no line more is dealt with together.
    pub next: Option<Step>,
}

/// Whether a line ends its segment: it changes states, nodes, fates or upkeep, or is a barrier.
fn cuts(command: &Asked) -> bool
    ensures { result ≡ cuts command.now }
{
    match command {
        Asked::Blank
        | Asked::TooLong
        | Asked::Bad { .. }
        | Asked::Feed { .. }
        | Asked::Search { .. }
        | Asked::BadQuery { .. } => false,
        Asked::State { .. }
        | Asked::BadState { .. }
        | Asked::Stop { .. }
        | Asked::Start { .. }
        | Asked::Net { .. }
        | Asked::Maintain
        | Asked::Barrier => true,
    }
}

/// The commands of the next lines up to one that ends their segment, and what comes then; no more than are dealt with together.
pub fn next_segment<S: Source>(
    alloc: Global,
    values: &mut ValueReader,
    schema: &Schema,
    bits: u8,
    reader: &mut LineReader,
    source: &mut S,
    line: &mut Vec<u8>,
) -> Result<Segment, NoMemory>
    requires { bits < 8 }
    ensures read { IfOk result (λ segment. ReadsSegment schema.now bits reader.old reader.new (S.left source.old)
        (S.left source.new) segment.commands.items segment.next) }
    ensures still { IfOk result (λ segment. AreStill segment.commands.items) }
    ensures ends { IfOk result (λ segment. IsCutBy segment.commands.items segment.next) }
    ensures own { IfOk result (λ segment. AreOwn bits segment.commands.items × IsOwnBehind bits segment.next) }
    ensures cause { IfOk result (λ segment. CausedBehind segment.next S.last (S.faults source.old)
        (S.faults source.new)) }
    ensures count { S.faults source.old ≤ S.faults source.new }
{
    let mut commands = Vec::new(alloc);
    while commands.len() < MOST_TOGETHER {
        let (number, command) = match next_command(
            alloc, values, schema, bits, reader, source, line,
        ) {
            Step::Command { number, command } => (number, command),
            Step::Over { status } => {
                return Ok(Segment {
                    commands,
                    next: Some(Step::Over { status }),
                });
            }
        };
        if cuts(&command) {
            return Ok(Segment {
                commands,
                next: Some(Step::Command { number, command }),
            });
        }
        commands.push(command)?;
    }
    Ok(Segment {
        commands,
        next: None,
    })
}
