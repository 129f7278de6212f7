ghost use Rattle.std.specs.Prelude.{◌<◌, ◌≤◌, ℕ, List};
ghost use Rattle.io_ends.specs.Reading.{StandsIn, IsNearEnd};
ghost use Rattle.cell_session.specs.Reads.{Advances, EndsRead, Shows, CausedBySource, IsOwnStep, IsOfLine};

use crate::status::Status;
use doc_types::Schema;
use io_ends::{LineReader, Next, Source};
use line_values::ValueReader;
use session_cluster::asked::{Asked, asked_of};
use std::alloc::Global;

/// What comes next in a session.
#[derive(Drop)]
pub enum Step {
    /// The command of the line of this number.
    Command { number: u32, command: Asked },
    /// No further line is dealt with, and the session ends so.
    Over { status: Status },
}

/// The next line's command under a schema in a session of 2^bits lanes, or how the session ends.
pub fn next_command<S: Source>(
    alloc: Global,
    values: &mut ValueReader,
    schema: &Schema,
    bits: u8,
    reader: &mut LineReader,
    source: &mut S,
    line: &mut Vec<u8>,
) -> Step
    requires { bits < 8 }
    ensures advances { Advances reader.old reader.new result }
    ensures shows { (text : List ℕ) → StandsIn text reader.old (S.left source.old)
        → Shows schema.now bits text reader.old result }
    ensures stands { (text : List ℕ) → StandsIn text reader.old (S.left source.old)
        → StandsIn text reader.new (S.left source.new) }
    ensures last { IsNearEnd (S.gave source.old) reader.old.ahead → IsNearEnd (S.gave source.new) reader.new.ahead }
    ensures ends { (text : List ℕ) → StandsIn text reader.old (S.left source.old)
        → IsNearEnd (S.gave source.old) reader.old.ahead → EndsRead (S.gave source.new) text reader.old reader.new result }
    ensures own { IsOwnStep bits result }
    ensures count { S.faults source.old ≤ S.faults source.new }
    ensures cause { CausedBySource result S.last (S.faults source.old) (S.faults source.new) }
{
    match reader.next(source, line) {
        Next::Line { number } => line_command(alloc, values, schema, bits, number, line),
        Next::TooLong { number } => Step::Command {
            number,
            command: Asked::TooLong,
        },
        Next::End => Step::Over {
            status: Status::Done,
        },
        Next::Limit { which } => Step::Over {
            status: Status::Limit { which },
        },
        Next::ReadFault => Step::Over {
            status: Status::ReadFault,
        },
        Next::NoMemory => Step::Over {
            status: Status::NoMemory,
        },
    }
}

/// The command of a line that was read.
fn line_command(
    alloc: Global,
    values: &mut ValueReader,
    schema: &Schema,
    bits: u8,
    number: u32,
    line: &[u8],
) -> Step
    requires { bits < 8 }
    ensures value { IsOfLine schema.now bits result number line.now }
    ensures own { IsOwnStep bits result }
{
    let Ok(command) = asked_of(alloc, values, schema, bits, line) else {
        return Step::Over {
            status: Status::NoMemory,
        };
    };
    Step::Command { number, command }
}
