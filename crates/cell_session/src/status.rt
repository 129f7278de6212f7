ghost use Rattle.std.specs.Prelude.{◌≡◌};
ghost use Rattle.cell_session.specs.StatusNumbers.{status_number};

use io_ends::LimitKind;

/// How a session ended.
#[derive(Clone, Copy, PartialEq, Eq)]
pub enum Status {
    /// The source was read to its end, and every line was answered.
    Done,
    /// The source failed.
    ReadFault,
    /// The words are wrong.
    Usage,
    /// The sink failed.
    WriteFault,
    /// Want of memory.
    NoMemory,
    /// A limit was reached.
    Limit { which: LimitKind },
}

impl Status {
    /// The exit status of the program: 0 to 5 in the order above.
    pub fn number(self) -> u8
        ensures { result ≡ status_number self }
    {
        match self {
            Status::Done => 0,
            Status::ReadFault => 1,
            Status::Usage => 2,
            Status::WriteFault => 3,
            Status::NoMemory => 4,
            Status::Limit { .. } => 5,
        }
    }
}
